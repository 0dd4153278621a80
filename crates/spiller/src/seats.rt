//! The tinies of a place: one for each way of reading the range, and one for each definition of it.

ghost use Rattle.std.specs.Prelude.{◌≡◌, ◌+◌, ℕ, IfOk, OnOk, true, false, ◌&&◌, nat_eq, find, Some, None, Option, option_map, option_and_then, [], ◌∷◌, ◌++◌, map, flat_map, slice_get};
ghost use Rattle.std.specs.List.{cons_option, list_any, AllByRecursion};
ghost use Rattle.mir_func.specs.declared.func.Block.{Block};
ghost use Rattle.mir_func.specs.declared.func.Gap.{Gap};
ghost use Rattle.mir_func.specs.declared.func.Instr.{Instr};
ghost use Rattle.mir_func.specs.Binding.{tied_number, numbered, registers};
ghost use Rattle.mir_meaning.specs.Places.{Variable, each_once};
ghost use Rattle.live_lanes.specs.Looks.{InOrder};
ghost use Rattle.live_lanes.specs.Touching.{FindsInstrs};
ghost use Rattle.spiller.specs.Setting.{is_own};
ghost use Rattle.spiller.specs.Spilled.{as_tiny, own_definition, numbered_operands, change, place_change, place_name};
ghost use Rattle.spiller.specs.Planned.{with_change};
ghost use Rattle.spiller.specs.Placing.{AreTerminators, KnownPlace, Spillable, last_name};
ghost use Rattle.spiller.specs.Reaching.{Facts};
ghost use Rattle.spiller.specs.Readings.{goes_in, source_in};
ghost use Rattle.spiller.specs.Additions.{with_addition, edited, put_into, own_use, own_uses, own_definitions, tied_use, tied_reload_of, tied_reloads, ways_given, definitions_given};
ghost use Rattle.spiller.specs.Seating.{read_tiny, defined_tiny, defined_as, IsGiven, placed, placed_operand, placed_edits, stored_tiny, IsBehind};
ghost use Rattle.spiller.specs.Views.{same_way, named_by, way_of, ways_of, tiny_of_way, tiny_by_number, planned, own_setting, gap_before, gap_behind, spilling_of};

use crate::plan::{Plan, SpillView, op_of};
use crate::remat::{Remat, UseKey};
use crate::roles::{IndexedClass, naming_of, operand_of_range, same_naming};
use mir_func::opcodes::{is_tied, next_role, roles_of, tied_number, ties_to};
use mir_func::{Gap, Instr, Operand, Operands, RegOp};
use phi_elim::moves::{whole_definition, whole_use};
use std::alloc::AllocError;
use target_base::{Boxed, Copied, Role};

/// The tiny of a way of reading the range.
#[derive(Clone, Copy, PartialEq, Eq)]
struct ReadTiny {
    indexed_class: IndexedClass,
    range: u32,
}

/// The tiny of a definition of the range.
#[derive(Clone, Copy, PartialEq, Eq)]
struct DefinedTiny {
    /// The instruction.
    by: u32,
    /// The number of the operand.
    number: usize,
    indexed_class: IndexedClass,
    range: u32,
}

/// The tinies of a place.
#[derive(Drop)]
struct PlaceTinies {
    reads: Vec<ReadTiny>,
    definitions: Vec<DefinedTiny>,
}

/// The first tiny of this way of reading.
fn find_way(reads: &[ReadTiny], indexed_class: IndexedClass) -> Option<ReadTiny>
    ensures { result ≡ find (λ x. same_way indexed_class x.indexed_class) reads.now }
{
    reads
        .iter()
        .copied()
        .find(|tiny| same_naming(indexed_class, tiny.indexed_class))
}

/// The first tiny of the instruction's definition of this number.
fn find_defined(definitions: &[DefinedTiny], by: u32, number: usize) -> Option<DefinedTiny>
    ensures { result ≡ find (λ x. nat_eq x.by by && nat_eq x.number number) definitions.now }
{
    definitions
        .iter()
        .copied()
        .find(|tiny| tiny.by == by && tiny.number == number)
}

/// A tiny, defined or used as the operand is.
fn as_tiny(op: RegOp, range: u32) -> RegOp
    ensures { result ≡ as_tiny op range }
{
    if op.def {
        whole_definition(range)
    } else {
        RegOp {
            undef: op.undef,
            ..whole_use(range)
        }
    }
}

/// The way in which an operand with its role reads the range, unless it is tied.
pub(crate) fn way_of_operand(
    view: SpillView<'_>,
    role: Option<Role>,
    operand: &Operand,
) -> Option<IndexedClass>
    ensures { option_map (way_of view.entry.v) result ≡ own_use view.entry.target.now view.entry.live.now.func view.entry.v (role, operand.now) }
{
    match operand_of_range(view, operand) {
        None => None,
        Some(op) => {
            if op.def || op.undef || is_tied(role) {
                None
            } else {
                Some(naming_of(view, role, &op))
            }
        }
    }
}

/// Whether a way of reading is among these.
fn has_way(ways: &[IndexedClass], way: IndexedClass) -> bool
    ensures { result ≡ list_any (same_way way) ways.now }
{
    ways.iter().any(|other| same_naming(way, *other))
}

/// Adds the way in which an operand with its role reads the range, unless it is there.
#[tactic(auto, using(crate::proofs::Steps::way_rules))]
fn add_way(
    view: SpillView<'_>,
    role: Option<Role>,
    operand: &Operand,
    ways: &mut Vec<IndexedClass>,
) -> Result<(), AllocError>
    ensures { OnOk result (map (way_of view.entry.v) ways.new.items ≡ map (way_of view.entry.v) ways.old.items ++ each_once (map (way_of view.entry.v) ways.old.items) (cons_option (own_use view.entry.target.now view.entry.live.now.func view.entry.v (role, operand.now)) [])) }
{
    let Some(way) = way_of_operand(view, role, operand) else {
        return Ok(());
    };
    if has_way(ways.as_slice(), way) {
        return Ok(());
    }
    ways.push(way)?;
    Ok(())
}

/// Adds the ways in which an instruction reads the range, each once.
#[tactic(auto, using(crate::proofs::Steps::ways_steps))]
pub(crate) fn add_ways(
    view: SpillView<'_>,
    instr: &Instr,
    ways: &mut Vec<IndexedClass>,
) -> Result<(), AllocError>
    ensures { OnOk result (map (way_of view.entry.v) ways.new.items ≡ map (way_of view.entry.v) ways.old.items ++ each_once (map (way_of view.entry.v) ways.old.items) (own_uses view.entry.target.now view.entry.live.now.func view.entry.v instr.now)) }
{
    let mut roles = roles_of(view.target, instr);
    'operands: for operand in instr.operands.as_slice() {
        let (role, behind) = next_role(roles);
        roles = behind;
        add_way(view, role, operand, ways)?;
    }
    Ok(())
}

/// Adds the ways in which instructions read the range, each once.
pub(crate) fn add_all_ways(
    view: SpillView<'_>,
    instrs: &[Boxed<Instr>],
    ways: &mut Vec<IndexedClass>,
) -> Result<(), AllocError>
    ensures { OnOk result (map (way_of view.entry.v) ways.new.items ≡ map (way_of view.entry.v) ways.old.items ++ each_once (map (way_of view.entry.v) ways.old.items) (flat_map (own_uses view.entry.target.now view.entry.live.now.func view.entry.v) instrs.now)) }
{
    'instrs: for instr in instrs {
        add_ways(view, instr.get(), ways)?;
    }
    Ok(())
}

/// The tiny of a definition of the range that an operand of that number is.
fn definition_in(
    view: SpillView<'_>,
    instr: &Instr,
    number: usize,
    role: Option<Role>,
    operand: &Operand,
) -> Option<IndexedClass>
    ensures { option_map (defined_as instr.now number) result ≡ own_definition (own_setting view.entry) instr.now (number, (role, operand.now)) }
{
    match operand_of_range(view, operand) {
        Some(op) if op.def => Some(naming_of(view, role, &op)),
        _ => None,
    }
}

/// The use of the range that is tied to the definition of that number, where an operand with this role
/// is it.
fn tied_use(
    view: SpillView<'_>,
    number: usize,
    role: Option<Role>,
    operand: &Operand,
) -> Option<RegOp>
    ensures { result ≡ tied_use view.entry.v number (role, operand.now) }
{
    match operand_of_range(view, operand) {
        Some(op) if ties_to(role, number) && !op.undef => Some(op),
        _ => None,
    }
}

/// Gives a way of reading its tiny, with the value, before the place of that name.
fn give_way(
    view: SpillView<'_>,
    at: u32,
    way: IndexedClass,
    remat: &Remat,
    plan: &mut Plan,
) -> Result<ReadTiny, AllocError>
    ensures tiny { IfOk result (λ r. r ≡ read_tiny (plan.old.next_range, way_of view.entry.v way)) }
    ensures range { OnOk result (plan.new.next_range ≡ plan.old.next_range + 1) }
    ensures plan { FindsInstrs view.entry.live.now.table view.entry.live.now.func.blocks
        → (sources : Variable → Option Instr) → IsGiven view.entry.live.now.func (source_in remat.now) at sources (way_of view.entry.v way)
        → OnOk result (planned plan.new ≡ with_addition (ways_given (own_setting view.entry) (gap_before view.entry at) at sources ((plan.old.next_range, way_of view.entry.v way) ∷ [])) (planned plan.old)) }
{
    let range = plan.tiny(way.class, at)?;
    let key = UseKey {
        at,
        indexed_class: Some(way),
    };
    let gap = view.gap_before(at);
    let register = whole_definition(range);
    match remat.source(key) {
        Some(source) => plan.put_repeated(view, source, gap, register)?,
        None => plan.put_reload(view, gap, way.class, register, way.index)?,
    }
    Ok(ReadTiny {
        indexed_class: way,
        range,
    })
}

/// Gives ways of reading their tinies, with the values, before the place of that name.
fn give_ways(
    view: SpillView<'_>,
    at: u32,
    ways: &[IndexedClass],
    remat: &Remat,
    plan: &mut Plan,
) -> Result<Vec<ReadTiny>, AllocError>
    ensures tinies { IfOk result (λ xs. xs.items ≡ map read_tiny (numbered plan.old.next_range (map (way_of view.entry.v) ways.now))) }
    ensures plan { FindsInstrs view.entry.live.now.table view.entry.live.now.func.blocks
        → (sources : Variable → Option Instr) → AllByRecursion (IsGiven view.entry.live.now.func (source_in remat.now) at sources) (map (way_of view.entry.v) ways.now)
        → OnOk result (planned plan.new ≡ with_addition (ways_given (own_setting view.entry) (gap_before view.entry at) at sources (numbered plan.old.next_range (map (way_of view.entry.v) ways.now))) (planned plan.old)) }
{
    let mut reads = Vec::with_capacity(view.alloc, ways.len())?;
    'ways: for way in ways {
        reads.push(give_way(view, at, *way, remat, plan)?)?;
    }
    Ok(reads)
}

/// The id of the first of these instructions, which names their place.
pub(crate) fn place_name(instrs: &[Boxed<Instr>]) -> u32
    ensures { result ≡ place_name instrs.now }
{
    match instrs {
        [] => 0,
        [first, ..] => first.get().id,
    }
}

/// The id of the last of these instructions.
fn last_name(instrs: &[Boxed<Instr>]) -> u32
    ensures { result ≡ last_name instrs.now }
{
    match instrs {
        [] => 0,
        [.., last] => last.get().id,
    }
}

/// Changes the place of one instruction.
pub(crate) fn change_instr(
    view: SpillView<'_>,
    instr: &Instr,
    remat: &Remat,
    plan: &mut Plan,
) -> Result<(), AllocError>
    ensures { (facts : Facts) (gap : Gap) → KnownPlace view.entry facts (source_in remat.now) (instr.now ∷ []) instr.now.id gap
        → OnOk result (planned plan.new ≡ with_change (spilling_of view.entry view.entry.slot facts) (gap_before view.entry instr.now.id) gap (instr.now ∷ []) (place_change (spilling_of view.entry view.entry.slot facts) plan.old.next_range (instr.now ∷ [])) (planned plan.old)) }
{
    let mut ways = Vec::new(view.alloc);
    add_ways(view, instr, &mut ways)?;
    let reads = give_ways(view, instr.id, ways.as_slice(), remat, plan)?;
    let mut tinies = PlaceTinies::new(view, reads);
    tinies.define(view, instr.id, instr, plan)?;
    tinies.seat(view, instr, plan)?;
    tinies.store_all(view, instr.id, plan)
}

/// Changes the place of the terminators of a block.
pub(crate) fn change_terminators(
    view: SpillView<'_>,
    instrs: &[Boxed<Instr>],
    remat: &Remat,
    plan: &mut Plan,
) -> Result<(), AllocError>
    ensures place { (facts : Facts) (gap : Gap) → KnownPlace view.entry facts (source_in remat.now) instrs.now (last_name instrs.now) gap
        → OnOk result (planned plan.new ≡ with_change (spilling_of view.entry view.entry.slot facts) (gap_before view.entry (place_name instrs.now)) gap instrs.now (place_change (spilling_of view.entry view.entry.slot facts) plan.old.next_range instrs.now) (planned plan.old)) }
    ensures terminators { (facts : Facts) → Spillable view.entry facts (source_in remat.now) (goes_in remat.now)
        → (p : ℕ) (b : Block) → slice_get view.entry.live.now.func.blocks p ≡ Some b → AreTerminators view.entry.target.now b instrs.now
        → OnOk result (planned plan.new ≡ with_change (spilling_of view.entry view.entry.slot facts) (gap_before view.entry (place_name instrs.now)) (gap_behind b None) instrs.now (change (spilling_of view.entry view.entry.slot facts) plan.old.next_id plan.old.next_range instrs.now) (planned plan.old)) }
{
    let at = place_name(instrs);
    let mut ways = Vec::new(view.alloc);
    add_all_ways(view, instrs, &mut ways)?;
    let reads = give_ways(view, at, ways.as_slice(), remat, plan)?;
    let mut tinies = PlaceTinies::new(view, reads);
    tinies.define_all(view, at, instrs, plan)?;
    tinies.seat_all(view, instrs, plan)?;
    tinies.store_all(view, last_name(instrs), plan)
}

impl PlaceTinies {
    /// The tinies of ways of reading, and none of definitions.
    fn new(view: SpillView<'_>, reads: Vec<ReadTiny>) -> PlaceTinies
        ensures reads { result.reads ≡ reads }
        ensures definitions { result.definitions.items ≡ [] }
    {
        PlaceTinies {
            reads,
            definitions: Vec::new(view.alloc),
        }
    }

    /// Gives each definition of the range by instructions its tiny, with the value of the use that is
    /// tied to it, before the place of that name.
    fn define_all(
        &mut self,
        view: SpillView<'_>,
        at: u32,
        instrs: &[Boxed<Instr>],
        plan: &mut Plan,
    ) -> Result<(), AllocError>
        ensures reads { OnOk result (self.new.reads ≡ self.old.reads) }
        ensures tinies { OnOk result (self.new.definitions.items ≡ self.old.definitions.items ++ map defined_tiny (numbered plan.old.next_range (flat_map (own_definitions (own_setting view.entry)) instrs.now))) }
        ensures plan { OnOk result (planned plan.new ≡ with_addition (definitions_given (own_setting view.entry) (gap_before view.entry at) at (numbered plan.old.next_range (flat_map (own_definitions (own_setting view.entry)) instrs.now))) (planned plan.old)) }
    {
        'instrs: for instr in instrs {
            self.define(view, at, instr.get(), plan)?;
        }
        Ok(())
    }

    /// Gives each definition of the range by an instruction its tiny, with the value of the use that
    /// is tied to it, before the place of that name.
    fn define(
        &mut self,
        view: SpillView<'_>,
        at: u32,
        instr: &Instr,
        plan: &mut Plan,
    ) -> Result<(), AllocError>
        ensures reads { OnOk result (self.new.reads ≡ self.old.reads) }
        ensures tinies { OnOk result (self.new.definitions.items ≡ self.old.definitions.items ++ map defined_tiny (numbered plan.old.next_range (own_definitions (own_setting view.entry) instr.now))) }
        ensures plan { OnOk result (planned plan.new ≡ with_addition (definitions_given (own_setting view.entry) (gap_before view.entry at) at (numbered plan.old.next_range (own_definitions (own_setting view.entry) instr.now))) (planned plan.old)) }
    {
        let mut roles = roles_of(view.target, instr);
        'operands: for (number, operand) in instr.operands.as_slice().iter().enumerate() {
            let (role, behind) = next_role(roles);
            roles = behind;
            self.define_operand(view, at, instr, (number, role, operand), plan)?;
        }
        Ok(())
    }

    /// Gives the definition of the range that an operand of that number is its tiny, with the value of
    /// the use that is tied to it, before the place of that name.
    fn define_operand(
        &mut self,
        view: SpillView<'_>,
        at: u32,
        instr: &Instr,
        bound: (usize, Option<Role>, &Operand),
        plan: &mut Plan,
    ) -> Result<(), AllocError>
        ensures reads { OnOk result (self.new.reads ≡ self.old.reads) }
        ensures tinies { OnOk result (self.new.definitions.items ≡ self.old.definitions.items ++ map defined_tiny (numbered plan.old.next_range (cons_option (own_definition (own_setting view.entry) instr.now (bound.entry.0, (bound.entry.1, bound.entry.2.now))) []))) }
        ensures plan { OnOk result (planned plan.new ≡ with_addition (definitions_given (own_setting view.entry) (gap_before view.entry at) at (numbered plan.old.next_range (cons_option (own_definition (own_setting view.entry) instr.now (bound.entry.0, (bound.entry.1, bound.entry.2.now))) []))) (planned plan.old)) }
    {
        let (number, role, operand) = bound;
        let Some(name) = definition_in(view, instr, number, role, operand) else {
            return Ok(());
        };
        let tiny = give_definition(view, at, instr, number, name, plan)?;
        self.definitions.push(tiny)?;
        Ok(())
    }

    /// The tiny of a way of reading.
    fn tiny_read(&self, indexed_class: IndexedClass) -> Option<u32>
        ensures { (v : ℕ) → result ≡ tiny_of_way v indexed_class (ways_of v self.now.reads.items) }
    {
        match find_way(self.reads.as_slice(), indexed_class) {
            None => None,
            Some(tiny) => Some(tiny.range),
        }
    }

    /// The tiny of an instruction's definition, where this is one of the range.
    fn tiny_defined(&self, by: u32, number: usize) -> Option<u32>
        ensures { result ≡ tiny_by_number self.now.definitions.items by number }
    {
        match find_defined(self.definitions.as_slice(), by, number) {
            None => None,
            Some(tiny) => Some(tiny.range),
        }
    }

    /// The tiny of a use.
    fn tiny_used(&self, view: SpillView<'_>, by: u32, role: Option<Role>, op: &RegOp) -> Option<u32>
        ensures tied { (n : ℕ) → option_and_then tied_number role ≡ Some n → result ≡ tiny_by_number self.now.definitions.items by n }
        ensures undefined { option_and_then tied_number role ≡ None → op.now.undef ≡ true → result ≡ None }
        ensures read { option_and_then tied_number role ≡ None → op.now.undef ≡ false → result ≡ tiny_of_way view.entry.v (named_by view.entry role op.now) (ways_of view.entry.v self.now.reads.items) }
    {
        match tied_number(role) {
            Some(number) => self.tiny_defined(by, number),
            None => {
                if op.undef {
                    return None;
                }
                self.tiny_read(naming_of(view, role, op))
            }
        }
    }

    /// Puts tinies in place of the range.
    fn seat_all(
        &self,
        view: SpillView<'_>,
        instrs: &[Boxed<Instr>],
        plan: &mut Plan,
    ) -> Result<(), AllocError>
        ensures { OnOk result (planned plan.new ≡ with_addition (edited (flat_map (placed_edits (own_setting view.entry) self.now.reads.items self.now.definitions.items) instrs.now)) (planned plan.old)) }
    {
        'instrs: for instr in instrs {
            self.seat(view, instr.get(), plan)?;
        }
        Ok(())
    }

    /// Puts tinies in place of the range, where the instruction names it.
    fn seat(&self, view: SpillView<'_>, instr: &Instr, plan: &mut Plan) -> Result<(), AllocError>
        ensures { OnOk result (planned plan.new ≡ with_addition (edited (placed_edits (own_setting view.entry) self.now.reads.items self.now.definitions.items instr.now)) (planned plan.old)) }
    {
        if !names(view, instr.operands.as_slice()) {
            return Ok(());
        }
        let operands = self.placed_operands(view, instr)?;
        plan.replace(instr.id, op_of(instr), operands)
    }

    /// The operands of an instruction with tinies in place of the range.
    #[tactic(auto, using(crate::proofs::Steps::placed_steps))]
    fn placed_operands(&self, view: SpillView<'_>, instr: &Instr) -> Result<Operands, AllocError>
        ensures { IfOk result (λ os. os ≡ map (placed_operand (own_setting view.entry) self.now.reads.items self.now.definitions.items instr.now.id) (numbered_operands view.entry.target.now instr.now)) }
    {
        let mut operands = Operands::new(view.alloc);
        let mut roles = roles_of(view.target, instr);
        'operands: for (number, operand) in instr.operands.as_slice().iter().enumerate() {
            let (role, behind) = next_role(roles);
            roles = behind;
            operands.push(self.placed_operand(view, instr.id, number, role, operand)?)?;
        }
        Ok(operands)
    }

    /// An operand with its tiny in place of the range.
    fn placed_operand(
        &self,
        view: SpillView<'_>,
        by: u32,
        number: usize,
        role: Option<Role>,
        operand: &Operand,
    ) -> Result<Operand, AllocError>
        ensures { IfOk result (λ o. o ≡ placed_operand (own_setting view.entry) self.now.reads.items self.now.definitions.items by (number, (role, operand.now))) }
    {
        match operand_of_range(view, operand) {
            Some(op) => Ok(Operand::Reg(self.placed(view, by, number, role, op))),
            None => operand.copied(view.alloc),
        }
    }

    /// An operand of the range with its tiny in place of it. One without a tiny stays.
    fn placed(
        &self,
        view: SpillView<'_>,
        by: u32,
        number: usize,
        role: Option<Role>,
        op: RegOp,
    ) -> RegOp
        ensures { result ≡ placed (own_setting view.entry) self.now.reads.items self.now.definitions.items by number role op }
    {
        let tiny = if op.def {
            self.tiny_defined(by, number)
        } else {
            self.tiny_used(view, by, role, &op)
        };
        match tiny {
            Some(range) => as_tiny(op, range),
            None => op,
        }
    }

    /// Puts the stores of definitions behind the place, where a lane of them is live behind its
    /// instruction.
    fn store_all(&self, view: SpillView<'_>, last: u32, plan: &mut Plan) -> Result<(), AllocError>
        ensures { InOrder view.entry.live.now.table → (gap : Gap) → IsBehind view.entry last gap
            → OnOk result (planned plan.new ≡ with_addition (put_into (own_setting view.entry) gap (flat_map (stored_tiny (own_setting view.entry)) self.now.definitions.items)) (planned plan.old)) }
    {
        self.put_stores(view, view.gap_behind(last), plan)
    }

    /// Puts the stores of definitions into a gap.
    fn put_stores(&self, view: SpillView<'_>, gap: Gap, plan: &mut Plan) -> Result<(), AllocError>
        ensures { InOrder view.entry.live.now.table → OnOk result (planned plan.new ≡ with_addition (put_into (own_setting view.entry) gap (flat_map (stored_tiny (own_setting view.entry)) self.now.definitions.items)) (planned plan.old)) }
    {
        'definitions: for tiny in &self.definitions {
            store_tiny(view, gap, *tiny, plan)?;
        }
        Ok(())
    }
}

/// Puts the store of a definition into a gap, where a lane of it is live behind the instruction.
fn store_tiny(
    view: SpillView<'_>,
    gap: Gap,
    tiny: DefinedTiny,
    plan: &mut Plan,
) -> Result<(), AllocError>
    ensures { InOrder view.entry.live.now.table → OnOk result (planned plan.new ≡ with_addition (put_into (own_setting view.entry) gap (stored_tiny (own_setting view.entry) tiny)) (planned plan.old)) }
{
    let IndexedClass { index, class } = tiny.indexed_class;
    if !view.is_live_behind(index, tiny.by) {
        return Ok(());
    }
    plan.put_store(view, gap, class, whole_use(tiny.range), index)
}

/// Gives a definition of the range its tiny, with the value of the use that is tied to it, before the
/// place of that name.
fn give_definition(
    view: SpillView<'_>,
    at: u32,
    instr: &Instr,
    number: usize,
    name: IndexedClass,
    plan: &mut Plan,
) -> Result<DefinedTiny, AllocError>
    ensures tiny { IfOk result (λ x. x ≡ defined_tiny (plan.old.next_range, defined_as instr.now number name)) }
    ensures plan { OnOk result (planned plan.new ≡ with_addition (definitions_given (own_setting view.entry) (gap_before view.entry at) at ((plan.old.next_range, defined_as instr.now number name) ∷ [])) (planned plan.old)) }
{
    let tiny = DefinedTiny {
        by: instr.id,
        number,
        indexed_class: name,
        range: plan.tiny(name.class, at)?,
    };
    reload_tied(view, view.gap_before(at), instr, tiny, plan)?;
    Ok(tiny)
}

/// Reloads the use that is tied to a definition into its tiny, in a gap.
#[tactic(auto, using(crate::proofs::Steps::reload_steps))]
fn reload_tied(
    view: SpillView<'_>,
    gap: Gap,
    instr: &Instr,
    tiny: DefinedTiny,
    plan: &mut Plan,
) -> Result<(), AllocError>
    ensures { OnOk result (planned plan.new ≡ with_addition (put_into (own_setting view.entry) gap (tied_reloads (own_setting view.entry) (tiny.range, defined_as instr.now tiny.number tiny.indexed_class))) (planned plan.old)) }
{
    let mut roles = roles_of(view.target, instr);
    'operands: for operand in instr.operands.as_slice() {
        let (role, behind) = next_role(roles);
        roles = behind;
        reload_use(view, gap, tiny, role, operand, plan)?;
    }
    Ok(())
}

/// Reloads an operand with its role into the tiny of a definition, in a gap, where it is a use that is
/// tied to it.
fn reload_use(
    view: SpillView<'_>,
    gap: Gap,
    tiny: DefinedTiny,
    role: Option<Role>,
    operand: &Operand,
    plan: &mut Plan,
) -> Result<(), AllocError>
    ensures { OnOk result (planned plan.new ≡ with_addition (put_into (own_setting view.entry) gap (map (tied_reload_of (own_setting view.entry) tiny.range tiny.indexed_class.class) (cons_option (tied_use view.entry.v tiny.number (role, operand.now)) []))) (planned plan.old)) }
{
    let Some(op) = tied_use(view, tiny.number, role, operand) else {
        return Ok(());
    };
    let register = whole_definition(tiny.range);
    plan.put_reload(view, gap, tiny.indexed_class.class, register, op.index)
}

/// Whether one of the operands names the range.
fn names(view: SpillView<'_>, operands: &[Operand]) -> bool
    ensures { result ≡ list_any (is_own (own_setting view.entry)) (registers operands.now) }
{
    'operands: for operand in operands {
        if operand_of_range(view, operand).is_some() {
            return true;
        }
    }
    false
}
