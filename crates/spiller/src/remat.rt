//! Which readings of a range are rematerialised: the instruction that defines it is repeated in
//! place of a reload.

ghost use Rattle.std.specs.Prelude.{◌≡◌, ◌&&◌, ◌||◌, nat_eq, ◌++◌, ◌∷◌, [], ℕ, Bool, List, Some, None, false, true, find, cond, map, filter, flat_map, is_some, option_map, option_and_then, slice_get, IfOk, OnOk};
ghost use Rattle.std.specs.Ordering.{nat_cmp};
ghost use Rattle.std.specs.BTreeMap.{get};
ghost use Rattle.std.specs.List.{list_any, cons_option, AllByRecursion};
ghost use Rattle.mir_func.specs.declared.func.Block.{Block};
ghost use Rattle.mir_func.specs.declared.func.Instr.{Instr};
ghost use Rattle.live_lanes.specs.Touching.{AreTouched, FindsInstrs};
ghost use Rattle.spiller.specs.MaySpill.{MaySpill};
ghost use Rattle.target_base.specs.Storage.{is_within};
ghost use Rattle.target_base.specs.declared.types.Effect.TheVariants as effects;
ghost use Rattle.mir_func.specs.Binding.{does, effect_of, is_terminator, register_at, tied_number};
ghost use Rattle.mir_meaning.specs.Paths.{has};
ghost use Rattle.mir_meaning.specs.Places.{same_use};
ghost use Rattle.mir_meaning.specs.Registers.{numbers};
ghost use Rattle.spiller.specs.Additions.{own_use, own_uses};
ghost use Rattle.spiller.specs.Listed.{IsToldBy, Lists, ListsOne, TestsNeedless, TestsOne, keyed_by, keyed_copy, keyed_effect, keyed_move, keyed_operands, keyed_readings, keyed_tied_uses, keyed_uses, keyed_way, place_at, readers, tied_own, told_sources};
ghost use Rattle.spiller.specs.Placing.{IsPlainForm};
ghost use Rattle.spiller.specs.Planned.{TellsRemat, copy_key, way_key};
ghost use Rattle.spiller.specs.Reaching.{Facts, AreFacts};
ghost use Rattle.spiller.specs.Readings.{same_ways, same_key, source_in, goes_in, placed_at, reached_by, sources_at, reaches_use, needs_value, is_only_repeated, alone, reached_by_constant, IsReading, AreDefinitions, TellConstants};
ghost use Rattle.spiller.specs.Rematerialised.{is_constant, definition_class, whole_class, repeatable_class, serves, if_whole, copy_wish, Within, Reading, repeated_for};
ghost use Rattle.spiller.specs.Setting.{is_own, own_lanes};
ghost use Rattle.spiller.specs.Views.{spilling_of, wish_of, way_of};
ghost use Rattle.spiller.specs.Walks.{lists};

use crate::ends::ends_at;
use crate::plan::SpillView;
use crate::reaching::{Definition, LaneReading, definitions_of};
use crate::roles::{IndexedClass, operand_of_range, same_naming};
use crate::seats::{add_all_ways, add_ways, place_name, way_of_operand};
use mir_func::opcodes::{effect_of, is_terminator, next_role, roles_of, tied_number};
use mir_func::operands::register_at;
use mir_func::{Instr, Loc, Operand, RegOp};
use std::alloc::{AllocError, Global};
use std::collections::{BTreeMap, BTreeSet};
use target_base::classes::{are_within, class_of, holds, is_spill};
use target_base::roles::is_copy;
use target_base::{Boxed, ClassId, Effect, IndexId, Reg, Role, Target};

/// What a reading asks of the instruction that is repeated for it.
#[derive(Clone, Copy, PartialEq, Eq)]
enum RematConstraint {
    /// It can't be rematerialised.
    Never,
    /// Its class holds all registers of this one.
    Class(Option<ClassId>),
    /// This register lies in its class.
    Fixed(Reg),
}

/// The readings of an operand at a place.
#[derive(Clone, Copy, PartialEq, Eq)]
pub(crate) struct UseKey {
    /// The instruction, or the first terminator.
    pub at: u32,
    /// How the operand names the range; none for the source of a copy or a store and for tied uses.
    pub indexed_class: Option<IndexedClass>,
}

/// What a reading asks.
#[derive(Clone, Copy, PartialEq, Eq)]
struct RematDemand {
    key: UseKey,
    /// The index that picks the lanes that are read.
    index: Option<IndexId>,
    wish: RematConstraint,
}

/// A reading of the range.
#[derive(Drop)]
struct RematUse {
    demand: RematDemand,
    /// The instructions that read so.
    by: Vec<u32>,
    /// The definition whose instruction is repeated for it.
    source: Option<u32>,
}

/// The definition whose instruction is repeated for a reading.
#[derive(Clone, Copy, PartialEq, Eq)]
struct RematSource {
    key: UseKey,
    id: u32,
}

/// What is rematerialised.
#[derive(Drop)]
pub(crate) struct Remat {
    /// What is repeated for readings, by the names of their places.
    sources: BTreeMap<u32, Vec<RematSource>>,
    /// The definitions that go, by their ids.
    deleted: BTreeSet<u32>,
}

/// Whether both name a way of reading alike, or neither names one.
fn same_ways(a: Option<IndexedClass>, b: Option<IndexedClass>) -> bool
    ensures { result ≡ same_ways a b }
{
    match (a, b) {
        (None, None) => true,
        (Some(a), Some(b)) => same_naming(a, b),
        _ => false,
    }
}

/// Whether two readings are one.
fn same_key(a: UseKey, b: UseKey) -> bool
    ensures { result ≡ same_key a b }
{
    a.at == b.at && same_ways(a.indexed_class, b.indexed_class)
}

/// The first of these that is for a reading.
fn find_source(sources: &[RematSource], key: UseKey) -> Option<RematSource>
    ensures { result ≡ find (λ s. same_key key s.key) sources.now }
{
    sources
        .iter()
        .copied()
        .find(|source| same_key(key, source.key))
}

impl Remat {
    /// The definition whose instruction is repeated for a reading.
    pub fn source(&self, key: UseKey) -> Option<u32>
        ensures { result ≡ source_in self.now key }
    {
        match find_source(self.sources_at(key.at), key) {
            None => None,
            Some(source) => Some(source.id),
        }
    }

    /// What is repeated for the readings at a place.
    fn sources_at(&self, at: u32) -> &[RematSource]
        ensures { result.now ≡ sources_at self.now.sources at }
    {
        match self.sources.get(&at) {
            None => &[],
            Some(list) => list.as_slice(),
        }
    }

    /// Whether a definition goes.
    pub fn is_deleted(&self, id: u32) -> bool
        ensures { result ≡ goes_in self.now id }
    {
        self.deleted.contains(&id)
    }
}

/// Whether an instruction of this effect loads a constant or an address.
fn is_constant(effect: Effect) -> bool
    ensures { result ≡ is_constant effect }
{
    match effect {
        Effect::Const | Effect::Addr => true,
        _ => false,
    }
}

/// Whether an instruction loads a constant or an address, and so can be repeated.
fn is_repeatable(target: &Target, instr: &Instr) -> bool
    ensures { result ≡ does is_constant target.now instr.now }
{
    match effect_of(target, instr) {
        None => false,
        Some(effect) => is_constant(effect),
    }
}

/// Plans what is rematerialised of the range.
pub(crate) fn plan_remat(view: SpillView<'_>, touched: &[u32]) -> Result<Remat, AllocError>
    ensures { IfOk result (λ r. (facts : Facts) → MaySpill view.entry.target.now view.entry.live.now.func view.entry.live.now.table view.entry.v → AreTouched view.entry.live.now.table view.entry.v touched.now
        → AreFacts view.entry.target.now view.entry.live.now.func view.entry.v facts → TellsRemat (spilling_of view.entry view.entry.slot facts) (source_in r) (goes_in r)) }
{
    if !has_repeatable(view, touched) {
        return Ok(no_remat(view));
    }
    plan_repeated(view, touched)
}

/// Nothing is rematerialised.
fn no_remat(view: SpillView<'_>) -> Remat
    ensures sources { result.sources.entries ≡ [] }
    ensures deleted { result.deleted.keys ≡ [] }
{
    Remat {
        sources: BTreeMap::new(view.alloc),
        deleted: BTreeSet::new(view.alloc),
    }
}

/// The same where some instruction that touches the range can be repeated.
fn plan_repeated(view: SpillView<'_>, touched: &[u32]) -> Result<Remat, AllocError>
    ensures { IfOk result (λ r. (slot : ℕ) (facts : Facts) → MaySpill view.entry.target.now view.entry.live.now.func view.entry.live.now.table view.entry.v → AreTouched view.entry.live.now.table view.entry.v touched.now → AreFacts view.entry.target.now view.entry.live.now.func view.entry.v facts
        → TellsRemat (spilling_of view.entry slot facts) (source_in r) (goes_in r)) }
{
    let definitions = definitions_of(view, touched)?;
    remat_for(view, touched, definitions.as_slice())
}

/// What is rematerialised, by the readings that definitions reach.
fn remat_for(
    view: SpillView<'_>,
    touched: &[u32],
    definitions: &[Definition],
) -> Result<Remat, AllocError>
    ensures { IfOk result (λ r. map (λ d. d.id) definitions.now ≡ touched.now → IsToldBy view.entry touched.now definitions.now → TellConstants view.entry.target.now view.entry.live.now.func view.entry.live.now.table definitions.now → (slot : ℕ) (facts : Facts) → MaySpill view.entry.target.now view.entry.live.now.func view.entry.live.now.table view.entry.v → AreTouched view.entry.live.now.table view.entry.v touched.now
        → AreFacts view.entry.target.now view.entry.live.now.func view.entry.v facts → TellsRemat (spilling_of view.entry slot facts) (source_in r) (goes_in r)) }
{
    let readings = readings_of(view, definitions, touched)?;
    remat_of(view, definitions, readings.as_slice())
}

/// What is rematerialised, by readings with their sources.
fn remat_of(
    view: SpillView<'_>,
    definitions: &[Definition],
    readings: &[RematUse],
) -> Result<Remat, AllocError>
    ensures sources { IfOk result (λ r. (n : ℕ) → sources_at r.sources n ≡ placed_at n (flat_map told_sources readings.now)) }
    ensures deleted { IfOk result (λ r. (slot : ℕ) (facts : Facts) (test : ℕ → Bool) → FindsInstrs view.entry.live.now.table view.entry.live.now.func.blocks → TestsNeedless (spilling_of view.entry slot facts) definitions.now readings.now test → (n : ℕ) → has n r.deleted.keys ≡ has n (filter test (map (λ d. d.id) definitions.now))) }
{
    Ok(Remat {
        sources: sources_of(view, readings)?,
        deleted: deleted_of(view, definitions, readings)?,
    })
}

/// Whether an instruction that touches the range can be repeated.
fn has_repeatable(view: SpillView<'_>, touched: &[u32]) -> bool
    ensures { result ≡ false → FindsInstrs view.entry.live.now.table view.entry.live.now.func.blocks → (p j : ℕ) (b : Block) (i : Instr) → slice_get view.entry.live.now.func.blocks p ≡ Some b → slice_get b.instrs j ≡ Some i → has i.id touched.now ≡ true → does is_constant view.entry.target.now i ≡ false }
{
    'touched: for id in touched {
        if is_repeatable_id(view, *id) {
            return true;
        }
    }
    false
}

/// The readings of the range, each with the definition that is repeated for it.
fn readings_of(
    view: SpillView<'_>,
    definitions: &[Definition],
    touched: &[u32],
) -> Result<Vec<RematUse>, AllocError>
    ensures { IfOk result (λ us. MaySpill view.entry.target.now view.entry.live.now.func view.entry.live.now.table view.entry.v → AreTouched view.entry.live.now.table view.entry.v touched.now → Lists view.entry definitions.now (keyed_by view.entry touched.now) [] us.items) }
{
    let mut readings = Vec::new(view.alloc);
    'touched: for id in touched {
        add_touched(view, definitions, *id, &mut readings)?;
    }
    Ok(readings)
}

/// Lists the readings of the place of an instruction. (Those of terminators are listed again for each
/// of them that touches the range.)
fn add_touched(
    view: SpillView<'_>,
    definitions: &[Definition],
    id: u32,
    readings: &mut Vec<RematUse>,
) -> Result<(), AllocError>
    ensures { (b : Block) (p j : ℕ) (i : Instr) → MaySpill view.entry.target.now view.entry.live.now.func view.entry.live.now.table view.entry.v → slice_get view.entry.live.now.func.blocks p ≡ Some b → slice_get b.instrs j ≡ Some i → i.id ≡ id
        → OnOk result (Lists view.entry definitions.now (λ s. keyed_readings s (place_at view.entry.target.now b i)) readings.old.items readings.new.items) }
{
    match view.live.instr(id) {
        None => Ok(()),
        Some(instr) => {
            if is_terminator(view.target, instr) {
                add_ends(view, definitions, ends_at(view, id), readings)
            } else {
                add_single(view, definitions, instr, readings)
            }
        }
    }
}

/// Lists the readings by one instruction, which is a place by itself.
fn add_single(
    view: SpillView<'_>,
    definitions: &[Definition],
    instr: &Instr,
    readings: &mut Vec<RematUse>,
) -> Result<(), AllocError>
    ensures { IsPlainForm instr.now → OnOk result (Lists view.entry definitions.now (λ s. keyed_effect s instr.now (effect_of view.entry.target.now instr.now) instr.now.operands) readings.old.items readings.new.items) }
{
    match effect_of(view.target, instr) {
        None => add_instr(view, definitions, instr, readings),
        Some(effect) => add_by_effect(view, definitions, instr, effect, readings),
    }
}

/// Lists the readings by an instruction of this effect.
fn add_by_effect(
    view: SpillView<'_>,
    definitions: &[Definition],
    instr: &Instr,
    effect: Effect,
    readings: &mut Vec<RematUse>,
) -> Result<(), AllocError>
    ensures { IsPlainForm instr.now → OnOk result (Lists view.entry definitions.now (λ s. keyed_effect s instr.now (Some effect) instr.now.operands) readings.old.items readings.new.items) }
{
    if is_copy(effect) {
        return add_copies(view, definitions, instr, readings);
    }
    if is_spill(effect) {
        return add_stores(view, definitions, instr, readings);
    }
    add_instr(view, definitions, instr, readings)
}

/// Lists the readings by a copy.
fn add_copies(
    view: SpillView<'_>,
    definitions: &[Definition],
    instr: &Instr,
    readings: &mut Vec<RematUse>,
) -> Result<(), AllocError>
    ensures { IsPlainForm instr.now → OnOk result (Lists view.entry definitions.now (λ s. keyed_effect s instr.now (Some effects.Copy) instr.now.operands) readings.old.items readings.new.items) }
{
    match register_at(instr.operands.as_slice(), 0) {
        None => add_instr(view, definitions, instr, readings),
        Some(to) => add_copied(view, definitions, instr, &to, readings),
    }
}

/// Lists the readings by a copy to this register.
fn add_copied(
    view: SpillView<'_>,
    definitions: &[Definition],
    instr: &Instr,
    to: &RegOp,
    readings: &mut Vec<RematUse>,
) -> Result<(), AllocError>
    ensures { register_at instr.now.operands 0 ≡ Some to.now → IsPlainForm instr.now → OnOk result (Lists view.entry definitions.now (λ s. keyed_effect s instr.now (Some effects.Copy) instr.now.operands) readings.old.items readings.new.items) }
{
    match register_at(instr.operands.as_slice(), 1) {
        None => add_instr(view, definitions, instr, readings),
        Some(from) => add_copy(view, definitions, instr, to, &from, readings),
    }
}

/// Lists the readings by a store to a slot.
fn add_stores(
    view: SpillView<'_>,
    definitions: &[Definition],
    instr: &Instr,
    readings: &mut Vec<RematUse>,
) -> Result<(), AllocError>
    ensures { IsPlainForm instr.now → OnOk result (Lists view.entry definitions.now (λ s. keyed_effect s instr.now (Some effects.Spill) instr.now.operands) readings.old.items readings.new.items) }
{
    match register_at(instr.operands.as_slice(), 0) {
        None => add_instr(view, definitions, instr, readings),
        Some(from) => add_store(view, definitions, instr, &from, readings),
    }
}

/// Lists a reading by these instructions, with the definition that is repeated for it.
fn add_reading(
    view: SpillView<'_>,
    definitions: &[Definition],
    demand: RematDemand,
    by: Vec<u32>,
    readings: &mut Vec<RematUse>,
) -> Result<(), AllocError>
    ensures { OnOk result (ListsOne view.entry definitions.now demand by.items readings.old.items readings.new.items) }
{
    let mut reading = RematUse {
        demand,
        by,
        source: None,
    };
    reading.source = source_of(view, definitions, &reading);
    readings.push(reading)?;
    Ok(())
}

/// Lists a reading by one instruction.
fn add_lone(
    view: SpillView<'_>,
    definitions: &[Definition],
    demand: RematDemand,
    by: u32,
    readings: &mut Vec<RematUse>,
) -> Result<(), AllocError>
    ensures { OnOk result (ListsOne view.entry definitions.now demand (by ∷ []) readings.old.items readings.new.items) }
{
    let mut alone = Vec::new(view.alloc);
    alone.push(by)?;
    add_reading(view, definitions, demand, alone, readings)
}

/// Lists the reading by the source of a copy, if it is the range.
fn add_copy(
    view: SpillView<'_>,
    definitions: &[Definition],
    instr: &Instr,
    to: &RegOp,
    from: &RegOp,
    readings: &mut Vec<RematUse>,
) -> Result<(), AllocError>
    ensures { OnOk result (Lists view.entry definitions.now (λ s. cond (is_own s from.now) (keyed_copy s instr.now to.now from.now ∷ []) []) readings.old.items readings.new.items) }
{
    if !view.is_own(from) {
        return Ok(());
    }
    let wish = if_whole(from.index, copy_wish(to.loc));
    let demand = move_demand(instr.id, from.index, wish);
    add_lone(view, definitions, demand, instr.id, readings)
}

/// Lists the reading by what a store stores, if it is the range.
fn add_store(
    view: SpillView<'_>,
    definitions: &[Definition],
    instr: &Instr,
    from: &RegOp,
    readings: &mut Vec<RematUse>,
) -> Result<(), AllocError>
    ensures { OnOk result (Lists view.entry definitions.now (λ s. cond (is_own s from.now) (keyed_move s instr.now from.now.index ∷ []) []) readings.old.items readings.new.items) }
{
    if !view.is_own(from) {
        return Ok(());
    }
    add_plain(view, definitions, instr, from.index, readings)
}

/// Lists a reading by a store or a tied use, for which nothing serves.
fn add_plain(
    view: SpillView<'_>,
    definitions: &[Definition],
    instr: &Instr,
    index: Option<IndexId>,
    readings: &mut Vec<RematUse>,
) -> Result<(), AllocError>
    ensures { OnOk result (Lists view.entry definitions.now (λ s. keyed_move s instr.now index ∷ []) readings.old.items readings.new.items) }
{
    let demand = move_demand(instr.id, index, RematConstraint::Never);
    add_lone(view, definitions, demand, instr.id, readings)
}

/// What the reading by a copy, a store or a tied use asks.
fn move_demand(id: u32, index: Option<IndexId>, wish: RematConstraint) -> RematDemand
    ensures { result ≡ record { key = copy_key id; index = index; wish = wish } }
{
    RematDemand {
        key: move_key(id),
        index,
        wish,
    }
}

/// How the reading by a copy, a store or a tied use is named.
fn move_key(id: u32) -> UseKey
    ensures { result ≡ copy_key id }
{
    UseKey {
        at: id,
        indexed_class: None,
    }
}

/// A wish that only a reading without an index has.
fn if_whole(index: Option<IndexId>, wish: RematConstraint) -> RematConstraint
    ensures { wish_of result ≡ if_whole index (wish_of wish) }
{
    match index {
        None => wish,
        Some(_) => RematConstraint::Never,
    }
}

/// What a copy to a register asks: one to a fixed register, that the class holds this.
fn copy_wish(to: Loc) -> RematConstraint
    ensures { wish_of result ≡ copy_wish to }
{
    match to {
        Loc::Virtual(_) => RematConstraint::Never,
        Loc::Fixed(r) => RematConstraint::Fixed(r),
    }
}

/// What a way of reading at a place asks.
fn way_demand(at: u32, way: IndexedClass) -> RematDemand
    ensures key { (v : ℕ) → result.key ≡ way_key at (way_of v way) }
    ensures index { result.index ≡ way.index }
    ensures wish { wish_of result.wish ≡ if_whole way.index (Within way.class) }
{
    RematDemand {
        key: UseKey {
            at,
            indexed_class: Some(way),
        },
        index: way.index,
        wish: if_whole(way.index, RematConstraint::Class(way.class)),
    }
}

/// Whether an operand with its role reads the range in a way.
fn is_way(view: SpillView<'_>, role: Option<Role>, operand: &Operand, way: IndexedClass) -> bool
    ensures { result ≡ list_any (same_use (way_of view.entry.v way)) (cons_option (own_use view.entry.target.now view.entry.live.now.func view.entry.v (role, operand.now)) []) }
{
    match way_of_operand(view, role, operand) {
        None => false,
        Some(other) => same_naming(way, other),
    }
}

/// Whether an instruction reads the range in a way.
fn reads_so(view: SpillView<'_>, instr: &Instr, way: IndexedClass) -> bool
    ensures { result ≡ list_any (same_use (way_of view.entry.v way)) (own_uses view.entry.target.now view.entry.live.now.func view.entry.v instr.now) }
{
    let mut roles = roles_of(view.target, instr);
    'operands: for operand in instr.operands.as_slice() {
        let (role, behind) = next_role(roles);
        roles = behind;
        if is_way(view, role, operand, way) {
            return true;
        }
    }
    false
}

/// Adds an instruction, if it reads the range in a way.
fn add_reader(
    view: SpillView<'_>,
    instr: &Instr,
    way: IndexedClass,
    by: &mut Vec<u32>,
) -> Result<(), AllocError>
    ensures { OnOk result (by.new.items ≡ by.old.items ++ readers view.entry (way_of view.entry.v way) (instr.now ∷ [])) }
{
    if reads_so(view, instr, way) {
        by.push(instr.id)?;
    }
    Ok(())
}

/// The instructions of these that read the range in a way.
fn readers_of(
    view: SpillView<'_>,
    instrs: &[Boxed<Instr>],
    way: IndexedClass,
) -> Result<Vec<u32>, AllocError>
    ensures { IfOk result (λ by. by.items ≡ readers view.entry (way_of view.entry.v way) instrs.now) }
{
    let mut by = Vec::new(view.alloc);
    'instrs: for instr in instrs {
        add_reader(view, instr.get(), way, &mut by)?;
    }
    Ok(by)
}

/// Lists the readings of the range by the operands of an instruction.
fn add_instr(
    view: SpillView<'_>,
    definitions: &[Definition],
    instr: &Instr,
    readings: &mut Vec<RematUse>,
) -> Result<(), AllocError>
    ensures { IsPlainForm instr.now → OnOk result (Lists view.entry definitions.now (λ s. keyed_operands s (instr.now ∷ [])) readings.old.items readings.new.items) }
{
    let mut ways = Vec::new(view.alloc);
    add_ways(view, instr, &mut ways)?;
    add_instr_ways(view, definitions, instr, ways.as_slice(), readings)?;
    add_tied(view, definitions, instr, readings)
}

/// Lists the ways in which an instruction reads the range.
fn add_instr_ways(
    view: SpillView<'_>,
    definitions: &[Definition],
    instr: &Instr,
    ways: &[IndexedClass],
    readings: &mut Vec<RematUse>,
) -> Result<(), AllocError>
    ensures { IsPlainForm instr.now → OnOk result (Lists view.entry definitions.now (λ s. flat_map (λ w. keyed_way s (instr.now ∷ []) (way_of view.entry.v w) ∷ []) ways.now) readings.old.items readings.new.items) }
{
    'ways: for way in ways {
        add_instr_way(view, definitions, instr, *way, readings)?;
    }
    Ok(())
}

/// Lists a way in which an instruction reads the range.
fn add_instr_way(
    view: SpillView<'_>,
    definitions: &[Definition],
    instr: &Instr,
    way: IndexedClass,
    readings: &mut Vec<RematUse>,
) -> Result<(), AllocError>
    ensures { IsPlainForm instr.now → OnOk result (Lists view.entry definitions.now (λ s. keyed_way s (instr.now ∷ []) (way_of view.entry.v way) ∷ []) readings.old.items readings.new.items) }
{
    let mut by = Vec::new(view.alloc);
    add_reader(view, instr, way, &mut by)?;
    add_reading(view, definitions, way_demand(instr.id, way), by, readings)
}

/// Lists the readings of the range by the operands of the terminators of a block.
fn add_ends(
    view: SpillView<'_>,
    definitions: &[Definition],
    instrs: &[Boxed<Instr>],
    readings: &mut Vec<RematUse>,
) -> Result<(), AllocError>
    ensures { AllByRecursion IsPlainForm instrs.now → OnOk result (Lists view.entry definitions.now (λ s. keyed_operands s instrs.now) readings.old.items readings.new.items) }
{
    let mut ways = Vec::new(view.alloc);
    add_all_ways(view, instrs, &mut ways)?;
    add_end_ways(view, definitions, instrs, ways.as_slice(), readings)?;
    add_all_tied(view, definitions, instrs, readings)
}

/// Lists the ways in which terminators read the range.
fn add_end_ways(
    view: SpillView<'_>,
    definitions: &[Definition],
    instrs: &[Boxed<Instr>],
    ways: &[IndexedClass],
    readings: &mut Vec<RematUse>,
) -> Result<(), AllocError>
    ensures { AllByRecursion IsPlainForm instrs.now → OnOk result (Lists view.entry definitions.now (λ s. flat_map (λ w. keyed_way s instrs.now (way_of view.entry.v w) ∷ []) ways.now) readings.old.items readings.new.items) }
{
    'ways: for way in ways {
        add_end_way(view, definitions, instrs, *way, readings)?;
    }
    Ok(())
}

/// Lists a way in which terminators read the range.
fn add_end_way(
    view: SpillView<'_>,
    definitions: &[Definition],
    instrs: &[Boxed<Instr>],
    way: IndexedClass,
    readings: &mut Vec<RematUse>,
) -> Result<(), AllocError>
    ensures { AllByRecursion IsPlainForm instrs.now → OnOk result (Lists view.entry definitions.now (λ s. keyed_way s instrs.now (way_of view.entry.v way) ∷ []) readings.old.items readings.new.items) }
{
    let by = readers_of(view, instrs, way)?;
    add_reading(
        view,
        definitions,
        way_demand(place_name(instrs), way),
        by,
        readings,
    )
}

/// Lists the readings by tied uses of instructions.
fn add_all_tied(
    view: SpillView<'_>,
    definitions: &[Definition],
    instrs: &[Boxed<Instr>],
    readings: &mut Vec<RematUse>,
) -> Result<(), AllocError>
    ensures { OnOk result (Lists view.entry definitions.now (λ s. flat_map (keyed_tied_uses s) instrs.now) readings.old.items readings.new.items) }
{
    'instrs: for instr in instrs {
        add_tied(view, definitions, instr.get(), readings)?;
    }
    Ok(())
}

/// Lists the readings by tied uses of an instruction.
fn add_tied(
    view: SpillView<'_>,
    definitions: &[Definition],
    instr: &Instr,
    readings: &mut Vec<RematUse>,
) -> Result<(), AllocError>
    ensures { OnOk result (Lists view.entry definitions.now (λ s. keyed_tied_uses s instr.now) readings.old.items readings.new.items) }
{
    let mut roles = roles_of(view.target, instr);
    'operands: for operand in instr.operands.as_slice() {
        let (role, behind) = next_role(roles);
        roles = behind;
        let tied = tied_own(view, instr, role, operand);
        add_tied_use(view, definitions, instr, tied, readings)?;
    }
    Ok(())
}

/// Lists the reading by a tied use, if there is one.
fn add_tied_use(
    view: SpillView<'_>,
    definitions: &[Definition],
    instr: &Instr,
    tied: Option<RegOp>,
    readings: &mut Vec<RematUse>,
) -> Result<(), AllocError>
    ensures { OnOk result (Lists view.entry definitions.now (λ s. keyed_uses s instr.now (cons_option tied [])) readings.old.items readings.new.items) }
{
    match tied {
        None => Ok(()),
        Some(op) => add_plain(view, definitions, instr, op.index, readings),
    }
}

/// Whether an operand with this role is tied to one of these operands.
fn is_paired(operands: &[Operand], role: Option<Role>) -> bool
    ensures { result ≡ is_some (option_and_then (register_at operands.now) (option_and_then tied_number role)) }
{
    match tied_number(role) {
        None => false,
        Some(number) => register_at(operands, number).is_some(),
    }
}

/// The use of the range that an operand with its role is, if it is tied to an operand.
fn tied_own(
    view: SpillView<'_>,
    instr: &Instr,
    role: Option<Role>,
    operand: &Operand,
) -> Option<RegOp>
    ensures { result ≡ tied_own view.entry.v instr.now.operands (role, operand.now) }
{
    match operand_of_range(view, operand) {
        Some(op) if !op.undef && is_paired(instr.operands.as_slice(), role) => Some(op),
        _ => None,
    }
}

/// Whether a definition reaches a reading: at one of its instructions, of one of its lanes.
fn reaches(view: SpillView<'_>, definition: &Definition, reading: &RematUse) -> bool
    ensures { (slot : ℕ) (facts : Facts) → result ≡ reached_by reading.now.by.items (own_lanes (spilling_of view.entry slot facts) reading.now.demand.index) definition.now }
{
    reaches_one(
        view,
        definition,
        reading.demand.index,
        reading.by.as_slice(),
    )
}

/// Whether a definition reaches one of these instructions, at a lane that the index picks.
fn reaches_one(
    view: SpillView<'_>,
    definition: &Definition,
    index: Option<IndexId>,
    by: &[u32],
) -> bool
    ensures { (slot : ℕ) (facts : Facts) → result ≡ reached_by by.now (own_lanes (spilling_of view.entry slot facts) index) definition.now }
{
    'instrs: for id in by {
        if reaches_instr(view, definition, index, *id) {
            return true;
        }
    }
    false
}

/// Whether a definition reaches an instruction, at a lane that the index picks.
fn reaches_instr(
    view: SpillView<'_>,
    definition: &Definition,
    index: Option<IndexId>,
    id: u32,
) -> bool
    ensures { (slot : ℕ) (facts : Facts) → result ≡ list_any (λ k. lists definition.now.reached.keys k id) (own_lanes (spilling_of view.entry slot facts) index) }
{
    match index {
        None => reaches_some_lane(definition, view.lane_count(), id),
        Some(index) => reaches_one_lane(definition, view.target.lanes_at(index), id),
    }
}

/// Whether a definition reaches an instruction at one of these lanes.
fn reaches_one_lane(definition: &Definition, lanes: &[u8], id: u32) -> bool
    ensures { result ≡ list_any (λ k. lists definition.now.reached.keys k id) lanes.now }
{
    'lanes: for k in lanes {
        if reaches_lane(definition, *k as usize, id) {
            return true;
        }
    }
    false
}

/// Whether a definition reaches an instruction at one of so many lanes, from the first one on.
fn reaches_some_lane(definition: &Definition, count: usize, id: u32) -> bool
    ensures { result ≡ list_any (λ k. lists definition.now.reached.keys k id) (numbers 0 count) }
{
    'lanes: for k in 0..count {
        if reaches_lane(definition, k, id) {
            return true;
        }
    }
    false
}

/// Whether a definition reaches an instruction at a lane.
fn reaches_lane(definition: &Definition, lane: usize, id: u32) -> bool
    ensures { result ≡ lists definition.now.reached.keys lane id }
{
    definition.reached.contains(&LaneReading { lane, by: id })
}

/// The definition that reaches a reading, where there is just one.
fn only_definition(
    view: SpillView<'_>,
    definitions: &[Definition],
    reading: &RematUse,
) -> Option<u32>
    ensures { (slot : ℕ) (facts : Facts) → result ≡ alone (map (λ d. d.id) (filter (reached_by reading.now.by.items (own_lanes (spilling_of view.entry slot facts) reading.now.demand.index)) definitions.now)) }
{
    let mut only = None;
    'definitions: for definition in definitions {
        if !reaches(view, definition, reading) {
            continue;
        }
        if only.is_some() {
            return None;
        }
        only = Some(definition.id);
    }
    only
}

/// Whether an instruction, by its id, gives what a reading asks for.
fn id_serves(view: SpillView<'_>, wish: RematConstraint, id: u32) -> bool
    ensures { FindsInstrs view.entry.live.now.table view.entry.live.now.func.blocks → (p j : ℕ) (b : Block) (i : Instr) → slice_get view.entry.live.now.func.blocks p ≡ Some b → slice_get b.instrs j ≡ Some i → i.id ≡ id
        → result ≡ serves view.entry.target.now (wish_of wish) (repeatable_class view.entry.target.now i) }
{
    match view.live.instr(id) {
        Some(instr) => serves(view.target, wish, repeatable_class(view.target, instr)),
        None => false,
    }
}

/// Whether a constant or an address reaches a reading: else nothing is repeated for it.
fn is_reached_by_constant(
    view: SpillView<'_>,
    definitions: &[Definition],
    reading: &RematUse,
) -> bool
    ensures { (slot : ℕ) (facts : Facts) → result ≡ list_any (reached_by_constant reading.now.by.items (own_lanes (spilling_of view.entry slot facts) reading.now.demand.index)) definitions.now }
{
    'definitions: for definition in definitions {
        if definition.is_constant && reaches(view, definition, reading) {
            return true;
        }
    }
    false
}

/// The definition whose instruction is repeated for a reading.
fn source_of(view: SpillView<'_>, definitions: &[Definition], reading: &RematUse) -> Option<u32>
    ensures { (slot : ℕ) (facts : Facts) (r : Reading) (ids : List ℕ)
        → MaySpill view.entry.target.now view.entry.live.now.func view.entry.live.now.table view.entry.v → AreDefinitions view.entry.target.now view.entry.live.now.func view.entry.live.now.table view.entry.v ids definitions.now
        → AreFacts view.entry.target.now view.entry.live.now.func view.entry.v facts → IsReading (spilling_of view.entry slot facts) r reading.now → result ≡ option_map (λ d. d.id) (repeated_for (spilling_of view.entry slot facts) r) }
{
    if !is_reached_by_constant(view, definitions, reading) {
        return None;
    }
    match only_definition(view, definitions, reading) {
        None => None,
        Some(id) => {
            if id_serves(view, reading.demand.wish, id) {
                Some(id)
            } else {
                None
            }
        }
    }
}

/// Whether an instruction that may be repeated for a class gives what a reading asks for.
fn serves(target: &Target, wish: RematConstraint, class: Option<ClassId>) -> bool
    ensures { result ≡ serves target.now (wish_of wish) class }
{
    match (wish, class) {
        (RematConstraint::Class(Some(own)), Some(class)) => {
            are_within(target.regs_in(own), target.regs_in(class))
        }
        (RematConstraint::Fixed(r), Some(class)) => holds(target.regs_in(class), r),
        _ => false,
    }
}

/// The class of an instruction that may be repeated: a constant or an address for a whole register.
fn repeatable_class(target: &Target, instr: &Instr) -> Option<ClassId>
    ensures { result ≡ repeatable_class target.now instr.now }
{
    if is_repeatable(target, instr) {
        whole_class(target, instr)
    } else {
        None
    }
}

/// The class of an instruction's definition, its first operand, where that is of a whole register.
fn whole_class(target: &Target, instr: &Instr) -> Option<ClassId>
    ensures { result ≡ whole_class target.now instr.now instr.now.operands }
{
    match instr.operands.as_slice() {
        [Operand::Reg(op), ..] => match op.index {
            None => definition_class(roles_of(target, instr)),
            Some(_) => None,
        },
        _ => None,
    }
}

/// The class of the definition, whose role is the first.
fn definition_class(roles: &[Role]) -> Option<ClassId>
    ensures { result ≡ definition_class roles.now }
{
    match roles {
        [] => None,
        [role, ..] => class_of(*role),
    }
}

/// What is repeated for the readings that are rematerialised, by the names of their places.
fn sources_of(
    view: SpillView<'_>,
    readings: &[RematUse],
) -> Result<BTreeMap<u32, Vec<RematSource>>, AllocError>
    ensures { IfOk result (λ sources. (n : ℕ) → sources_at sources n ≡ placed_at n (flat_map told_sources readings.now)) }
{
    let mut sources = BTreeMap::new(view.alloc);
    'readings: for reading in readings {
        add_source(view.alloc, reading, &mut sources)?;
    }
    Ok(sources)
}

/// Adds what is repeated for a reading, if it is rematerialised.
fn add_source(
    alloc: Global,
    reading: &RematUse,
    sources: &mut BTreeMap<u32, Vec<RematSource>>,
) -> Result<(), AllocError>
    ensures { OnOk result ((n : ℕ) → sources_at sources.new n ≡ sources_at sources.old n ++ placed_at n (told_sources reading.now)) }
{
    match reading.source {
        None => Ok(()),
        Some(id) => {
            let key = reading.demand.key;
            put_source(alloc, RematSource { key, id }, sources)
        }
    }
}

/// Adds what is repeated for a reading, behind the others of its place.
fn put_source(
    alloc: Global,
    source: RematSource,
    sources: &mut BTreeMap<u32, Vec<RematSource>>,
) -> Result<(), AllocError>
    ensures { OnOk result ((n : ℕ) → sources_at sources.new n ≡ sources_at sources.old n ++ placed_at n (source ∷ [])) }
{
    let mut list = take_sources(alloc, source.key.at, sources);
    list.push(source)?;
    sources.insert(source.key.at, list)?;
    Ok(())
}

/// Takes what is repeated for the readings at a place out of a map.
fn take_sources(
    alloc: Global,
    at: u32,
    sources: &mut BTreeMap<u32, Vec<RematSource>>,
) -> Vec<RematSource>
    ensures list { result.items ≡ sources_at sources.old at }
    ensures others { (n : ℕ) → get nat_cmp sources.new n ≡ cond (nat_eq at n) None (get nat_cmp sources.old n) }
{
    match sources.remove(&at) {
        None => Vec::new(alloc),
        Some(list) => list,
    }
}

/// The definitions that go.
fn deleted_of(
    view: SpillView<'_>,
    definitions: &[Definition],
    readings: &[RematUse],
) -> Result<BTreeSet<u32>, AllocError>
    ensures { IfOk result (λ gone. (slot : ℕ) (facts : Facts) (test : ℕ → Bool) → FindsInstrs view.entry.live.now.table view.entry.live.now.func.blocks → TestsNeedless (spilling_of view.entry slot facts) definitions.now readings.now test → (n : ℕ) → has n gone.keys ≡ has n (filter test (map (λ d. d.id) definitions.now))) }
{
    let mut deleted = BTreeSet::new(view.alloc);
    'definitions: for definition in definitions {
        add_deleted(view, definition, readings, &mut deleted)?;
    }
    Ok(deleted)
}

/// Adds a definition, if it goes.
fn add_deleted(
    view: SpillView<'_>,
    definition: &Definition,
    readings: &[RematUse],
    deleted: &mut BTreeSet<u32>,
) -> Result<(), AllocError>
    ensures { OnOk result ((slot : ℕ) (facts : Facts) (test : ℕ → Bool) → FindsInstrs view.entry.live.now.table view.entry.live.now.func.blocks → TestsOne (spilling_of view.entry slot facts) definition.now readings.now test → (n : ℕ) → has n deleted.new.keys ≡ (has n deleted.old.keys || has n (filter test (definition.now.id ∷ [])))) }
{
    if !is_needless(view, definition, readings) {
        return Ok(());
    }
    deleted.insert(definition.id)?;
    Ok(())
}

/// Whether a definition isn't needed: a constant or an address that reaches readings, which are all
/// rematerialised.
fn is_needless(view: SpillView<'_>, definition: &Definition, readings: &[RematUse]) -> bool
    ensures { (slot : ℕ) (facts : Facts) → FindsInstrs view.entry.live.now.table view.entry.live.now.func.blocks → (p j : ℕ) (b : Block) (i : Instr) → slice_get view.entry.live.now.func.blocks p ≡ Some b → slice_get b.instrs j ≡ Some i → i.id ≡ definition.now.id
        → result ≡ (does is_constant view.entry.target.now i && is_only_repeated (spilling_of view.entry slot facts) definition.now readings.now) }
{
    is_repeatable_id(view, definition.id) && is_only_repeated(view, definition, readings)
}

/// Whether a definition reaches a reading, and those that it reaches are all rematerialised.
fn is_only_repeated(view: SpillView<'_>, definition: &Definition, readings: &[RematUse]) -> bool
    ensures { (slot : ℕ) (facts : Facts) → result ≡ is_only_repeated (spilling_of view.entry slot facts) definition.now readings.now }
{
    reaches_some(view, definition, readings) && !is_needed(view, definition, readings)
}

/// Whether a definition reaches one of these readings.
fn reaches_some(view: SpillView<'_>, definition: &Definition, readings: &[RematUse]) -> bool
    ensures { (slot : ℕ) (facts : Facts) → result ≡ list_any (reaches_use (spilling_of view.entry slot facts) definition.now) readings.now }
{
    'uses: for reading in readings {
        if reaches(view, definition, reading) {
            return true;
        }
    }
    false
}

/// Whether a definition reaches one of these readings that isn't rematerialised.
fn is_needed(view: SpillView<'_>, definition: &Definition, readings: &[RematUse]) -> bool
    ensures { (slot : ℕ) (facts : Facts) → result ≡ list_any (needs_value (spilling_of view.entry slot facts) definition.now) readings.now }
{
    'uses: for reading in readings {
        if needs_value(view, definition, reading) {
            return true;
        }
    }
    false
}

/// Whether a definition reaches a reading that isn't rematerialised.
fn needs_value(view: SpillView<'_>, definition: &Definition, reading: &RematUse) -> bool
    ensures { (slot : ℕ) (facts : Facts) → result ≡ needs_value (spilling_of view.entry slot facts) definition.now reading.now }
{
    !reading.source.is_some() && reaches(view, definition, reading)
}

/// Whether an instruction, by its id, can be repeated.
pub(crate) fn is_repeatable_id(view: SpillView<'_>, id: u32) -> bool
    ensures { FindsInstrs view.entry.live.now.table view.entry.live.now.func.blocks → (p j : ℕ) (b : Block) (i : Instr) → slice_get view.entry.live.now.func.blocks p ≡ Some b → slice_get b.instrs j ≡ Some i → i.id ≡ id
        → result ≡ does is_constant view.entry.target.now i }
{
    match view.live.instr(id) {
        Some(instr) => is_repeatable(view.target, instr),
        None => false,
    }
}
