//! Random lists of edits of a function that respect what edits must: phis stay, a terminator stays one, a new
//! instruction stands between phis and terminators, an erased instruction isn't edited again, and the rules on operands
//! are kept. Each edit is drawn from the function as it stands behind those before it.

use crate::cuts::draw;
use live_edits::Edit;
use mir_func::opcodes::{first_terminator, is_early, is_phi, is_terminator, roles_of};
use mir_func::operands::class_of;
use mir_func::{Func, Gap, Instr, Loc, Op, Operand, Operands, RegOp};
use phi_elim::moves::{COPY, whole_definition, whole_use};
use std::alloc::{AllocError, Global};
use target_base::{Boxed, ClassId, Copied, IndexId, OpId, Reg, Role, Target};

/// How often something is drawn until it suits.
const TRIES: u32 = 8;

/// How many slots random stores and reloads name.
pub const SLOTS: u32 = 4;

/// A random list of edits.
#[derive(Drop)]
pub struct DrawnEdits {
    /// The edits, in order.
    pub edits: Vec<Edit>,
    /// A range that is given with them.
    pub range: Option<u32>,
    /// The function before them.
    pub before: Func,
    /// The function behind them.
    pub after: Func,
}

/// A place in the block at a position.
#[derive(Clone, Copy)]
struct Site {
    position: usize,
    place: usize,
}

/// Another range in the place of one.
#[derive(Clone, Copy)]
struct Renaming {
    from: u32,
    to: u32,
}

/// Draws a number below a count, or 0 where that is 0.
fn draw_below(state: &mut u64, count: usize) -> usize {
    if count == 0 {
        return 0;
    }
    draw(state) as usize % count
}

/// Draws a range.
fn draw_range(f: &Func, state: &mut u64) -> u32 {
    match u32::try_from(draw_below(state, f.classes.len())) {
        Ok(v) => v,
        Err(_) => 0,
    }
}

/// Draws a range of the class of another one, or answers that one.
fn draw_alike(f: &Func, v: u32, state: &mut u64) -> u32 {
    let class = class_of(f, v);
    for _ in 0..TRIES {
        let other = draw_range(f, state);
        if other != v && class_of(f, other) == class {
            return other;
        }
    }
    v
}

/// Draws no index, or one that fits a class.
fn draw_index(target: &Target, class: ClassId, state: &mut u64) -> Option<IndexId> {
    let count = target.indexes.len();
    let number = u16::try_from(draw_below(state, count));
    if count == 0 || draw(state) % 2 == 0 {
        return None;
    }
    let index = match number {
        Ok(number) => Some(IndexId(number)),
        Err(_) => None,
    };
    if target.fits_at(class, index) {
        index
    } else {
        None
    }
}

/// Draws a register of a class.
fn draw_register(target: &Target, class: ClassId, state: &mut u64) -> Option<Reg> {
    let registers = target.regs_in(class);
    match registers.get(draw_below(state, registers.len())) {
        Some(register) => Some(*register),
        None => None,
    }
}

/// Draws an instruction.
fn draw_site(f: &Func, state: &mut u64) -> Site {
    let position = draw_below(state, f.blocks.len());
    let place = draw_below(state, f.instr_count(position));
    Site { position, place }
}

/// The instructions of the block at a position.
fn instrs_at(f: &Func, position: usize) -> &[Boxed<Instr>] {
    match f.blocks.as_slice().get(position) {
        Some(block) => block.instrs.as_slice(),
        None => &[],
    }
}

/// How many phis these instructions begin with.
fn phi_count(target: &Target, instrs: &[Boxed<Instr>]) -> usize {
    let mut count: usize = 0;
    for instr in instrs {
        if !is_phi(target, instr.get()) {
            break;
        }
        count = count.saturating_add(1);
    }
    count
}

/// Draws a place for a new instruction: one behind the phis of a block, and not behind its first terminator.
fn draw_room(target: &Target, f: &Func, state: &mut u64) -> Site {
    let position = draw_below(state, f.blocks.len());
    let instrs = instrs_at(f, position);
    let first = phi_count(target, instrs);
    let count = first_terminator(target, instrs).saturating_sub(first);
    let place = first.saturating_add(draw_below(state, count.saturating_add(1)));
    Site { position, place }
}

/// The gap before the instruction at a place, or at the end of its block.
fn gap_at(f: &Func, site: Site) -> Option<Gap> {
    let Some(block) = f.blocks.as_slice().get(site.position) else {
        return None;
    };
    let before = match f.instr_at(site.position, site.place) {
        Some(instr) => Some(instr.id),
        None => None,
    };
    Some(Gap {
        block: block.number,
        before,
    })
}

/// Whether an operand is a range.
fn is_range(operand: &Operand, v: u32) -> bool {
    match operand {
        Operand::Reg(register) => register.loc == Loc::Virtual(v),
        _ => false,
    }
}

/// Whether one of the operands is a range.
fn have_range(operands: &[Operand], v: u32) -> bool {
    operands.iter().any(|operand| is_range(operand, v))
}

/// Whether an operand defines a range.
fn is_definition_of(operand: &Operand, v: u32) -> bool {
    match operand {
        Operand::Reg(register) => register.def && register.loc == Loc::Virtual(v),
        _ => false,
    }
}

/// Whether one of the operands defines a range.
fn have_definition_of(operands: &[Operand], v: u32) -> bool {
    operands.iter().any(|operand| is_definition_of(operand, v))
}

/// Whether an operand is a definition behind which the other lanes of its register are undefined.
fn leaves_undefined(operand: &Operand) -> bool {
    match operand {
        Operand::Reg(register) => register.def && register.undef,
        _ => false,
    }
}

/// Whether one of the operands is such a definition.
fn leave_undefined(operands: &[Operand]) -> bool {
    operands.iter().any(|operand| leaves_undefined(operand))
}

/// Whether one of these roles is that of an early-clobber definition.
fn have_early(roles: &[Role]) -> bool {
    roles.iter().any(|role| is_early(Some(*role)))
}

/// Whether both ranges of a renaming may be one in an instruction: its definitions stay apart, and apart from uses
/// where they must be.
fn may_be_one(target: &Target, instr: &Instr, renaming: Renaming) -> bool {
    let operands = instr.operands.as_slice();
    let both = have_definition_of(operands, renaming.from)
        && have_definition_of(operands, renaming.to);
    !both && !leave_undefined(operands) && !have_early(roles_of(target, instr))
}

/// Whether a renaming may be done in an instruction.
fn may_rename(target: &Target, instr: &Instr, renaming: Renaming) -> bool {
    if is_phi(target, instr) {
        return false;
    }
    renaming.from == renaming.to
        || !have_range(instr.operands.as_slice(), renaming.to)
        || may_be_one(target, instr, renaming)
}

/// Whether an instruction may be erased.
fn may_erase(target: &Target, instr: &Instr) -> bool {
    !is_phi(target, instr) && !is_terminator(target, instr)
}

/// An operand behind a renaming.
fn renamed_operand(
    alloc: Global,
    operand: &Operand,
    renaming: Renaming,
) -> Result<Operand, AllocError> {
    match operand {
        Operand::Reg(register) if register.loc == Loc::Virtual(renaming.from) => {
            Ok(Operand::Reg(RegOp {
                loc: Loc::Virtual(renaming.to),
                ..*register
            }))
        }
        _ => operand.copied(alloc),
    }
}

/// Operands behind a renaming.
fn renamed_operands(
    alloc: Global,
    operands: &[Operand],
    renaming: Renaming,
) -> Result<Operands, AllocError> {
    let mut made = Operands::new(alloc);
    for operand in operands {
        made.push(renamed_operand(alloc, operand, renaming)?)?;
    }
    Ok(made)
}

/// Draws one of the ranges that an instruction names.
fn draw_named(f: &Func, site: Site, state: &mut u64) -> Option<u32> {
    let instr = f.instr_at(site.position, site.place)?;
    let mut count: usize = 0;
    let mut found = None;
    for operand in instr.operands.as_slice() {
        if let Some(v) = range_of(operand) {
            count = count.saturating_add(1);
            if draw_below(state, count) == 0 {
                found = Some(v);
            }
        }
    }
    found
}

/// The range that an operand is.
fn range_of(operand: &Operand) -> Option<u32> {
    match operand {
        Operand::Reg(register) => match register.loc {
            Loc::Virtual(v) => Some(v),
            Loc::Fixed(_) => None,
        },
        _ => None,
    }
}

/// Adds the places of a block's instructions that name a range.
fn add_sites(
    instrs: &[Boxed<Instr>],
    position: usize,
    v: u32,
    sites: &mut Vec<Site>,
) -> Result<(), AllocError> {
    let mut place: usize = 0;
    for instr in instrs {
        if have_range(instr.get().operands.as_slice(), v) {
            sites.push(Site { position, place })?;
        }
        place = place.saturating_add(1);
    }
    Ok(())
}

/// The places of the instructions that name a range, in layout.
fn sites_of(alloc: Global, f: &Func, v: u32) -> Result<Vec<Site>, AllocError> {
    let mut sites = Vec::new(alloc);
    let mut position: usize = 0;
    for block in f.blocks.as_slice() {
        add_sites(block.instrs.as_slice(), position, v, &mut sites)?;
        position = position.saturating_add(1);
    }
    Ok(sites)
}

impl DrawnEdits {
    /// No edit of a function.
    fn of(alloc: Global, f: &Func) -> Result<DrawnEdits, AllocError> {
        Ok(DrawnEdits {
            edits: Vec::new(alloc),
            range: None,
            before: f.copy(alloc)?,
            after: f.copy(alloc)?,
        })
    }

    /// Puts a new instruction before the one at a place, or last.
    fn put(
        &mut self,
        alloc: Global,
        site: Site,
        op: OpId,
        operands: Operands,
    ) -> Result<(), AllocError> {
        let Some(gap) = gap_at(&self.after, site) else {
            return Ok(());
        };
        let copy = operands.copied(alloc)?;
        self.after
            .insert_at(site.position, site.place, op, operands)?;
        self.edits.push(Edit::Put(gap, op, copy))?;
        Ok(())
    }

    /// Does a renaming in the instruction at a place, if that may be.
    fn rename(
        &mut self,
        alloc: Global,
        target: &Target,
        site: Site,
        renaming: Renaming,
    ) -> Result<(), AllocError> {
        let Some(instr) = self.after.instr_at(site.position, site.place) else {
            return Ok(());
        };
        let Op::Known(op) = &instr.op else {
            return Ok(());
        };
        if !may_rename(target, instr, renaming) {
            return Ok(());
        }
        let (id, op) = (instr.id, *op);
        let operands = renamed_operands(alloc, instr.operands.as_slice(), renaming)?;
        let copy = operands.copied(alloc)?;
        let _ = self
            .after
            .change_at(site.position, site.place, Op::Known(op), operands);
        self.edits.push(Edit::Replace(id, op, copy))?;
        Ok(())
    }

    /// Erases the instruction at a place, if that may be.
    fn erase(&mut self, target: &Target, site: Site) -> Result<(), AllocError> {
        let Some(instr) = self.after.instr_at(site.position, site.place) else {
            return Ok(());
        };
        if !may_erase(target, instr) {
            return Ok(());
        }
        let id = instr.id;
        let _ = self.after.remove_at(site.position, site.place);
        self.edits.push(Edit::Erase(id))?;
        Ok(())
    }

    /// Puts a copy into a random gap.
    fn put_copy(
        &mut self,
        alloc: Global,
        target: &Target,
        to: RegOp,
        from: RegOp,
        state: &mut u64,
    ) -> Result<(), AllocError> {
        let mut operands = Operands::new(alloc);
        operands.push(Operand::Reg(to))?;
        operands.push(Operand::Reg(from))?;
        let site = draw_room(target, &self.after, state);
        self.put(alloc, site, COPY, operands)
    }

    /// Puts a copy between two ranges of one class, or between parts of them, into a random gap.
    fn draw_copy(
        &mut self,
        alloc: Global,
        target: &Target,
        state: &mut u64,
    ) -> Result<(), AllocError> {
        let to = draw_range(&self.after, state);
        let from = draw_alike(&self.after, to, state);
        let Some(class) = class_of(&self.after, to) else {
            return Ok(());
        };
        let index = draw_index(target, class, state);
        let to = RegOp {
            index,
            ..whole_definition(to)
        };
        let from = RegOp {
            index,
            ..whole_use(from)
        };
        self.put_copy(alloc, target, to, from, state)
    }

    /// Puts a copy between a range and a register of its class into a random gap.
    fn draw_fixed_copy(
        &mut self,
        alloc: Global,
        target: &Target,
        state: &mut u64,
    ) -> Result<(), AllocError> {
        let v = draw_range(&self.after, state);
        let Some(class) = class_of(&self.after, v) else {
            return Ok(());
        };
        let Some(register) = draw_register(target, class, state) else {
            return Ok(());
        };
        let loc = Loc::Fixed(register);
        let (to, from) = match draw(state) % 2 {
            0 => (
                whole_definition(v),
                RegOp {
                    loc,
                    ..whole_use(v)
                },
            ),
            _ => (
                RegOp {
                    loc,
                    ..whole_definition(v)
                },
                whole_use(v),
            ),
        };
        self.put_copy(alloc, target, to, from, state)
    }

    /// Puts a store of a range to a slot, or a reload of it, into a random gap.
    fn draw_slot_move(
        &mut self,
        alloc: Global,
        target: &Target,
        state: &mut u64,
    ) -> Result<(), AllocError> {
        let v = draw_range(&self.after, state);
        let Some(class) = class_of(&self.after, v) else {
            return Ok(());
        };
        let (op, register) = match draw(state) % 2 {
            0 => (target.spill_at(class), whole_use(v)),
            _ => (target.reload_at(class), whole_definition(v)),
        };
        let Some(op) = op else {
            return Ok(());
        };
        let mut operands = Operands::new(alloc);
        operands.push(Operand::Reg(register))?;
        operands.push(Operand::Stack(draw(state) % SLOTS))?;
        operands.push(Operand::Imm(0))?;
        let site = draw_room(target, &self.after, state);
        self.put(alloc, site, op, operands)
    }

    /// Renames a range that a random instruction names.
    fn draw_renaming(
        &mut self,
        alloc: Global,
        target: &Target,
        state: &mut u64,
    ) -> Result<(), AllocError> {
        let site = draw_site(&self.after, state);
        let Some(from) = draw_named(&self.after, site, state) else {
            return Ok(());
        };
        let to = draw_alike(&self.after, from, state);
        self.rename(alloc, target, site, Renaming { from, to })
    }

    /// Erases a random instruction.
    fn draw_erased(&mut self, target: &Target, state: &mut u64) -> Result<(), AllocError> {
        let site = draw_site(&self.after, state);
        self.erase(target, site)
    }

    /// Draws an edit, or none where what is drawn can't be edited.
    fn draw_once(
        &mut self,
        alloc: Global,
        target: &Target,
        state: &mut u64,
    ) -> Result<(), AllocError> {
        match draw(state) % 10 {
            0 | 1 => self.draw_copy(alloc, target, state),
            2 => self.draw_fixed_copy(alloc, target, state),
            3 => self.draw_slot_move(alloc, target, state),
            4 | 5 => self.draw_erased(target, state),
            _ => self.draw_renaming(alloc, target, state),
        }
    }

    /// Draws an edit.
    fn draw_edit(
        &mut self,
        alloc: Global,
        target: &Target,
        state: &mut u64,
    ) -> Result<(), AllocError> {
        let count = self.edits.len();
        for _ in 0..TRIES {
            self.draw_once(alloc, target, state)?;
            if self.edits.len() > count {
                break;
            }
        }
        Ok(())
    }

    /// Edits an instruction that names a range so that it names another one, or is gone, where it can be.
    fn clear(
        &mut self,
        alloc: Global,
        target: &Target,
        site: Site,
        renaming: Renaming,
        state: &mut u64,
    ) -> Result<(), AllocError> {
        let count = self.edits.len();
        if draw(state) % 2 == 0 && renaming.from != renaming.to {
            self.rename(alloc, target, site, renaming)?;
        }
        if self.edits.len() == count {
            self.erase(target, site)?;
        }
        if self.edits.len() == count {
            self.rename(alloc, target, site, renaming)?;
        }
        Ok(())
    }

    /// Edits all instructions that name a random range so that it is named nowhere, where they can be, and gives it
    /// with the edits. The last is edited first, so that the places of the others stay.
    fn draw_cleared(
        &mut self,
        alloc: Global,
        target: &Target,
        state: &mut u64,
    ) -> Result<(), AllocError> {
        let from = draw_range(&self.after, state);
        let to = draw_alike(&self.after, from, state);
        let sites = sites_of(alloc, &self.after, from)?;
        for site in sites.as_slice().iter().rev() {
            self.clear(alloc, target, *site, Renaming { from, to }, state)?;
        }
        self.range = Some(from);
        Ok(())
    }

    /// Draws so many edits.
    fn draw_some(
        &mut self,
        alloc: Global,
        target: &Target,
        count: u32,
        state: &mut u64,
    ) -> Result<(), AllocError> {
        for _ in 0..count {
            self.draw_edit(alloc, target, state)?;
        }
        Ok(())
    }
}

/// Draws one to three edits of a function, or edits that clear a range, at times with one more. A range is given with
/// those, and at times with others.
pub fn draw_edits(
    alloc: Global,
    target: &Target,
    f: &Func,
    state: &mut u64,
) -> Result<DrawnEdits, AllocError> {
    let mut drawn = DrawnEdits::of(alloc, f)?;
    let sort = draw(state) % 8;
    if sort < 2 {
        drawn.draw_cleared(alloc, target, state)?;
        drawn.draw_some(alloc, target, sort, state)?;
        return Ok(drawn);
    }
    if sort == 2 {
        drawn.range = Some(draw_range(f, state));
    }
    let count = 1 + draw(state) % 3;
    drawn.draw_some(alloc, target, count, state)?;
    Ok(drawn)
}
