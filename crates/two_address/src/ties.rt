//! Tied and `undef` operands.

ghost use Rattle.std.specs.Prelude.{◌≡◌, ◌<◌, ◌+◌, ◌^◌, ◌++◌, ◌∷◌, OnOk, IfOk, length, map, flat_map, find, nat_eq, option_map};
ghost use Rattle.std.specs.List.{list_any};
ghost use Rattle.mir_func.specs.Binding.{explicit_bound, explicit_roles, numbered, tied_pair};
ghost use Rattle.two_address.specs.Classes.{seated};
ghost use Rattle.two_address.specs.Ties.{reads_besides, use_of, undef_use_of, tie_aside, tie_of, tie_among, number_behind, ties_in, tie_to, copies, defined_aside, undef_fixed, defined_use, retied_use, retied, retied_operand, undefined_first, with_operands, with_ties, definition_class, copy_lowered};

use crate::classes::{class_asked, first_register};
use mir_func::opcodes::{next_role, roles_of, tied_number, ties_to};
use mir_func::operands::{is_definition, is_virtual, register_at, same_index, same_loc};
use mir_func::{Instr, Loc, Op, Operand, Operands, RegOp};
use phi_elim::moves::{
    IMPLICIT_DEF, copy_of, destination_of, implicit_def_of, source_of, whole_definition, whole_use,
};
use std::alloc::{AllocError, Global};
use target_base::classes::class_of;
use target_base::{ClassId, Copied, Reg, Role, Target};

/// A copy that lowering makes.
#[derive(Clone, Copy)]
pub struct Move {
    /// Its destination.
    pub to: RegOp,
    /// Its source.
    pub from: RegOp,
}

/// What is done about a tied use and its definition.
#[derive(Clone, Copy)]
pub struct Tie {
    /// The definition's number: its place among the operands.
    pub number: usize,
    /// The register that stands in for the defined one.
    pub aside: Option<u32>,
    /// What takes the place of the tied use.
    pub reading: Option<RegOp>,
    /// The copy before the instruction.
    pub before: Option<Move>,
    /// The copy behind it.
    pub after: Option<Move>,
}

/// Whether the operand reads the location, and isn't the use that is tied to the definition of that
/// number.
fn reads_besides(number: usize, loc: Loc, role: Option<Role>, o: &Operand) -> bool
    ensures { result ≡ reads_besides number loc (role, o.now) }
{
    match o {
        Operand::Reg(r) => !ties_to(role, number) && !r.def && !r.undef && same_loc(loc, r.loc),
        _ => false,
    }
}

/// Whether an operand with one of these roles, besides the use that is tied to the definition of
/// that number, reads the location.
#[tactic(auto, using(crate::proofs::Seats::seats))]
fn is_read_among(number: usize, loc: Loc, roles: &[Role], operands: &[Operand]) -> bool
    ensures { result ≡ list_any (reads_besides number loc) (explicit_bound (explicit_roles roles.now) operands.now) }
{
    let mut left = roles;
    'each: for o in operands {
        let (role, behind) = next_role(left);
        if reads_besides(number, loc, role, o) {
            return true;
        }
        left = behind;
    }
    false
}

/// Whether an operand of the instruction, besides the use that is tied to the definition of that
/// number, reads the location.
fn is_read_besides(target: &Target, number: usize, loc: Loc, i: &Instr) -> bool
    ensures { result ≡ list_any (reads_besides number loc) (seated target.now i.now) }
{
    is_read_among(number, loc, roles_of(target, i), i.operands.as_slice())
}

/// A use of the register and index that an operand has.
fn use_of(d: RegOp) -> RegOp
    ensures { result ≡ use_of d }
{
    RegOp {
        undef: false,
        ..source_of(d)
    }
}

/// An `undef` use of them.
fn undef_use_of(d: RegOp) -> RegOp
    ensures { result ≡ undef_use_of d }
{
    RegOp {
        undef: true,
        ..source_of(d)
    }
}

/// Only what takes the place of the use that is tied to the definition of that number.
fn reading_only(number: usize, reading: Option<RegOp>) -> Tie
    ensures { result ≡ record { number = number; aside = None; reading = reading; before = None; after = None } }
{
    Tie {
        number,
        aside: None,
        reading,
        before: None,
        after: None,
    }
}

/// The tie of definition `d`, which has that number, where register `c` stands in for it.
fn tie_aside(c: u32, number: usize, d: RegOp, u: RegOp) -> Tie
    ensures { result ≡ tie_aside c (record { number = number; definition = d; tied_use = u }) }
{
    Tie {
        number,
        aside: Some(c),
        reading: Some(whole_use(c)),
        before: Some(Move {
            to: whole_definition(c),
            from: source_of(u),
        }),
        after: Some(Move {
            to: destination_of(d),
            from: whole_use(c),
        }),
    }
}

/// What is done about the tie of definition `d`, which has that number, and use `u`, where `read`
/// says whether another operand reads the defined register; `c` is the next range number.
fn tie_of(c: u32, number: usize, d: RegOp, u: RegOp, read: bool) -> Tie
    ensures { result ≡ tie_of c (record { number = number; definition = d; tied_use = u }) read }
{
    if !is_virtual(u.loc) {
        return reading_only(number, None);
    }
    if u.undef {
        return reading_only(number, Some(undef_use_of(d)));
    }
    if same_loc(d.loc, u.loc) && same_index(d.index, u.index) {
        return reading_only(number, Some(use_of(d)));
    }
    if read {
        return tie_aside(c, number, d, u);
    }
    Tie {
        before: Some(Move {
            to: destination_of(d),
            from: source_of(u),
        }),
        ..reading_only(number, Some(use_of(d)))
    }
}

/// What is done about the tie of an operand of the instruction that has this role, if it has one;
/// `c` is the next range number.
fn tie_at(target: &Target, c: u32, role: Option<Role>, o: &Operand, i: &Instr) -> Option<Tie>
    ensures { result ≡ option_map (tie_among (seated target.now i.now) c) (tied_pair i.now.operands (role, o.now)) }
{
    match o {
        Operand::Reg(u) => match tied_number(role) {
            None => None,
            Some(number) => match register_at(i.operands.as_slice(), number) {
                None => None,
                Some(d) => {
                    let read = is_read_besides(target, number, d.loc, i);
                    Some(tie_of(c, number, d, *u, read))
                }
            },
        },
        _ => None,
    }
}

/// The next range number behind a tie.
fn number_behind(c: u32, tie: Tie) -> u32
    requires { c + 1 < 2 ^ 32 }
    ensures { result ≡ number_behind c tie }
{
    if tie.aside.is_some() { c + 1 } else { c }
}

/// What is done about an instruction's ties, in the order of the tied uses; `c` is the next range
/// number.
#[tactic(auto, using(crate::proofs::Seats::seats))]
pub fn ties_in(alloc: Global, target: &Target, c: u32, i: &Instr) -> Result<Vec<Tie>, AllocError>
    requires { c + length i.now.operands < 2 ^ 32 }
    ensures { IfOk result (λ made. made.items ≡ ties_in target.now c i.now) }
{
    let mut ties = Vec::new(alloc);
    let mut next = c;
    let mut left = roles_of(target, i);
    'each: for o in i.operands.as_slice() {
        let (role, behind) = next_role(left);
        left = behind;
        if let Some(tie) = tie_at(target, next, role, o, i) {
            next = number_behind(next, tie);
            ties.push(tie)?;
        }
    }
    Ok(ties)
}

/// The tie of the definition of that number, where it has one.
fn find_tie(number: usize, ties: &[Tie]) -> Option<Tie>
    ensures { result ≡ find (λ tie. nat_eq tie.number number) ties.now }
{
    ties.iter().copied().find(|tie| tie.number == number)
}

/// What is done about the definition of that number.
fn tie_to(number: usize, ties: &[Tie]) -> Tie
    ensures { result ≡ tie_to number ties.now }
{
    match find_tie(number, ties) {
        Some(tie) => tie,
        None => reading_only(number, None),
    }
}

/// The definition: without `undef`, and of the register that stands in for its own.
fn defined_aside(aside: Option<u32>, o: RegOp) -> RegOp
    ensures { result ≡ defined_aside aside o }
{
    match aside {
        None => RegOp { undef: false, ..o },
        Some(c) => RegOp {
            loc: Loc::Virtual(c),
            index: None,
            undef: false,
            ..o
        },
    }
}

/// An `undef` use of a physical register, where there is one.
fn undef_fixed(o: RegOp, r: Option<Reg>) -> RegOp
    ensures { result ≡ undef_fixed o r }
{
    match r {
        None => o,
        Some(r) => RegOp {
            loc: Loc::Fixed(r),
            undef: true,
            ..whole_use(0)
        },
    }
}

/// A use that isn't tied: an `undef` one becomes one of the first unreserved register of its class.
fn defined_use(target: &Target, classes: &[Option<ClassId>], role: Option<Role>, o: RegOp) -> RegOp
    ensures { result ≡ defined_use target.now classes.now role o }
{
    if is_virtual(o.loc) && !o.def && o.undef {
        undef_fixed(
            o,
            first_register(target, class_asked(target, classes, role, o)),
        )
    } else {
        o
    }
}

/// A use behind the pass: one that is tied to the definition of some number becomes what the tie
/// reads.
fn retied_use(
    target: &Target,
    classes: &[Option<ClassId>],
    ties: &[Tie],
    role: Option<Role>,
    o: RegOp,
) -> RegOp
    ensures { result ≡ retied_use target.now classes.now ties.now role o }
{
    match tied_number(role) {
        None => defined_use(target, classes, role, o),
        Some(number) => tie_to(number, ties).reading.unwrap_or(o),
    }
}

/// A register operand of that number behind the pass.
fn retie_register(
    target: &Target,
    classes: &[Option<ClassId>],
    ties: &[Tie],
    number: usize,
    role: Option<Role>,
    o: RegOp,
) -> RegOp
    ensures { result ≡ retied target.now classes.now ties.now number role o }
{
    if is_definition(&o) {
        return defined_aside(tie_to(number, ties).aside, o);
    }
    retied_use(target, classes, ties, role, o)
}

/// An operand of that number, with its role, behind the pass.
fn retied_operand(
    alloc: Global,
    target: &Target,
    classes: &[Option<ClassId>],
    ties: &[Tie],
    number: usize,
    bound: (Option<Role>, &Operand),
) -> Result<Operand, AllocError>
    ensures { IfOk result (λ made. made ≡ retied_operand target.now classes.now ties.now (number, (bound.entry.0, bound.entry.1.now))) }
{
    let (role, o) = bound;
    match o {
        Operand::Reg(r) => Ok(Operand::Reg(retie_register(
            target, classes, ties, number, role, *r,
        ))),
        _ => o.copied(alloc),
    }
}

/// Operands with these roles behind the pass.
#[tactic(auto, using(crate::proofs::Seats::seats))]
fn retied_operands(
    alloc: Global,
    target: &Target,
    classes: &[Option<ClassId>],
    ties: &[Tie],
    roles: &[Role],
    operands: &[Operand],
) -> Result<Operands, AllocError>
    ensures { IfOk result (λ made. made ≡ map (retied_operand target.now classes.now ties.now) (numbered 0 (explicit_bound (explicit_roles roles.now) operands.now))) }
{
    let mut made = Operands::new(alloc);
    let mut left = roles;
    'each: for (number, o) in operands.iter().enumerate() {
        let (role, behind) = next_role(left);
        left = behind;
        made.push(retied_operand(alloc, target, classes, ties, number, (role, o))?)?;
    }
    Ok(made)
}

/// The instruction with its ties and its uses lowered.
fn with_operands(
    alloc: Global,
    target: &Target,
    classes: &[Option<ClassId>],
    ties: &[Tie],
    i: &Instr,
) -> Result<Instr, AllocError>
    ensures { IfOk result (λ made. made ≡ with_operands target.now classes.now ties.now i.now) }
{
    let roles = roles_of(target, i);
    let operands = i.operands.as_slice();
    Ok(Instr {
        id: i.id,
        op: i.op.copied(alloc)?,
        flags: i.flags.copied(alloc)?,
        operands: retied_operands(alloc, target, classes, ties, roles, operands)?,
        tail: i.tail.copied(alloc)?,
    })
}

/// Puts a copy, where there is one, behind the others.
fn push_copies(alloc: Global, m: Option<Move>, out: &mut Vec<Instr>) -> Result<(), AllocError>
    ensures { OnOk result (out.new.items ≡ out.old.items ++ copies m) }
{
    if let Some(m) = m {
        out.push(copy_of(alloc, m.to, m.from)?)?;
    }
    Ok(())
}

/// Puts the copies before an instruction with these ties behind the others.
fn push_before(alloc: Global, ties: &[Tie], out: &mut Vec<Instr>) -> Result<(), AllocError>
    ensures { OnOk result (out.new.items ≡ out.old.items ++ flat_map (λ tie. copies tie.before) ties.now) }
{
    'each: for tie in ties {
        push_copies(alloc, tie.before, out)?;
    }
    Ok(())
}

/// Puts the copies behind an instruction with these ties behind the others.
fn push_after(alloc: Global, ties: &[Tie], out: &mut Vec<Instr>) -> Result<(), AllocError>
    ensures { OnOk result (out.new.items ≡ out.old.items ++ flat_map (λ tie. copies tie.after) ties.now) }
{
    'each: for tie in ties {
        push_copies(alloc, tie.after, out)?;
    }
    Ok(())
}

/// Puts an instruction of most opcodes, with these ties lowered, behind the others.
pub fn push_tied(
    alloc: Global,
    target: &Target,
    classes: &[Option<ClassId>],
    ties: &[Tie],
    i: &Instr,
    out: &mut Vec<Instr>,
) -> Result<(), AllocError>
    ensures { OnOk result (out.new.items ≡ out.old.items ++ with_ties target.now classes.now ties.now i.now) }
{
    push_before(alloc, ties, out)?;
    out.push(with_operands(alloc, target, classes, ties, i)?)?;
    push_after(alloc, ties, out)
}

/// Where the operand is an `undef` definition, puts what makes all of its register undefined
/// behind the others.
fn push_undefined_by(alloc: Global, o: &Operand, out: &mut Vec<Instr>) -> Result<(), AllocError>
    ensures { OnOk result (out.new.items ≡ out.old.items ++ undefined_first o.now) }
{
    if let Operand::Reg(d) = o {
        if is_definition(d) && d.undef {
            if let Loc::Virtual(v) = d.loc {
                out.push(implicit_def_of(alloc, whole_definition(v))?)?;
            }
        }
    }
    Ok(())
}

/// Puts what makes the registers of `undef` definitions among the operands undefined behind the
/// others.
pub fn push_undefined(
    alloc: Global,
    operands: &[Operand],
    out: &mut Vec<Instr>,
) -> Result<(), AllocError>
    ensures { OnOk result (out.new.items ≡ out.old.items ++ flat_map undefined_first operands.now) }
{
    'each: for o in operands {
        push_undefined_by(alloc, o, out)?;
    }
    Ok(())
}

/// The class that the role of the definition of that number asks for, where these are the roles
/// of the opcode.
pub fn definition_class(roles: &[Role], number: usize) -> Option<ClassId>
    ensures { result ≡ definition_class roles.now number }
{
    match roles.get(number) {
        None => None,
        Some(r) => class_of(*r),
    }
}

/// What becomes of a copy: of what is undefined an IMPLICIT_DEF, with the copy's flags and tail.
pub fn copy_lowered(alloc: Global, i: &Instr, d: RegOp, s: RegOp) -> Result<Instr, AllocError>
    ensures { IfOk result (λ made. made ≡ copy_lowered i.now d s) }
{
    let mut operands = Operands::new(alloc);
    let op = if s.undef {
        operands.push(Operand::Reg(destination_of(d)))?;
        Op::Known(IMPLICIT_DEF)
    } else {
        operands.push(Operand::Reg(RegOp { undef: false, ..d }))?;
        operands.push(Operand::Reg(s))?;
        i.op.copied(alloc)?
    };
    Ok(Instr {
        id: i.id,
        op,
        flags: i.flags.copied(alloc)?,
        operands,
        tail: i.tail.copied(alloc)?,
    })
}
