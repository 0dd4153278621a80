//! The checker of allocations, asked for more: whether reserved units hold in the allocated function's
//! run what they hold in the source's, too.

ghost use Rattle.std.specs.Prelude.{◌≡◌, ◌∷◌, ◌++◌, [], map, IsTrue, IfOk, OnOk};
ghost use Rattle.meaning.specs.declared.types.Source.TheVariants.{FromLane};
ghost use Rattle.mir_meaning.specs.Registers.{unit_lanes};
ghost use Rattle.mir_meaning.specs.Codes.{refines};
ghost use Rattle.alloc_check.specs.Bare.{AreSides};
ghost use Rattle.alloc_check.specs.Verdict.{AreAlike, IsRight};
ghost use Rattle.alloc_check.specs.Looks.{looking, looked_at, KeepsReserved};
ghost use Rattle.alloc_check.specs.LookRows.{look_row, row_with_look, rows_with_looks};

use crate::check::finds;
use crate::doubts::first_unlike;
use crate::family::shape_of;
use crate::fitting::fits;
use crate::rows::{Rows, rows_of};
use crate::written::written_units;
use machine_verify::{VerifyStop, names_virtual, verify_allocated};
use meaning::{Lane, Reads, Rest, Row, Source};
use mir_func::{Func, Valid};
use std::alloc::{AllocError, Global};
use target_base::{Effect, List, OpaqueKind, Target, Unit};

/// An opaque instruction that has no name, writes nothing and goes on.
fn look_rest(alloc: Global) -> Rest
    ensures { result ≡ looking }
{
    Rest {
        effect: Effect::Opaque(OpaqueKind::Plain),
        widths: List::new(alloc),
        result: List::new(alloc),
        immediate: 0,
        symbol: List::new(alloc),
        needed: List::new(alloc),
    }
}

/// An operand that is made of these units.
fn looked_at(alloc: Global, units: &[Unit]) -> Result<Reads, AllocError>
    ensures { IfOk result (λ reads. reads ≡ looked_at units.now) }
{
    let mut sources = List::new(alloc);
    for u in units {
        sources.push(Source::FromLane(Lane::UnitLane(u.0 as u32)))?;
    }
    let mut reads = List::new(alloc);
    reads.push(sources)?;
    Ok(reads)
}

/// A look of both functions at these units.
fn look_row(alloc: Global, units: &[Unit]) -> Result<Row, AllocError>
    ensures { IfOk result (λ row. row ≡ look_row units.now) }
{
    let first = looked_at(alloc, units)?;
    let second = looked_at(alloc, units)?;
    Ok(Row::BothCounted(
        look_rest(alloc),
        first,
        second,
        List::new(alloc),
        List::new(alloc),
        None,
        List::new(alloc),
    ))
}

/// Puts a row among the rows, and before a counted pair a look at these units.
fn push_with_look(
    rows: &mut Rows,
    alloc: Global,
    units: &[Unit],
    row: Row,
) -> Result<(), AllocError>
    ensures { OnOk result (rows.new ≡ rows.old ++ row_with_look units.now row) }
{
    if let Row::BothCounted(_, _, _, _, _, _, _) = &row {
        rows.push(look_row(alloc, units)?)?;
    }
    rows.push(row)
}

/// The rows with a look at these units before each counted pair.
fn rows_with_looks(alloc: Global, units: &[Unit], rows: Rows) -> Result<Rows, AllocError>
    ensures { IfOk result (λ made. made ≡ rows_with_looks units.now rows) }
{
    let mut made = List::new(alloc);
    for row in rows.into_vec() {
        push_with_look(&mut made, alloc, units, row)?;
    }
    Ok(made)
}

/// Whether a family of facts gives each counted pair of the rows what it needs, and shows that reserved
/// units hold the same before it.
fn hold_with_looks(
    alloc: Global,
    t: &Target,
    f: &Func,
    g: &Func,
    rows: Rows,
) -> Result<bool, AllocError>
    requires { AreSides t.now f.now g.now rows }
    ensures refines { IfOk result (λ yes. IsTrue yes → refines t.now f.now g.now) }
    ensures reserved { IfOk result (λ yes. IsTrue yes → KeepsReserved t.now f.now g.now) }
{
    let looked = written_units(alloc, t.reserved.as_slice(), rows.as_slice())?;
    let rows = rows_with_looks(alloc, looked.as_slice(), rows)?;
    let rows = rows.as_slice();
    let shape = shape_of(alloc, rows)?;
    finds(alloc, t, f, g, rows, &shape)
}

/// Whether the functions match, and a family of facts gives what is needed, and shows the same of
/// reserved units.
fn compare_with_looks(
    alloc: Global,
    target: &Target,
    source: &Func,
    allocated: &Func,
) -> Result<bool, AllocError>
    ensures alike { IfOk result (λ yes. IsTrue yes → AreAlike target.now source.now allocated.now) }
    ensures refines { IfOk result (λ yes. IsTrue yes → refines target.now source.now allocated.now) }
    ensures reserved { IfOk result (λ yes. IsTrue yes → KeepsReserved target.now source.now allocated.now) }
{
    if first_unlike(alloc, target, source, allocated)?.is_some() {
        return Ok(false);
    }
    match rows_of(alloc, target, source, allocated)? {
        None => Ok(false),
        Some(rows) => hold_with_looks(alloc, target, source, allocated, rows),
    }
}

/// Whether an allocated function, whoever made it, is right for its source as `check_pair` says it, and
/// holds in its reserved units at each counted instruction what the source holds there. So no
/// instruction that was put in changes a stack pointer or a register of zeros under an event, though
/// no event shows these.
#[tactic(auto, using(crate::proofs::Classes::valid_of))]
pub fn check_reserved(
    alloc: Global,
    target: &Target,
    source: &Valid,
    allocated: &Func,
) -> Result<bool, AllocError>
    ensures right { IfOk result (λ yes. IsTrue yes → IsRight target.now source.now.func allocated.now) }
    ensures reserved { IfOk result (λ yes. IsTrue yes → KeepsReserved target.now source.now.func allocated.now) }
{
    if !fits(target, allocated) || names_virtual(allocated) {
        return Ok(false);
    }
    match verify_allocated(alloc, target, allocated) {
        Ok(()) => compare_with_looks(alloc, target, &source.func, allocated),
        Err(VerifyStop::Invalid(_)) => Ok(false),
        Err(VerifyStop::Memory(e)) => Err(e),
    }
}
