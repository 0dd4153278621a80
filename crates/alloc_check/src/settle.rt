//! The search that decides whether some family of facts gives rows what they need. It begins with no
//! facts. Passes over the rows, the last first, ask at the starts of blocks for what the facts so far
//! need there, and so for nothing that a family can do without; once they need nothing more, they are
//! the least family.

ghost use Rattle.std.specs.Prelude.{[], IfOk, OnOk, true};
ghost use Rattle.meaning.specs.declared.types.Row.TheVariants.{BothStart};
ghost use Rattle.meaning.specs.Agree.{Family as SomeFamily};
ghost use Rattle.alloc_check.specs.Asking.{asking, asked_to};
ghost use Rattle.alloc_check.specs.Families.{IsPassed, MeetsRow, Passes, Decides, PutsAt};

use crate::closed::{Family, before_asking, facts_at};
use crate::facts::Facts;
use crate::needs::{Needs, needs_of};
use crate::start::all_start;
use meaning::Row;
use mir_func::Func;
use std::alloc::{AllocError, Global};
use target_base::{List, Target};

/// What a pass over rows, the last first, has come to.
#[derive(Drop)]
pub struct Pass {
    /// What is needed in front of the rows.
    needs: Needs,
    /// Whether the facts at each start that was met gave what was needed there.
    settled: bool,
}

/// A pass that has met no row.
fn new_pass(alloc: Global) -> Result<Pass, AllocError>
    ensures { IfOk result (λ pass. (family : SomeFamily) → IsPassed family family [] pass) }
{
    Ok(Pass {
        needs: Needs::new(alloc)?,
        settled: true,
    })
}

/// Puts facts in the place of those at the start of a block.
fn put(alloc: Global, family: &mut Family, n: u32, facts: Facts) -> Result<(), AllocError>
    ensures { OnOk result (PutsAt family.old n facts family.new) }
{
    for k in 0..family.len() {
        if family.get(k).0 == n {
            *family.get_mut(k) = (n, facts);
            return Ok(());
        }
    }
    family.push((n, facts))
}

/// Takes a pass to a block's start. Where the block's facts don't give what is needed, that takes their
/// place.
fn pass_start(alloc: Global, family: &mut Family, n: u32, pass: &mut Pass) -> Result<(), AllocError>
    ensures { OnOk result (MeetsRow family.old (BothStart n) pass.old true family.new pass.new) }
{
    let asked = pass.needs.list(alloc)?;
    let start = needs_of(alloc, facts_at(family, n))?;
    if start.covers(asked.as_slice()) {
        pass.needs = start;
        return Ok(());
    }
    pass.settled = false;
    put(alloc, family, n, asked)
}

/// Takes a pass to the place before a row, of which a counted pair asks for what it reads only where
/// `reads` says so. False where the row can't hold.
fn pass_row(
    alloc: Global,
    family: &mut Family,
    row: &Row,
    reads: bool,
    pass: &mut Pass,
) -> Result<bool, AllocError>
    ensures { IfOk result (λ yes. MeetsRow family.old (asking reads row.now) pass.old yes family.new pass.new) }
{
    match row {
        Row::BothStart(n) => {
            pass_start(alloc, family, *n, pass)?;
            Ok(true)
        }
        _ => before_asking(alloc, family, row, reads, &mut pass.needs),
    }
}

/// One pass over all rows, of which those from a place on ask for nothing that they read. None where
/// some row can't hold.
fn pass_over(
    alloc: Global,
    family: &mut Family,
    rows: &[Row],
    asking: usize,
) -> Result<Option<Pass>, AllocError>
    ensures { IfOk result (λ made. Passes family.old (asked_to asking rows.now) family.new made) }
{
    let mut pass = new_pass(alloc)?;
    let mut k = rows.len();
    while k > 0 {
        k -= 1;
        let reads = k < asking;
        if !pass_row(alloc, family, &rows[k], reads, &mut pass)? {
            return Ok(None);
        }
    }
    Ok(Some(pass))
}

/// Whether some family of facts gives the rows before a place what they need, from the start of both
/// functions; those from it on ask for nothing that they read. Each
/// pass but the last needs facts that weren't needed before; so many passes that their number hasn't
/// 32 bits would need more facts than memory has room for, and end as it does.
pub fn decide(
    alloc: Global,
    t: &Target,
    f: &Func,
    g: &Func,
    rows: &[Row],
    asking: usize,
) -> Result<bool, AllocError>
    ensures { IfOk result (Decides t.now f.now g.now (asked_to asking rows.now)) }
{
    let mut family = List::new(alloc);
    for _ in 0..u32::MAX {
        match pass_over(alloc, &mut family, rows, asking)? {
            None => return Ok(false),
            Some(pass) => {
                if pass.settled {
                    return Ok(all_start(t, f, g, pass.needs.list(alloc)?.as_slice()));
                }
            }
        }
    }
    Err(AllocError)
}
