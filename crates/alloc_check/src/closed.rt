//! The test that a family of facts holds on every way into a block, and gives what each pair of
//! counted instructions needs. It goes backward: what rows need behind an instruction is taken to
//! the place before it, until it meets the facts of a block's start.

ghost use Rattle.std.specs.Prelude.{◌≡◌, ◌&&◌, [], IsTrue, IfOk, IfSome, true, List, Option, Some, None};
ghost use Rattle.meaning.specs.declared.types.Row.{Row as ARow};
ghost use Rattle.meaning.specs.declared.types.Row.TheVariants.{BothStart, BothEnd, FirstSilent, SecondSilent, BothCounted};
ghost use Rattle.meaning.specs.Facts.{Facts as SomeFacts, Knowledge, all_known, known_first, known_second, known_both, operands_known};
ghost use Rattle.meaning.specs.Agree.{Family as SomeFamily, facts_at, ways_hold, target_holds, rows_hold};
ghost use Rattle.meaning.specs.declared.types.Rest.{Rest as ARest};
ghost use Rattle.meaning.specs.declared.types.EdgePair.{EdgePair as SomeWays};
ghost use Rattle.meaning.specs.Lanes.{Reads, Writes as SomeWrites};
ghost use Rattle.alloc_check.specs.Needs.{Lead, Adds, Least, Carry, Suffice, behind_falls, Leave, writes_ask, row_asks};
ghost use Rattle.alloc_check.specs.Cells.{asked};
ghost use Rattle.alloc_check.specs.Asking.{asking};

use crate::facts::{Fact, Facts};
use crate::needs::{Needs, add_along, add_before, add_operands, needs_of};
use meaning::{EdgePair, Row, Source, Write, Writes};
use std::alloc::{AllocError, Global};
use target_base::List;

/// For each block, by its number, the facts at its start.
pub type Family = List<(u32, Facts)>;

/// The facts at the start of a block.
pub fn facts_at(family: &Family, n: u32) -> &[Fact]
    ensures { result.now ≡ facts_at family.now n }
{
    for b in family.as_slice() {
        if b.0 == n {
            return b.1.as_slice();
        }
    }
    &[]
}

/// Asks for what the facts of blocks need on the ways into them.
fn add_ways(
    alloc: Global,
    family: &Family,
    exits: &[EdgePair],
    needs: &mut Needs,
) -> Result<bool, AllocError>
    ensures enough { IfOk result (λ yes. IsTrue yes → Adds (asked needs.old) (λ k. ways_hold family.now k exits.now) (asked needs.new)) }
    ensures least { IfOk result (λ yes. Least (λ k. ways_hold family.now k exits.now && all_known k (asked needs.old)) yes (asked needs.new)) }
{
    for e in exits {
        if !add_along(alloc, needs, e, facts_at(family, e.block))? {
            return Ok(false);
        }
    }
    Ok(true)
}

fn add_target(
    alloc: Global,
    family: &Family,
    target: &Option<EdgePair>,
    needs: &mut Needs,
) -> Result<bool, AllocError>
    ensures enough { IfOk result (λ yes. IsTrue yes → Adds (asked needs.old) (λ k. target_holds family.now k target.now) (asked needs.new)) }
    ensures least { IfOk result (λ yes. Least (λ k. target_holds family.now k target.now && all_known k (asked needs.old)) yes (asked needs.new)) }
{
    match target {
        None => Ok(true),
        Some(e) => add_along(alloc, needs, e, facts_at(family, e.block)),
    }
}

/// Takes needs to the place before a counted instruction of both. Only what it writes is looked at.
fn step_both(
    alloc: Global,
    first: &[Write],
    second: &[Write],
    needs: &mut Needs,
) -> Result<bool, AllocError>
    ensures enough { IfOk result (λ yes. IsTrue yes → Lead (asked needs.new) (λ k. all_known (known_both first.now second.now k) (asked needs.old))) }
    ensures least { IfOk result (λ yes. Least (λ k. all_known (known_both first.now second.now k) (asked needs.old)) yes (asked needs.new)) }
{
    let taken = needs.take_written(alloc, first, second)?;
    add_before(alloc, needs, first, second, taken.as_slice())
}

/// Takes needs to the place before writes of the first function.
fn step_first(alloc: Global, writes: &[Write], needs: &mut Needs) -> Result<bool, AllocError>
    ensures enough { IfOk result (λ yes. IsTrue yes → Lead (asked needs.new) (λ k. all_known (known_first writes.now k) (asked needs.old))) }
    ensures least { IfOk result (λ yes. Least (λ k. all_known (known_first writes.now k) (asked needs.old)) yes (asked needs.new)) }
{
    step_both(alloc, writes, &[], needs)
}

/// The same of the second function.
fn step_second(alloc: Global, writes: &[Write], needs: &mut Needs) -> Result<bool, AllocError>
    ensures enough { IfOk result (λ yes. IsTrue yes → Lead (asked needs.new) (λ k. all_known (known_second writes.now k) (asked needs.old))) }
    ensures least { IfOk result (λ yes. Least (λ k. all_known (known_second writes.now k) (asked needs.old)) yes (asked needs.new)) }
{
    step_both(alloc, &[], writes, needs)
}

/// Takes needs to a block's start, where the block's facts are to give them.
fn before_start(
    alloc: Global,
    family: &Family,
    n: u32,
    needs: &mut Needs,
) -> Result<bool, AllocError>
    ensures { IfOk result (λ yes. IsTrue yes → Carry family.now (BothStart n) (asked needs.old) (asked needs.new)) }
{
    let start = needs_of(alloc, facts_at(family, n))?;
    if !start.covers(needs.list(alloc)?.as_slice()) {
        return Ok(false);
    }
    *needs = start;
    Ok(true)
}

/// Where control doesn't fall out of a block, nothing is asked.
fn before_nothing(alloc: Global, needs: &mut Needs) -> Result<bool, AllocError>
    ensures enough { IfOk result (λ yes. IsTrue yes → (family : SomeFamily) (rows : List ARow) → Suffice family rows (asked needs.old) → Lead (asked needs.new) (λ k. rows_hold family rows (behind_falls None k))) }
    ensures least { IfOk result (λ yes. Least (λ k. all_known (behind_falls None k) (asked needs.old)) yes (asked needs.new)) }
{
    let nothing = Needs::new(alloc)?;
    *needs = nothing;
    Ok(true)
}

/// Takes needs from the start of the next block to the end of this one.
fn before_phis(
    alloc: Global,
    first: &[Write],
    second: &[Write],
    needs: &mut Needs,
) -> Result<bool, AllocError>
    ensures enough { IfOk result (λ yes. IsTrue yes → (family : SomeFamily) (rows : List ARow) → Suffice family rows (asked needs.old) → Lead (asked needs.new) (λ k. rows_hold family rows (behind_falls (Some (first.now, second.now)) k))) }
    ensures least { IfOk result (λ yes. Least (λ k. all_known (behind_falls (Some (first.now, second.now)) k) (asked needs.old)) yes (asked needs.new)) }
{
    if !step_second(alloc, second, needs)? {
        return Ok(false);
    }
    step_first(alloc, first, needs)
}

/// Takes needs from the start of the next block to the end of this one.
fn before_falls(
    alloc: Global,
    falls: &Option<(Writes, Writes)>,
    needs: &mut Needs,
) -> Result<bool, AllocError>
    ensures enough { IfOk result (λ yes. IsTrue yes → (family : SomeFamily) (rows : List ARow) → Suffice family rows (asked needs.old) → Lead (asked needs.new) (λ k. rows_hold family rows (behind_falls falls.now k))) }
    ensures least { IfOk result (λ yes. Least (λ k. all_known (behind_falls falls.now k) (asked needs.old)) yes (asked needs.new)) }
{
    match falls {
        None => before_nothing(alloc, needs),
        Some(e) => before_phis(alloc, e.0.as_slice(), e.1.as_slice(), needs),
    }
}

fn before_end(
    alloc: Global,
    family: &Family,
    falls: &Option<(Writes, Writes)>,
    exits: &List<EdgePair>,
    needs: &mut Needs,
) -> Result<bool, AllocError>
    ensures enough { IfOk result (λ yes. IsTrue yes → Carry family.now (BothEnd falls.now exits.now) (asked needs.old) (asked needs.new)) }
    ensures least { IfOk result (λ yes. Least (row_asks family.now (BothEnd falls.now exits.now) (asked needs.old)) yes (asked needs.new)) }
{
    if !before_falls(alloc, falls, needs)? {
        return Ok(false);
    }
    add_ways(alloc, family, exits.as_slice(), needs)
}

/// What a pair of counted instructions leaves behind: what both write, and the ways that paths take
/// from it.
#[derive(Clone, Copy)]
struct PairExit<'a> {
    /// What the first function's instruction writes.
    first: &'a [Write],
    /// What the second function's writes.
    second: &'a [Write],
    /// The way to its target, if it has one.
    target: &'a Option<EdgePair>,
    /// The ways from its exit, beside the next instruction.
    exits: &'a List<EdgePair>,
}

/// Takes needs to the place before what a pair of counted instructions leaves behind.
fn before_writes(
    alloc: Global,
    family: &Family,
    leaving: &PairExit<'_>,
    needs: &mut Needs,
) -> Result<bool, AllocError>
    ensures enough { IfOk result (λ yes. IsTrue yes → Leave family.now leaving.now.first.now leaving.now.second.now leaving.now.target.now leaving.now.exits.now (asked needs.old) (asked needs.new)) }
    ensures least { IfOk result (λ yes. Least (writes_ask family.now leaving.now.first.now leaving.now.second.now leaving.now.target.now leaving.now.exits.now (asked needs.old)) yes (asked needs.new)) }
{
    if !add_target(alloc, family, leaving.target, needs)? {
        return Ok(false);
    }
    if !add_ways(alloc, family, leaving.exits.as_slice(), needs)? {
        return Ok(false);
    }
    step_both(alloc, leaving.first, leaving.second, needs)
}

fn before_first_silent(
    alloc: Global,
    writes: &List<Write>,
    needs: &mut Needs,
) -> Result<bool, AllocError>
    ensures enough { IfOk result (λ yes. IsTrue yes → (family : SomeFamily) (reads : Reads) → Carry family (FirstSilent reads writes.now) (asked needs.old) (asked needs.new)) }
    ensures least { IfOk result (λ yes. Least (λ k. all_known (known_first writes.now k) (asked needs.old)) yes (asked needs.new)) }
{
    step_first(alloc, writes.as_slice(), needs)
}

fn before_second_silent(
    alloc: Global,
    writes: &List<Write>,
    needs: &mut Needs,
) -> Result<bool, AllocError>
    ensures enough { IfOk result (λ yes. IsTrue yes → (family : SomeFamily) (reads : Reads) → Carry family (SecondSilent reads writes.now) (asked needs.old) (asked needs.new)) }
    ensures least { IfOk result (λ yes. Least (λ k. all_known (known_second writes.now k) (asked needs.old)) yes (asked needs.new)) }
{
    step_second(alloc, writes.as_slice(), needs)
}

/// What a counted pair reads.
fn before_reads(
    alloc: Global,
    left: &List<List<Source>>,
    right: &List<List<Source>>,
    needs: &mut Needs,
) -> Result<bool, AllocError>
    ensures enough { IfOk result (λ yes. IsTrue yes → (family : SomeFamily) (r : ARest) (ws vs : SomeWrites) (target : Option SomeWays) (exits : List SomeWays) (old : SomeFacts) → Leave family ws vs target exits old (asked needs.old) → Carry family (BothCounted r left.now right.now ws vs target exits) old (asked needs.new)) }
    ensures least { IfOk result (λ yes. Least (λ k. operands_known k left.now right.now && all_known k (asked needs.old)) yes (asked needs.new)) }
{
    add_operands(alloc, needs, left.as_slice(), right.as_slice())
}

/// Takes needs to the place before a row, of which a counted pair asks for what it reads only where
/// `reads` says so. False where the row can't hold.
pub fn before_asking(
    alloc: Global,
    family: &Family,
    row: &Row,
    reads: bool,
    needs: &mut Needs,
) -> Result<bool, AllocError>
    ensures enough { IfOk result (λ yes. IsTrue yes → Carry family.now (asking reads row.now) (asked needs.old) (asked needs.new)) }
    ensures least { IfOk result (λ yes. Least (row_asks family.now (asking reads row.now) (asked needs.old)) yes (asked needs.new)) }
{
    match row {
        Row::BothStart(n) => before_start(alloc, family, *n, needs),
        Row::BothEnd(falls, exits) => before_end(alloc, family, falls, exits, needs),
        Row::FirstSilent(_, writes) => before_first_silent(alloc, writes, needs),
        Row::SecondSilent(_, writes) => before_second_silent(alloc, writes, needs),
        Row::BothCounted(_, left, right, first, second, target, exits) => {
            let (first, second) = (first.as_slice(), second.as_slice());
            let leaving = PairExit {
                first,
                second,
                target,
                exits,
            };
            if !before_writes(alloc, family, &leaving, needs)? {
                return Ok(false);
            }
            if !reads {
                return Ok(true);
            }
            before_reads(alloc, left, right, needs)
        }
    }
}

/// Takes needs to the place before a row. False where the row can't hold.
pub fn before_row(
    alloc: Global,
    family: &Family,
    row: &Row,
    needs: &mut Needs,
) -> Result<bool, AllocError>
    ensures enough { IfOk result (λ yes. IsTrue yes → Carry family.now row.now (asked needs.old) (asked needs.new)) }
    ensures least { IfOk result (λ yes. Least (row_asks family.now row.now (asked needs.old)) yes (asked needs.new)) }
{
    before_asking(alloc, family, row, true, needs)
}

/// What must be known before the rows, so that they hold with this family. None where they can't.
pub fn needs_before(
    alloc: Global,
    family: &Family,
    rows: &[Row],
) -> Result<Option<Needs>, AllocError>
    ensures { IfOk result (λ made. IfSome made (λ needs. Suffice family.now rows.now (asked needs))) }
{
    let mut needs = Needs::new(alloc)?;
    let mut k = rows.len();
    while k > 0 {
        k -= 1;
        if !before_row(alloc, family, &rows[k], &mut needs)? {
            return Ok(None);
        }
    }
    Ok(Some(needs))
}
