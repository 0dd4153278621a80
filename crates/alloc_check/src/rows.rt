//! Two functions side by side, as rows.

ghost use Rattle.std.specs.Prelude.{◌≡◌, ◌<◌, ◌≤◌, ◌+◌, ◌++◌, ◌∷◌, [], IsTrue, IfOk, OnOk, IfSome, MatchOption, true, false, cond, length, option_map, take, drop, slice_index_or};
ghost use Rattle.meaning.specs.declared.types.Row.TheVariants.{BothCounted};
ghost use Rattle.meaning.specs.Rows.{first_edge, second_edge, first_target, second_target, first_falls, second_falls};
ghost use Rattle.meaning.specs.Sameness.{same_option};
ghost use Rattle.mir_func.specs.Binding.{does, is_terminator};
ghost use Rattle.mir_meaning.specs.Codes.{item_of, way, target_of, fallen_into, code_of};
ghost use Rattle.mir_meaning.specs.Agreement.{all_alike, blocks_alike, is_counted};
ghost use Rattle.alloc_check.specs.Bare.{bare_item, items, block_bare, shared_reads, needed_reads, Grown, SilentItem, CountedItem, InFirst, InSecond, AreSides, Passed, Stepped};
ghost use Rattle.alloc_check.specs.Compared.{compared, ordered, both_way, both_ways, IsSilent, Counts, AddsFirst, AddsSecond, PassesOver, PairGoes, GoesOn, GoesThrough, BlockGoes};

use crate::rests::same_rest;
use instr_effects::items::counted::{reads_of, rest_of, values};
use instr_effects::items::results::counted_writes;
use instr_effects::items::silent::push_silent_writes;
use instr_effects::items::ways::{fallen_into, push_phis, target_of};
use meaning::{EdgePair, Reads, Rest, Row, Source, Writes};
use mir_func::opcodes::{effect_of, ends_block};
use mir_func::{Block, Func, Instr};
use std::alloc::{AllocError, Global};
use target_base::roles::is_silent;
use target_base::{Copied, Effect, List, Target};

/// Rows in layout order.
pub type Rows = List<Row>;

/// A block of each of two functions.
#[derive(Clone, Copy)]
struct BlockPair<'a> {
    /// The first function.
    f: &'a Func,
    /// The second function.
    g: &'a Func,
    /// The first function's block.
    b: &'a Block,
    /// The second function's block.
    c: &'a Block,
}

/// What a counted instruction does.
#[derive(Drop)]
struct CountedInstr {
    rest: Rest,
    reads: Reads,
    writes: Writes,
}

/// What a silent instruction writes; None for a counted one.
fn silent_writes(
    alloc: Global,
    t: &Target,
    f: &Func,
    b: &Block,
    i: &Instr,
) -> Result<Option<Writes>, AllocError>
    ensures sides { IfOk result (λ ws. SilentItem t.now f.now b.now i.now ws) }
    ensures exact { IfOk result (λ ws. IsSilent t.now f.now i.now ws) }
{
    match effect_of(t, i) {
        None => Ok(Some(List::new(alloc))),
        Some(e) => {
            if !is_silent(e) {
                return Ok(None);
            }
            let mut writes = List::new(alloc);
            push_silent_writes(&mut writes, alloc, t, f, e, i)?;
            Ok(Some(writes))
        }
    }
}

/// What a counted instruction does; None for a silent one.
fn counted_item(
    alloc: Global,
    t: &Target,
    f: &Func,
    b: &Block,
    i: &Instr,
) -> Result<Option<CountedInstr>, AllocError>
    ensures sides { IfOk result (λ made. IfSome made (λ c. CountedItem t.now f.now b.now i.now c.rest c.reads c.writes)) }
    ensures exact { IfOk result (λ made. MatchOption made (is_counted t.now i.now ≡ false) (λ c. Counts t.now f.now i.now c.rest c.reads c.writes)) }
{
    match effect_of(t, i) {
        None => Ok(None),
        Some(e) => {
            if is_silent(e) {
                return Ok(None);
            }
            let read = values(alloc, t, f, e, i)?;
            let rest = rest_of(alloc, t, f, e, i, read.as_slice())?;
            let reads = reads_of(alloc, read.as_slice())?;
            let writes = counted_writes(alloc, t, f, e, i)?;
            Ok(Some(CountedInstr {
                rest,
                reads,
                writes,
            }))
        }
    }
}

/// Puts a silent instruction of the first function among the rows. False for a counted one.
fn push_first(
    rows: &mut Rows,
    alloc: Global,
    t: &Target,
    f: &Func,
    b: &Block,
    i: &Instr,
) -> Result<bool, AllocError>
    ensures sides { IfOk result (λ yes. InFirst t.now f.now b.now i.now rows.old rows.new yes) }
    ensures exact { IfOk result (λ yes. AddsFirst t.now f.now i.now rows.old rows.new yes) }
{
    match silent_writes(alloc, t, f, b, i)? {
        None => Ok(false),
        Some(writes) => {
            rows.push(Row::FirstSilent(List::new(alloc), writes))?;
            Ok(true)
        }
    }
}

/// The same of the second function.
fn push_second(
    rows: &mut Rows,
    alloc: Global,
    t: &Target,
    g: &Func,
    c: &Block,
    i: &Instr,
) -> Result<bool, AllocError>
    ensures sides { IfOk result (λ yes. InSecond t.now g.now c.now i.now rows.old rows.new yes) }
    ensures exact { IfOk result (λ yes. AddsSecond t.now g.now i.now rows.old rows.new yes) }
{
    match silent_writes(alloc, t, g, c, i)? {
        None => Ok(false),
        Some(writes) => {
            rows.push(Row::SecondSilent(List::new(alloc), writes))?;
            Ok(true)
        }
    }
}

/// Puts the silent instructions of the second function's block, from the j-th up to the next
/// counted one, among the rows; answers the place of that one, or the block's length.
fn push_seconds(
    rows: &mut Rows,
    alloc: Global,
    t: &Target,
    g: &Func,
    c: &Block,
    from: usize,
) -> Result<usize, AllocError>
    requires { from ≤ length c.now.instrs }
    ensures sides { IfOk result (λ j. Passed t.now g.now c.now from j rows.old rows.new) }
    ensures exact { IfOk result (λ j. PassesOver t.now g.now c.now from j rows.old rows.new) }
{
    let mut j = from;
    while j < c.instrs.len() {
        if !push_second(rows, alloc, t, g, c, c.instrs.get(j))? {
            return Ok(j);
        }
        j += 1;
    }
    Ok(j)
}

/// A way into block m from block n, in both functions.
fn way_to(
    alloc: Global,
    t: &Target,
    f: &Func,
    g: &Func,
    n: u32,
    m: u32,
) -> Result<EdgePair, AllocError>
    ensures sides { IfOk result (λ w. (first_edge w ≡ way t.now f.now n m) × (second_edge w ≡ way t.now g.now n m)) }
    ensures exact { IfOk result (λ w. w ≡ both_way t.now f.now g.now n m) }
{
    let mut first = List::new(alloc);
    push_phis(&mut first, alloc, t, f, n, m)?;
    let mut second = List::new(alloc);
    push_phis(&mut second, alloc, t, g, n, m)?;
    Ok(EdgePair {
        block: m,
        first,
        second,
    })
}

/// The way to a target, if there is one.
fn target_way(
    alloc: Global,
    t: &Target,
    f: &Func,
    g: &Func,
    n: u32,
    target: Option<u32>,
) -> Result<Option<EdgePair>, AllocError>
    ensures sides { IfOk result (λ w. (first_target w ≡ option_map (way t.now f.now n) target) × (second_target w ≡ option_map (way t.now g.now n) target)) }
    ensures exact { IfOk result (λ w. w ≡ option_map (both_way t.now f.now g.now n) target) }
{
    match target {
        None => Ok(None),
        Some(m) => Ok(Some(way_to(alloc, t, f, g, n, m)?)),
    }
}

/// What the phis of the block that control falls into write, if it does.
fn falls_of(
    alloc: Global,
    t: &Target,
    f: &Func,
    g: &Func,
    n: u32,
    into: Option<u32>,
) -> Result<Option<(Writes, Writes)>, AllocError>
    ensures { IfOk result (λ w. (first_falls w ≡ option_map (λ m. (way t.now f.now n m).phis) into) × (second_falls w ≡ option_map (λ m. (way t.now g.now n m).phis) into)) }
{
    match into {
        None => Ok(None),
        Some(m) => {
            let ways = way_to(alloc, t, f, g, n, m)?;
            Ok(Some((ways.first, ways.second)))
        }
    }
}

/// The ways out of a block to all its successors.
fn exits_of(
    alloc: Global,
    t: &Target,
    f: &Func,
    g: &Func,
    b: &Block,
) -> Result<List<EdgePair>, AllocError>
    ensures { IfOk result (λ made. made ≡ both_ways t.now f.now g.now b.now) }
{
    let mut made = List::new(alloc);
    for e in b.successors.as_slice() {
        made.push(way_to(alloc, t, f, g, b.number, e.block)?)?;
    }
    Ok(made)
}

/// The ways that paths take from the exit of an instruction, beside the next one.
fn exits_at(
    alloc: Global,
    t: &Target,
    f: &Func,
    g: &Func,
    b: &Block,
    i: &Instr,
) -> Result<List<EdgePair>, AllocError>
    ensures { IfOk result (λ made. made ≡ cond (does is_terminator t.now i.now) (both_ways t.now f.now g.now b.now) []) }
{
    match effect_of(t, i) {
        None => Ok(List::new(alloc)),
        Some(e) => {
            if ends_block(e) {
                exits_of(alloc, t, f, g, b)
            } else {
                Ok(List::new(alloc))
            }
        }
    }
}

fn same_number(a: Option<u32>, b: Option<u32>) -> bool
    ensures equal { IsTrue result → a ≡ b }
    ensures exact { result ≡ same_option a b }
{
    match (a, b) {
        (None, None) => true,
        (Some(m), Some(n)) => m == n,
        _ => false,
    }
}

/// Sources that are equal to these.
fn copies_of(alloc: Global, sources: &[Source]) -> Result<List<Source>, AllocError>
    ensures { IfOk result (λ made. made ≡ sources.now) }
{
    let mut made = List::new(alloc);
    for s in sources {
        made.push(s.copied(alloc)?)?;
    }
    Ok(made)
}

/// The first sources, at most so many.
fn first_sources(alloc: Global, sources: &[Source], most: usize) -> Result<List<Source>, AllocError>
    ensures { IfOk result (λ made. made ≡ take most sources.now) }
{
    if most < sources.len() {
        return copies_of(alloc, &sources[..most]);
    }
    copies_of(alloc, sources)
}

/// Operand by operand the sources at whose places the partner's operand has one.
fn shared_reads(
    alloc: Global,
    reads: &[List<Source>],
    others: &[List<Source>],
) -> Result<Reads, AllocError>
    ensures { IfOk result (λ made. made ≡ shared_reads reads.now others.now) }
{
    let mut made = List::new(alloc);
    for k in 0..reads.len() {
        if k >= others.len() {
            return Ok(made);
        }
        made.push(first_sources(alloc, reads[k].as_slice(), others[k].len())?)?;
    }
    Ok(made)
}

/// What each of a pair of counted instructions reads of which facts are needed.
fn needed_reads(
    alloc: Global,
    e: Effect,
    left: Reads,
    right: Reads,
) -> Result<(Reads, Reads), AllocError>
    ensures { IfOk result (λ made. (made.0 ≡ needed_reads e left right) × (made.1 ≡ needed_reads e right left)) }
{
    match e {
        Effect::Marker => {
            let first = shared_reads(alloc, left.as_slice(), right.as_slice())?;
            let second = shared_reads(alloc, right.as_slice(), left.as_slice())?;
            Ok((first, second))
        }
        _ => Ok((left, right)),
    }
}

/// What two instructions do; None where one of them isn't counted.
fn counted_items(
    alloc: Global,
    t: &Target,
    pair: &BlockPair<'_>,
    i: &Instr,
    x: &Instr,
) -> Result<Option<(CountedInstr, CountedInstr)>, AllocError>
    ensures sides { IfOk result (λ made. IfSome made (λ both. CountedItem t.now pair.now.f.now pair.now.b.now i.now both.0.rest both.0.reads both.0.writes × CountedItem t.now pair.now.g.now pair.now.c.now x.now both.1.rest both.1.reads both.1.writes)) }
    ensures exact { IfOk result (λ made. MatchOption made (is_counted t.now i.now ≡ true → is_counted t.now x.now ≡ true → ⊥) (λ both. Counts t.now pair.now.f.now i.now both.0.rest both.0.reads both.0.writes × Counts t.now pair.now.g.now x.now both.1.rest both.1.reads both.1.writes)) }
{
    match counted_item(alloc, t, pair.f, pair.b, i)? {
        None => Ok(None),
        Some(left) => match counted_item(alloc, t, pair.g, pair.c, x)? {
            None => Ok(None),
            Some(right) => Ok(Some((left, right))),
        },
    }
}

/// The ways that paths take from an instruction: to its target, and from its exit, beside the next one.
fn ways_from(
    alloc: Global,
    t: &Target,
    f: &Func,
    g: &Func,
    b: &Block,
    i: &Instr,
) -> Result<(Option<EdgePair>, List<EdgePair>), AllocError>
    ensures sides { IfOk result (λ ways. (first_target ways.0 ≡ option_map (way t.now f.now b.now.number) (target_of i.now.operands)) × (second_target ways.0 ≡ option_map (way t.now g.now b.now.number) (target_of i.now.operands))) }
    ensures exact { IfOk result (λ ways. (ways.0 ≡ option_map (both_way t.now f.now g.now b.now.number) (target_of i.now.operands)) × (ways.1 ≡ cond (does is_terminator t.now i.now) (both_ways t.now f.now g.now b.now) [])) }
{
    let target = target_of(i.operands.as_slice());
    let way = target_way(alloc, t, f, g, b.number, target)?;
    let exits = exits_at(alloc, t, f, g, b, i)?;
    Ok((way, exits))
}

/// Puts what a pair of counted instructions do among the rows, with the ways that paths take from them.
fn push_both(
    rows: &mut Rows,
    alloc: Global,
    left: CountedInstr,
    right: CountedInstr,
    way: Option<EdgePair>,
    exits: List<EdgePair>,
) -> Result<(), AllocError>
    ensures { OnOk result (rows.new ≡ rows.old ++ BothCounted left.rest (needed_reads left.rest.effect left.reads right.reads) (needed_reads left.rest.effect right.reads left.reads) left.writes right.writes way exits ∷ []) }
{
    let needed = needed_reads(alloc, left.rest.effect, left.reads, right.reads)?;
    rows.push(Row::BothCounted(
        left.rest,
        needed.0,
        needed.1,
        left.writes,
        right.writes,
        way,
        exits,
    ))?;
    Ok(())
}

/// Puts a pair of counted instructions of two blocks among the rows. False where they aren't one.
fn push_pair(
    rows: &mut Rows,
    alloc: Global,
    t: &Target,
    pair: &BlockPair<'_>,
    i: &Instr,
    x: &Instr,
) -> Result<bool, AllocError>
    requires { pair.now.b.now.number ≡ pair.now.c.now.number }
    ensures sides { IfOk result (λ yes. IsTrue yes → Grown rows.old (bare_item (item_of t.now pair.now.f.now pair.now.b.now i.now) ∷ []) (bare_item (item_of t.now pair.now.g.now pair.now.c.now x.now) ∷ []) rows.new) }
    ensures exact { IfOk result (λ yes. PairGoes t.now pair.now.f.now pair.now.g.now pair.now.b.now pair.now.c.now i.now x.now rows.old rows.new yes) }
{
    let target = target_of(i.operands.as_slice());
    let other = target_of(x.operands.as_slice());
    if !same_number(target, other) {
        return Ok(false);
    }
    match counted_items(alloc, t, pair, i, x)? {
        None => Ok(false),
        Some(both) => {
            if !same_rest(&both.0.rest, &both.1.rest) {
                return Ok(false);
            }
            let ways = ways_from(alloc, t, pair.f, pair.g, pair.b, i)?;
            push_both(rows, alloc, both.0, both.1, ways.0, ways.1)?;
            Ok(true)
        }
    }
}

/// Puts an instruction of the first function's block among the rows; before a counted one the silent
/// ones of the second function's block from the j-th on, and with it its partner. Answers the place
/// behind those of the second block; None where there is no partner.
fn push_next(
    rows: &mut Rows,
    alloc: Global,
    t: &Target,
    pair: &BlockPair<'_>,
    i: &Instr,
    j: usize,
) -> Result<Option<usize>, AllocError>
    requires number { pair.now.b.now.number ≡ pair.now.c.now.number }
    requires within { j ≤ length pair.now.c.now.instrs }
    ensures sides { IfOk result (λ next. IfSome next (λ to. Stepped t.now pair.now.f.now pair.now.g.now pair.now.b.now pair.now.c.now i.now j to rows.old rows.new)) }
    ensures exact { IfOk result (λ next. all_alike blocks_alike pair.now.f.now.blocks pair.now.g.now.blocks ≡ true → GoesOn t.now pair.now.f.now pair.now.g.now pair.now.b.now pair.now.c.now i.now j rows.old rows.new next) }
{
    if push_first(rows, alloc, t, pair.f, pair.b, i)? {
        return Ok(Some(j));
    }
    let at = push_seconds(rows, alloc, t, pair.g, pair.c, j)?;
    if at >= pair.c.instrs.len() {
        return Ok(None);
    }
    if !push_pair(rows, alloc, t, pair, i, pair.c.instrs.get(at))? {
        return Ok(None);
    }
    Ok(Some(at + 1))
}

/// Puts the instructions of two blocks among the rows. False where they don't pair.
fn push_instrs(
    rows: &mut Rows,
    alloc: Global,
    t: &Target,
    pair: &BlockPair<'_>,
) -> Result<bool, AllocError>
    requires { pair.now.b.now.number ≡ pair.now.c.now.number }
    ensures sides { IfOk result (λ yes. IsTrue yes → Grown rows.old (items t.now pair.now.f.now pair.now.b.now pair.now.b.now.instrs) (items t.now pair.now.g.now pair.now.c.now pair.now.c.now.instrs) rows.new) }
    ensures exact { IfOk result (λ yes. all_alike blocks_alike pair.now.f.now.blocks pair.now.g.now.blocks ≡ true → GoesThrough t.now pair.now.f.now pair.now.g.now pair.now.b.now pair.now.c.now rows.old rows.new yes) }
{
    let mut j = 0;
    for i in pair.b.instrs.as_slice() {
        let i = i.get();
        match push_next(rows, alloc, t, pair, i, j)? {
            None => return Ok(false),
            Some(next) => j = next,
        }
    }
    let end = push_seconds(rows, alloc, t, pair.g, pair.c, j)?;
    if end < pair.c.instrs.len() {
        return Ok(false);
    }
    Ok(true)
}

/// The block that the k-th block falls into, where it falls into one: the next in layout.
fn falls_into(t: &Target, f: &Func, k: usize, b: &Block) -> Option<u32>
    requires { k < length f.now.blocks }
    ensures { result ≡ fallen_into t.now b.now (drop (k + 1) f.now.blocks) }
{
    let blocks = f.blocks.as_slice();
    fallen_into(t, b, &blocks[k + 1..])
}

/// The k-th block.
fn block_at(f: &Func, k: usize) -> &Block
    requires { k < length f.now.blocks }
    ensures { result.now ≡ slice_index_or f.now.blocks k result.now }
{
    f.blocks.get(k)
}

/// Puts the k-th blocks of two functions among the rows. False where they don't pair.
fn push_block(
    rows: &mut Rows,
    alloc: Global,
    t: &Target,
    k: usize,
    pair: &BlockPair<'_>,
) -> Result<bool, AllocError>
    requires first { k < length pair.now.f.now.blocks }
    requires second { k < length pair.now.g.now.blocks }
    ensures sides { IfOk result (λ yes. IsTrue yes → Grown rows.old (block_bare t.now pair.now.f.now pair.now.b.now (drop (k + 1) pair.now.f.now.blocks)) (block_bare t.now pair.now.g.now pair.now.c.now (drop (k + 1) pair.now.g.now.blocks)) rows.new) }
    ensures exact { IfOk result (λ yes. BlockGoes t.now pair.now.f.now pair.now.g.now k pair.now.b.now pair.now.c.now rows.old rows.new yes) }
{
    if pair.b.number != pair.c.number {
        return Ok(false);
    }
    rows.push(Row::BothStart(pair.b.number))?;
    if !push_instrs(rows, alloc, t, pair)? {
        return Ok(false);
    }
    let into = falls_into(t, pair.f, k, pair.b);
    let other = falls_into(t, pair.g, k, pair.c);
    if !same_number(into, other) {
        return Ok(false);
    }
    let falls = falls_of(alloc, t, pair.f, pair.g, pair.b.number, into)?;
    let exits = exits_of(alloc, t, pair.f, pair.g, pair.b)?;
    rows.push(Row::BothEnd(falls, exits))?;
    Ok(true)
}

/// The functions side by side, up to what only liveness looks at. None where they don't pair.
pub fn rows_of(alloc: Global, t: &Target, f: &Func, g: &Func) -> Result<Option<Rows>, AllocError>
    ensures sides { IfOk result (λ made. IfSome made (λ rows. AreSides t.now f.now g.now rows)) }
    ensures exact { IfOk result (λ made. all_alike blocks_alike f.now.blocks g.now.blocks ≡ true → made ≡ compared (code_of t.now f.now) (code_of t.now (ordered f.now g.now))) }
{
    if f.block_count() != g.block_count() {
        return Ok(None);
    }
    let mut rows = List::new(alloc);
    for k in 0..f.block_count() {
        let b = block_at(f, k);
        let c = block_at(g, k);
        let pair = BlockPair { f, g, b, c };
        if !push_block(&mut rows, alloc, t, k, &pair)? {
            return Ok(None);
        }
    }
    Ok(Some(rows))
}
