//! Where two functions don't match: their blocks, and their counted instructions in pairs.

ghost use Rattle.std.specs.Prelude.{◌≡◌, ◌∷◌, ◌≤◌, ◌<◌, ◌^◌, [], filter, length, option_map, flat_map, ◌++◌, IfSome, MatchOption, IfOk, OnOk, map};
ghost use Rattle.std.specs.List.{All, list_all};
ghost use Rattle.std.specs.Option.{option_or};
ghost use Rattle.mir_meaning.specs.Agreement.{blocks_alike, entries_alike, unlike_block, further_block, block_doubt, is_counted, unpaired, unpaired_in, partner_doubt, place, counted_from, counted_places};
ghost use Rattle.alloc_check.specs.Doubt.{IsNth};
ghost use Rattle.mir_meaning.specs.Registers.{has_number};
ghost use Rattle.mir_meaning.specs.Rules.{successors_of};
ghost use Rattle.mir_meaning.specs.Valid.{listed_units};

use crate::alike::are_paired;
use machine_verify::has_successor;
use mir_func::opcodes::effect_of;
use mir_func::{Block, Func, Instr, Place};
use std::alloc::{AllocError, Global};
use target_base::roles::is_silent;
use target_base::{Boxed, List, Target, Unit};

/// Whether an instruction counts in a run.
pub fn is_counted(t: &Target, i: &Instr) -> bool
    ensures { result ≡ is_counted t.now i.now }
{
    match effect_of(t, i) {
        None => false,
        Some(e) => !is_silent(e),
    }
}

/// Whether each successor of the first is one of the second.
fn has_successors(b: &Block, c: &Block) -> bool
    ensures { result ≡ list_all (has_number (successors_of c.now)) (successors_of b.now) }
{
    for e in b.successors.as_slice() {
        if !has_successor(c.successors.as_slice(), e.block) {
            return false;
        }
    }
    true
}

fn is_among(units: &[Unit], n: u32) -> bool
    ensures { result ≡ has_number (map (λ u. u.0) units.now) n }
{
    for u in units {
        if n == u.0 as u32 {
            return true;
        }
    }
    false
}

/// Whether the block lists a register that has the unit of a number.
fn lists_unit(t: &Target, b: &Block, n: u32) -> bool
    ensures { result ≡ has_number (listed_units t.now b.now) n }
{
    for r in b.liveins.as_slice() {
        if is_among(t.units_at(*r), n) {
            return true;
        }
    }
    false
}

fn lists_all(t: &Target, b: &Block, units: &[Unit]) -> bool
    ensures { result ≡ list_all (has_number (listed_units t.now b.now)) (map (λ u. u.0) units.now) }
{
    for u in units {
        if !lists_unit(t, b, u.0 as u32) {
            return false;
        }
    }
    true
}

/// Whether each unit that the first lists is one that the second lists.
fn lists_units_of(t: &Target, b: &Block, c: &Block) -> bool
    ensures { result ≡ list_all (has_number (listed_units t.now c.now)) (listed_units t.now b.now) }
{
    for r in b.liveins.as_slice() {
        if !lists_all(t, c, t.units_at(*r)) {
            return false;
        }
    }
    true
}

/// Whether the blocks have one number and the same successors.
fn blocks_alike(b: &Block, c: &Block) -> bool
    ensures { result ≡ blocks_alike b.now c.now }
{
    b.number == c.number && has_successors(b, c) && has_successors(c, b)
}

/// Whether the entry blocks list the same units too.
fn entries_alike(t: &Target, b: &Block, c: &Block) -> bool
    ensures { result ≡ entries_alike t.now b.now c.now }
{
    blocks_alike(b, c) && lists_units_of(t, b, c) && lists_units_of(t, c, b)
}

/// The number of the first of these blocks that has no like one among the others in its place.
fn unlike_later(blocks: &[Block], others: &[Block]) -> Option<u32>
    ensures { result ≡ unlike_block blocks_alike blocks.now others.now }
{
    for k in 0..blocks.len() {
        let b = &blocks[k];
        match others.get(k) {
            None => return Some(b.number),
            Some(c) => {
                if !blocks_alike(b, c) {
                    return Some(b.number);
                }
            }
        }
    }
    None
}

/// The same of all blocks, the entry first.
fn unlike_block(t: &Target, blocks: &[Block], others: &[Block]) -> Option<u32>
    ensures { result ≡ unlike_block (entries_alike t.now) blocks.now others.now }
{
    match (blocks, others) {
        ([], _) => None,
        ([b, ..], []) => Some(b.number),
        ([b, later @ ..], [c, behind @ ..]) => {
            if !entries_alike(t, b, c) {
                return Some(b.number);
            }
            unlike_later(later, behind)
        }
    }
}

/// The number of the first block, where there are more of the others.
fn further_block(blocks: &[Block], others: &[Block]) -> Option<u32>
    ensures { result ≡ further_block blocks.now others.now }
{
    match blocks {
        [] => None,
        [b, ..] => {
            if blocks.len() < others.len() {
                Some(b.number)
            } else {
                None
            }
        }
    }
}

/// The number of the first block without a like one in its place, or of the entry block where there
/// are more of the others.
fn doubtful_block(t: &Target, blocks: &[Block], others: &[Block]) -> Option<u32>
    ensures { result ≡ option_or (unlike_block (entries_alike t.now) blocks.now others.now) (further_block blocks.now others.now) }
{
    match unlike_block(t, blocks, others) {
        Some(n) => Some(n),
        None => further_block(blocks, others),
    }
}

/// Where the blocks differ.
#[tactic(auto, unfolding(mir_meaning::specs::Agreement::block_doubt))]
fn block_doubt(t: &Target, f: &Func, g: &Func) -> Option<Place>
    ensures { result ≡ block_doubt t.now f.now g.now }
{
    match doubtful_block(t, f.blocks.as_slice(), g.blocks.as_slice()) {
        Some(block) => Some(Place { block, at: 0 }),
        None => None,
    }
}

/// The first counted instruction, with the instructions behind it.
fn next_counted<'a>(
    t: &Target,
    instrs: &'a [Boxed<Instr>],
) -> Option<(&'a Instr, &'a [Boxed<Instr>])>
    ensures { MatchOption result (filter (is_counted t.now) instrs.now ≡ []) (λ n. filter (is_counted t.now) instrs.now ≡ n.0.now ∷ filter (is_counted t.now) n.1.now) }
{
    for k in 0..instrs.len() {
        let i = instrs[k].get();
        if is_counted(t, i) {
            return Some((i, &instrs[k + 1..]));
        }
    }
    None
}

/// The first counted instruction whose partner among the others is missing or differs; or
/// instruction 0, where more of the others count.
fn first_unpaired(
    alloc: Global,
    t: &Target,
    f: &Func,
    g: &Func,
    instrs: &[Boxed<Instr>],
    others: &[Boxed<Instr>],
) -> Result<Option<usize>, AllocError>
    ensures value { IfOk result (λ at. at ≡ unpaired t.now f.now g.now 0 instrs.now (filter (is_counted t.now) others.now)) }
    ensures within { IfOk result (λ at. IfSome at (λ k. k ≤ length instrs.now)) }
{
    let mut left = others;
    for k in 0..instrs.len() {
        let i = instrs[k].get();
        if is_counted(t, i) {
            match next_counted(t, left) {
                None => return Ok(Some(k)),
                Some((x, behind)) => {
                    if !are_paired(alloc, t, f, g, i, x)? {
                        return Ok(Some(k));
                    }
                    left = behind;
                }
            }
        }
    }
    match next_counted(t, left) {
        None => Ok(None),
        Some(_) => Ok(Some(0)),
    }
}

fn place(b: &Block, at: usize) -> Place
    ensures { at < 2 ^ 32 → result ≡ place b.now.number at }
{
    Place {
        block: b.number,
        at: u32::try_from(at).unwrap_or(u32::MAX),
    }
}

/// Where the counted instructions of two blocks don't pair.
fn unpaired_place(
    alloc: Global,
    t: &Target,
    f: &Func,
    g: &Func,
    b: &Block,
    c: &Block,
) -> Result<Option<Place>, AllocError>
    requires { length b.now.instrs < 2 ^ 32 }
    ensures { IfOk result (λ p. p ≡ option_map (place b.now.number) (unpaired t.now f.now g.now 0 b.now.instrs (filter (is_counted t.now) c.now.instrs))) }
{
    match first_unpaired(alloc, t, f, g, b.instrs.as_slice(), c.instrs.as_slice())? {
        Some(at) => Ok(Some(place(b, at))),
        None => Ok(None),
    }
}

/// Where the counted instructions of these blocks don't pair with those of the others.
fn unpaired_in(
    alloc: Global,
    t: &Target,
    f: &Func,
    g: &Func,
    blocks: &[Block],
    others: &[Block],
) -> Result<Option<Place>, AllocError>
    requires { All (λ b. length b.instrs < 2 ^ 32) blocks.now }
    ensures { IfOk result (λ p. p ≡ unpaired_in t.now f.now g.now blocks.now others.now) }
{
    for k in 0..blocks.len() {
        let b = &blocks[k];
        match others.get(k) {
            None => return Ok(None),
            Some(c) => {
                if let Some(place) = unpaired_place(alloc, t, f, g, b, c)? {
                    return Ok(Some(place));
                }
            }
        }
    }
    Ok(None)
}

/// Where the counted instructions of the functions don't pair.
#[tactic(auto, unfolding(mir_meaning::specs::Agreement::partner_doubt))]
fn partner_doubt(alloc: Global, t: &Target, f: &Func, g: &Func) -> Result<Option<Place>, AllocError>
    ensures { IfOk result (λ p. p ≡ partner_doubt t.now f.now g.now) }
{
    let _last = f.next_id;
    unpaired_in(alloc, t, f, g, f.blocks.as_slice(), g.blocks.as_slice())
}

/// The first place where the functions don't match.
pub fn first_unlike(
    alloc: Global,
    t: &Target,
    f: &Func,
    g: &Func,
) -> Result<Option<Place>, AllocError>
    ensures { IfOk result (λ p. p ≡ option_or (block_doubt t.now f.now g.now) (partner_doubt t.now f.now g.now)) }
{
    match block_doubt(t, f, g) {
        Some(place) => Ok(Some(place)),
        None => partner_doubt(alloc, t, f, g),
    }
}

/// Adds the places of a block's counted instructions.
fn push_counted(places: &mut List<Place>, t: &Target, b: &Block) -> Result<(), AllocError>
    requires { length b.now.instrs < 2 ^ 32 }
    ensures { OnOk result (places.new ≡ places.old ++ counted_from t.now b.now.number 0 b.now.instrs) }
{
    for k in 0..b.instrs.len() {
        if is_counted(t, b.instrs.get(k)) {
            places.push(place(b, k))?;
        }
    }
    Ok(())
}

/// The places of the counted instructions of blocks in layout.
fn places_in(alloc: Global, t: &Target, blocks: &[Block]) -> Result<List<Place>, AllocError>
    requires { All (λ b. length b.instrs < 2 ^ 32) blocks.now }
    ensures { IfOk result (λ made. made ≡ flat_map (λ b. counted_from t.now b.number 0 b.instrs) blocks.now) }
{
    let mut made = List::new(alloc);
    for b in blocks {
        push_counted(&mut made, t, b)?;
    }
    Ok(made)
}

/// The n-th of places; the function's start where there is none.
fn place_at(f: &Func, places: &[Place], n: usize) -> Place
    ensures { IsNth places.now n result }
{
    if n < places.len() {
        return places[n];
    }
    entry_place(f)
}

/// The place of the n-th counted instruction in layout; the function's start where there is none.
pub fn counted_place(alloc: Global, t: &Target, f: &Func, n: usize) -> Result<Place, AllocError>
    ensures { IfOk result (IsNth (counted_places t.now f.now) n) }
{
    let _last = f.next_id;
    let places = places_in(alloc, t, f.blocks.as_slice())?;
    Ok(place_at(f, places.as_slice(), n))
}

/// The start of the function.
pub fn entry_place(f: &Func) -> Place {
    let block = f.blocks.as_slice().first().map(|b| b.number).unwrap_or(0);
    Place { block, at: 0 }
}
