//! The header, the successors and the live-in registers that a line spells.

ghost use Rattle.std.specs.Prelude.{◌≡◌, ◌≤◌, ◌<◌, ◌==◌, ◌++◌, ◌∷◌, ◌+◌, [], Some, length, IfOk, IfSome, option_map, is_some, is_none, position, ◌||◌, not};
ghost use Rattle.std.specs.List.{list_all};
ghost use Rattle.mir_lines.specs.Reads.{Reads, it, part_and_rest, now_of};
ghost use Rattle.mir_lines.specs.Parts.{comma_parts, each};
ghost use Rattle.mir_lines.specs.Blocks.{in_parentheses, attributes_of, or_none, header_in, header_of, share_of, share_behind, edge_in, edge_of, are_alike, alike, successors_of, livein_of, liveins_of};

use crate::lexer::{Sort, before_word, behind_word, is_ascii, is_blank, skip, skip_back, span};
use crate::numbers::{number, share};
use crate::operands::take_numbered;
use crate::parts::next_part;
use crate::raw::{RawEdge, RawHeader, Words};
use crate::registers::take_name;
use crate::stop::LineStop;
use std::alloc::Global;
use target_base::List;

/// The text between parentheses, or no text.
#[tactic(auto, unfolding(crate::specs::Blocks::in_parentheses))]
fn in_parentheses(text: &[u8]) -> Result<&[u8], LineStop>
    ensures { Reads now_of result (in_parentheses text.now) }
{
    if text.is_empty() {
        return Ok(&[]);
    }
    match behind_word(text, b"(") {
        None => Err(LineStop::Token),
        Some(inside) => match before_word(inside, b")") {
            None => Err(LineStop::Token),
            Some(text) => Ok(text),
        },
    }
}

/// The text in parentheses before the colon of a header, or none.
#[tactic(auto, unfolding(crate::specs::Blocks::attributes_of))]
fn attributes(text: &[u8]) -> Result<&[u8], LineStop>
    ensures { Reads now_of result (attributes_of text.now) }
{
    match before_word(text, b":") {
        None => Err(LineStop::Token),
        Some(before) => in_parentheses(skip_back(skip(before))),
    }
}

/// The header behind `bb.`.
fn header_in(alloc: Global, text: &[u8]) -> Result<RawHeader, LineStop>
    ensures { Reads it result (header_in text.now) }
{
    let (number, label, rest) = take_numbered(text)?;
    let attributes = List::from_slice(alloc, attributes(rest)?)?;
    let name = match label {
        None => List::new(alloc),
        Some(label) => List::from_slice(alloc, label)?,
    };
    Ok(RawHeader {
        number,
        name,
        attributes,
    })
}

/// The header that a line spells: `bb.N`, a name or none, a text in parentheses or none, a colon.
#[tactic(auto, unfolding(crate::specs::Blocks::header_of))]
pub fn header(alloc: Global, text: &[u8]) -> Result<RawHeader, LineStop>
    ensures { Reads it result (header_of text.now) }
{
    match behind_word(skip_back(text), b"bb.") {
        None => Err(LineStop::Token),
        Some(rest) => {
            if !is_ascii(rest) {
                return Err(LineStop::Token);
            }
            header_in(alloc, rest)
        }
    }
}

/// A probability: `0x` and hexadecimal digits.
#[tactic(auto, unfolding(crate::specs::Blocks::share_of))]
fn share_of(text: &[u8]) -> Option<u32>
    ensures { result ≡ share_of text.now }
{
    match behind_word(skip_back(skip(text)), b"0x") {
        None => None,
        Some(digits) => share(digits),
    }
}

/// A probability in parentheses, where one is written.
#[tactic(auto, unfolding(crate::specs::Blocks::share_behind))]
fn share_behind(text: &[u8]) -> Result<Option<u32>, LineStop>
    ensures { Reads it result (share_behind text.now) }
{
    if text.is_empty() {
        return Ok(None);
    }
    let inside = match behind_word(text, b"(") {
        None => return Err(LineStop::Token),
        Some(inside) => inside,
    };
    let digits = match before_word(inside, b")") {
        None => return Err(LineStop::Token),
        Some(digits) => digits,
    };
    match share_of(digits) {
        None => Err(LineStop::Token),
        Some(p) => Ok(Some(p)),
    }
}

/// A successor behind `%bb.`.
fn edge_in(text: &[u8]) -> Result<RawEdge, LineStop>
    ensures { Reads it result (edge_in text.now) }
{
    let (digits, rest) = span(text, Sort::Digit);
    match number(digits) {
        None => Err(LineStop::Token),
        Some(block) => {
            let prob = share_behind(skip_back(skip(rest)))?;
            Ok(RawEdge { block, prob })
        }
    }
}

/// A successor: `%bb.N`, with a probability or without.
#[tactic(auto, unfolding(crate::specs::Blocks::edge_of))]
fn edge(text: &[u8]) -> Result<RawEdge, LineStop>
    ensures { Reads it result (edge_of text.now) }
{
    match behind_word(skip(text), b"%bb.") {
        None => Err(LineStop::Token),
        Some(rest) => edge_in(rest),
    }
}

/// The successors of a list that isn't empty.
fn edges(alloc: Global, text: &[u8]) -> Result<List<RawEdge>, LineStop>
    ensures value { Reads it result (each edge_of (comma_parts text.now)) }
    ensures few { IfOk result (λ es. length es ≤ length text.now + 1) }
{
    let mut made = List::new(alloc);
    let mut rest = text;
    'parts: loop {
        let (part, more) = next_part(rest);
        made.push(edge(part)?)?;
        match more {
            None => return Ok(made),
            Some(after) => rest = after,
        }
    }
}

fn all_have_shares(edges: &[RawEdge]) -> bool
    ensures { result ≡ list_all (λ e. is_some e.prob) edges.now }
{
    edges.iter().all(|e| e.prob.is_some())
}

fn none_has_a_share(edges: &[RawEdge]) -> bool
    ensures { result ≡ list_all (λ e. is_none e.prob) edges.now }
{
    edges.iter().all(|e| e.prob.is_none())
}

/// Whether all have a probability or none has.
#[tactic(auto, unfolding(crate::specs::Blocks::are_alike))]
fn are_alike(edges: &[RawEdge]) -> bool
    ensures { result ≡ are_alike edges.now }
{
    all_have_shares(edges) || none_has_a_share(edges)
}

/// The successors that stand behind `successors:`, all with a probability or all without.
#[tactic(auto, unfolding(crate::specs::Blocks::successors_of, crate::specs::Blocks::are_alike))]
pub fn successors(alloc: Global, text: &[u8]) -> Result<List<RawEdge>, LineStop>
    ensures value { Reads it result (successors_of text.now) }
    ensures few { IfOk result (λ es. length es ≤ length text.now + 1) }
{
    if is_blank(text) {
        return Ok(List::new(alloc));
    }
    let made = edges(alloc, text)?;
    if are_alike(made.as_slice()) {
        Ok(made)
    } else {
        Err(LineStop::Token)
    }
}

/// The name of one register of a `liveins:` list.
#[tactic(auto, unfolding(crate::specs::Blocks::livein_of))]
fn livein(text: &[u8]) -> Result<&[u8], LineStop>
    ensures { Reads now_of result (livein_of text.now) }
{
    match behind_word(skip(text), b"$") {
        None => Err(LineStop::Token),
        Some(behind) => {
            let (name, rest) = take_name(behind)?;
            if is_blank(rest) {
                Ok(name)
            } else {
                Err(LineStop::Token)
            }
        }
    }
}

/// The names of a list that isn't empty.
fn names(alloc: Global, text: &[u8]) -> Result<Words, LineStop>
    ensures { Reads it result (each livein_of (comma_parts text.now)) }
{
    let mut made = List::new(alloc);
    let mut rest = text;
    'parts: loop {
        let (part, more) = next_part(rest);
        made.push(List::from_slice(alloc, livein(part)?)?)?;
        match more {
            None => return Ok(made),
            Some(after) => rest = after,
        }
    }
}

/// The names of the registers that stand behind `liveins:`.
#[tactic(auto, unfolding(crate::specs::Blocks::liveins_of))]
pub fn liveins(alloc: Global, text: &[u8]) -> Result<Words, LineStop>
    ensures { Reads it result (liveins_of text.now) }
{
    if is_blank(text) {
        return Ok(List::new(alloc));
    }
    names(alloc, text)
}
