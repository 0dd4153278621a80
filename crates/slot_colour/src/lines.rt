//! The lines of the `stack` key, each of which declares a frame object.

ghost use Rattle.std.specs.Prelude.{◌≡◌, IfOk, option_map};
ghost use Rattle.slot_colour.specs.Lines.{begins_key, is_of_stack, declared_of, declared_by, declared_in, is_gone as is_gone_line, kept_in};
ghost use Rattle.slot_colour.specs.Colouring.{is_gone};

use crate::choice::{TakenSlot, is_gone};
use mir_lines::lexer::{behind_word, is_letter};
use mir_read::keys::{declared_frame, declared_number};
use mir_text::document::next_line;
use std::alloc::{AllocError, Global};
use target_base::{Bytes, List};

/// A frame object that a line declares.
#[derive(Drop)]
pub(crate) struct FrameLine {
    /// Its number.
    pub number: u32,
    /// What stands behind the number in the line.
    pub text: Bytes,
}

/// Whether a line begins a key.
fn begins_key(line: &[u8]) -> bool
    ensures { result ≡ begins_key line.now }
{
    match line.first() {
        None => false,
        Some(b) => is_letter(*b),
    }
}

/// Whether a line is one of the `stack` key, where the line before it is one or not.
fn is_of_stack(before: bool, line: &[u8]) -> bool
    ensures { result ≡ is_of_stack before line.now }
{
    if begins_key(line) {
        behind_word(line, b"stack:").is_some()
    } else {
        before
    }
}

/// The frame object that a line declares, if it is one of the `stack` key, and what stands behind the
/// number.
fn declared_by(is_stack: bool, line: &[u8]) -> Option<(u32, &[u8])>
    ensures { option_map declared_of result ≡ declared_by is_stack line.now }
{
    if !is_stack {
        return None;
    }
    match declared_frame(line) {
        None => None,
        Some((number, _)) => match declared_number(line) {
            None => None,
            Some((_, text)) => Some((number, text)),
        },
    }
}

/// The frame objects that key lines declare.
pub(crate) fn declared_in(alloc: Global, head: &[u8]) -> Result<Vec<FrameLine>, AllocError>
    ensures { IfOk result (λ made. made.items ≡ declared_in head.now) }
{
    let mut made = Vec::new(alloc);
    let mut is_stack = false;
    let mut rest = head;
    'lines: while !rest.is_empty() {
        let (line, behind) = next_line(rest);
        is_stack = is_of_stack(is_stack, line);
        if let Some((number, text)) = declared_by(is_stack, line) {
            let text = List::from_slice(alloc, text)?;
            made.push(FrameLine { number, text })?;
        }
        rest = behind;
    }
    Ok(made)
}

/// Whether a line of the `stack` key, or another one, declares a slot that went to another.
fn is_gone_line(taken: &[TakenSlot], is_stack: bool, line: &[u8]) -> bool
    ensures { result ≡ is_gone_line (is_gone taken.now) (declared_by is_stack line.now) }
{
    match declared_by(is_stack, line) {
        None => false,
        Some((number, _)) => is_gone(taken, number),
    }
}

/// Key lines without those that declare slots which went to others.
pub(crate) fn kept_in(alloc: Global, taken: &[TakenSlot], head: &[u8]) -> Result<Bytes, AllocError>
    ensures { IfOk result (λ made. made ≡ kept_in (is_gone taken.now) head.now) }
{
    let mut made = Bytes::new(alloc);
    let mut is_stack = false;
    let mut rest = head;
    'lines: while !rest.is_empty() {
        let (line, behind) = next_line(rest);
        is_stack = is_of_stack(is_stack, line);
        if !is_gone_line(taken, is_stack, line) {
            made.extend(line)?;
            made.extend(b"\n")?;
        }
        rest = behind;
    }
    Ok(made)
}
