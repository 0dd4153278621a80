//! Where the key lines of a function have lines for new spill slots.

ghost use Rattle.std.specs.Prelude.{◌≡◌, ◌++◌, codes, length, option_map, OnOk, IfOk};
ghost use Rattle.mir_text.specs.Document.{lines};
ghost use Rattle.source_text.specs.Keys.{begins_key, begins_stack, opened, before_key, from_key, stack_count, above_in_stack, below_in_stack, above_body, below_body, text_of, parts_of, between, added};

use mir_lines::lexer::{before_word, behind_word, is, is_letter, skip, skip_back};
use mir_text::document::next_line;
use std::alloc::{AllocError, Global};
use target_base::Bytes;

/// Key lines in two parts: what stands above the lines of new slots, and below them.
#[derive(Drop)]
pub struct Parts {
    /// What stands above.
    pub above: Bytes,
    /// What stands below.
    pub below: Bytes,
}

/// Whether a line begins a key.
fn begins_key(line: &[u8]) -> bool
    ensures { result ≡ begins_key line.now }
{
    match line.first() {
        None => false,
        Some(b) => is_letter(*b),
    }
}

/// Whether a line begins the key `stack`.
fn begins_stack(line: &[u8]) -> bool
    ensures { result ≡ begins_stack line.now }
{
    behind_word(line, b"stack:").is_some()
}

/// The first line of the key `stack` without `[]`.
fn strip_empty_list(line: &[u8]) -> &[u8]
    ensures { result.now ≡ opened line.now }
{
    match behind_word(line, b"stack:") {
        None => line,
        Some(value) => {
            if is(skip_back(skip(value)), b"[]") {
                b"stack:"
            } else {
                line
            }
        }
    }
}

/// How often the key `stack` stands among the lines of a text.
fn stack_count(text: &[u8]) -> usize
    ensures { result ≡ stack_count (lines text.now) }
{
    let mut count = 0usize;
    let mut rest = text;
    'lines: while !rest.is_empty() {
        let (line, behind) = next_line(rest);
        if begins_stack(line) {
            count += 1;
        }
        rest = behind;
    }
    count
}

/// The number of lines of a text.
fn line_count(text: &[u8]) -> usize
    ensures { result ≡ length (lines text.now) }
{
    let mut count = 0usize;
    let mut rest = text;
    'lines: while !rest.is_empty() {
        let (_, behind) = next_line(rest);
        count += 1;
        rest = behind;
    }
    count
}

/// Puts a line at the end of a text.
fn push_line(text: &mut Bytes, line: &[u8]) -> Result<(), AllocError>
    ensures { OnOk result (text.new ≡ text.old ++ (line.now ++ codes "\n")) }
{
    text.extend(line)?;
    text.extend(b"\n")?;
    Ok(())
}

/// Puts the lines of one text at the end of another.
fn push_lines(text: &mut Bytes, more: &[u8]) -> Result<(), AllocError>
    ensures { OnOk result (text.new ≡ text.old ++ text_of (lines more.now)) }
{
    let mut rest = more;
    'lines: while !rest.is_empty() {
        let (line, behind) = next_line(rest);
        push_line(text, line)?;
        rest = behind;
    }
    Ok(())
}

/// Puts the lines before the next key at the end of one text, and those from it on at the end of
/// another.
fn push_around_key(above: &mut Bytes, below: &mut Bytes, more: &[u8]) -> Result<(), AllocError>
    ensures above { OnOk result (above.new ≡ above.old ++ text_of (before_key (lines more.now))) }
    ensures below { OnOk result (below.new ≡ below.old ++ text_of (from_key (lines more.now))) }
{
    let mut rest = more;
    'lines: while !rest.is_empty() {
        let (line, behind) = next_line(rest);
        if begins_key(line) {
            return push_lines(below, rest);
        }
        push_line(above, line)?;
        rest = behind;
    }
    Ok(())
}

/// Puts the lines above those of new slots at the end of one text, and those below them at the end of
/// another, where the key `stack` stands so many times.
fn push_around_stack(
    above: &mut Bytes,
    below: &mut Bytes,
    head: &[u8],
    count: usize,
) -> Result<(), AllocError>
    requires { count ≡ stack_count (lines head.now) }
    ensures above { OnOk result (above.new ≡ above.old ++ text_of (above_in_stack (lines head.now))) }
    ensures below { OnOk result (below.new ≡ below.old ++ text_of (below_in_stack (lines head.now))) }
{
    let mut left = count;
    let mut rest = head;
    'lines: while !rest.is_empty() {
        let (line, behind) = next_line(rest);
        if begins_stack(line) {
            left -= 1;
            if left == 0 {
                push_line(above, strip_empty_list(line))?;
                return push_around_key(above, below, behind);
            }
        }
        push_line(above, line)?;
        rest = behind;
    }
    Ok(())
}

/// Puts the lines above those of new slots at the end of one text, and those below them at the end of
/// another, where no key `stack` stands.
fn push_around_body(above: &mut Bytes, below: &mut Bytes, head: &[u8]) -> Result<(), AllocError>
    ensures above { OnOk result (above.new ≡ above.old ++ text_of (above_body (lines head.now))) }
    ensures below { OnOk result (below.new ≡ below.old ++ text_of (below_body (lines head.now))) }
{
    let mut left = line_count(head);
    let mut rest = head;
    'lines: while !rest.is_empty() {
        let (line, behind) = next_line(rest);
        left -= 1;
        if left == 0 {
            push_line(above, b"stack:")?;
            return push_line(below, line);
        }
        push_line(above, line)?;
        rest = behind;
    }
    Ok(())
}

/// Key lines in two parts.
pub fn parts_of(alloc: Global, head: &[u8]) -> Result<Parts, AllocError>
    ensures { IfOk result (λ p. p ≡ parts_of (lines head.now)) }
{
    let mut above = Bytes::new(alloc);
    let mut below = Bytes::new(alloc);
    let count = stack_count(head);
    if count == 0 {
        push_around_body(&mut above, &mut below, head)?;
    } else {
        push_around_stack(&mut above, &mut below, head, count)?;
    }
    Ok(Parts { above, below })
}

/// What stands between two parts in a text.
fn between<'a>(parts: &Parts, text: &'a [u8]) -> Option<&'a [u8]>
    ensures { option_map (λ r. r.now) result ≡ between parts.now text.now }
{
    match behind_word(text, parts.above.as_slice()) {
        None => None,
        Some(rest) => before_word(rest, parts.below.as_slice()),
    }
}

/// What key lines have besides those of the source where lines of new slots go; None where the others
/// aren't the source's.
pub(crate) fn added_lines<'a>(
    alloc: Global,
    source: &[u8],
    head: &'a [u8],
) -> Result<Option<&'a [u8]>, AllocError>
    ensures { IfOk result (λ made. option_map (λ r. r.now) made ≡ added source.now head.now) }
{
    let parts = parts_of(alloc, source)?;
    Ok(between(&parts, head))
}
