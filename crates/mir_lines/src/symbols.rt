//! Symbols at the front of a text: names, entries of the constant pool and `$noreg`, with the
//! offsets and flags that a target opts in.

ghost use Rattle.std.specs.Prelude.{◌≡◌, ◌≤◌, ◌<◌, ◌==◌, ◌++◌, ◌∷◌, ◌^◌, [], Some, codes, length, IfOk, IfSome, option_map, position};
ghost use Rattle.mir_lines.specs.Parts.{comma_parts, each};
ghost use Rattle.mir_lines.specs.Reads.{Reads, it, and_rest, part_and_rest, now_of};
ghost use Rattle.mir_lines.specs.Symbols.{is_mark, bare_symbol_at, quoted_symbol_at, named_symbol_at, digits_at, behind_pool_mark, pool_entry_at, base_at, begins_symbol, is_sign, offset_behind, with_offset, symbol_at, behind_noreg, no_register, flag_of, flags_in, flags_at, flagged_name, flagged_symbol_at};

use crate::lexer::{Sort, behind_word, is, is_ascii, is_flag_word, skip, skip_back, span};
use crate::numbers::decimal;
use crate::parts::{join_words, next_part};
use crate::raw::{RawOperand, Words};
use crate::registers::{continues, without_zeros};
use crate::stop::LineStop;
use std::alloc::{AllocError, Global};
use target_base::{Bytes, List, TextOptions};

/// Whether a byte begins the name of a symbol.
fn is_mark(b: u8) -> bool
    ensures { result ≡ is_mark b }
{
    b == b'@' || b == b'&'
}

/// The name of a symbol that isn't quoted, and the rest: a mark, then letters, digits and `_ . - $`.
#[tactic(auto, unfolding(crate::specs::Symbols::bare_symbol_at))]
fn take_bare_symbol(alloc: Global, text: &[u8]) -> Result<(Bytes, &[u8]), LineStop>
    ensures value { Reads and_rest result (bare_symbol_at text.now) }
    ensures len { IfOk result (λ r. length r.1.now ≤ length text.now) }
{
    match text {
        [mark, behind @ ..] if is_mark(*mark) => {
            let (label, rest) = span(behind, Sort::Label);
            if label.is_empty() || continues(rest) {
                return Err(LineStop::Token);
            }
            let mut name = List::new(alloc);
            name.push(*mark)?;
            name.extend(label)?;
            Ok((name, rest))
        }
        _ => Err(LineStop::Token),
    }
}

fn find_quote(text: &[u8]) -> Option<usize>
    ensures { result ≡ position (λ b. b == 34) text.now }
{
    text.iter().position(|b| *b == b'"')
}

/// The name of a symbol with this text between its quotes.
fn quoted_name(alloc: Global, text: &[u8]) -> Result<Bytes, LineStop>
    ensures { Reads it result (Some (codes "@\"" ++ (text.now ++ codes "\""))) }
{
    let mut name = List::from_slice(alloc, b"@\"")?;
    name.extend(text)?;
    name.extend(b"\"")?;
    Ok(name)
}

/// The name of a symbol behind `@"`, and the rest: ASCII through the next quote.
#[tactic(auto, unfolding(crate::specs::Symbols::quoted_symbol_at))]
fn take_quoted_symbol(alloc: Global, text: &[u8]) -> Result<(Bytes, &[u8]), LineStop>
    ensures value { Reads and_rest result (quoted_symbol_at text.now) }
    ensures len { IfOk result (λ r. length r.1.now ≤ length text.now) }
{
    match find_quote(text) {
        None => Err(LineStop::Token),
        Some(k) => {
            let inside = &text[..k];
            if !is_ascii(inside) {
                return Err(LineStop::Token);
            }
            Ok((quoted_name(alloc, inside)?, &text[k + 1..]))
        }
    }
}

/// The name of a symbol, kept as written, and the rest.
#[tactic(auto, unfolding(crate::specs::Symbols::named_symbol_at))]
fn take_named_symbol(alloc: Global, text: &[u8]) -> Result<(Bytes, &[u8]), LineStop>
    ensures value { Reads and_rest result (named_symbol_at text.now) }
    ensures len { IfOk result (λ r. length r.1.now ≤ length text.now) }
{
    match behind_word(text, b"@\"") {
        None => take_bare_symbol(alloc, text),
        Some(inside) => take_quoted_symbol(alloc, inside),
    }
}

/// The digits of a number that is at most `most`, without zeros before it, and the rest.
#[tactic(auto, unfolding(crate::specs::Symbols::digits_at))]
fn take_digits(text: &[u8], most: u128) -> Result<(&[u8], &[u8]), LineStop>
    requires { most ≤ 2 ^ 64 }
    ensures value { Reads part_and_rest result (digits_at most text.now) }
    ensures len { IfOk result (λ r. length r.1.now ≤ length text.now) }
{
    let (digits, rest) = span(text, Sort::Digit);
    if decimal(digits, most).is_none() || !is(without_zeros(digits), digits) || continues(rest) {
        return Err(LineStop::Token);
    }
    Ok((digits, rest))
}

/// What stands behind the mark of an entry of the constant pool, where the target's text has them.
fn behind_pool_mark<'a>(options: &TextOptions, text: &'a [u8]) -> Option<&'a [u8]>
    ensures value { option_map now_of result ≡ behind_pool_mark options.now text.now }
    ensures len { IfSome result (λ r. length r.now < length text.now) }
{
    if options.pool {
        behind_word(text, b"%const.")
    } else {
        None
    }
}

/// The entry of the constant pool of this number.
fn take_pool_entry(alloc: Global, text: &[u8]) -> Result<(Bytes, &[u8]), LineStop>
    ensures value { Reads and_rest result (pool_entry_at text.now) }
    ensures len { IfOk result (λ r. length r.1.now ≤ length text.now) }
{
    let (digits, rest) = take_digits(text, 0x7fff_ffff)?;
    let mut name = List::from_slice(alloc, b"%const.")?;
    name.extend(digits)?;
    Ok((name, rest))
}

/// Whether a symbol or an entry of the constant pool stands first.
#[tactic(auto, unfolding(crate::specs::Symbols::begins_symbol))]
pub(crate) fn begins_symbol(options: &TextOptions, text: &[u8]) -> bool
    ensures { result ≡ begins_symbol options.now text.now }
{
    match text {
        [] => false,
        [b, ..] => is_mark(*b) || behind_pool_mark(options, text).is_some(),
    }
}

/// A symbol without an offset or an entry of the constant pool, and the rest.
fn take_base<'a>(
    alloc: Global,
    options: &TextOptions,
    text: &'a [u8],
) -> Result<(Bytes, &'a [u8]), LineStop>
    ensures value { Reads and_rest result (base_at options.now text.now) }
    ensures len { IfOk result (λ r. length r.1.now ≤ length text.now) }
{
    match behind_pool_mark(options, text) {
        None => take_named_symbol(alloc, text),
        Some(number) => take_pool_entry(alloc, number),
    }
}

/// Whether a byte is the sign of an offset.
fn is_sign(b: u8) -> bool
    ensures { result ≡ is_sign b }
{
    b == b'+' || b == b'-'
}

/// The symbol of this name with the offset of this sign whose number stands first, and the rest.
fn offset_behind(name: Bytes, sign: u8, text: &[u8]) -> Result<(Bytes, &[u8]), LineStop>
    ensures value { Reads and_rest result (offset_behind name sign text.now) }
    ensures len { IfOk result (λ r. length r.1.now ≤ length text.now) }
{
    let (digits, rest) = take_digits(skip(text), 0x8000_0000_0000_0000)?;
    let mut name = name;
    name.extend(b" ")?;
    name.push(sign)?;
    name.extend(b" ")?;
    name.extend(digits)?;
    Ok((name, rest))
}

/// The symbol of this name with the offset that stands first, and the rest; the symbol alone where
/// no sign stands there, or where the target's text has no offsets.
#[tactic(auto, unfolding(crate::specs::Symbols::with_offset))]
fn with_offset<'a>(
    options: &TextOptions,
    name: Bytes,
    text: &'a [u8],
) -> Result<(Bytes, &'a [u8]), LineStop>
    ensures value { Reads and_rest result (with_offset options.now name text.now) }
    ensures len { IfOk result (λ r. length r.1.now ≤ length text.now) }
{
    if !options.offsets {
        return Ok((name, text));
    }
    match skip(text) {
        [sign, behind @ ..] if is_sign(*sign) => offset_behind(name, *sign, behind),
        _ => Ok((name, text)),
    }
}

/// A symbol or an entry of the constant pool, with its offset, and the rest.
#[tactic(auto, unfolding(crate::specs::Symbols::symbol_at))]
pub(crate) fn take_symbol<'a>(
    alloc: Global,
    options: &TextOptions,
    text: &'a [u8],
) -> Result<(Bytes, &'a [u8]), LineStop>
    ensures value { Reads and_rest result (symbol_at options.now text.now) }
    ensures len { IfOk result (λ r. length r.1.now ≤ length text.now) }
{
    let (name, rest) = take_base(alloc, options, text)?;
    with_offset(options, name, rest)
}

/// What stands behind `$noreg`, where the target's text has it.
#[tactic(auto, unfolding(crate::specs::Symbols::behind_noreg))]
pub(crate) fn behind_noreg<'a>(options: &TextOptions, text: &'a [u8]) -> Option<&'a [u8]>
    ensures value { option_map now_of result ≡ behind_noreg options.now text.now }
    ensures len { IfSome result (λ r. length r.now < length text.now) }
{
    if !options.noreg {
        return None;
    }
    match behind_word(text, b"$noreg") {
        Some(rest) if !continues(rest) => Some(rest),
        _ => None,
    }
}

/// The operand `$noreg`.
pub(crate) fn no_register(alloc: Global) -> Result<RawOperand, LineStop>
    ensures { Reads it result (Some no_register) }
{
    let name = List::from_slice(alloc, b"$noreg")?;
    Ok(RawOperand::Symbol(name, List::new(alloc)))
}

/// A word of `target-flags` with spaces around it.
fn flag(text: &[u8]) -> Result<&[u8], LineStop>
    ensures { Reads now_of result (flag_of text.now) }
{
    let word = skip_back(skip(text));
    if is_flag_word(word) {
        Ok(word)
    } else {
        Err(LineStop::Token)
    }
}

/// One or more words of `target-flags` with commas between them.
fn flags_in(alloc: Global, text: &[u8]) -> Result<Words, LineStop>
    ensures { Reads it result (each flag_of (comma_parts text.now)) }
{
    let mut made = List::new(alloc);
    let mut rest = text;
    'parts: loop {
        let (part, more) = next_part(rest);
        made.push(List::from_slice(alloc, flag(part)?)?)?;
        match more {
            None => return Ok(made),
            Some(after) => rest = after,
        }
    }
}

fn find_closing(text: &[u8]) -> Option<usize>
    ensures { result ≡ position (λ b. b == 41) text.now }
{
    text.iter().position(|b| *b == b')')
}

/// The words of `target-flags` in parentheses, and the rest.
#[tactic(auto, unfolding(crate::specs::Symbols::flags_at))]
fn take_flags(alloc: Global, text: &[u8]) -> Result<(Words, &[u8]), LineStop>
    ensures value { Reads and_rest result (flags_at text.now) }
    ensures len { IfOk result (λ r. length r.1.now ≤ length text.now) }
{
    let Some(inside) = behind_word(text, b"(") else {
        return Err(LineStop::Token);
    };
    match find_closing(inside) {
        None => Err(LineStop::Token),
        Some(k) => Ok((flags_in(alloc, &inside[..k])?, &inside[k + 1..])),
    }
}

/// The name of a symbol with these flags.
fn flagged_name(alloc: Global, flags: &[Bytes], name: &[u8]) -> Result<Bytes, AllocError>
    ensures { IfOk result (λ made. made ≡ flagged_name flags.now name.now) }
{
    let words = join_words(alloc, b", ", flags)?;
    let mut made = List::from_slice(alloc, b"target-flags(")?;
    made.extend(words.as_slice())?;
    made.extend(b") ")?;
    made.extend(name)?;
    Ok(made)
}

/// A symbol with flags behind `target-flags`, and the rest. Where the target has no flags, none is
/// taken.
#[tactic(auto, unfolding(crate::specs::Symbols::flagged_symbol_at))]
pub(crate) fn take_flagged_symbol<'a>(
    alloc: Global,
    options: &TextOptions,
    text: &'a [u8],
) -> Result<(RawOperand, &'a [u8]), LineStop>
    ensures value { Reads and_rest result (flagged_symbol_at options.now text.now) }
    ensures len { IfOk result (λ r. length r.1.now ≤ length text.now) }
{
    if options.flags.len() == 0 {
        return Err(LineStop::Token);
    }
    let (flags, behind) = take_flags(alloc, text)?;
    let (name, rest) = take_symbol(alloc, options, skip(behind))?;
    let name = flagged_name(alloc, flags.as_slice(), name.as_slice())?;
    Ok((RawOperand::Symbol(name, flags), rest))
}
