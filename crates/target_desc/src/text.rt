//! Lines of a text, words of a line, and numbers.

ghost use Rattle.std.specs.Prelude.{◌≡◌, ◌<◌, ◌==◌, ◌∷◌, length, IfSome, IfOk, map};
ghost use Rattle.std.specs.List.{before_first, after_first, position, list_all, list_any};
ghost use Rattle.target_base.specs.Names.{is_upper, is_lower, is_letter, is_digit, is_name_byte, is_name, is_op_name, is_flag_byte, is_flag_word};
ghost use Rattle.target_base.specs.Storage.{same_numbers};
ghost use Rattle.target_desc.specs.Text.{parts, words, words_from, is_comment, is_number, number, value_from};

use std::alloc::{AllocError, Global};
use target_base::{Bytes, List};

fn find_byte(text: &[u8], byte: u8) -> Option<usize>
    ensures { result ≡ position (λ b. b == byte) text.now }
{
    text.iter().position(|b| *b == byte)
}

/// What stands before the first of these bytes, and what stands behind it.
pub(crate) fn cut(text: &[u8], byte: u8) -> (&[u8], &[u8])
    ensures front { result.0.now ≡ before_first (λ b. b == byte) text.now }
    ensures back { result.1.now ≡ after_first (λ b. b == byte) text.now }
{
    match find_byte(text, byte) {
        None => (text, &[]),
        Some(k) => {
            let (front, back) = text.split_at(k);
            (front, &back[1..])
        }
    }
}

/// The first part of a text that isn't empty, up to this byte, and the text behind the byte.
pub(crate) fn next_part(text: &[u8], end: u8) -> (&[u8], &[u8])
    requires { 0 < length text.now }
    ensures whole { parts end text.now ≡ result.0.now ∷ parts end result.1.now }
    ensures shorter { length result.1.now < length text.now }
{
    cut(text, end)
}

/// The first word of a line, and the line behind it.
pub(crate) fn next_word(line: &[u8]) -> Option<(&[u8], &[u8])>
    ensures word { words line.now ≡ words_from result }
    ensures shorter { IfSome result (λ p. length p.1.now < length line.now) }
{
    let mut rest = line;
    'parts: while !rest.is_empty() {
        let (part, after) = next_part(rest, b' ');
        if !part.is_empty() {
            return Some((part, after));
        }
        rest = after;
    }
    None
}

/// Whether a line is a comment.
pub(crate) fn is_comment(line: &[u8]) -> bool
    ensures { result ≡ is_comment line.now }
{
    match line {
        [] => false,
        [first, ..] => *first == b'#',
    }
}

/// Whether two texts are the same.
pub(crate) fn are_same(a: &[u8], b: &[u8]) -> bool
    ensures { result ≡ same_numbers a.now b.now }
{
    a == b
}

fn is_upper(b: u8) -> bool
    ensures { result ≡ is_upper b }
{
    b'A' <= b && b <= b'Z'
}

fn is_lower(b: u8) -> bool
    ensures { result ≡ is_lower b }
{
    b'a' <= b && b <= b'z'
}

fn is_letter(b: u8) -> bool
    ensures { result ≡ is_letter b }
{
    is_upper(b) || is_lower(b)
}

fn is_digit(b: u8) -> bool
    ensures { result ≡ is_digit b }
{
    b'0' <= b && b <= b'9'
}

fn is_name_byte(b: u8) -> bool
    ensures { result ≡ is_name_byte b }
{
    is_letter(b) || is_digit(b) || b == b'_'
}

fn are_name_bytes(text: &[u8]) -> bool
    ensures { result ≡ list_all is_name_byte text.now }
{
    text.iter().all(|b| is_name_byte(*b))
}

/// Whether a text is a name: a letter, then letters, digits and underscores.
pub(crate) fn is_name(text: &[u8]) -> bool
    ensures { result ≡ is_name text.now }
{
    match text {
        [] => false,
        [first, rest @ ..] => is_letter(*first) && are_name_bytes(rest),
    }
}

fn has_upper(text: &[u8]) -> bool
    ensures { result ≡ list_any is_upper text.now }
{
    text.iter().any(|b| is_upper(*b))
}

/// Whether a text is an opcode's name: a name with an upper-case letter.
pub(crate) fn is_op_name(text: &[u8]) -> bool
    ensures { result ≡ is_op_name text.now }
{
    is_name(text) && has_upper(text)
}

fn is_flag_byte(b: u8) -> bool
    ensures { result ≡ is_flag_byte b }
{
    is_lower(b) || is_digit(b) || b == b'_' || b == b'-'
}

fn are_flag_bytes(text: &[u8]) -> bool
    ensures { result ≡ list_all is_flag_byte text.now }
{
    text.iter().all(|b| is_flag_byte(*b))
}

/// Whether a text is a word of `target-flags`: a lower-case letter, then lower-case letters,
/// digits, underscores and minus signs.
pub(crate) fn is_flag_word(text: &[u8]) -> bool
    ensures { result ≡ is_flag_word text.now }
{
    match text {
        [] => false,
        [first, rest @ ..] => is_lower(*first) && are_flag_bytes(rest),
    }
}

fn are_digits(text: &[u8]) -> bool
    ensures { result ≡ list_all is_digit text.now }
{
    text.iter().all(|b| is_digit(*b))
}

/// Whether a word is one or more digits.
pub(crate) fn is_number(word: &[u8]) -> bool
    ensures { result ≡ is_number word.now }
{
    match word {
        [] => false,
        [..] => are_digits(word),
    }
}

/// The number that digits spell, or 255 where it is larger.
pub(crate) fn number(word: &[u8]) -> u8
    ensures { result ≡ number word.now }
{
    let mut n = 0u32;
    for b in word {
        n = n * 10 + u32::from(b.saturating_sub(b'0'));
        if n > 255 {
            return 255;
        }
    }
    n as u8
}

/// A copy of a text.
pub(crate) fn copy_of(alloc: Global, text: &[u8]) -> Result<Bytes, AllocError>
    ensures { IfOk result (λ made. made ≡ text.now) }
{
    List::from_slice(alloc, text)
}
