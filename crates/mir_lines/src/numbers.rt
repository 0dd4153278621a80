//! The numbers that digits spell.

ghost use Rattle.std.specs.Prelude.{◌≡◌, ◌≤◌, ◌^◌, IfSome};
ghost use Rattle.mir_lines.specs.Numbers.{digit_value, numeral, decimal_at_most, hex_at_most, number_of};

use crate::lexer::{Sort, are_of, is_digit};

/// What a digit stands for, a hexadecimal one too.
#[tactic(auto, unfolding(crate::specs::Numbers::digit_value))]
fn digit_value(b: u8) -> u128
    ensures value { result ≡ digit_value b }
    ensures small { result ≤ 255 }
{
    if is_digit(b) {
        u128::from(b - b'0')
    } else if b'a' <= b {
        u128::from(b.saturating_sub(87))
    } else {
        u128::from(b.saturating_sub(55))
    }
}

/// The number that one or more digits of a sort spell to a base, where it is at most `most`.
#[tactic(auto, unfolding(crate::specs::Numbers::numeral))]
fn numeral(sort: Sort, base: u128, most: u128, text: &[u8]) -> Option<u128>
    requires base { base ≤ 16 }
    requires some { 1 ≤ base }
    requires most { most ≤ 2 ^ 64 }
    ensures value { result ≡ numeral sort base most text.now }
    ensures bound { IfSome result (λ n. n ≤ most) }
{
    if text.is_empty() || !are_of(sort, text) {
        return None;
    }
    let mut n = 0u128;
    for b in text {
        n = n * base + digit_value(*b);
        if n > most {
            return None;
        }
    }
    Some(n)
}

/// The number that decimal digits spell, where it is at most `most`.
pub fn decimal(text: &[u8], most: u128) -> Option<u128>
    requires { most ≤ 2 ^ 64 }
    ensures value { result ≡ decimal_at_most most text.now }
    ensures bound { IfSome result (λ n. n ≤ most) }
{
    numeral(Sort::Digit, 10, most, text)
}

/// The number of a virtual register, a block or a frame object.
pub fn number(text: &[u8]) -> Option<u32>
    ensures value { result ≡ number_of text.now }
    ensures bound { IfSome result (λ n. n ≤ 2147483647) }
{
    match decimal(text, 0x7fff_ffff) {
        None => None,
        Some(n) => Some(n as u32),
    }
}

/// The number that hexadecimal digits spell, where it is at most 2^31.
pub fn share(text: &[u8]) -> Option<u32>
    ensures { result ≡ hex_at_most 2147483648 text.now }
{
    match numeral(Sort::Hex, 16, 0x8000_0000, text) {
        None => None,
        Some(n) => Some(n as u32),
    }
}
