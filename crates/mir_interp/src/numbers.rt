//! Numbers of so many bits.

ghost use Rattle.std.specs.Prelude.{◌≡◌, ◌+◌, ◌-◌, ◌*◌, ◌/◌, ◌%◌, ◌^◌, ◌≤◌, ◌++◌, ◌<◌, [], bit_and, bit_or, bit_xor, OnOk, IfOk};
ghost use Rattle.meaning.specs.Perform.{cut, shifted_signed, widened, biased};

use crate::types::Lanes;
use instr_effects::items::counted::{low_bits, ones};
use std::alloc::{AllocError, Global};
use target_base::List;

/// The sum modulo 2^w.
pub fn add(a: u128, b: u128, w: u32) -> u128
    requires { w ≤ 128 }
    ensures { result ≡ (a + b) % 2 ^ w }
{
    low_bits(a.wrapping_add(b), w)
}

/// The difference modulo 2^w.
pub fn sub(a: u128, b: u128, w: u32) -> u128
    requires { w ≤ 128 }
    ensures { result ≡ (a + (2 ^ w - b)) % 2 ^ w }
{
    let top = ones(w);
    if b > top {
        low_bits(a, w)
    } else {
        add(a.wrapping_add(top - b), 1, w)
    }
}

/// The product modulo 2^w.
pub fn mul(a: u128, b: u128, w: u32) -> u128
    requires { w ≤ 128 }
    ensures { result ≡ a * b % 2 ^ w }
{
    low_bits(a.wrapping_mul(b), w)
}

/// The product of two numbers plus a third, modulo 2^w.
pub fn madd(a: u128, b: u128, c: u128, w: u32) -> u128
    requires { w ≤ 128 }
    ensures { result ≡ (a * b + c) % 2 ^ w }
{
    add(a.wrapping_mul(b), c, w)
}

/// Shifted left by b modulo w, modulo 2^w.
pub fn shl(a: u128, b: u128, w: u32) -> u128
    requires { w ≤ 128 }
    ensures { result ≡ a * 2 ^ (b % w) % 2 ^ w }
{
    if w == 0 {
        return 0;
    }
    low_bits(a.wrapping_shl((b % w as u128) as u32), w)
}

/// A number shifted right by s.
pub fn shift_right(n: u128, s: u32) -> u128
    ensures { result ≡ n / 2 ^ s }
{
    if s >= 128 { 0 } else { n >> s }
}

/// Shifted right by b modulo w, modulo 2^w.
pub fn shr(a: u128, b: u128, w: u32) -> u128
    requires { w ≤ 128 }
    ensures { result ≡ a / 2 ^ (b % w) % 2 ^ w }
{
    if w == 0 {
        return 0;
    }
    low_bits(shift_right(a, (b % w as u128) as u32), w)
}

/// Half of 2^w; 1 where w is 0.
fn half(w: u32) -> u128
    requires { w ≤ 128 }
    ensures { result ≡ 2 ^ (w - 1) }
{
    1 << w.saturating_sub(1)
}

/// Shifted right by b modulo w and filled with the top bit of w bits, modulo 2^w.
pub fn sar(a: u128, b: u128, w: u32) -> u128
    requires { w ≤ 128 }
    ensures { result ≡ shifted_signed w a (b % w) % 2 ^ w }
{
    if w == 0 {
        return 0;
    }
    let s = (b % w as u128) as u32;
    if a < half(w) {
        low_bits(shift_right(a, s), w)
    } else {
        add(shift_right(a, s), ones(w) - ones(w - s), w)
    }
}

/// 0 minus the number, modulo 2^w.
pub fn neg(a: u128, w: u32) -> u128
    requires { w ≤ 128 }
    ensures { result ≡ (2 ^ w - a) % 2 ^ w }
{
    sub(0, a, w)
}

/// All of w bits turned.
pub fn not(a: u128, w: u32) -> u128
    requires { w ≤ 128 }
    ensures { result ≡ (2 ^ w - 1 - a) % 2 ^ w }
{
    ones(w).saturating_sub(a)
}

/// A number of so many bits widened with the top bit, modulo 2^to.
pub fn sext(a: u128, from: u32, to: u32) -> u128
    requires from { from ≤ 128 }
    requires to { to ≤ 128 }
    ensures { result ≡ widened from to a % 2 ^ to }
{
    if a < half(from) {
        low_bits(a, to)
    } else {
        add(a, ones(to).saturating_sub(ones(from)), to)
    }
}

/// A number moved up by half of 2^w, which keeps the order of signed numbers.
pub fn bias_signed(w: u32, n: u128) -> u128
    requires { w ≤ 128 }
    ensures { result ≡ biased w n }
{
    add(n, half(w), w)
}

/// A lower number of w bits and a higher one as one number. Want of memory stands for a number of
/// more than 128 bits, which no register holds.
pub fn put_above(low: u128, w: u32, high: u128) -> Result<u128, AllocError>
    ensures { IfOk result (λ n. n ≡ low + 2 ^ w * high) }
{
    if high == 0 {
        return Ok(low);
    }
    if w >= 128 || high > u128::MAX >> w {
        return Err(AllocError);
    }
    let raised = high << w;
    raised.checked_add(low).ok_or(AllocError)
}

/// No lanes, with room for so many.
pub fn with_room(alloc: Global, count: usize) -> Result<Lanes, AllocError>
    ensures { IfOk result (λ made. made ≡ []) }
{
    let cells = Vec::with_capacity(alloc, count)?;
    Ok(List::from_vec(cells))
}

/// Appends a number as lanes of these widths.
pub fn push_cut(out: &mut Lanes, widths: &[u32], n: u128) -> Result<(), AllocError>
    ensures { OnOk result (out.new ≡ out.old ++ cut widths.now n) }
{
    let mut rest = n;
    for w in widths {
        out.push(Some(low_bits(rest, *w)))?;
        rest = shift_right(rest, *w);
    }
    Ok(())
}
