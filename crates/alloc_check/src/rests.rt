//! Counted instructions that differ in registers alone.

ghost use Rattle.std.specs.Prelude.{◌≡◌, ◌&&◌, IsTrue, true};
ghost use Rattle.std.specs.Bool.{beq};
ghost use Rattle.std.specs.Ordering.{int_eq};
ghost use Rattle.target_base.specs.Storage.{same_numbers};
ghost use Rattle.meaning.specs.Sameness.{same_list, same_effect, same_rest, effect_number, effect_scale};

use crate::facts::same_bytes;
use meaning::Rest;
use target_base::{Effect, Numbers, OpaqueKind};

fn effect_number(e: Effect) -> u32
    ensures { result ≡ effect_number e }
{
    match e {
        Effect::Copy => 0,
        Effect::Phi => 1,
        Effect::ImplicitDef => 2,
        Effect::RegSequence => 3,
        Effect::InsertSubreg => 4,
        Effect::Const => 5,
        Effect::Addr => 6,
        Effect::Add => 7,
        Effect::Sub => 8,
        Effect::Mul => 9,
        Effect::And => 10,
        Effect::Or => 11,
        Effect::Xor => 12,
        Effect::Shl => 13,
        Effect::Shr => 14,
        Effect::Sar => 15,
        Effect::Neg => 16,
        Effect::Not => 17,
        Effect::Udiv => 18,
        Effect::Urem => 19,
        Effect::Madd => 20,
        Effect::Zext => 21,
        Effect::Sext => 22,
        Effect::Cmp => 23,
        Effect::Load(_) => 24,
        Effect::Store(_) => 25,
        Effect::Jump => 26,
        Effect::Jcc => 27,
        Effect::Jnz => 28,
        Effect::Call => 29,
        Effect::Ret => 30,
        Effect::Marker => 31,
        Effect::Spill => 32,
        Effect::Reload => 33,
        Effect::Opaque(OpaqueKind::Plain) => 34,
        Effect::Opaque(OpaqueKind::Branch) => 35,
        Effect::Opaque(OpaqueKind::Call) => 36,
        Effect::Opaque(OpaqueKind::Return) => 37,
    }
}

fn effect_scale(e: Effect) -> u8
    ensures { result ≡ effect_scale e }
{
    match e {
        Effect::Load(scale) | Effect::Store(scale) => scale,
        _ => 0,
    }
}

fn same_effect(e: Effect, f: Effect) -> bool
    ensures { result ≡ same_effect e f }
{
    effect_number(e) == effect_number(f) && effect_scale(e) == effect_scale(f)
}

/// Whether two lists of numbers are equal.
pub fn same_numbers(a: &[u32], b: &[u32]) -> bool
    ensures { result ≡ same_numbers a.now b.now }
{
    a == b
}

fn same_widths(a: &[Numbers], b: &[Numbers]) -> bool
    ensures { result ≡ same_list same_numbers a.now b.now }
{
    if a.len() != b.len() {
        return false;
    }
    for k in 0..a.len() {
        if !same_numbers(a[k].as_slice(), b[k].as_slice()) {
            return false;
        }
    }
    true
}

fn same_integer(a: i128, b: i128) -> bool
    ensures { result ≡ int_eq a b }
{
    a == b
}

fn same_flags(a: &[bool], b: &[bool]) -> bool
    ensures { result ≡ same_list beq a.now b.now }
{
    a == b
}

/// Whether all that names no register is alike.
pub fn same_rest(r: &Rest, s: &Rest) -> bool
    ensures equal { IsTrue result → r.now ≡ s.now }
    ensures exact { result ≡ same_rest r.now s.now }
{
    if !same_effect(r.effect, s.effect) {
        return false;
    }
    if !same_widths(r.widths.as_slice(), s.widths.as_slice()) {
        return false;
    }
    if !same_numbers(r.result.as_slice(), s.result.as_slice()) {
        return false;
    }
    if !same_integer(r.immediate, s.immediate) {
        return false;
    }
    if !same_flags(r.needed.as_slice(), s.needed.as_slice()) {
        return false;
    }
    same_bytes(r.symbol.as_slice(), s.symbol.as_slice())
}
