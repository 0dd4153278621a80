//! What a counted instruction does with the values that it reads.

ghost use Rattle.std.specs.Prelude.{◌≡◌, ◌&&◌, false, length, slice_index_or, ◌≤◌, ◌<◌, ◌%◌, ◌^◌, ◌+◌, ◌-◌, ◌*◌, ◌==◌, ◌++◌, ◌∷◌, [], ℕ, List, sum, map, not, nat_eq, cond, IfOk, OnOk, None, Some};
ghost use Rattle.meaning.specs.Environment.{Environment, Value, residue};
ghost use Rattle.meaning.specs.State.{values};
ghost use Rattle.meaning.specs.Perform.{operand, widths_of, lanes_of, given, combined, applied, compared, flag, address, base_width, holds, loaded, answers, has_undef, lacks, answered_control, first_answer, shown, all_lanes, stored, perform};
ghost use Rattle.meaning.specs.Perform as meaning;
ghost use Rattle.mir_interp.specs.Holds.{held_by};
ghost use Rattle.mir_interp.specs.Stands.{Stands, given_by, event_of};
ghost use Rattle.mir_interp.specs.Remembers.{Matches, Remembers};
ghost use Rattle.mir_interp.specs.Kinds.{kind_of, two, one, quotient, if_some, passes, control_of, asked, Pure, Did};
ghost use Rattle.mir_interp.specs.declared.perform.EffectKind.TheVariants as kinds;
ghost use Rattle.target_base.specs.declared.types.OpaqueKind.TheVariants as opaque_kinds;
ghost use Rattle.mir_interp.specs.declared.external.ExternalState.{ExternalState};

use crate::external::ExternalState;
use crate::fetch::RunContext;
use crate::numbers::{
    add, bias_signed, madd, mul, neg, not, push_cut, sar, sext, shl, shr, sub, with_room,
};
use crate::store::Store;
use crate::types::{End, Event, Events, Lanes};
use crate::world::World;
use instr_effects::items::counted::{low_bits, residue, total};
use meaning::{Reads, Rest};
use std::alloc::{AllocError, Global};
use target_base::{Copied, Effect, List, OpaqueKind};

/// Where a run goes on.
#[derive(Clone, Copy)]
pub enum Control {
    /// In order.
    Next,
    /// At the branch target.
    Taken,
    /// Nowhere.
    Stop(End),
}

/// Effects by what they ask.
#[derive(Clone, Copy)]
pub enum EffectKind {
    /// A number of two numbers.
    Binary,
    /// A number of one number.
    Unary,
    /// Product and sum.
    Ternary,
    /// A quotient or a remainder.
    Division,
    /// A comparison.
    Comparison,
    /// A load, with its scale.
    Loading(u8),
    /// A store, with its scale.
    Storing(u8),
    /// A jump.
    Jumping,
    /// A jump under a condition on flags.
    OnFlag,
    /// A jump where a register isn't 0.
    OnNumber,
    /// A call.
    Calling,
    /// A return.
    Returning,
    /// An opaque instruction.
    Opaque(OpaqueKind),
    /// Nothing.
    Idle,
}

/// What an instruction gave: the lanes that it computed, and where the run goes on.
pub type EffectResult = (Lanes, Control);

/// What an effect asks.
fn kind_of(e: Effect) -> EffectKind
    ensures { result ≡ kind_of e }
{
    match e {
        Effect::Add => EffectKind::Binary,
        Effect::Sub => EffectKind::Binary,
        Effect::Mul => EffectKind::Binary,
        Effect::And => EffectKind::Binary,
        Effect::Or => EffectKind::Binary,
        Effect::Xor => EffectKind::Binary,
        Effect::Shl => EffectKind::Binary,
        Effect::Shr => EffectKind::Binary,
        Effect::Sar => EffectKind::Binary,
        Effect::Neg => EffectKind::Unary,
        Effect::Not => EffectKind::Unary,
        Effect::Zext => EffectKind::Unary,
        Effect::Sext => EffectKind::Unary,
        Effect::Udiv => EffectKind::Division,
        Effect::Urem => EffectKind::Division,
        Effect::Madd => EffectKind::Ternary,
        Effect::Cmp => EffectKind::Comparison,
        Effect::Load(scale) => EffectKind::Loading(scale),
        Effect::Store(scale) => EffectKind::Storing(scale),
        Effect::Jump => EffectKind::Jumping,
        Effect::Jcc => EffectKind::OnFlag,
        Effect::Jnz => EffectKind::OnNumber,
        Effect::Call => EffectKind::Calling,
        Effect::Ret => EffectKind::Returning,
        Effect::Opaque(kind) => EffectKind::Opaque(kind),
        _ => EffectKind::Idle,
    }
}

/// The bits of lanes of these widths. Want of memory stands for more than 128, which no operand has.
fn bits_of(widths: &[u32]) -> Result<u32, AllocError>
    ensures { IfOk result (λ w. (w ≡ sum widths.now) × (w ≤ 128)) }
{
    total(widths).ok_or(AllocError)
}

/// The bits of an operand, by its number; 0 where there is none.
fn operand_bits(r: &Rest, k: usize) -> Result<u32, AllocError>
    ensures { IfOk result (λ w. (w ≡ sum (widths_of r.now.widths k)) × (w ≤ 128)) }
{
    if k >= r.widths.len() {
        return Ok(0);
    }
    let w = bits_of(r.widths.get(k).as_slice())?;
    Ok(w)
}

/// A number as the lanes of the result; no lanes where it is Undef.
fn lanes_of(alloc: Global, widths: &[u32], n: Option<u128>) -> Result<Lanes, AllocError>
    ensures { IfOk result (λ made. made ≡ given widths.now n) }
{
    match n {
        None => Ok(List::new(alloc)),
        Some(n) => {
            let mut lanes = with_room(alloc, widths.len())?;
            push_cut(&mut lanes, widths, n)?;
            Ok(lanes)
        }
    }
}

/// A number of two numbers, by the effect, modulo 2^w.
fn binary_number(e: Effect, a: u128, b: u128, w: u32) -> u128
    requires { w ≤ 128 }
    ensures { result ≡ two e w a b }
{
    match e {
        Effect::Add => add(a, b, w),
        Effect::Sub => sub(a, b, w),
        Effect::Mul => mul(a, b, w),
        Effect::And => low_bits(a & b, w),
        Effect::Or => low_bits(a | b, w),
        Effect::Xor => low_bits(a ^ b, w),
        Effect::Shl => shl(a, b, w),
        Effect::Shr => shr(a, b, w),
        _ => sar(a, b, w),
    }
}

/// A number of one number of so many bits, by the effect, modulo 2^w.
fn unary_number(e: Effect, from: u32, w: u32, a: u128) -> u128
    requires from { from ≤ 128 }
    requires w { w ≤ 128 }
    ensures { result ≡ one e from w a }
{
    match e {
        Effect::Neg => neg(a, w),
        Effect::Not => not(a, w),
        Effect::Sext => sext(a, from, w),
        _ => low_bits(a, w),
    }
}

/// The two numbers combined, if both are defined.
fn combine_defined(e: Effect, w: u32, a: Option<u128>, b: Option<u128>) -> Option<u128>
    requires { w ≤ 128 }
    ensures { result ≡ combined a b (two e w) }
{
    match a {
        None => None,
        Some(a) => match b {
            None => None,
            Some(b) => Some(binary_number(e, a, b, w)),
        },
    }
}

/// The number changed, if it is defined.
fn unary_defined(e: Effect, from: u32, w: u32, a: Option<u128>) -> Option<u128>
    requires from { from ≤ 128 }
    requires w { w ≤ 128 }
    ensures { result ≡ applied a (one e from w) }
{
    match a {
        None => None,
        Some(a) => Some(unary_number(e, from, w, a)),
    }
}

/// Product and sum of three numbers, if all are defined.
fn madd_defined(w: u32, a: Option<u128>, b: Option<u128>, c: Option<u128>) -> Option<u128>
    requires { w ≤ 128 }
    ensures { result ≡ combined (combined a b (λ x y. x * y)) c (λ m z. (m + z) % 2 ^ w) }
{
    let Some(a) = a else { return None };
    let Some(b) = b else { return None };
    let Some(c) = c else { return None };
    Some(madd(a, b, c, w))
}

/// A flag as a lane.
fn flag(holds: bool) -> Option<u128>
    ensures { result ≡ flag holds }
{
    if holds { Some(1) } else { Some(0) }
}

/// The flags of a comparison at w bits: equal, signed less, unsigned less; none where a number is
/// Undef.
fn compare_numbers(
    alloc: Global,
    w: u32,
    a: Option<u128>,
    b: Option<u128>,
) -> Result<Lanes, AllocError>
    requires { w ≤ 128 }
    ensures { IfOk result (λ made. made ≡ compared w a b) }
{
    let mut lanes = with_room(alloc, 3)?;
    let Some(a) = a else { return Ok(lanes) };
    let Some(b) = b else { return Ok(lanes) };
    lanes.push(flag(a == b))?;
    lanes.push(flag(bias_signed(w, a) < bias_signed(w, b)))?;
    lanes.push(flag(a < b))?;
    Ok(lanes)
}

/// The quotient or the remainder; None where the dividend is Undef.
fn quotient(e: Effect, a: Option<u128>, b: u128) -> Option<u128>
    requires { 0 < b }
    ensures { result ≡ combined a (Some b) (quotient e) }
{
    match a {
        None => None,
        Some(a) => match e {
            Effect::Udiv => Some(a / b),
            _ => Some(a % b),
        },
    }
}

/// Whether a flag is what the instruction's condition asks for; None where it is Undef.
fn is_wanted(r: &Rest, flag: Option<u128>) -> Option<bool>
    ensures { result ≡ passes (holds r.now.immediate) flag }
{
    match flag {
        None => None,
        Some(n) => Some(n % 2 == 1u128.saturating_sub(residue(r.immediate, 1))),
    }
}

/// Whether a number isn't 0; None where it is Undef.
fn is_set(number: Option<u128>) -> Option<bool>
    ensures { result ≡ passes (λ n. not (nat_eq n 0)) number }
{
    match number {
        None => None,
        Some(n) => Some(n != 0),
    }
}

/// Where a branch goes whose test may be Undef.
fn branch_on(tested: Option<bool>) -> Control
    ensures { result ≡ if_some tested }
{
    match tested {
        None => Control::Stop(End::Undefined),
        Some(taken) => { if taken { Control::Taken } else { Control::Next } }
    }
}

/// Whether a lane is undefined.
fn has_undef(lanes: &[Option<u128>]) -> bool
    ensures { result ≡ has_undef lanes.now }
{
    lanes.iter().any(|lane| lane.is_none())
}

/// The first lane of an answer that an opaque instruction writes; lane 0 says where a branch goes.
fn first_answer(kind: OpaqueKind) -> usize
    ensures { result ≡ first_answer kind }
{
    match kind {
        OpaqueKind::Branch => 1,
        _ => 0,
    }
}

/// A step of a run: what it may ask.
#[derive(Drop)]
pub struct Executor<'a, W> {
    /// What the run finds.
    pub around: &'a RunContext<'a, W>,
    /// What the lanes hold.
    pub store: &'a Store,
    /// The instruction.
    pub rest: &'a Rest,
    /// What it reads.
    pub reads: &'a Reads,
}

impl<'a, W: World> Executor<'a, W> {
    /// What an operand gives.
    fn operand(&self, k: usize) -> Result<Option<u128>, AllocError>
        ensures { IfOk result (λ v. (n : ℕ) (env : Environment) → Stands (given_by W.entry W.byte W.frame W.symbol W.answer self.now.around.now.world.now) self.now.around.now.symbols.now n env → v ≡ operand self.now.rest.now.widths (values env (held_by self.now.store.now) self.now.reads.now) k) }
    {
        self.around
            .operand(self.store, &self.rest.widths, self.reads, k)
    }

    /// An effect of two numbers.
    fn binary(&self, alloc: Global) -> Result<EffectResult, AllocError>
        requires { kind_of self.now.rest.now.effect ≡ kinds.Binary }
        ensures { IfOk result (λ p. (n : ℕ) (env : Environment) → Stands (given_by W.entry W.byte W.frame W.symbol W.answer self.now.around.now.world.now) self.now.around.now.symbols.now n env → (o : meaning.Outside) → Pure p o (perform self.now.rest.now env o (values env (held_by self.now.store.now) self.now.reads.now))) }
    {
        let result = self.rest.result.as_slice();
        let w = bits_of(result)?;
        let a = self.operand(0)?;
        let b = self.operand(1)?;
        let n = combine_defined(self.rest.effect, w, a, b);
        let lanes = lanes_of(alloc, result, n)?;
        Ok((lanes, Control::Next))
    }

    /// An effect of one number.
    fn unary(&self, alloc: Global) -> Result<EffectResult, AllocError>
        requires { kind_of self.now.rest.now.effect ≡ kinds.Unary }
        ensures { IfOk result (λ p. (n : ℕ) (env : Environment) → Stands (given_by W.entry W.byte W.frame W.symbol W.answer self.now.around.now.world.now) self.now.around.now.symbols.now n env → (o : meaning.Outside) → Pure p o (perform self.now.rest.now env o (values env (held_by self.now.store.now) self.now.reads.now))) }
    {
        let result = self.rest.result.as_slice();
        let w = bits_of(result)?;
        let from = operand_bits(self.rest, 0)?;
        let a = self.operand(0)?;
        let n = unary_defined(self.rest.effect, from, w, a);
        let lanes = lanes_of(alloc, result, n)?;
        Ok((lanes, Control::Next))
    }

    /// The product of two numbers, plus a third.
    fn ternary(&self, alloc: Global) -> Result<EffectResult, AllocError>
        requires { kind_of self.now.rest.now.effect ≡ kinds.Ternary }
        ensures { IfOk result (λ p. (n : ℕ) (env : Environment) → Stands (given_by W.entry W.byte W.frame W.symbol W.answer self.now.around.now.world.now) self.now.around.now.symbols.now n env → (o : meaning.Outside) → Pure p o (perform self.now.rest.now env o (values env (held_by self.now.store.now) self.now.reads.now))) }
    {
        let result = self.rest.result.as_slice();
        let w = bits_of(result)?;
        let a = self.operand(0)?;
        let b = self.operand(1)?;
        let d = self.operand(2)?;
        let n = madd_defined(w, a, b, d);
        let lanes = lanes_of(alloc, result, n)?;
        Ok((lanes, Control::Next))
    }

    /// A comparison.
    fn comparison(&self, alloc: Global) -> Result<EffectResult, AllocError>
        requires { kind_of self.now.rest.now.effect ≡ kinds.Comparison }
        ensures { IfOk result (λ p. (n : ℕ) (env : Environment) → Stands (given_by W.entry W.byte W.frame W.symbol W.answer self.now.around.now.world.now) self.now.around.now.symbols.now n env → (o : meaning.Outside) → Pure p o (perform self.now.rest.now env o (values env (held_by self.now.store.now) self.now.reads.now))) }
    {
        let w = operand_bits(self.rest, 0)?;
        let a = self.operand(0)?;
        let b = self.operand(1)?;
        let lanes = compare_numbers(alloc, w, a, b)?;
        Ok((lanes, Control::Next))
    }

    /// A division: a divisor of 0 traps, whatever the dividend is.
    fn division(&self, alloc: Global) -> Result<EffectResult, AllocError>
        requires { kind_of self.now.rest.now.effect ≡ kinds.Division }
        ensures { IfOk result (λ p. (n : ℕ) (env : Environment) → Stands (given_by W.entry W.byte W.frame W.symbol W.answer self.now.around.now.world.now) self.now.around.now.symbols.now n env → (o : meaning.Outside) → Pure p o (perform self.now.rest.now env o (values env (held_by self.now.store.now) self.now.reads.now))) }
    {
        let a = self.operand(0)?;
        let divisor = self.operand(1)?;
        let Some(b) = divisor else {
            let undefined = List::new(alloc);
            return Ok((undefined, Control::Next));
        };
        if b == 0 {
            let none = List::new(alloc);
            return Ok((none, Control::Stop(End::Trapped)));
        }
        let n = quotient(self.rest.effect, a, b);
        let result = self.rest.result.as_slice();
        let lanes = lanes_of(alloc, result, n)?;
        Ok((lanes, Control::Next))
    }

    /// A jump under a condition on flags.
    fn on_flag(&self, alloc: Global) -> Result<EffectResult, AllocError>
        requires { kind_of self.now.rest.now.effect ≡ kinds.OnFlag }
        ensures { IfOk result (λ p. (n : ℕ) (env : Environment) → Stands (given_by W.entry W.byte W.frame W.symbol W.answer self.now.around.now.world.now) self.now.around.now.symbols.now n env → (o : meaning.Outside) → Pure p o (perform self.now.rest.now env o (values env (held_by self.now.store.now) self.now.reads.now))) }
    {
        let a = self.operand(0)?;
        let tested = is_wanted(self.rest, a);
        let control = branch_on(tested);
        let none = List::new(alloc);
        Ok((none, control))
    }

    /// A jump where a register isn't 0.
    fn on_number(&self, alloc: Global) -> Result<EffectResult, AllocError>
        requires { kind_of self.now.rest.now.effect ≡ kinds.OnNumber }
        ensures { IfOk result (λ p. (n : ℕ) (env : Environment) → Stands (given_by W.entry W.byte W.frame W.symbol W.answer self.now.around.now.world.now) self.now.around.now.symbols.now n env → (o : meaning.Outside) → Pure p o (perform self.now.rest.now env o (values env (held_by self.now.store.now) self.now.reads.now))) }
    {
        let a = self.operand(0)?;
        let tested = is_set(a);
        let control = branch_on(tested);
        let none = List::new(alloc);
        Ok((none, control))
    }

    /// The address of a load or a store at a base of w bits.
    fn address(&self, base: u128, w: u32, scale: u8) -> u128
        requires { w ≤ 128 }
        ensures { result ≡ (base + residue self.now.rest.now.immediate w * scale) % 2 ^ w }
    {
        let offset = residue(self.rest.immediate, w);
        madd(offset, scale as u128, base, w)
    }

    /// A load.
    fn load(
        &self,
        alloc: Global,
        outside: &ExternalState,
        scale: u8,
    ) -> Result<EffectResult, AllocError>
        requires { kind_of self.now.rest.now.effect ≡ kinds.Loading scale }
        ensures { IfOk result (λ p. (n : ℕ) (env : Environment) → Stands (given_by W.entry W.byte W.frame W.symbol W.answer self.now.around.now.world.now) self.now.around.now.symbols.now n env → (o : meaning.Outside) → Remembers env outside.now o → Pure p o (perform self.now.rest.now env o (values env (held_by self.now.store.now) self.now.reads.now))) }
    {
        let w = operand_bits(self.rest, 0)?;
        let operand = self.operand(0)?;
        let Some(base) = operand else {
            let nowhere = List::new(alloc);
            return Ok((nowhere, Control::Stop(End::Undefined)));
        };
        let a = self.address(base, w, scale);
        let result = self.rest.result.as_slice();
        let mut lanes = List::new(alloc);
        outside.push_loaded(&mut lanes, self.around.world, w, a, result)?;
        Ok((lanes, Control::Next))
    }

    /// An instruction that does nothing to the outside.
    fn compute(
        &self,
        alloc: Global,
        outside: &ExternalState,
        kind: EffectKind,
    ) -> Result<EffectResult, AllocError>
        requires { kind ≡ kind_of self.now.rest.now.effect }
        ensures { IfOk result (λ p. (n : ℕ) (env : Environment) → Stands (given_by W.entry W.byte W.frame W.symbol W.answer self.now.around.now.world.now) self.now.around.now.symbols.now n env → (o : meaning.Outside) → Remembers env outside.now o → Pure p o (perform self.now.rest.now env o (values env (held_by self.now.store.now) self.now.reads.now))) }
    {
        match kind {
            EffectKind::Binary => self.binary(alloc),
            EffectKind::Unary => self.unary(alloc),
            EffectKind::Ternary => self.ternary(alloc),
            EffectKind::Division => self.division(alloc),
            EffectKind::Comparison => self.comparison(alloc),
            EffectKind::Loading(scale) => self.load(alloc, outside, scale),
            EffectKind::OnFlag => self.on_flag(alloc),
            EffectKind::OnNumber => self.on_number(alloc),
            EffectKind::Jumping => {
                let jumped = List::new(alloc);
                Ok((jumped, Control::Taken))
            }
            EffectKind::Idle => {
                let idle = List::new(alloc);
                Ok((idle, Control::Next))
            }
            EffectKind::Storing(_) => Err(AllocError),
            EffectKind::Calling => Err(AllocError),
            EffectKind::Returning => Err(AllocError),
            EffectKind::Opaque(_) => Err(AllocError),
        }
    }

    /// The lanes of an operand, by its number; none where there is none.
    fn operand_lanes(&self, alloc: Global, k: usize) -> Result<Lanes, AllocError>
        ensures { IfOk result (λ v. (n : ℕ) (env : Environment) → Stands (given_by W.entry W.byte W.frame W.symbol W.answer self.now.around.now.world.now) self.now.around.now.symbols.now n env → v ≡ lanes_of (values env (held_by self.now.store.now) self.now.reads.now) k) }
    {
        let read_count = self.reads.len();
        if k >= read_count {
            return Ok(List::new(alloc));
        }
        let picked = self.reads.get(k);
        let sources = picked.as_slice();
        let mut lanes = with_room(alloc, sources.len())?;
        self.around.push_fetched(&mut lanes, self.store, sources)?;
        Ok(lanes)
    }

    /// Stores lanes at an address.
    fn put(
        &self,
        outside: &mut ExternalState,
        w: u32,
        a: u128,
        lanes: &[Option<u128>],
    ) -> Result<(), AllocError>
        requires { w ≤ 128 }
        ensures calls { outside.new.calls ≡ outside.old.calls }
        ensures bytes { OnOk result ((env : Environment) (bs : List (ℕ × Value)) → Matches env outside.old.bytes bs → Matches env outside.new.bytes (stored w a (widths_of self.now.rest.now.widths 1) lanes.now bs)) }
    {
        let width_count = self.rest.widths.len();
        if 1 >= width_count {
            return Ok(());
        }
        let own = self.rest.widths.get(1);
        let own_widths = own.as_slice();
        outside.store(w, a, own_widths, lanes)?;
        Ok(())
    }

    /// A store.
    fn store(
        &self,
        alloc: Global,
        outside: &mut ExternalState,
        events: &mut Events,
        scale: u8,
    ) -> Result<EffectResult, AllocError>
        requires { kind_of self.now.rest.now.effect ≡ kinds.Storing scale }
        ensures calls { OnOk result (outside.new.calls ≤ outside.old.calls + 1) }
        ensures did { IfOk result (λ p. (n : ℕ) (env : Environment) → Stands (given_by W.entry W.byte W.frame W.symbol W.answer self.now.around.now.world.now) self.now.around.now.symbols.now n env → (o : meaning.Outside) → Remembers env outside.old o → Did env p outside.new events.old events.new (perform self.now.rest.now env o (values env (held_by self.now.store.now) self.now.reads.now))) }
    {
        let w = operand_bits(self.rest, 0)?;
        let operand = self.operand(0)?;
        let Some(base) = operand else {
            let nowhere = List::new(alloc);
            return Ok((nowhere, Control::Stop(End::Undefined)));
        };
        let a = self.address(base, w, scale);
        let lanes = self.operand_lanes(alloc, 1)?;
        let values = lanes.as_slice();
        self.put(outside, w, a, values)?;
        events.push(Event::Store(a, lanes))?;
        let none = List::new(alloc);
        Ok((none, Control::Next))
    }

    /// All lanes that the instruction reads.
    fn all_lanes(&self, alloc: Global) -> Result<Lanes, AllocError>
        ensures { IfOk result (λ v. (n : ℕ) (env : Environment) → Stands (given_by W.entry W.byte W.frame W.symbol W.answer self.now.around.now.world.now) self.now.around.now.symbols.now n env → v ≡ all_lanes (values env (held_by self.now.store.now) self.now.reads.now)) }
    {
        let mut lanes = List::new(alloc);
        self.around.push_all(&mut lanes, self.store, self.reads)?;
        Ok(lanes)
    }

    /// The lanes of an answer from number `first` on, as many as the instruction computes.
    fn answer(&self, alloc: Global, call: u64, first: usize) -> Result<Lanes, AllocError>
        ensures { IfOk result (λ v. (n : ℕ) (env : Environment) → Stands (given_by W.entry W.byte W.frame W.symbol W.answer self.now.around.now.world.now) self.now.around.now.symbols.now n env → call < n → v ≡ answers env call first self.now.rest.now.result) }
    {
        let mut lanes = List::new(alloc);
        for j in 0..self.rest.result.len() {
            let Some(lane) = first.checked_add(j) else {
                return Err(AllocError);
            };
            let number = self.around.world.answer(call, lane);
            lanes.push(Some(low_bits(number, *self.rest.result.get(j))))?;
        }
        Ok(lanes)
    }

    /// A call.
    fn call(
        &self,
        alloc: Global,
        outside: &mut ExternalState,
        events: &mut Events,
    ) -> Result<EffectResult, AllocError>
        requires { kind_of self.now.rest.now.effect ≡ kinds.Calling }
        ensures calls { OnOk result (outside.new.calls ≤ outside.old.calls + 1) }
        ensures did { IfOk result (λ p. (n : ℕ) (env : Environment) → Stands (given_by W.entry W.byte W.frame W.symbol W.answer self.now.around.now.world.now) self.now.around.now.symbols.now n env → (o : meaning.Outside) → Remembers env outside.old o → o.calls < n → Did env p outside.new events.old events.new (perform self.now.rest.now env o (values env (held_by self.now.store.now) self.now.reads.now))) }
    {
        let lanes = self.all_lanes(alloc)?;
        let symbol = self.rest.symbol.copied(alloc)?;
        let call = outside.calls();
        let answer = self.answer(alloc, call, 0)?;
        outside.count_call()?;
        events.push(Event::Call(symbol, lanes))?;
        Ok((answer, Control::Next))
    }

    /// A return.
    fn give_back(&self, alloc: Global, events: &mut Events) -> Result<EffectResult, AllocError>
        requires { kind_of self.now.rest.now.effect ≡ kinds.Returning }
        ensures { IfOk result (λ p. (n : ℕ) (env : Environment) → Stands (given_by W.entry W.byte W.frame W.symbol W.answer self.now.around.now.world.now) self.now.around.now.symbols.now n env → (o : meaning.Outside) (m : ExternalState) → Remembers env m o → Did env p m events.old events.new (perform self.now.rest.now env o (values env (held_by self.now.store.now) self.now.reads.now))) }
    {
        let lanes = self.all_lanes(alloc)?;
        events.push(Event::Return(lanes))?;
        let none = List::new(alloc);
        Ok((none, Control::Stop(End::Returned)))
    }

    /// Whether an operand, by its number, has to be defined and has an undefined lane.
    fn is_lacking(&self, alloc: Global, k: usize) -> Result<bool, AllocError>
        requires { k < length self.now.rest.now.needed }
        ensures { IfOk result (λ b. (n : ℕ) (env : Environment) → Stands (given_by W.entry W.byte W.frame W.symbol W.answer self.now.around.now.world.now) self.now.around.now.symbols.now n env → b ≡ (slice_index_or self.now.rest.now.needed k false && has_undef (lanes_of (values env (held_by self.now.store.now) self.now.reads.now) k))) }
    {
        if !*self.rest.needed.get(k) {
            return Ok(false);
        }
        let lanes = self.operand_lanes(alloc, k)?;
        let own_lanes = lanes.as_slice();
        Ok(has_undef(own_lanes))
    }

    /// Whether an operand that has to be defined has an undefined lane.
    fn lacks(&self, alloc: Global) -> Result<bool, AllocError>
        ensures { IfOk result (λ b. (n : ℕ) (env : Environment) → Stands (given_by W.entry W.byte W.frame W.symbol W.answer self.now.around.now.world.now) self.now.around.now.symbols.now n env → b ≡ lacks self.now.rest.now.needed (values env (held_by self.now.store.now) self.now.reads.now)) }
    {
        for k in 0..self.rest.needed.len() {
            let lacking = self.is_lacking(alloc, k)?;
            if lacking {
                return Ok(true);
            }
        }
        Ok(false)
    }

    /// Where an opaque branch goes that takes this answer: to its target where lane 0, modulo 2^8, is no
    /// multiple of 3.
    fn answered_branch(&self, call: u64) -> Control
        ensures { (n : ℕ) (env : Environment) → Stands (given_by W.entry W.byte W.frame W.symbol W.answer self.now.around.now.world.now) self.now.around.now.symbols.now n env → call < n → control_of result ≡ answered_control opaque_kinds.Branch env call }
    {
        let told = low_bits(self.around.world.answer(call, 0), 8);
        if told % 3 == 0 {
            Control::Next
        } else {
            Control::Taken
        }
    }

    /// Where an opaque instruction goes that takes this answer: a branch as it says, any other in order.
    fn answered_control(&self, kind: OpaqueKind, call: u64) -> Control
        ensures { (n : ℕ) (env : Environment) → Stands (given_by W.entry W.byte W.frame W.symbol W.answer self.now.around.now.world.now) self.now.around.now.symbols.now n env → call < n → control_of result ≡ answered_control kind env call }
    {
        match kind {
            OpaqueKind::Branch => self.answered_branch(call),
            _ => Control::Next,
        }
    }

    /// An opaque instruction that takes an answer: it shows what it reads, and gives what it is
    /// answered.
    fn ask(
        &self,
        alloc: Global,
        outside: &mut ExternalState,
        events: &mut Events,
        kind: OpaqueKind,
    ) -> Result<EffectResult, AllocError>
        ensures calls { OnOk result (outside.new.calls ≤ outside.old.calls + 1) }
        ensures did { IfOk result (λ p. (n : ℕ) (env : Environment) → Stands (given_by W.entry W.byte W.frame W.symbol W.answer self.now.around.now.world.now) self.now.around.now.symbols.now n env → (o : meaning.Outside) → Remembers env outside.old o → o.calls < n → Did env p outside.new events.old events.new (asked kind self.now.rest.now env o (values env (held_by self.now.store.now) self.now.reads.now))) }
    {
        let lanes = self.all_lanes(alloc)?;
        let name = self.rest.symbol.copied(alloc)?;
        let call = outside.calls();
        let first = first_answer(kind);
        let answer = self.answer(alloc, call, first)?;
        let control = self.answered_control(kind, call);
        outside.count_call()?;
        events.push(Event::Opaque(name, lanes))?;
        Ok((answer, control))
    }

    /// An opaque return: it shows what it reads, and ends the run.
    fn leave(&self, alloc: Global, events: &mut Events) -> Result<EffectResult, AllocError>
        ensures { IfOk result (λ p. (n : ℕ) (env : Environment) → Stands (given_by W.entry W.byte W.frame W.symbol W.answer self.now.around.now.world.now) self.now.around.now.symbols.now n env → (o : meaning.Outside) (m : ExternalState) → Remembers env m o → Did env p m events.old events.new (shown opaque_kinds.Return self.now.rest.now env o (values env (held_by self.now.store.now) self.now.reads.now))) }
    {
        let lanes = self.all_lanes(alloc)?;
        let name = self.rest.symbol.copied(alloc)?;
        events.push(Event::Opaque(name, lanes))?;
        let none = List::new(alloc);
        Ok((none, Control::Stop(End::Returned)))
    }

    /// An opaque instruction whose addresses are defined.
    fn show(
        &self,
        alloc: Global,
        outside: &mut ExternalState,
        events: &mut Events,
        kind: OpaqueKind,
    ) -> Result<EffectResult, AllocError>
        ensures calls { OnOk result (outside.new.calls ≤ outside.old.calls + 1) }
        ensures did { IfOk result (λ p. (n : ℕ) (env : Environment) → Stands (given_by W.entry W.byte W.frame W.symbol W.answer self.now.around.now.world.now) self.now.around.now.symbols.now n env → (o : meaning.Outside) → Remembers env outside.old o → o.calls < n → Did env p outside.new events.old events.new (shown kind self.now.rest.now env o (values env (held_by self.now.store.now) self.now.reads.now))) }
    {
        match kind {
            OpaqueKind::Return => {
                let left = self.leave(alloc, events)?;
                Ok(left)
            }
            _ => {
                let answered = self.ask(alloc, outside, events, kind)?;
                Ok(answered)
            }
        }
    }

    /// An opaque instruction, which isn't done where an address that it reads is undefined.
    fn opaque(
        &self,
        alloc: Global,
        outside: &mut ExternalState,
        events: &mut Events,
        kind: OpaqueKind,
    ) -> Result<EffectResult, AllocError>
        requires { kind_of self.now.rest.now.effect ≡ kinds.Opaque kind }
        ensures calls { OnOk result (outside.new.calls ≤ outside.old.calls + 1) }
        ensures did { IfOk result (λ p. (n : ℕ) (env : Environment) → Stands (given_by W.entry W.byte W.frame W.symbol W.answer self.now.around.now.world.now) self.now.around.now.symbols.now n env → (o : meaning.Outside) → Remembers env outside.old o → o.calls < n → Did env p outside.new events.old events.new (perform self.now.rest.now env o (values env (held_by self.now.store.now) self.now.reads.now))) }
    {
        let lacking = self.lacks(alloc)?;
        if lacking {
            let nothing = List::new(alloc);
            return Ok((nothing, Control::Stop(End::Undefined)));
        }
        let shown = self.show(alloc, outside, events, kind)?;
        Ok(shown)
    }

    /// What the instruction does.
    pub fn perform(
        &self,
        alloc: Global,
        outside: &mut ExternalState,
        events: &mut Events,
    ) -> Result<EffectResult, AllocError>
        ensures calls { OnOk result (outside.new.calls ≤ outside.old.calls + 1) }
        ensures did { IfOk result (λ p. (n : ℕ) (env : Environment) → Stands (given_by W.entry W.byte W.frame W.symbol W.answer self.now.around.now.world.now) self.now.around.now.symbols.now n env → (o : meaning.Outside) → Remembers env outside.old o → o.calls < n → Did env p outside.new events.old events.new (perform self.now.rest.now env o (values env (held_by self.now.store.now) self.now.reads.now))) }
    {
        let kind = kind_of(self.rest.effect);
        match kind {
            EffectKind::Storing(scale) => {
                let stored = self.store(alloc, outside, events, scale)?;
                Ok(stored)
            }
            EffectKind::Calling => {
                let called = self.call(alloc, outside, events)?;
                Ok(called)
            }
            EffectKind::Returning => {
                let returned = self.give_back(alloc, events)?;
                Ok(returned)
            }
            EffectKind::Opaque(opaque) => {
                let answered = self.opaque(alloc, outside, events, opaque)?;
                Ok(answered)
            }
            _ => {
                let computed = self.compute(alloc, outside, kind)?;
                Ok(computed)
            }
        }
    }
}
