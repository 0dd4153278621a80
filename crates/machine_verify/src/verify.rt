//! Both verifiers.

ghost use Rattle.std.specs.Prelude.{◌≡◌, ◌<◌, ◌++◌, ◌∷◌, [], option_map, IfOk, IfErr, OnOk};
ghost use Rattle.std.specs.List.{list_any};
ghost use Rattle.mir_meaning.specs.declared.Form.TheVariants as forms;
ghost use Rattle.mir_meaning.specs.Registers.{numbers};
ghost use Rattle.live_lanes.specs.Doing.{IsComputed};
ghost use Rattle.machine_verify.specs.Faults.{fault_of};
ghost use Rattle.machine_verify.specs.Lives.{unit_lives, flags_of, lane_lives, register_lives, some_register_lives, block_fits, starts_fit, first_late};
ghost use Rattle.machine_verify.specs.Verdict.{IsAccepted, IsFault, IfInvalid};

use crate::instr_rules::FuncInForm;
use crate::liveins::{liveins_fit, names_virtual};
use crate::search::{fault_at, shape_fault};
use crate::stop::{Invalid, VerifyStop};
use live_lanes::{LiveFunc, LiveTable};
use mir_func::operands::class_of;
use mir_func::{Block, Func, Valid};
use mir_meaning::Form;
use std::alloc::{AllocError, Global};
use target_base::{Shared, Target, Unit};

/// Puts at the end whether the unit of that number is live at the start of a block.
fn push_unit(
    flags: &mut Vec<bool>,
    live: &LiveTable,
    u: usize,
    block: u32,
) -> Result<(), AllocError>
    requires { u < 65536 }
    ensures { OnOk result (flags.new.items ≡ flags.old.items ++ (unit_lives live.now.table block u ∷ [])) }
{
    flags.push(live.unit_at(Unit(u as u16), block))?;
    Ok(())
}

/// Whether each unit is live at the start of a block, by its number.
#[tactic(auto, using(crate::proofs::Marked::few_units))]
fn live_units(
    alloc: Global,
    target: &Target,
    live: &LiveTable,
    block: u32,
) -> Result<Vec<bool>, AllocError>
    ensures { IfOk result (λ flags. flags.items ≡ flags_of target.now live.now.table block) }
{
    let mut flags = Vec::new(alloc);
    'units: for u in 0..target.units.len() {
        push_unit(&mut flags, live, u, block)?;
    }
    Ok(flags)
}

/// Whether one of the first lanes of a virtual register is live at the start of a block.
#[tactic(auto, using(crate::proofs::Lived::numbers_step, crate::proofs::Lived::numbers_end))]
fn some_lane_lives(live: &LiveTable, v: u32, lanes: usize, block: u32) -> bool
    ensures { result ≡ list_any (lane_lives live.now.table block v) (numbers 0 lanes) }
{
    'lanes: for lane in 0..lanes {
        if live.live_at(v, lane, block) {
            return true;
        }
    }
    false
}

/// Whether a lane of the virtual register of that number is live at the start of a block.
fn register_lives(q: &FuncInForm, live: &LiveTable, v: usize, block: u32) -> bool
    ensures { result ≡ register_lives q.now.target.now q.now.f.now live.now.table block v }
{
    match u32::try_from(v) {
        Ok(number) => {
            let lanes = q.target.class_units(class_of(q.f, number)).len();
            some_lane_lives(live, number, lanes, block)
        }
        Err(_) => false,
    }
}

/// Whether a lane of a virtual register is live at the start of a block.
#[tactic(auto, using(crate::proofs::Lived::numbers_step, crate::proofs::Lived::numbers_end))]
fn some_register_lives(q: &FuncInForm, live: &LiveTable, block: u32) -> bool
    ensures { result ≡ some_register_lives q.now.target.now q.now.f.now live.now.table block }
{
    let f = q.f;
    'registers: for v in 0..f.classes.len() {
        if register_lives(q, live, v, block) {
            return true;
        }
    }
    false
}

/// V13, of block `k`: its live-ins are those of its live units.
fn v13(q: &FuncInForm, live: &LiveTable, k: usize, b: &Block) -> Result<bool, AllocError>
    ensures { IfOk result (λ is_right. is_right ≡ block_fits q.now.target.now q.now.form live.now.table k b.now) }
{
    let flags = live_units(q.alloc, q.target, live, b.number)?;
    liveins_fit(q.alloc, q.target, q.form, k, b, flags.as_slice())
}

/// V14: no lane of a virtual register is live at the function's start. Allocated: no virtual
/// register is named.
fn v14(q: &FuncInForm, live: &LiveTable, first: &Block) -> bool
    ensures { result ≡ starts_fit q.now.target.now q.now.form q.now.f.now live.now.table first.now.number }
{
    let f = q.f;
    match q.form {
        Form::Source => !some_register_lives(q, live, first.number),
        Form::Allocated => !names_virtual(f),
    }
}

/// The first fault of V13 and V14: V13 of the first block, then V14, then V13 of the later blocks.
#[tactic(auto, using(crate::proofs::Marked::late_step, crate::proofs::Marked::late_end))]
fn live_fault(q: &FuncInForm, live: &LiveTable) -> Result<Option<Invalid>, AllocError>
    ensures { IfOk result (λ fault. option_map fault_of fault ≡ first_late q.now.target.now q.now.form q.now.f.now live.now.table q.now.f.now.blocks) }
{
    let f = q.f;
    let blocks = f.blocks.as_slice();
    let first = &blocks[0];
    if !v13(q, live, 0, first)? {
        return Ok(Some(fault_at(first, 0, 13)));
    }
    if !v14(q, live, first) {
        return Ok(Some(fault_at(first, 0, 14)));
    }
    'rest: for k in 1..blocks.len() {
        let b = &blocks[k];
        if !v13(q, live, k, b)? {
            return Ok(Some(fault_at(b, 0, 13)));
        }
    }
    Ok(None)
}

/// What is live in a function that is valid in a form.
#[tactic(auto, using(crate::proofs::Told::told_shape))]
fn check(q: &FuncInForm) -> Result<LiveTable, VerifyStop>
    ensures ok { OnOk result (IsAccepted q.now.target.now q.now.form q.now.f.now) }
    ensures live { IfOk result (λ x. IsComputed q.now.target.now q.now.f.now x.table) }
    ensures err { IfErr result (IfInvalid (IsFault q.now.target.now q.now.form q.now.f.now)) }
{
    if let Some(fault) = shape_fault(q)? {
        return Err(VerifyStop::Invalid(fault));
    }
    let live = LiveTable::compute(q.alloc, q.target, q.f)?;
    match live_fault(q, &live)? {
        Some(fault) => Err(VerifyStop::Invalid(fault)),
        None => Ok(live),
    }
}

/// A valid source with what is live in it.
#[derive(Drop)]
pub struct LiveSource {
    /// The source.
    pub source: Valid,
    /// What is live in it.
    pub table: LiveTable,
}

impl LiveSource {
    /// The source with what is live in it, and the target under which that was computed.
    pub fn into_live(self, target: &Shared<Target>) -> Result<LiveFunc, AllocError>
        requires { IsComputed target.now self.source.func self.table.table }
        ensures parts { IfOk result (λ x. (x.target ≡ target.now) × (x.func ≡ self.source.func)) }
        ensures exact { IfOk result (λ x. IsComputed x.target x.func x.table) }
    {
        let target = target.share()?;
        let LiveSource { source, table } = self;
        Ok(LiveFunc::of_parts(target, source.func, table))
    }
}

/// Whether a function is valid as a source of the allocator under a target. It is handed back
/// unchanged where it is, with what is live in it; else comes the first place in layout at which a
/// rule fails, with the least rule there. Memory comes where memory runs out.
pub fn verify_live(alloc: Global, target: &Target, f: Func) -> Result<LiveSource, VerifyStop>
    ensures ok { IfOk result (λ v. (v.source.func ≡ f) × IsAccepted target.now forms.Source f) }
    ensures live { IfOk result (λ v. IsComputed target.now v.source.func v.table.table) }
    ensures err { IfErr result (IfInvalid (IsFault target.now forms.Source f)) }
{
    let q = FuncInForm {
        alloc,
        target,
        form: Form::Source,
        f: &f,
    };
    let table = check(&q)?;
    Ok(LiveSource {
        source: Valid { func: f },
        table,
    })
}

/// Whether a function is valid as a source of the allocator under a target. It is handed back
/// unchanged where it is; else comes the first place in layout at which a rule fails, with the least
/// rule there. Memory comes where memory runs out.
pub fn verify_source(alloc: Global, target: &Target, f: Func) -> Result<Valid, VerifyStop>
    ensures ok { IfOk result (λ v. (v.func ≡ f) × IsAccepted target.now forms.Source f) }
    ensures err { IfErr result (IfInvalid (IsFault target.now forms.Source f)) }
{
    let LiveSource { source, .. } = verify_live(alloc, target, f)?;
    Ok(source)
}

/// Whether a function is valid as an allocated function under a target; else comes the first place
/// in layout at which a rule fails, with the least rule there. Memory comes where memory runs out.
pub fn verify_allocated(alloc: Global, target: &Target, f: &Func) -> Result<(), VerifyStop>
    ensures ok { OnOk result (IsAccepted target.now forms.Allocated f.now) }
    ensures err { IfErr result (IfInvalid (IsFault target.now forms.Allocated f.now)) }
{
    let q = FuncInForm {
        alloc,
        target,
        form: Form::Allocated,
        f,
    };
    check(&q)?;
    Ok(())
}
