//! Runs.

ghost use Rattle.std.specs.Prelude.{◌≡◌, ◌∷◌, [], ◌+◌, ◌<◌, ◌≤◌, ℕ, suc, List, OnOk, IfOk, map, drop, length, None, Some, unwrap_or, nat_eq, option_map, flat_map};
ghost use Rattle.target_base.specs.Storage.{unit_width};
ghost use Rattle.target_base.specs.Registers.{units_of};
ghost use Rattle.std.specs.HashMap.{get};
ghost use Rattle.meaning.specs.Environment.{Environment, entry_value};
ghost use Rattle.meaning.specs.State.{fill, written, nth};
ghost use Rattle.meaning.specs.Perform as meaning;
ghost use Rattle.meaning.specs.Code.{Code, Goes, walk, runs, run, ended, continued, entered, start_state, found, target_place};
ghost use Rattle.mir_meaning.specs.Codes.{meaning_of, given_of};
ghost use Rattle.meaning.specs.declared.types.Lane.{Lane};
ghost use Rattle.mir_interp.specs.Holds.{held_by};
ghost use Rattle.mir_interp.specs.Stands.{Stands, StandsFor, Answers, given_by, end_of};
ghost use Rattle.mir_interp.specs.Remembers.{Remembers};
ghost use Rattle.mir_interp.specs.Decoded.{edge_of, item_of_step, code_of_steps};
ghost use Rattle.mir_interp.specs.Kinds.{control_of};
ghost use Rattle.mir_interp.specs.Running.{Continues, Stepped, put_in, put_in_turn, reads_no_lane, read_no_lane, given_units, passed_on, gone_on, onward};

use crate::external::ExternalState;
use crate::fetch::RunContext;
use crate::names::symbols_of;
use crate::numbers::with_room;
use crate::perform::{Control, Executor};
use crate::steps::{DecodedStep, PhiEdge, places_of, steps_of};
use crate::store::Store;
use crate::types::{End, Events, Lanes, Outcome};
use crate::world::World;
use instr_effects::items::counted::low_bits;
use meaning::{Fill, Lane, Source, Write};
use mir_func::Func;
use std::alloc::{AllocError, Global};
use std::collections::HashMap;
use target_base::classes::width_of;
use target_base::{List, Reg, Target, Unit};

/// What a fill gives to its lane.
fn fill_value<W: World>(
    around: &RunContext<W>,
    store: &Store,
    results: &[Option<u128>],
    given: &Fill,
) -> Result<Option<u128>, AllocError>
    ensures { IfOk result (λ v. (m : ℕ) (env : Environment) → Stands (given_by W.entry W.byte W.frame W.symbol W.answer around.now.world.now) around.now.symbols.now m env → v ≡ fill env results.now (held_by store.now) given.now) }
{
    match given {
        Fill::Moved(Source::Undef) => Ok(None),
        Fill::Moved(s) => {
            let value = around.fetch(store, s)?;
            Ok(value)
        }
        Fill::Computed(n) => Ok(nth(results, *n)),
    }
}

/// The value of a number; None where there is none.
fn nth(values: &[Option<u128>], n: u32) -> Option<u128>
    ensures { result ≡ nth values.now n }
{
    let k = n as usize;
    if k >= values.len() {
        return None;
    }
    values[k]
}

/// What each write gives to its lane, before any of them is made.
fn fills<W: World>(
    alloc: Global,
    around: &RunContext<W>,
    store: &Store,
    results: &[Option<u128>],
    writes: &[Write],
) -> Result<Lanes, AllocError>
    ensures { IfOk result (λ vs. (m : ℕ) (env : Environment) → Stands (given_by W.entry W.byte W.frame W.symbol W.answer around.now.world.now) around.now.symbols.now m env → vs ≡ map (λ w. fill env results.now (held_by store.now) w.fill) writes.now) }
{
    let mut values = with_room(alloc, writes.len())?;
    for w in writes {
        let value = fill_value(around, store, results, &w.fill)?;
        values.push(value)?;
    }
    Ok(values)
}

/// Makes the writes with these values; of two writes of one lane the first counts.
fn put_all(store: &mut Store, writes: &[Write], values: &[Option<u128>]) -> Result<(), AllocError>
    requires { length values.now ≡ length writes.now }
    ensures { OnOk result ((l : Lane) → held_by store.new l ≡ put_in writes.now values.now (held_by store.old) l) }
{
    for k in 0..writes.len() {
        let i = writes.len() - 1 - k;
        store.set(&writes[i].lane, values[i])?;
    }
    Ok(())
}

/// Whether a fill reads no lane.
fn reads_no_lane(given: &Fill) -> bool
    ensures { result ≡ reads_no_lane given.now }
{
    match given {
        Fill::Moved(Source::FromLane(_)) => false,
        Fill::Moved(Source::Undef) => true,
        Fill::Moved(Source::Bits(_, _, _)) => true,
        Fill::Computed(_) => true,
    }
}

/// Whether no write reads a lane.
fn read_no_lane(writes: &[Write]) -> bool
    ensures { result ≡ read_no_lane writes.now }
{
    for w in writes {
        if !reads_no_lane(&w.fill) {
            return false;
        }
    }
    true
}

/// Makes writes one after another, from the last on.
fn put_in_turn<W: World>(
    around: &RunContext<W>,
    store: &mut Store,
    results: &[Option<u128>],
    writes: &[Write],
) -> Result<(), AllocError>
    ensures { OnOk result ((m : ℕ) (env : Environment) → Stands (given_by W.entry W.byte W.frame W.symbol W.answer around.now.world.now) around.now.symbols.now m env → held_by store.new ≡ put_in_turn env results.now writes.now (held_by store.old)) }
{
    for k in 0..writes.len() {
        let i = writes.len() - 1 - k;
        let w = &writes[i];
        let value = fill_value(around, store, results, &w.fill)?;
        store.set(&w.lane, value)?;
    }
    Ok(())
}

/// Makes writes, all at once.
fn write<W: World>(
    alloc: Global,
    around: &RunContext<W>,
    store: &mut Store,
    results: &[Option<u128>],
    writes: &[Write],
) -> Result<(), AllocError>
    ensures { OnOk result ((m : ℕ) (env : Environment) → Stands (given_by W.entry W.byte W.frame W.symbol W.answer around.now.world.now) around.now.symbols.now m env → held_by store.new ≡ written env results.now writes.now (held_by store.old)) }
{
    if writes.len() < 2 || read_no_lane(writes) {
        put_in_turn(around, store, results, writes)?;
        return Ok(());
    }
    let values = fills(alloc, around, store, results, writes)?;
    if values.len() != writes.len() {
        return Err(AllocError);
    }
    let given = values.as_slice();
    put_all(store, writes, given)?;
    Ok(())
}

/// Gives units what they hold at the start.
fn give<W: World>(
    store: &mut Store,
    world: &W,
    t: &Target,
    units: &[Unit],
) -> Result<(), AllocError>
    ensures { OnOk result ((symbols : List (List ℕ)) (m : ℕ) (env : Environment) → Stands (given_by W.entry W.byte W.frame W.symbol W.answer world.now) symbols m env → (l : Lane) → held_by store.new l ≡ given_units env t.now.units units.now (held_by store.old) l) }
{
    for u in units {
        let held = held_at_start(world, t, *u);
        store.set(&Lane::UnitLane(u.0 as u32), held)?;
    }
    Ok(())
}

/// What a unit holds at the start.
fn held_at_start<W: World>(world: &W, t: &Target, u: Unit) -> Option<u128>
    ensures { (symbols : List (List ℕ)) (m : ℕ) (env : Environment) → Stands (given_by W.entry W.byte W.frame W.symbol W.answer world.now) symbols m env → result ≡ entry_value env (unit_width t.now.units u) u.0 }
{
    match world.entry(u) {
        None => None,
        Some(n) => Some(low_bits(n, width_of(t.units.as_slice(), u) as u32)),
    }
}

/// Lets the lanes hold what they hold at the start of a function.
fn begin<W: World>(store: &mut Store, world: &W, t: &Target, f: &Func) -> Result<(), AllocError>
    ensures { OnOk result ((symbols : List (List ℕ)) (m : ℕ) (env : Environment) → Stands (given_by W.entry W.byte W.frame W.symbol W.answer world.now) symbols m env → ((l : Lane) → held_by store.old l ≡ None) → held_by store.new ≡ start_state env (given_of t.now f.now)) }
{
    give(store, world, t, t.reserved.as_slice())?;
    match f.blocks.as_slice().first() {
        None => Ok(()),
        Some(b) => {
            give_all(store, world, t, b.liveins.as_slice())?;
            Ok(())
        }
    }
}

/// Gives the units of registers what they hold at the start.
fn give_all<W: World>(
    store: &mut Store,
    world: &W,
    t: &Target,
    regs: &[Reg],
) -> Result<(), AllocError>
    ensures { OnOk result ((symbols : List (List ℕ)) (m : ℕ) (env : Environment) → Stands (given_by W.entry W.byte W.frame W.symbol W.answer world.now) symbols m env → (l : Lane) → held_by store.new l ≡ given_units env t.now.units (flat_map (units_of t.now) regs.now) (held_by store.old) l) }
{
    for r in regs {
        give(store, world, t, t.units_at(*r))?;
    }
    Ok(())
}

/// How a step went that may count for nothing.
#[derive(Clone, Copy)]
enum SilentResult {
    /// It is done, and the run goes on behind it.
    On,
    /// The run goes no further.
    Stuck,
    /// It counts, and isn't done.
    Counted,
}

/// Does a step that counts for nothing.
fn pass<W: World>(
    alloc: Global,
    around: &RunContext<W>,
    store: &mut Store,
    step: &DecodedStep,
) -> Result<SilentResult, AllocError>
    ensures { IfOk result (λ r. (m : ℕ) (env : Environment) → Stands (given_by W.entry W.byte W.frame W.symbol W.answer around.now.world.now) around.now.symbols.now m env → (code : Code) (next : Goes) (p : Code) (o : meaning.Outside) → walk env code next (item_of_step step.now ∷ p) (held_by store.old) o ≡ passed_on env code next (item_of_step step.now) p r (held_by store.new) o) }
{
    match step {
        DecodedStep::Start(_) => Ok(SilentResult::On),
        DecodedStep::End(falls) => match falls {
            None => Ok(SilentResult::Stuck),
            Some(phis) => {
                write(alloc, around, store, &[], phis.as_slice())?;
                Ok(SilentResult::On)
            }
        },
        DecodedStep::Silent(writes) => {
            write(alloc, around, store, &[], writes.as_slice())?;
            Ok(SilentResult::On)
        }
        DecodedStep::Counted(_, _, _, _) => Ok(SilentResult::Counted),
    }
}

/// Goes on over what counts for nothing; the place of the next counted instruction, or None where
/// there is none.
fn advance<W: World>(
    alloc: Global,
    around: &RunContext<W>,
    store: &mut Store,
    steps: &[DecodedStep],
    at: usize,
) -> Result<Option<usize>, AllocError>
    ensures { IfOk result (λ r. (m : ℕ) (env : Environment) → Stands (given_by W.entry W.byte W.frame W.symbol W.answer around.now.world.now) around.now.symbols.now m env → (code : Code) (next : Goes) (o : meaning.Outside) → walk env code next (drop at (code_of_steps steps.now)) (held_by store.old) o ≡ gone_on env code next (code_of_steps steps.now) r (held_by store.new) o) }
{
    for k in at..steps.len() {
        let passed = pass(alloc, around, store, &steps[k])?;
        match passed {
            SilentResult::On => {}
            SilentResult::Stuck => return Ok(None),
            SilentResult::Counted => return Ok(Some(k)),
        }
    }
    Ok(None)
}

/// The place behind the start of a block; the end of the steps where there is no such block.
fn place_of(places: &HashMap<u32, usize>, count: usize, n: u32) -> usize
    ensures { result ≡ unwrap_or (get nat_eq places.now n) count }
{
    match places.get(&n) {
        None => count,
        Some(at) => *at,
    }
}

/// Enters the target of a branch; the place to go on at.
fn enter<W: World>(
    alloc: Global,
    around: &RunContext<W>,
    store: &mut Store,
    steps: &[DecodedStep],
    places: &HashMap<u32, usize>,
    target: &Option<PhiEdge>,
) -> Result<usize, AllocError>
    requires { (n : ℕ) → found n (code_of_steps steps.now) ≡ drop (unwrap_or (get nat_eq places.now n) (length steps.now)) (code_of_steps steps.now) }
    ensures place { IfOk result (λ at. drop at (code_of_steps steps.now) ≡ target_place (code_of_steps steps.now) (option_map edge_of target.now)) }
    ensures state { OnOk result ((m : ℕ) (env : Environment) → Stands (given_by W.entry W.byte W.frame W.symbol W.answer around.now.world.now) around.now.symbols.now m env → held_by store.new ≡ entered env (option_map edge_of target.now) (held_by store.old)) }
{
    match target {
        None => Ok(steps.len()),
        Some(way) => {
            write(alloc, around, store, &[], way.phis.as_slice())?;
            Ok(place_of(places, steps.len(), way.block))
        }
    }
}

/// What changes in a run.
#[derive(Drop)]
struct Machine {
    store: Store,
    outside: ExternalState,
    events: Events,
}

/// How an instruction that was done passes control on.
#[derive(Clone, Copy)]
struct Transfer<'a> {
    /// The place of the instruction.
    at: usize,
    /// Its branch target.
    target: &'a Option<PhiEdge>,
    /// Which way it chose.
    control: Control,
}

/// Where a run goes on behind an instruction that was done.
fn go_on<W: World>(
    alloc: Global,
    around: &RunContext<W>,
    store: &mut Store,
    steps: &[DecodedStep],
    places: &HashMap<u32, usize>,
    transfer: &Transfer,
) -> Result<Result<usize, End>, AllocError>
    requires room { transfer.now.at < length steps.now }
    requires places { (n : ℕ) → found n (code_of_steps steps.now) ≡ drop (unwrap_or (get nat_eq places.now n) (length steps.now)) (code_of_steps steps.now) }
    ensures { IfOk result (λ r. (m : ℕ) (env : Environment) → Stands (given_by W.entry W.byte W.frame W.symbol W.answer around.now.world.now) around.now.symbols.now m env → (next : Goes) (o : meaning.Outside) → continued (control_of transfer.now.control) (next (drop (suc transfer.now.at) (code_of_steps steps.now)) (held_by store.old) o) (next (target_place (code_of_steps steps.now) (option_map edge_of transfer.now.target.now)) (entered env (option_map edge_of transfer.now.target.now) (held_by store.old)) o) ≡ onward (code_of_steps steps.now) next r (held_by store.new) o) }
{
    match transfer.control {
        Control::Next => Ok(Ok(transfer.at + 1)),
        Control::Taken => {
            let place = enter(alloc, around, store, steps, places, transfer.target)?;
            Ok(Ok(place))
        }
        Control::Stop(end) => Ok(Err(end)),
    }
}

/// Does the counted instruction at a place; the place to go on at, or the end.
fn step<W: World>(
    alloc: Global,
    around: &RunContext<W>,
    machine: &mut Machine,
    steps: &[DecodedStep],
    places: &HashMap<u32, usize>,
    at: usize,
) -> Result<Result<usize, End>, AllocError>
    requires { (n : ℕ) → found n (code_of_steps steps.now) ≡ drop (unwrap_or (get nat_eq places.now n) (length steps.now)) (code_of_steps steps.now) }
    ensures calls { OnOk result (machine.new.outside.calls ≤ machine.old.outside.calls + 1) }
    ensures did { IfOk result (λ r. (m : ℕ) (env : Environment) → Stands (given_by W.entry W.byte W.frame W.symbol W.answer around.now.world.now) around.now.symbols.now m env → (o : meaning.Outside) → Remembers env machine.old.outside o → o.calls < m → (next : Goes) → Stepped env (code_of_steps steps.now) next at machine.old r machine.new o) }
{
    if at >= steps.len() {
        return Ok(Err(End::Undefined));
    }
    match &steps[at] {
        DecodedStep::Counted(rest, reads, writes, target) => {
            let performer = Executor {
                around: &*around,
                store: &machine.store,
                rest,
                reads,
            };
            let (results, control) = performer.perform(
                alloc,
                &mut machine.outside,
                &mut machine.events,
            )?;
            let computed = results.as_slice();
            write(
                alloc,
                around,
                &mut machine.store,
                computed,
                writes.as_slice(),
            )?;
            let transfer = Transfer {
                at,
                target,
                control,
            };
            let onward = go_on(alloc, around, &mut machine.store, steps, places, &transfer)?;
            Ok(onward)
        }
        // (`advance` stops at none of these)
        _ => Err(AllocError),
    }
}

/// Goes through n counted instructions; how it ends.
fn go<W: World>(
    alloc: Global,
    around: &RunContext<W>,
    machine: &mut Machine,
    steps: &[DecodedStep],
    places: &HashMap<u32, usize>,
    n: u64,
) -> Result<End, AllocError>
    requires { (n : ℕ) → found n (code_of_steps steps.now) ≡ drop (unwrap_or (get nat_eq places.now n) (length steps.now)) (code_of_steps steps.now) }
    ensures { IfOk result (λ e. (m : ℕ) (env : Environment) → Stands (given_by W.entry W.byte W.frame W.symbol W.answer around.now.world.now) around.now.symbols.now m env → (o : meaning.Outside) → Remembers env machine.old.outside o → o.calls + n ≤ m → Continues machine.old.events (runs env (code_of_steps steps.now) n (code_of_steps steps.now) (held_by machine.old.store) o) machine.new.events (ended (end_of e))) }
{
    let mut at: usize = 0;
    for i in 0..n {
        let advanced = advance(alloc, around, &mut machine.store, steps, at)?;
        let Some(here) = advanced else {
            return Ok(End::Undefined);
        };
        let stepped = step(alloc, around, machine, steps, places, here)?;
        match stepped {
            Ok(next) => at = next,
            Err(end) => return Ok(end),
        }
    }
    Ok(End::Steps)
}

/// The run of a function, valid in one of the two forms, through n counted instructions.
pub fn run<W: World>(
    alloc: Global,
    target: &Target,
    f: &Func,
    world: &W,
    n: u64,
) -> Result<Outcome, AllocError>
    ensures { IfOk result (λ made. (env : Environment) → StandsFor (given_by W.entry W.byte W.frame W.symbol W.answer world.now) f.now n env → Answers made (run (meaning_of target.now f.now) env n)) }
{
    let steps = steps_of(alloc, target, f)?;
    let decoded = steps.as_slice();
    let places = places_of(alloc, decoded)?;
    let symbols = symbols_of(alloc, f)?;
    let mut store = Store::new(alloc, target.units.len(), f.classes.len())?;
    begin(&mut store, world, target, f)?;
    let names = symbols.as_slice();
    let around = RunContext {
        world,
        symbols: names,
    };
    let mut machine = Machine {
        store,
        outside: ExternalState::new(alloc),
        events: List::new(alloc),
    };
    let end = go(alloc, &around, &mut machine, decoded, &places, n)?;
    Ok(Outcome {
        events: machine.events,
        end,
    })
}
