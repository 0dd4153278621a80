//! The watcher that counts how often each register was given.

ghost use Rattle.std.specs.Prelude.{◌≡◌, ◌≤◌, OnOk, OnErr, IfOk, nat_le, position, [], length, slice_get};
ghost use Rattle.watchers.specs.RegisterCounts.{first_given, given_once, given_all, given_by, given_line, line_in, given_line_at};

use crate::count::next_count;
use crate::steps::{Choices, Step};
use crate::telling::Watcher;
use crate::text::{name_of, put, put_number};
use std::alloc::{AllocError, Global};
use std::marker::Model;
use target_base::{Bytes, Copied, Reg, Target};

/// A register that was given.
#[derive(Drop)]
pub struct RegisterCount {
    /// Its number in the target.
    pub register: Reg,
    /// Its name.
    pub name: Bytes,
    /// How often. A count that has reached 2^64 - 1 stands there.
    pub count: u64,
}

impl Copied for RegisterCount {
    fn copied(&self, alloc: Global) -> Result<RegisterCount, AllocError> {
        Ok(RegisterCount {
            register: self.register,
            name: self.name.copied(alloc)?,
            count: self.count,
        })
    }
}

/// How often each register was given to a range, in target order.
#[derive(Drop)]
pub struct PressureWatcher {
    alloc: Global,
    given: Vec<RegisterCount>,
}

impl Model for PressureWatcher {
    ghost use Rattle.std.specs.Prelude.{List};
    ghost use Rattle.watchers.specs.declared.pressure.RegisterCount.{RegisterCount};

    ghost Value = { List RegisterCount };

    ghost view = { λ s. s.given.items };
}

impl PressureWatcher {
    /// It was told no step. It takes no memory.
    pub fn new(alloc: Global) -> PressureWatcher
        ensures { result ≡ [] }
    {
        PressureWatcher {
            alloc,
            given: Vec::new(alloc),
        }
    }
}

/// The place of the first entry that isn't of an earlier register.
fn place_of(given: &[RegisterCount], r: Reg) -> Option<usize>
    ensures { result ≡ position (λ g. nat_le r.0 g.register.0) given.now }
{
    given.iter().position(|g| r.0 <= g.register.0)
}

/// An entry of a register that was given for the first time.
fn first_given(alloc: Global, target: &Target, r: Reg) -> Result<RegisterCount, AllocError>
    ensures { IfOk result (λ g. g ≡ first_given target.now r) }
{
    Ok(RegisterCount {
        register: r,
        name: Bytes::from_slice(alloc, name_of(target, r))?,
        count: 1,
    })
}

/// Counts a register. After a refusal the entries are unchanged.
fn give(
    alloc: Global,
    target: &Target,
    given: &mut Vec<RegisterCount>,
    r: Reg,
) -> Result<(), AllocError>
    ensures ok { OnOk result (given.new.items ≡ given_once target.now given.old.items r) }
    ensures err { OnErr result (given.new.items ≡ given.old.items) }
{
    let Some(place) = place_of(given.as_slice(), r) else {
        given.push(first_given(alloc, target, r)?)?;
        return Ok(());
    };
    if given[place].register.0 == r.0 {
        let entry = &mut given[place];
        entry.count = next_count(entry.count);
        return Ok(());
    }
    given.insert(place, first_given(alloc, target, r)?)?;
    Ok(())
}

/// Equal entries.
fn copied_all(alloc: Global, given: &[RegisterCount]) -> Result<Vec<RegisterCount>, AllocError>
    ensures { IfOk result (λ made. made.items ≡ given.now) }
{
    let mut made = Vec::new(alloc);
    'given: for g in given {
        made.push(g.copied(alloc)?)?;
    }
    Ok(made)
}

/// The entries after the registers of a place are counted.
fn given_all(
    alloc: Global,
    target: &Target,
    given: &[RegisterCount],
    choices: &Choices,
) -> Result<Vec<RegisterCount>, AllocError>
    ensures { IfOk result (λ made. made.items ≡ given_all target.now given.now choices.now) }
{
    let mut made = copied_all(alloc, given)?;
    'choices: for (_, r) in choices.as_slice() {
        give(alloc, target, &mut made, *r)?;
    }
    Ok(made)
}

impl Watcher for PressureWatcher {
    ghost use Rattle.std.specs.Prelude.{length};
    ghost use Rattle.watchers.specs.RegisterCounts.{given_by, given_line_at};

    ghost next = { λ t s step. given_by t s step };

    ghost count = { λ s. length s };

    ghost text = { λ s k. given_line_at s k };

    fn tell(&mut self, target: &Target, step: &Step) -> Result<(), AllocError> {
        match step {
            Step::Assign(_, r) | Step::Evict(_, r, _) => {
                give(self.alloc, target, &mut self.given, *r)?;
            }
            // made apart, so that a refusal changes nothing
            Step::Place(choices) => {
                self.given = given_all(self.alloc, target, self.given.as_slice(), choices)?;
            }
            _ => {}
        }
        Ok(())
    }

    fn lines(&self) -> u64 {
        self.given.len() as u64
    }

    fn line(&self, alloc: Global, k: u64) -> Result<Bytes, AllocError> {
        match self.given.get(k as usize) {
            None => Ok(Bytes::new(alloc)),
            Some(given) => line_of(alloc, given),
        }
    }
}

/// The line of an entry.
fn line_of(alloc: Global, given: &RegisterCount) -> Result<Bytes, AllocError>
    ensures { IfOk result (λ line. line ≡ given_line given.now) }
{
    let mut line = Bytes::new(alloc);
    put(&mut line, "given $")?;
    line.extend(given.name.as_slice())?;
    put(&mut line, " ")?;
    put_number(&mut line, given.count)?;
    Ok(line)
}
