//! Lists of registers from which no choice serves, remembered so that none is searched twice.

ghost use Rattle.std.specs.Prelude.{◌≡◌, [], Contains, IfOk, OnOk, true};
ghost use Rattle.place_solve.specs.Choice.{remembered};

use crate::domains::Domains;
use std::alloc::{AllocError, Global};
use target_base::{List, Reg, Regs};

/// How many chains there are.
const CHAINS: usize = 4096;

/// The fewest lists that are remembered: a choice from two takes less to search than to remember.
const FEWEST: usize = 3;

/// Lists of registers for the last variables of a place, from which no choice serves. A number that
/// is computed of them puts them into a chain, in which they are looked for, the newest first.
#[derive(Drop)]
pub(crate) struct Nogoods {
    /// All of them, in the order in which they were found.
    pub(crate) lists: List<Domains>,
    /// For each chain one more than the place of its newest, or 0.
    newest: Vec<usize>,
    /// For each of the lists the same of the one before it in its chain.
    before: Vec<usize>,
}

/// A number of lists, and whatever came before them.
fn mix_hash(seed: u32, regs: &[Reg]) -> u32 {
    let mut made = seed.wrapping_mul(0x9e37_79b1).wrapping_add(1);
    'each: for r in regs {
        made = made.wrapping_mul(0x9e37_79b1).wrapping_add(r.0 as u32);
    }
    made
}

/// The chain of lists: equal lists have the same one.
fn chain_of(left: &[Regs]) -> usize {
    let mut made = 0u32;
    'each: for regs in left {
        made = mix_hash(made, regs.as_slice());
    }
    (made >> 20) as usize
}

/// Whether two lists hold the same registers, in the same order. True only where they do.
fn are_same_regs(a: &[Reg], b: &[Reg]) -> bool
    ensures { result ≡ true → a.now ≡ b.now }
{
    if a.len() != b.len() {
        return false;
    }
    'each: for k in 0..a.len() {
        if a[k].0 != b[k].0 {
            return false;
        }
    }
    true
}

/// Whether lists are the same. True only where they are.
fn are_same(a: &[Regs], b: &[Regs]) -> bool
    ensures { result ≡ true → a.now ≡ b.now }
{
    if a.len() != b.len() {
        return false;
    }
    'each: for k in 0..a.len() {
        let here = a[k].as_slice();
        let there = b[k].as_slice();
        if !are_same_regs(here, there) {
            return false;
        }
    }
    true
}

impl Nogoods {
    /// None.
    pub(crate) fn new(alloc: Global) -> Result<Nogoods, AllocError>
        ensures { IfOk result (λ made. made.lists ≡ []) }
    {
        Ok(Nogoods {
            lists: List::new(alloc),
            newest: Vec::from_elem(alloc, 0usize, CHAINS)?,
            before: Vec::new(alloc),
        })
    }

    /// Whether these lists are among them. True only where they are.
    pub(crate) fn has(&self, left: &[Regs]) -> bool
        ensures { result ≡ true → Contains self.now.lists left.now }
    {
        let mut at = *self.newest.get(chain_of(left)).unwrap_or(&0);
        'each: for _ in 0..self.lists.len() {
            if at == 0 || at > self.lists.len() {
                return false;
            }
            if are_same(self.lists.get(at - 1).as_slice(), left) {
                return true;
            }
            at = *self.before.get(at - 1).unwrap_or(&0);
        }
        false
    }

    /// Remembers lists from which no choice serves, unless they are fewer than three.
    pub(crate) fn add(&mut self, left: Domains) -> Result<(), AllocError>
        ensures { OnOk result (self.new.lists ≡ remembered self.old.lists left) }
    {
        if left.len() < FEWEST {
            return Ok(());
        }
        let chain = chain_of(left.as_slice());
        self.lists.push(left)?;
        if chain < self.newest.len() {
            self.before.push(self.newest[chain])?;
            self.newest[chain] = self.lists.len();
        }
        Ok(())
    }
}
