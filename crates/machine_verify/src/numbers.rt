//! Sets of numbers, asked in logarithmic time.

ghost use Rattle.std.specs.Prelude.{◌≡◌, ℕ, [], ◌∷◌, ◌||◌, not, nat_eq, drop, IfOk, OnOk};
ghost use Rattle.std.specs.List.{list_all};
ghost use Rattle.mir_meaning.specs.Registers.{has_number};
ghost use Rattle.mir_meaning.specs.Rules.{lists_once};
ghost use Rattle.target_base.specs.Names.{are_distinct_numbers};
ghost use Rattle.machine_verify.specs.Sets.{Holds, has};

use std::alloc::{AllocError, Global};
use std::collections::BTreeSet;

/// Numbers, each once.
#[derive(Drop)]
pub(crate) struct NumberSet {
    set: BTreeSet<u32>,
}

impl NumberSet {
    /// No numbers.
    pub fn new(alloc: Global) -> NumberSet
        ensures { Holds result [] }
    {
        NumberSet {
            set: BTreeSet::new(alloc),
        }
    }

    /// Whether the number is there.
    pub fn has(&self, n: u32) -> bool
        ensures { result ≡ has self.now n }
    {
        self.set.contains(&n)
    }

    /// Puts a number in, and answers whether it is new.
    pub fn add(&mut self, n: u32) -> Result<bool, AllocError>
        ensures new { IfOk result (λ is_new. is_new ≡ not (has self.old n)) }
        ensures ok { OnOk result ((q : ℕ) → has self.new q ≡ (nat_eq q n || has self.old q)) }
    {
        Ok(self.set.insert(n)?)
    }
}

/// The set of these numbers.
pub(crate) fn set_of(alloc: Global, ns: &[u32]) -> Result<NumberSet, AllocError>
    ensures { IfOk result (λ set. Holds set ns.now) }
{
    let mut set = NumberSet::new(alloc);
    for n in ns {
        let _is_new = set.add(*n)?;
    }
    Ok(set)
}

/// Whether no number stands twice.
pub(crate) fn are_distinct(alloc: Global, ns: &[u32]) -> Result<bool, AllocError>
    ensures { IfOk result (λ is_right. is_right ≡ are_distinct_numbers ns.now) }
{
    let mut later = NumberSet::new(alloc);
    let mut k = ns.len();
    'numbers: while 0 < k {
        k -= 1;
        if !later.add(ns[k])? {
            return Ok(false);
        }
    }
    Ok(true)
}

/// Whether all numbers are in the set.
pub(crate) fn are_in(ns: &[u32], set: &NumberSet) -> bool
    ensures { result ≡ list_all (has set.now) ns.now }
{
    ns.iter().all(|n| set.has(*n))
}

/// Whether the first list has each number of the second once and no other.
pub(crate) fn lists_once(alloc: Global, ms: &[u32], ns: &[u32]) -> Result<bool, AllocError>
    ensures { IfOk result (λ is_right. is_right ≡ lists_once ms.now ns.now) }
{
    if !are_distinct(alloc, ms)? {
        return Ok(false);
    }
    let wanted = set_of(alloc, ns)?;
    if !are_in(ms, &wanted) {
        return Ok(false);
    }
    let there = set_of(alloc, ms)?;
    Ok(are_in(ns, &there))
}
