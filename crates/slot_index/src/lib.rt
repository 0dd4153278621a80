//! A list of distinct ids in order, each with a number that rises along the list, so that the order of
//! two ids is told by their numbers (LLVM's SlotIndexes). An id with its number is a slot here.
//!
//! An id is put behind any other, and the others keep their order; where there is no room for a number
//! between two, all numbers are given anew. Begin with `Slots`.
#![tactic(auto)]

ghost use Rattle.std.specs.Prelude.{◌≡◌, ℕ, ◌<◌, ◌+◌, ◌-◌, ◌↔◌, ◌==◌, eqb, [], length, IsTrue, IfSome, IfOk, OnOk, OnErr, slice_get, slice_index, position};
ghost use Rattle.std.specs.List.{AllByRecursion, IsDistinct, remove};
ghost use Rattle.slot_index.specs.Order.{ids, place, place_after, put_after, number_of, Has, IsNumbered, NumbersTellOrder};
ghost use Rattle.slot_index.specs.Renewed.{low_end, IsRoom, spaced, written};

use std::alloc::{AllocError, Global};
use std::collections::BTreeMap;
use std::marker::Model;
use std::ops::Bound;

/// How far apart neighbours' numbers are after all were given anew, and how far the number of a
/// new last id is above the one before. Of 2^32 ids the last then has the number 2^63.
const SPACING: u64 = 1 << 31;

/// How far the number of a new id is from that of the newer one of its neighbours at most, where
/// others were put in there before. New ids often come one behind the other, or one before the other,
/// so that most of the room is left for those to come.
const STEP: u64 = 1 << 18;

/// A list of distinct ids, each with a number above 0 that rises along the list. The numbers are
/// kept by id, 8 bytes for each id up to the largest, so ids should be dense.
#[derive(Drop)]
pub struct Slots {
    alloc: Global,
    // The number of each id, or 0 where the id isn't in the list.
    number_by_id: Vec<u64>,
    id_by_number: BTreeMap<u64, u32>,
}

impl Model for Slots {
    ghost use Rattle.std.specs.Prelude.{ℕ, List};
    ghost use Rattle.slot_index.specs.Indexed.{IsIndexed};

    ghost Value = { List (ℕ × ℕ) };

    ghost view = { λ s. s.id_by_number.entries };

    ghost invariant = { λ s. IsIndexed s.number_by_id.items s.id_by_number.entries };
}

impl Slots {
    /// The empty list, which takes no memory.
    pub fn new(alloc: Global) -> Slots
        ensures empty { result ≡ [] }
        ensures numbered { IsNumbered result }
    {
        Slots {
            alloc,
            number_by_id: Vec::new(alloc),
            id_by_number: BTreeMap::new(alloc),
        }
    }

    /// The number of an id, or 0 where it isn't in the list. Of two ids in the list, the one with
    /// the smaller number stands before the other.
    pub fn number(&self, id: u32) -> u64
        ensures value { result ≡ number_of self.now id }
        ensures numbered { IsNumbered self.now }
        ensures tells { NumbersTellOrder self.now }
    {
        self.number_by_id.get(id as usize).copied().unwrap_or(0)
    }

    /// Whether an id is in the list.
    pub fn is_present(&self, id: u32) -> bool
        ensures { IsTrue result ↔ Has self.now id }
    {
        self.number(id) != 0
    }

    /// Whether the first of two ids of the list stands before the second. An id that isn't in the
    /// list counts as one before each that is.
    pub fn before(&self, a: u32, b: u32) -> bool
        ensures order { Has self.now a
            → Has self.now b
            → (IsTrue result ↔ (place a (ids self.now) < place b (ids self.now))) }
        ensures numbers { IsTrue result ↔ (number_of self.now a < number_of self.now b) }
    {
        self.number(a) < self.number(b)
    }

    /// The id that stands next behind one of the list, if there is one.
    pub fn next(&self, id: u32) -> Option<u32>
        requires { Has self.now id }
        ensures { result ≡ slice_get (ids self.now) (place id (ids self.now) + 1) }
    {
        self.follower(Some(id)).map(|slot| slot.1)
    }

    /// The id that stands right before one of the list, if there is one.
    pub fn previous(&self, id: u32) -> Option<u32>
        requires { Has self.now id }
        ensures first { place id (ids self.now) ≡ 0 → result ≡ None }
        ensures other { 0 < place id (ids self.now)
            → result ≡ slice_get (ids self.now) (place id (ids self.now) - 1) }
    {
        let high = self.number(id);
        let mut below = self
            .id_by_number
            .range((Bound::Unbounded, Bound::Excluded(high)));
        match below.next_back() {
            Some((_number, before)) => Some(*before),
            None => None,
        }
    }

    /// The slot that stands behind an id, or first, if there is one.
    fn follower(&self, after: Option<u32>) -> Option<(u64, u32)>
        requires { IfSome after (Has self.now) }
        ensures found { result ≡ slice_get self.now (place_after after (ids self.now)) }
        ensures above { IfSome result (λ s. low_end after self.now < s.0) }
    {
        let low = self.low_end(after);
        let mut above = self
            .id_by_number
            .range((Bound::Excluded(low), Bound::Unbounded));
        match above.next() {
            Some((number, id)) => Some((*number, *id)),
            None => None,
        }
    }

    /// The number of an id, or 0 where none is given.
    fn low_end(&self, after: Option<u32>) -> u64
        ensures { result ≡ low_end after self.now }
    {
        match after {
            Some(id) => self.number(id),
            None => 0,
        }
    }

    /// A number for a new id behind another, or first, where there is one between its neighbours'.
    fn room_after(&self, after: Option<u32>) -> Option<u64>
        requires { IfSome after (Has self.now) }
        ensures { IfSome result (IsRoom after self.now) }
    {
        let low = self.low_end(after);
        match self.follower(after) {
            Some((high, next)) => between(low, high, is_newer(next, after)),
            None => low.checked_add(SPACING),
        }
    }

    /// Puts a new id behind one of the list, or first. Where the neighbours' numbers leave no room,
    /// all ids get new numbers, in the same order, which takes time in the length of the list.
    /// Where memory is refused, the list and its numbers are unchanged.
    pub fn insert_after(&mut self, after: Option<u32>, id: u32) -> Result<(), AllocError>
        requires known { IfSome after (Has self.old) }
        requires absent { ¬ Has self.old id }
        ensures ok { OnOk result (ids self.new ≡ put_after after id (ids self.old)) }
        ensures err { OnErr result (self.new ≡ self.old) }
        ensures numbered { IsNumbered self.new }
    {
        let Some(number) = self.room_after(after) else {
            return self.insert_and_renew(after, id);
        };
        make_cell(&mut self.number_by_id, id)?;
        self.id_by_number.insert(number, id)?;
        self.number_by_id[id as usize] = number;
        Ok(())
    }

    /// Puts a new id behind one of the list, or first, and gives all ids new numbers.
    fn insert_and_renew(&mut self, after: Option<u32>, id: u32) -> Result<(), AllocError>
        requires known { IfSome after (Has self.old) }
        requires absent { ¬ Has self.old id }
        ensures ok { OnOk result (ids self.new ≡ put_after after id (ids self.old)) }
        ensures err { OnErr result (self.new ≡ self.old) }
        ensures numbered { IsNumbered self.new }
    {
        let order = self.order_with(after, id)?;
        let id_by_number = number_all(self.alloc, order.as_slice())?;
        make_cell(&mut self.number_by_id, id)?;
        write_numbers(&mut self.number_by_id, &id_by_number);
        self.id_by_number = id_by_number;
        Ok(())
    }

    /// The ids in order, with a new one behind one of the list, or first.
    fn order_with(&self, after: Option<u32>, id: u32) -> Result<Vec<u32>, AllocError>
        requires { IfSome after (Has self.now) }
        ensures { IfOk result (λ v. v.items ≡ put_after after id (ids self.now)) }
    {
        let mut order: Vec<u32> = self.id_by_number.values().copied().collect(self.alloc)?;
        let at = place_after(order.as_slice(), after);
        order.insert(at, id)?;
        Ok(order)
    }

    /// Takes out an id of the list. The other ids keep their numbers.
    pub fn remove(&mut self, id: u32)
        requires { Has self.old id }
        ensures removed { self.new ≡ remove self.old (place id (ids self.old)) }
        ensures numbered { IsNumbered self.new }
    {
        let number = self.number(id);
        let _ = self.id_by_number.remove(&number);
        self.number_by_id[id as usize] = 0;
    }
}

/// Whether an id is newer than another, if there is another: new ids are mostly larger.
fn is_newer(id: u32, other: Option<u32>) -> bool {
    match other {
        Some(other) => id > other,
        None => true,
    }
}

/// A number between two others, if there is one: in the middle of a wide gap, else a step above the
/// lower one or below the higher one.
fn between(low: u64, high: u64, is_high_newer: bool) -> Option<u64>
    requires { low < high }
    ensures { IfSome result (λ n. (low < n) × (n < high)) }
{
    let half = (high - low) / 2;
    if half == 0 {
        return None;
    }
    let step = if high - low < SPACING {
        half.min(STEP)
    } else {
        half
    };
    Some(if is_high_newer {
        high - step
    } else {
        low + step
    })
}

/// The place of an id in a list of ids, if it stands there.
fn place_of(order: &[u32], id: u32) -> Option<usize>
    ensures { result ≡ position (λ x. x == id) order.now }
{
    order.iter().position(|x| *x == id)
}

/// The place behind an id, or the first place.
fn place_after(order: &[u32], after: Option<u32>) -> usize
    requires { IfSome after (λ id. place id order.now < length order.now) }
    ensures { result ≡ place_after after order.now }
{
    match after {
        Some(before) => place_of(order, before).unwrap() + 1,
        None => 0,
    }
}

/// Makes the numbers by id long enough for an id, with 0 in the new cells.
fn make_cell(numbers: &mut Vec<u64>, id: u32) -> Result<(), AllocError>
    ensures same { (k : ℕ) → slice_index numbers.new.items k ≡ slice_index numbers.old.items k }
    ensures room { OnOk result (id < length numbers.new.items) }
{
    let len = id as usize + 1;
    if numbers.len() < len {
        numbers.resize(len, 0)?;
    }
    Ok(())
}

/// The map from numbers, wide apart, to the ids in their order. No id stands twice.
fn number_all(alloc: Global, order: &[u32]) -> Result<BTreeMap<u64, u32>, AllocError>
    requires { IsDistinct eqb order.now }
    ensures { IfOk result (λ m. m.entries ≡ spaced SPACING 0 order.now) }
{
    let mut id_by_number = BTreeMap::new(alloc);
    let mut number = 0u64;
    'ids: for id in order {
        number += SPACING;
        id_by_number.insert(number, *id)?;
    }
    Ok(id_by_number)
}

/// Writes the number of each slot at its id.
fn write_numbers(numbers: &mut Vec<u64>, slots: &BTreeMap<u64, u32>)
    requires { AllByRecursion (λ id. id < length numbers.old.items) (ids slots.now.entries) }
    ensures { numbers.new.items ≡ written slots.now.entries numbers.old.items }
{
    'slots: for (number, id) in slots {
        numbers[*id as usize] = *number;
    }
}
