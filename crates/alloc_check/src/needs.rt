//! What is asked at a place, whoever asks.

ghost use Rattle.std.specs.Prelude.{◌≡◌, ◌++◌, [], IsTrue, IfOk, IfSome, OnOk, ◌&&◌, true};
ghost use Rattle.meaning.specs.Facts.{Knowledge, all_known, always, known_both, reads_known, operands_known};
ghost use Rattle.meaning.specs.Agree.{known_along};
ghost use Rattle.alloc_check.specs.Needs.{Has, Lead, Adds, Least, IsInstead};
ghost use Rattle.alloc_check.specs.Cells.{asked, asked_in, counting, IsCellOf, IsMarked, Puts, Takes};

use crate::cells::{
    FactBucket, MarkedWrites, belongs, is_among, marks_for, source_slot, take_from,
};
use crate::facts::{
    Fact, Facts, back_both, back_first, back_second, fits_both, fits_first, same_source,
};
use meaning::{EdgePair, Source, Write};
use std::alloc::{AllocError, Global};
use target_base::{Copied, List};

/// Facts that must be known at a place, each mostly once.
#[derive(Drop)]
pub struct Needs {
    /// How many slots a source can have.
    slots: u32,
    /// For each two slots a cell of the facts that have them.
    cells: List<FactBucket>,
    /// How many facts there are.
    count: usize,
}

/// Whether a fact always holds.
fn always(s: &Source, t: &Source) -> bool
    ensures { result ≡ always s.now t.now }
{
    match s {
        Source::Undef => true,
        Source::FromLane(_) => false,
        Source::Bits(_, _, _) => same_source(s, t),
    }
}

/// With how many slots so many facts are soonest gone through: few cells, and few facts in the cells
/// of one slot.
fn slots_for(count: usize) -> u32 {
    if count < 128 {
        4
    } else if count < 1024 {
        8
    } else if count < 8192 {
        16
    } else if count < 65536 {
        32
    } else {
        64
    }
}

/// Empty cells for the slots.
fn empty_cells(alloc: Global, slots: u32) -> Result<List<FactBucket>, AllocError>
    ensures { IfOk result (λ made. asked_in slots made ≡ []) }
{
    let mut cells = List::new(alloc);
    let mut left: usize = 0;
    let mut right: usize = 0;
    for _ in 0..slots.saturating_mul(slots) {
        let facts = List::new(alloc);
        cells.push(FactBucket { left, right, facts })?;
        right = right.wrapping_add(1);
        if right >= slots as usize {
            right = 0;
            left = left.wrapping_add(1);
        }
    }
    Ok(cells)
}

/// Puts the facts of a cell at the end.
fn list_cell(
    alloc: Global,
    slots: u32,
    cell: &FactBucket,
    facts: &mut Facts,
) -> Result<(), AllocError>
    ensures { OnOk result (facts.new ≡ facts.old ++ counting slots cell.now) }
{
    for f in cell.facts.as_slice() {
        if belongs(slots, cell, f) {
            facts.push(f.copied(alloc)?)?;
        }
    }
    Ok(())
}

impl Needs {
    ghost use Rattle.std.specs.Prelude.{◌≡◌, [], IsTrue, IfOk, IfSome, OnOk};

    fn of_slots(alloc: Global, slots: u32) -> Result<Needs, AllocError>
        ensures { IfOk result (λ made. asked made ≡ []) }
    {
        Ok(Needs {
            slots,
            cells: empty_cells(alloc, slots)?,
            count: 0,
        })
    }

    /// Nothing is asked.
    pub fn new(alloc: Global) -> Result<Needs, AllocError>
        ensures { IfOk result (λ made. asked made ≡ []) }
    {
        Needs::of_slots(alloc, slots_for(0))
    }

    /// How many facts there are.
    pub fn count(&self) -> usize {
        self.count
    }

    /// All that is asked.
    pub fn list(&self, alloc: Global) -> Result<Facts, AllocError>
        ensures { IfOk result (λ all. all ≡ asked self.now) }
    {
        let mut all = List::new(alloc);
        for cell in self.cells.as_slice() {
            list_cell(alloc, self.slots, cell, &mut all)?;
        }
        Ok(all)
    }

    /// The place of the cell of two slots.
    fn cell_at(&self, left: usize, right: usize) -> Option<usize>
        ensures { IfSome result (IsCellOf self.now.cells left right) }
    {
        let at = left.wrapping_mul(self.slots as usize).wrapping_add(right);
        match self.cells.as_slice().get(at) {
            None => None,
            Some(cell) => {
                if cell.left == left && cell.right == right {
                    Some(at)
                } else {
                    None
                }
            }
        }
    }

    /// Puts a fact into its cell.
    fn place(&mut self, alloc: Global, fact: Fact) -> Result<(), AllocError>
        ensures { OnOk result (Puts (asked self.old) fact (asked self.new)) }
    {
        let left = source_slot(&fact.0, self.slots);
        let right = source_slot(&fact.1, self.slots);
        self.count = self.count.saturating_add(1);
        match self.cell_at(left, right) {
            Some(at) => self.cells.get_mut(at).facts.push(fact),
            None => {
                let mut facts = List::new(alloc);
                facts.push(fact)?;
                self.cells.push(FactBucket { left, right, facts })
            }
        }
    }

    /// Puts facts into their cells.
    fn place_all(&mut self, alloc: Global, facts: &[Fact]) -> Result<(), AllocError>
        ensures { OnOk result ((k : Knowledge) → all_known k (asked self.new) ≡ all_known k facts.now && all_known k (asked self.old)) }
    {
        for f in facts {
            self.place(alloc, f.copied(alloc)?)?;
        }
        Ok(())
    }

    /// Has more cells, where the facts are too many for those that there are.
    fn widen(&mut self, alloc: Global) -> Result<(), AllocError>
        ensures { OnOk result ((k : Knowledge) → all_known k (asked self.new) ≡ all_known k (asked self.old)) }
    {
        let slots = slots_for(self.count);
        if slots <= self.slots {
            return Ok(());
        }
        let mut wide = Needs::of_slots(alloc, slots)?;
        wide.place_all(alloc, self.list(alloc)?.as_slice())?;
        *self = wide;
        Ok(())
    }

    /// Whether a fact is found among the needs. False says nothing.
    fn has(&self, fact: &Fact) -> bool
        ensures { IsTrue result → Has (asked self.now) fact.now }
    {
        let left = source_slot(&fact.0, self.slots);
        let right = source_slot(&fact.1, self.slots);
        match self.cell_at(left, right) {
            None => false,
            Some(at) => is_among(self.cells.get(at).facts.as_slice(), fact),
        }
    }

    /// Whether a fact is found among the needs or always holds. False says nothing.
    fn is_asked(&self, fact: &Fact) -> bool
        ensures { IsTrue result → Adds (asked self.now) (λ k. k fact.now.0 fact.now.1) (asked self.now) }
    {
        always(&fact.0, &fact.1) || self.has(fact)
    }

    /// Asks for a fact too. What always holds needn't be asked.
    pub fn add(&mut self, alloc: Global, fact: Fact) -> Result<(), AllocError>
        ensures enough { OnOk result (Adds (asked self.old) (λ k. k fact.0 fact.1) (asked self.new)) }
        ensures least { OnOk result (Least (λ k. k fact.0 fact.1 && all_known k (asked self.old)) true (asked self.new)) }
    {
        if self.is_asked(&fact) {
            return Ok(());
        }
        self.place(alloc, fact)?;
        self.widen(alloc)
    }

    /// Asks for facts too.
    pub fn add_all(&mut self, alloc: Global, facts: &[Fact]) -> Result<(), AllocError>
        ensures { OnOk result (Adds (asked self.old) (λ k. all_known k facts.now) (asked self.new)) }
    {
        for f in facts {
            self.add(alloc, f.copied(alloc)?)?;
        }
        Ok(())
    }

    /// Whether each of the facts is among the needs or always holds. False says nothing.
    pub fn covers(&self, facts: &[Fact]) -> bool
        ensures { IsTrue result → Lead (asked self.now) (λ k. all_known k facts.now) }
    {
        for f in facts {
            if !self.is_asked(f) {
                return false;
            }
        }
        true
    }

    /// Takes out the facts on lanes that are written.
    pub fn take_written(
        &mut self,
        alloc: Global,
        first: &[Write],
        second: &[Write],
    ) -> Result<Facts, AllocError>
        ensures { IfOk result (λ taken. Takes first.now second.now (asked self.old) taken (asked self.new)) }
    {
        if first.is_empty() && second.is_empty() {
            return Ok(List::new(alloc));
        }
        let first_marks = marks_for(alloc, self.slots, first)?;
        let second_marks = marks_for(alloc, self.slots, second)?;
        let writes = MarkedWrites {
            first,
            second,
            first_marks,
            second_marks,
        };
        let taken = take_from_all(alloc, self.slots, &writes, &mut self.cells)?;
        self.count = self.count.saturating_sub(taken.len());
        Ok(taken)
    }
}

/// Takes out of cells the facts on lanes that are written.
fn take_from_all(
    alloc: Global,
    slots: u32,
    writes: &MarkedWrites<'_>,
    cells: &mut List<FactBucket>,
) -> Result<Facts, AllocError>
    requires first { IsMarked slots writes.now.first_marks writes.now.first.now }
    requires second { IsMarked slots writes.now.second_marks writes.now.second.now }
    ensures { IfOk result (λ taken. Takes writes.now.first.now writes.now.second.now (asked_in slots cells.old) taken (asked_in slots cells.new)) }
{
    let mut taken = List::new(alloc);
    for i in 0..cells.len() {
        let cell = cells.get_mut(i);
        take_from(alloc, slots, writes, cell, &mut taken)?;
    }
    Ok(taken)
}

/// The needs of these facts.
pub fn needs_of(alloc: Global, facts: &[Fact]) -> Result<Needs, AllocError>
    ensures { IfOk result (λ made. (k : Knowledge) → all_known k (asked made) ≡ all_known k facts.now) }
{
    let mut made = Needs::of_slots(alloc, slots_for(facts.len()))?;
    made.place_all(alloc, facts)?;
    Ok(made)
}

/// What a fact behind writes asks in front of them. None where it asks for a result of the first
/// function alone.
fn before_fact(
    alloc: Global,
    first: &[Write],
    second: &[Write],
    fact: &Fact,
) -> Result<Option<Fact>, AllocError>
    ensures enough { IfOk result (λ asked. IfSome asked (λ f. (k : Knowledge) → k f.0 f.1 ≡ true → known_both first.now second.now k fact.now.0 fact.now.1 ≡ true)) }
    ensures least { IfOk result (λ asked. IsInstead (known_both first.now second.now) fact.now asked) }
{
    if !fits_both(first, second, fact) {
        return Ok(None);
    }
    let mut asked = fact.copied(alloc)?;
    back_both(alloc, first, second, &mut asked)?;
    Ok(Some(asked))
}

/// Asks for what facts behind writes need in front of them. False where they can't hold there.
pub fn add_before(
    alloc: Global,
    needs: &mut Needs,
    first: &[Write],
    second: &[Write],
    facts: &[Fact],
) -> Result<bool, AllocError>
    ensures enough { IfOk result (λ yes. IsTrue yes → Adds (asked needs.old) (λ k. all_known (known_both first.now second.now k) facts.now) (asked needs.new)) }
    ensures least { IfOk result (λ yes. Least (λ k. all_known (known_both first.now second.now k) facts.now && all_known k (asked needs.old)) yes (asked needs.new)) }
{
    for f in facts {
        match before_fact(alloc, first, second, f)? {
            None => return Ok(false),
            Some(fact) => needs.add(alloc, fact)?,
        }
    }
    Ok(true)
}

/// Asks for what one operand of a counted pair needs. False where the lanes differ in number.
fn add_reads(
    alloc: Global,
    needs: &mut Needs,
    left: &[Source],
    right: &[Source],
) -> Result<bool, AllocError>
    ensures enough { IfOk result (λ yes. IsTrue yes → Adds (asked needs.old) (λ k. reads_known k left.now right.now) (asked needs.new)) }
    ensures least { IfOk result (λ yes. Least (λ k. reads_known k left.now right.now && all_known k (asked needs.old)) yes (asked needs.new)) }
{
    if left.len() != right.len() {
        return Ok(false);
    }
    for k in 0..left.len() {
        needs.add(alloc, (left[k].copied(alloc)?, right[k].copied(alloc)?))?;
    }
    Ok(true)
}

/// Asks for what the operands of a counted pair need. False where they differ in number.
pub fn add_operands(
    alloc: Global,
    needs: &mut Needs,
    left: &[List<Source>],
    right: &[List<Source>],
) -> Result<bool, AllocError>
    ensures enough { IfOk result (λ yes. IsTrue yes → Adds (asked needs.old) (λ k. operands_known k left.now right.now) (asked needs.new)) }
    ensures least { IfOk result (λ yes. Least (λ k. operands_known k left.now right.now && all_known k (asked needs.old)) yes (asked needs.new)) }
{
    if left.len() != right.len() {
        return Ok(false);
    }
    for k in 0..left.len() {
        if !add_reads(alloc, needs, left[k].as_slice(), right[k].as_slice())? {
            return Ok(false);
        }
    }
    Ok(true)
}

/// What a fact behind the phis of a way asks in front of them. None where it asks for a result.
fn before_way(alloc: Global, way: &EdgePair, fact: &Fact) -> Result<Option<Fact>, AllocError>
    ensures enough { IfOk result (λ asked. IfSome asked (λ f. (k : Knowledge) → k f.0 f.1 ≡ true → known_along way.now k fact.now.0 fact.now.1 ≡ true)) }
    ensures least { IfOk result (λ asked. IsInstead (known_along way.now) fact.now asked) }
{
    if !fits_first(way.first.as_slice(), fact) {
        return Ok(None);
    }
    let mut asked = fact.copied(alloc)?;
    back_first(alloc, way.first.as_slice(), &mut asked)?;
    back_second(alloc, way.second.as_slice(), &mut asked)?;
    Ok(Some(asked))
}

/// Asks for what facts need on a way into their block. False where they can't hold there.
pub fn add_along(
    alloc: Global,
    needs: &mut Needs,
    way: &EdgePair,
    facts: &[Fact],
) -> Result<bool, AllocError>
    ensures enough { IfOk result (λ yes. IsTrue yes → Adds (asked needs.old) (λ k. all_known (known_along way.now k) facts.now) (asked needs.new)) }
    ensures least { IfOk result (λ yes. Least (λ k. all_known (known_along way.now k) facts.now && all_known k (asked needs.old)) yes (asked needs.new)) }
{
    for f in facts {
        match before_way(alloc, way, f)? {
            None => return Ok(false),
            Some(asked) => needs.add(alloc, asked)?,
        }
    }
    Ok(true)
}
