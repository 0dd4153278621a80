//! A family of facts by iteration: the least one that gives what is needed. Nothing rests on it,
//! since `closed` tests what comes out.

use crate::closed::{Family, before_row, facts_at};
use crate::facts::{Fact, Facts};
use crate::needs::{Needs, needs_of};
use crate::start::all_start;
use meaning::{EdgePair, Row};
use mir_func::Func;
use std::alloc::{AllocError, Global};
use target_base::{List, Target};

/// Where the blocks stand among the rows, and how they follow each other.
#[derive(Drop)]
pub struct Shape {
    /// The numbers of the blocks, in layout.
    numbers: Vec<u32>,
    /// The places of their starts among the rows, and the number of rows.
    starts: Vec<usize>,
    /// The places in layout of the blocks from which ways lead into each block.
    predecessors: Vec<Vec<usize>>,
}

/// The place in layout of a block.
fn place_of(numbers: &[u32], n: u32) -> Option<usize> {
    numbers.iter().position(|m| *m == n)
}

fn add_predecessor(shape: &mut Shape, from: usize, to: u32) -> Result<(), AllocError> {
    if let Some(k) = place_of(shape.numbers.as_slice(), to) {
        if k < shape.predecessors.len() && !shape.predecessors[k].contains(&from) {
            shape.predecessors[k].push(from)?;
        }
    }
    Ok(())
}

fn add_predecessors(shape: &mut Shape, from: usize, ways: &[EdgePair]) -> Result<(), AllocError> {
    for e in ways {
        add_predecessor(shape, from, e.block)?;
    }
    Ok(())
}

/// Adds the ways that lead from a row of the block at a place in layout.
fn add_ways_from(shape: &mut Shape, from: usize, row: &Row) -> Result<(), AllocError> {
    match row {
        Row::BothCounted(_, _, _, _, _, target, exits) => {
            if let Some(e) = target {
                add_predecessor(shape, from, e.block)?;
            }
            add_predecessors(shape, from, exits.as_slice())
        }
        Row::BothEnd(falls, exits) => {
            if falls.is_some() {
                if let Some(next) = shape.numbers.get(from.saturating_add(1)).copied() {
                    add_predecessor(shape, from, next)?;
                }
            }
            add_predecessors(shape, from, exits.as_slice())
        }
        _ => Ok(()),
    }
}

/// The shape without ways.
fn bare_shape(alloc: Global, rows: &[Row]) -> Result<Shape, AllocError> {
    let mut numbers = Vec::new(alloc);
    let mut starts = Vec::new(alloc);
    let mut predecessors = Vec::new(alloc);
    for (k, row) in rows.iter().enumerate() {
        if let Row::BothStart(n) = row {
            numbers.push(*n)?;
            starts.push(k)?;
            predecessors.push(Vec::new(alloc))?;
        }
    }
    starts.push(rows.len())?;
    Ok(Shape {
        numbers,
        starts,
        predecessors,
    })
}

/// Where the blocks stand among the rows, and how they follow each other.
pub fn shape_of(alloc: Global, rows: &[Row]) -> Result<Shape, AllocError> {
    let mut shape = bare_shape(alloc, rows)?;
    let mut block: usize = 0;
    for row in rows {
        add_ways_from(&mut shape, block, row)?;
        if let Row::BothEnd(_, _) = row {
            block = block.saturating_add(1);
        }
    }
    Ok(shape)
}

impl Shape {
    fn start(&self, k: usize) -> usize {
        self.starts.get(k).copied().unwrap_or(0)
    }

    fn number(&self, k: usize) -> Option<u32> {
        self.numbers.get(k).copied()
    }
}

/// What is asked at the start of the k-th block. None where it can't hold.
fn block_needs(
    alloc: Global,
    family: &Family,
    rows: &[Row],
    shape: &Shape,
    k: usize,
) -> Result<Option<Needs>, AllocError> {
    let mut needs = match shape.number(k.saturating_add(1)) {
        None => Needs::new(alloc)?,
        Some(next) => needs_of(alloc, facts_at(family, next))?,
    };
    let first = shape.start(k).saturating_add(1);
    let mut at = shape.start(k.saturating_add(1));
    while at > first {
        at -= 1;
        if at >= rows.len() {
            return Ok(None);
        }
        if !before_row(alloc, family, &rows[at], &mut needs)? {
            return Ok(None);
        }
    }
    Ok(Some(needs))
}

/// Adds what isn't there yet; answers whether there was any.
fn grow(alloc: Global, facts: &mut Facts, asked: &[Fact]) -> Result<bool, AllocError> {
    let mut all = needs_of(alloc, facts.as_slice())?;
    let before = all.count();
    all.add_all(alloc, asked)?;
    if all.count() == before {
        return Ok(false);
    }
    *facts = all.list(alloc)?;
    Ok(true)
}

fn empty_family(alloc: Global, shape: &Shape) -> Result<Family, AllocError> {
    let mut family = List::new(alloc);
    for n in shape.numbers.as_slice() {
        family.push((*n, List::new(alloc)))?;
    }
    Ok(family)
}

/// Marks the blocks from which ways lead into the k-th.
fn mark_predecessors(shape: &Shape, k: usize, waiting: &mut Vec<bool>) {
    if let Some(from) = shape.predecessors.as_slice().get(k) {
        for p in from.as_slice() {
            if *p < waiting.len() {
                waiting[*p] = true;
            }
        }
    }
}

/// What the rounds go by.
#[derive(Drop)]
struct Rounds {
    family: Family,
    waiting: Vec<bool>,
    changed: bool,
}

/// Brings one block up to date. False where its needs can't hold.
fn update(
    alloc: Global,
    rows: &[Row],
    shape: &Shape,
    k: usize,
    rounds: &mut Rounds,
) -> Result<bool, AllocError> {
    if k >= rounds.waiting.len() || k >= rounds.family.len() || !rounds.waiting[k] {
        return Ok(true);
    }
    rounds.waiting[k] = false;
    match block_needs(alloc, &rounds.family, rows, shape, k)? {
        None => Ok(false),
        Some(needs) => {
            if grow(
                alloc,
                &mut rounds.family.get_mut(k).1,
                needs.list(alloc)?.as_slice(),
            )? {
                mark_predecessors(shape, k, &mut rounds.waiting);
                rounds.changed = true;
            }
            Ok(true)
        }
    }
}

/// One round over all blocks, the last first. False where some needs can't hold.
fn round(
    alloc: Global,
    rows: &[Row],
    shape: &Shape,
    rounds: &mut Rounds,
) -> Result<bool, AllocError> {
    let mut k = shape.numbers.len();
    while k > 0 {
        k -= 1;
        if !update(alloc, rows, shape, k, rounds)? {
            return Ok(false);
        }
    }
    Ok(true)
}

/// The least family that gives what the rows need. None where none does.
pub fn family_of(
    alloc: Global,
    t: &Target,
    f: &Func,
    g: &Func,
    rows: &[Row],
    shape: &Shape,
) -> Result<Option<Family>, AllocError> {
    let mut rounds = Rounds {
        family: empty_family(alloc, shape)?,
        waiting: Vec::from_elem(alloc, true, shape.numbers.len())?,
        changed: true,
    };
    for _ in 0..u32::MAX {
        if !rounds.changed {
            break;
        }
        rounds.changed = false;
        if !round(alloc, rows, shape, &mut rounds)? {
            return Ok(None);
        }
    }
    if let Some(entry) = shape.number(0) {
        if !all_start(t, f, g, facts_at(&rounds.family, entry)) {
            return Ok(None);
        }
    }
    Ok(Some(rounds.family))
}
