//! The ways into and out of each block.

ghost use Rattle.std.specs.Prelude.{◌≡◌, ℕ, [], ◌∷◌, ◌++◌, ◌||◌, nat_eq, length, slice_get, IfOk, OnOk, Some};
ghost use Rattle.std.specs.List.{list_any};
ghost use Rattle.std.specs.Ordering.{nat_cmp};
ghost use Rattle.std.specs.BTreeMap.{get};
ghost use Rattle.mir_meaning.specs.Paths.{has};
ghost use Rattle.live_lanes.specs.Ways.{predecessors, successors, terminators};
ghost use Rattle.live_lanes.specs.Flowing.{terminator_ids, edge_places, Notes, NotesAll, AreOut, AreWays};

use crate::order::Order;
use mir_func::opcodes::is_terminator;
use mir_func::{Block, Edge, Func, Instr};
use std::alloc::{AllocError, Global};
use target_base::{Boxed, Target};

/// The ways into a block and out of it, by the positions of blocks in the layout.
#[derive(Drop)]
pub struct BlockFlow {
    /// The blocks from which paths lead here, each once.
    pub predecessors: Vec<u32>,
    /// The blocks to which paths lead from here, each once.
    pub successors: Vec<u32>,
    /// The ids of the terminators, from whose exits paths lead to the successors too.
    pub terminators: Vec<u32>,
}

/// The positions of the blocks before one.
pub fn predecessors(flow: &[BlockFlow], block: u32) -> &[u32]
    ensures { result.now ≡ predecessors flow.now block }
{
    match flow.get(block as usize) {
        Some(here) => here.predecessors.as_slice(),
        None => &[],
    }
}

/// The positions of the blocks behind one.
pub fn successors(flow: &[BlockFlow], block: u32) -> &[u32]
    ensures { result.now ≡ successors flow.now block }
{
    match flow.get(block as usize) {
        Some(here) => here.successors.as_slice(),
        None => &[],
    }
}

/// The ids of a block's terminators.
pub fn terminators(flow: &[BlockFlow], block: u32) -> &[u32]
    ensures { result.now ≡ terminators flow.now block }
{
    match flow.get(block as usize) {
        Some(here) => here.terminators.as_slice(),
        None => &[],
    }
}

impl BlockFlow {
    /// Notes a block before this one.
    fn add_predecessor(&mut self, at: u32) -> Result<(), AllocError>
        ensures predecessors { OnOk result (self.new.predecessors.items ≡ self.old.predecessors.items ++ at ∷ []) }
        ensures successors { self.new.successors ≡ self.old.successors }
        ensures terminators { self.new.terminators ≡ self.old.terminators }
    {
        self.predecessors.push(at)?;
        Ok(())
    }
}

/// The ids of a block's terminators.
fn terminators_of(
    alloc: Global,
    target: &Target,
    instrs: &[Boxed<Instr>],
) -> Result<Vec<u32>, AllocError>
    ensures { IfOk result (λ v. v.items ≡ terminator_ids target.now instrs.now) }
{
    instrs
        .iter()
        .filter(|i| is_terminator(target, i.get()))
        .map(|i| i.get().id)
        .collect(alloc)
}

/// The positions of the blocks that edges lead to, each once.
fn successors_of(alloc: Global, order: &Order, edges: &[Edge]) -> Result<Vec<u32>, AllocError>
    ensures { IfOk result (λ v. (x : ℕ) → has x v.items ≡ has x (edge_places (get nat_cmp order.now.positions) edges.now)) }
{
    let mut found = Vec::new(alloc);
    'edges: for edge in edges {
        add_exit(order, *edge, &mut found)?;
    }
    Ok(found)
}

/// Adds the position of the block that an edge leads to.
fn add_exit(order: &Order, edge: Edge, found: &mut Vec<u32>) -> Result<(), AllocError>
    ensures { OnOk result ((x : ℕ) → has x found.new.items ≡ has x found.old.items || has x (edge_places (get nat_cmp order.now.positions) (edge ∷ []))) }
{
    match order.position(edge.block) {
        Some(at) => add_once(found, at),
        None => Ok(()),
    }
}

/// Adds a number to a list that doesn't hold it yet.
fn add_once(list: &mut Vec<u32>, x: u32) -> Result<(), AllocError>
    ensures { OnOk result ((y : ℕ) → has y list.new.items ≡ has y list.old.items || nat_eq x y) }
{
    if is_in(list.as_slice(), x) {
        return Ok(());
    }
    list.push(x)?;
    Ok(())
}

/// Whether a number is in a list.
fn is_in(list: &[u32], x: u32) -> bool
    ensures { result ≡ list_any (λ y. nat_eq y x) list.now }
{
    list.iter().any(|y| *y == x)
}

/// The ways out of a block.
fn ways_of(
    alloc: Global,
    target: &Target,
    order: &Order,
    block: &Block,
) -> Result<BlockFlow, AllocError>
    ensures predecessors { IfOk result (λ w. w.predecessors.items ≡ []) }
    ensures successors { IfOk result (λ w. (x : ℕ) → has x w.successors.items ≡ has x (edge_places (get nat_cmp order.now.positions) block.now.successors)) }
    ensures terminators { IfOk result (λ w. w.terminators.items ≡ terminator_ids target.now block.now.instrs) }
{
    let successors = successors_of(alloc, order, block.successors.as_slice())?;
    let terminators = terminators_of(alloc, target, block.instrs.as_slice())?;
    Ok(BlockFlow {
        predecessors: Vec::new(alloc),
        successors,
        terminators,
    })
}

/// The ways out of the blocks of a function, in layout order.
fn ways_out(
    alloc: Global,
    target: &Target,
    order: &Order,
    blocks: &[Block],
) -> Result<Vec<BlockFlow>, AllocError>
    ensures { IfOk result (λ v. AreOut target.now (get nat_cmp order.now.positions) blocks.now v.items) }
{
    let mut flow = Vec::new(alloc);
    'blocks: for block in blocks {
        flow.push(ways_of(alloc, target, order, block)?)?;
    }
    Ok(flow)
}

/// The ways into and out of the blocks of a function, in layout order.
pub fn flow_of(
    alloc: Global,
    target: &Target,
    order: &Order,
    func: &Func,
) -> Result<Vec<BlockFlow>, AllocError>
    ensures { IfOk result (λ v. AreWays target.now (get nat_cmp order.now.positions) func.now.blocks v.items) }
{
    let mut flow = ways_out(alloc, target, order, func.blocks.as_slice())?;
    let Ok(count) = u32::try_from(flow.len()) else {
        return Err(AllocError);
    };
    'positions: for at in 0..count {
        note_block(alloc, &mut flow, at)?;
    }
    Ok(flow)
}

/// Notes a block at each of its successors.
fn note_block(alloc: Global, flow: &mut Vec<BlockFlow>, at: u32) -> Result<(), AllocError>
    ensures { OnOk result (NotesAll flow.old.items flow.new.items (successors flow.old.items at) at) }
{
    let nexts = Vec::from_slice(alloc, successors(flow.as_slice(), at))?;
    note_at(flow, nexts.as_slice(), at)
}

/// Notes a block at each of these.
fn note_at(flow: &mut Vec<BlockFlow>, nexts: &[u32], at: u32) -> Result<(), AllocError>
    ensures { OnOk result (NotesAll flow.old.items flow.new.items nexts.now at) }
{
    'nexts: for next in nexts {
        note(flow, *next, at)?;
    }
    Ok(())
}

/// Notes a block at one that follows.
fn note(flow: &mut Vec<BlockFlow>, next: u32, at: u32) -> Result<(), AllocError>
    ensures { OnOk result (Notes flow.old.items flow.new.items next at) }
{
    let place = next as usize;
    if place >= flow.len() {
        return Ok(());
    }
    flow[place].add_predecessor(at)
}
