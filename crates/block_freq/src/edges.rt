//! The edges of a function's flow graph, by places in layout.

ghost use Rattle.std.specs.Prelude.{◌≡◌, ◌++◌, OnOk, IfOk};
ghost use Rattle.block_freq.specs.Frequencies.{edges_from, all_edges};

use mir_func::func::block_at;
use mir_func::{Block, Edge};
use std::alloc::{AllocError, Global};

/// An edge between two blocks, by their places in layout.
#[derive(Clone, Copy)]
pub struct BlockEdge {
    /// The place of the block that it leaves.
    pub from: usize,
    /// The place of the first block of its number, or the number of blocks where there is none.
    pub to: usize,
    /// Its probability in units of 2^-31.
    pub prob: u32,
}

/// Puts the edges of one block, which stands at `from`, behind the others.
#[tactic(auto, using(crate::proofs::EdgeSteps::edge_steps))]
fn push_edges(
    edges: &mut Vec<BlockEdge>,
    blocks: &[Block],
    from: usize,
    successors: &[Edge],
) -> Result<(), AllocError>
    ensures { OnOk result (edges.new.items ≡ edges.old.items ++ edges_from blocks.now from successors.now) }
{
    'successors: for e in successors {
        edges.push(BlockEdge {
            from,
            to: block_at(blocks, e.block),
            prob: e.prob,
        })?;
    }
    Ok(())
}

/// All edges, block by block in layout.
#[tactic(auto, using(crate::proofs::EdgeSteps::edge_steps))]
pub fn edges_of(alloc: Global, blocks: &[Block]) -> Result<Vec<BlockEdge>, AllocError>
    ensures { IfOk result (λ made. made.items ≡ all_edges blocks.now) }
{
    let mut edges = Vec::new(alloc);
    'layout: for k in 0..blocks.len() {
        push_edges(&mut edges, blocks, k, blocks[k].successors.as_slice())?;
    }
    Ok(edges)
}
