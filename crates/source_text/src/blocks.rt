//! Which blocks of an allocated function keep what is printed of the source's.

ghost use Rattle.std.specs.Prelude.{◌≡◌};
ghost use Rattle.mir_meaning.specs.Agreement.{all_alike};
ghost use Rattle.source_text.specs.Blocks.{same_edge, same_reg, keeps_block, same_entries, keep_blocks};

use crate::instructions::{keep_instrs, same_text};
use mir_func::{Block, Edge};
use target_base::{Reg, Target};

fn same_edge(e: Edge, d: Edge) -> bool
    ensures { result ≡ same_edge e d }
{
    e.block == d.block && e.prob == d.prob
}

/// Whether the successors are the same in order, with the same probabilities.
fn same_edges(edges: &[Edge], others: &[Edge]) -> bool
    ensures { result ≡ all_alike same_edge edges.now others.now }
{
    let mut left = others;
    'edges: for e in edges {
        match left {
            [] => return false,
            [d, rest @ ..] => {
                if !same_edge(*e, *d) {
                    return false;
                }
                left = rest;
            }
        }
    }
    match left {
        [] => true,
        [_, ..] => false,
    }
}

fn same_reg(r: Reg, q: Reg) -> bool
    ensures { result ≡ same_reg r q }
{
    r.0 == q.0
}

/// Whether the registers are the same in order.
fn same_regs(regs: &[Reg], others: &[Reg]) -> bool
    ensures { result ≡ all_alike same_reg regs.now others.now }
{
    let mut left = others;
    'regs: for r in regs {
        match left {
            [] => return false,
            [q, rest @ ..] => {
                if !same_reg(*r, *q) {
                    return false;
                }
                left = rest;
            }
        }
    }
    match left {
        [] => true,
        [_, ..] => false,
    }
}

/// Whether the second block keeps what is printed of the first.
fn keeps_block(target: &Target, b: &Block, c: &Block) -> bool
    ensures { result ≡ keeps_block target.now b.now c.now }
{
    b.number == c.number
        && same_text(b.name.as_slice(), c.name.as_slice())
        && same_text(b.attributes.as_slice(), c.attributes.as_slice())
        && same_edges(b.successors.as_slice(), c.successors.as_slice())
        && keep_instrs(target, b.instrs.as_slice(), c.instrs.as_slice())
}

/// Whether the entry blocks list the same live-ins.
fn same_entries(blocks: &[Block], others: &[Block]) -> bool
    ensures { result ≡ same_entries blocks.now others.now }
{
    match (blocks, others) {
        ([b, ..], [c, ..]) => same_regs(b.liveins.as_slice(), c.liveins.as_slice()),
        ([], []) => true,
        _ => false,
    }
}

/// Whether each block keeps that of the source in its place.
fn keep_each(target: &Target, blocks: &[Block], others: &[Block]) -> bool
    ensures { result ≡ all_alike (keeps_block target.now) blocks.now others.now }
{
    let mut left = others;
    'layout: for b in blocks {
        match left {
            [] => return false,
            [c, rest @ ..] => {
                if !keeps_block(target, b, c) {
                    return false;
                }
                left = rest;
            }
        }
    }
    match left {
        [] => true,
        [_, ..] => false,
    }
}

/// Whether blocks of the allocated function keep what is printed of the source's.
pub(crate) fn keep_blocks(target: &Target, blocks: &[Block], others: &[Block]) -> bool
    ensures { result ≡ keep_blocks target.now blocks.now others.now }
{
    same_entries(blocks, others) && keep_each(target, blocks, others)
}
