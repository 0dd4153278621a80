//! The terminators at the end of a block.

ghost use Rattle.std.specs.Prelude.{◌≡◌, drop, position};
ghost use Rattle.std.specs.List.{position_or_len};
ghost use Rattle.mir_func.specs.Binding.{does, is_terminator};
ghost use Rattle.spiller.specs.Ends.{block_ends};

use crate::plan::SpillView;
use mir_func::Instr;
use mir_func::opcodes::is_terminator;
use target_base::{Boxed, Target};

/// The terminators of the block of an instruction.
pub(crate) fn ends_at<'a>(view: SpillView<'a>, id: u32) -> &'a [Boxed<Instr>]
    ensures { result.now ≡ block_ends view.entry id }
{
    let position = view.live.position_of(id) as usize;
    match view.live.func().blocks.as_slice().get(position) {
        Some(block) => ends_of(view.target, block.instrs.as_slice()),
        None => &[],
    }
}

/// The place of the first terminator.
fn first_end(target: &Target, instrs: &[Boxed<Instr>]) -> Option<usize>
    ensures { result ≡ position (does is_terminator target.now) instrs.now }
{
    instrs
        .iter()
        .position(|instr| is_terminator(target, instr.get()))
}

/// How many instructions stand before the first terminator.
fn end_place(target: &Target, instrs: &[Boxed<Instr>]) -> usize
    ensures { result ≡ position_or_len (does is_terminator target.now) instrs.now }
{
    match first_end(target, instrs) {
        Some(place) => place,
        None => instrs.len(),
    }
}

/// The terminators of a block with these instructions.
fn ends_of<'a>(target: &Target, instrs: &'a [Boxed<Instr>]) -> &'a [Boxed<Instr>]
    ensures { result.now ≡ drop (position_or_len (does is_terminator target.now) instrs.now) instrs.now }
{
    let place = end_place(target, instrs);
    instrs.split_at(place.min(instrs.len())).1
}
