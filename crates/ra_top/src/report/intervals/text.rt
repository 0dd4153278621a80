//! The whole text of a function.

ghost use Rattle.std.specs.Prelude.{◌≡◌, ◌≤◌, ◌^◌, ◌++◌, IfOk, OnOk, length};
ghost use Rattle.ra_top.specs.Report.Intervals.Lines.{function_line, block_lines, class_text};
ghost use Rattle.ra_top.specs.Report.Intervals.Told.{AreShort, IsReady, start_numbers, named_lines, used_lines, uses_lines, AreRangeLines, IsToldText};
ghost use Rattle.mir_func.specs.Binding.{class_of};

use crate::report::intervals::lanes::put_lanes;
use crate::report::intervals::numbers::starts_of;
use crate::report::intervals::parts::{put_block, put_function, put_range};
use crate::report::intervals::uses::{Use, uses_of, weight_of};
use block_freq::Freqs;
use live_lanes::LiveFunc;
use mir_func::operands::class_of;
use mir_func::{Block, Func};
use mir_text::print::class_name;
use std::alloc::{AllocError, Global};
use target_base::{Bytes, Target};

/// Adds the lines of blocks with these frequencies.
fn put_blocks(out: &mut Bytes, blocks: &[Block], freqs: &[u64]) -> Result<(), AllocError>
    ensures { OnOk result (out.new ≡ out.old ++ block_lines freqs.now blocks.now) }
{
    'layout: for k in 0..blocks.len().min(freqs.len()) {
        put_block(out, blocks[k].number, freqs[k])?;
    }
    Ok(())
}

/// The name of the class of a range; none where it has none.
fn name_of_class<'a>(target: &'a Target, f: &Func, v: u32) -> &'a [u8]
    ensures { result.now ≡ class_text target.now (class_of f.now v) }
{
    match class_of(f, v) {
        Some(class) => class_name(target, class),
        None => &[],
    }
}

/// Adds the lines of a range that an operand names, where its uses have this sum.
fn put_named(
    out: &mut Bytes,
    target: &Target,
    live: &LiveFunc,
    starts: &[u128],
    v: u32,
    sum: u128,
) -> Result<(), AllocError>
    requires ready { IsReady live.now.table live.now.func.blocks }
    requires starts { starts.now ≡ start_numbers 0 live.now.func.blocks }
    ensures { OnOk result (out.new ≡ out.old ++ named_lines target.now live.now.table live.now.func v sum) }
{
    let class = name_of_class(target, live.func(), v);
    let weight = weight_of(sum, live.points(v));
    put_range(out, v, class, weight)?;
    put_lanes(out, live, starts, v)
}

/// Adds the lines of a range, if an operand names it.
fn put_used(
    out: &mut Bytes,
    target: &Target,
    live: &LiveFunc,
    starts: &[u128],
    v: u32,
    own: Use,
) -> Result<(), AllocError>
    requires ready { IsReady live.now.table live.now.func.blocks }
    requires starts { starts.now ≡ start_numbers 0 live.now.func.blocks }
    ensures { OnOk result (out.new ≡ out.old ++ used_lines target.now live.now.table live.now.func v own) }
{
    if own.is_named {
        put_named(out, target, live, starts, v, own.sum)
    } else {
        Ok(())
    }
}

/// Adds the lines of the ranges that operands name.
fn put_ranges(
    out: &mut Bytes,
    target: &Target,
    live: &LiveFunc,
    starts: &[u128],
    uses: &[Use],
) -> Result<(), AllocError>
    requires ready { IsReady live.now.table live.now.func.blocks }
    requires starts { starts.now ≡ start_numbers 0 live.now.func.blocks }
    requires few { length uses.now ≤ 2 ^ 32 }
    ensures { OnOk result (out.new ≡ out.old ++ uses_lines target.now live.now.table live.now.func 0 uses.now) }
{
    'list: for v in 0..uses.len() {
        put_used(out, target, live, starts, v as u32, uses[v])?;
    }
    Ok(())
}

/// The numbers of the starts of a function's blocks.
fn starts_in(alloc: Global, f: &Func) -> Result<Vec<u128>, AllocError>
    requires { AreShort f.now.blocks }
    ensures { IfOk result (λ starts. starts.items ≡ start_numbers 0 f.now.blocks) }
{
    starts_of(alloc, f.blocks.as_slice())
}

/// The lines of the ranges that operands name.
fn text_of_ranges(
    alloc: Global,
    target: &Target,
    live: &LiveFunc,
    freqs: &Freqs,
) -> Result<Bytes, AllocError>
    requires ready { IsReady live.now.table live.now.func.blocks }
    requires few { length live.now.func.classes ≤ 2 ^ 32 }
    ensures { IfOk result (AreRangeLines target.now live.now.table live.now.func freqs.now) }
{
    let f = live.func();
    let freqs = freqs.as_slice();
    let starts = starts_in(alloc, f)?;
    let uses = uses_of(alloc, f, freqs)?;
    let numbers = starts.as_slice();
    let used = uses.as_slice();
    let mut out = Bytes::new(alloc);
    put_ranges(&mut out, target, live, numbers, used)?;
    Ok(out)
}

/// Adds the lines of a function's blocks with these frequencies.
fn put_blocks_of(out: &mut Bytes, f: &Func, freqs: &Freqs) -> Result<(), AllocError>
    ensures { OnOk result (out.new ≡ out.old ++ block_lines freqs.now f.now.blocks) }
{
    let blocks = f.blocks.as_slice();
    let freqs = freqs.as_slice();
    put_blocks(out, blocks, freqs)
}

/// What is live where in a function of a name, whose blocks run so often.
pub(crate) fn text_of(
    alloc: Global,
    target: &Target,
    name: &[u8],
    live: &LiveFunc,
    freqs: &Freqs,
) -> Result<Bytes, AllocError>
    requires ready { IsReady live.now.table live.now.func.blocks }
    requires few { length live.now.func.classes ≤ 2 ^ 32 }
    ensures { IfOk result (IsToldText target.now live.now.table live.now.func name.now freqs.now) }
{
    let ranges = text_of_ranges(alloc, target, live, freqs)?;
    let f = live.func();
    let mut out = Bytes::new(alloc);
    put_function(&mut out, name)?;
    put_blocks_of(&mut out, f, freqs)?;
    out.extend(ranges.as_slice())?;
    Ok(out)
}
