//! The call that splits a range by labels of its points.

ghost use Rattle.std.specs.Prelude.{◌≡◌, ◌<◌, ◌+◌, ℕ, Bool, List, Option, length, IfOk, OnOk, OnErr};
ghost use Rattle.target_base.specs.declared.types.ClassId.{ClassId as RangeClass};
ghost use Rattle.mir_meaning.specs.Registers.{numbers};
ghost use Rattle.live_lanes.specs.declared.live.LiveFunc.{LiveFunc};
ghost use Rattle.split_kit.specs.MaySplit.{HasFurther, HasNew, IsSplit, MayGrow, MaySplitLive};
ghost use Rattle.mir_meaning.specs.Points.{Point};
ghost use Rattle.live_edits.specs.Runs.{edits_of};
ghost use Rattle.split_kit.specs.PartEdits.{ShowsParts, split_edits};
ghost use Rattle.split_kit.specs.Split.{greatest_label, parts};

use crate::block_walk::all_edits;
use crate::part_edits::SplitView;
use interference::Matrix;
use live_edits::Edit;
use live_lanes::{Labels, Mark};
use mir_func::operands::class_of;
use std::alloc::{AllocError, Global};
use target_base::{ClassId, Numbers};

/// Splits a range by labels and answers the numbers of its parts: the remainder first, then the
/// labels in order. Each operand takes the part of the label that holds there; a copy stands where
/// the label changes and some lane of the range is live. After a refusal the function is unchanged
/// but for new range numbers that no operand names.
pub fn split(alloc: Global, m: &mut Matrix, v: u32, labels: &Labels) -> Result<Numbers, AllocError>
    ensures ok { OnOk result (MaySplitLive m.old.live v labels.now → IsSplit m.old.live v labels.now m.new.live) }
    ensures answer { IfOk result (λ made. MaySplitLive m.old.live v labels.now → made ≡ parts m.old.live.func labels.now) }
    ensures err { OnErr result (MaySplitLive m.old.live v labels.now → (cs : List (Option RangeClass)) × HasFurther m.old.live cs m.new.live) }
{
    let edits = edits_for(alloc, m, v, labels.as_slice())?;
    let class = class_of(m.live().func(), v).unwrap_or(ClassId(0));
    let parts = fresh_all(alloc, m, class, greatest(labels.as_slice()) as u32 + 1)?;
    m.edit_all(edits, Some(v))?;
    Ok(parts)
}

/// The edits that split a range by these marks.
fn edits_for(alloc: Global, m: &Matrix, v: u32, marks: &[Mark]) -> Result<Vec<Edit>, AllocError>
    ensures { IfOk result (λ edits. (test : Point → Bool) → ShowsParts m.now.live.table m.now.live.func v marks.now test → edits_of edits.items ≡ split_edits test m.now.live.func v marks.now) }
{
    let live = m.live();
    let touched = live.touched(alloc, v)?;
    all_edits(SplitView { alloc, live, v }, touched.as_slice(), marks)
}

/// The greatest label.
fn greatest(marks: &[Mark]) -> u16
    ensures { result ≡ greatest_label marks.now }
{
    let mut most = 0u16;
    'marks: for mark in marks {
        most = most.max(mark.label);
    }
    most
}

/// Makes a new range of a class, and adds its number to those of others.
fn add_fresh(m: &mut Matrix, class: ClassId, parts: &mut Numbers) -> Result<(), AllocError>
    ensures ok { OnOk result ((old : LiveFunc) (k count : ℕ) → MayGrow old class count → k < count → HasNew old class k m.old.live → parts.old ≡ numbers (length old.func.classes) k
        → HasNew old class (k + 1) m.new.live × (parts.new ≡ numbers (length old.func.classes) (k + 1))) }
    ensures err { OnErr result ((old : LiveFunc) (k count : ℕ) → MayGrow old class count → k < count → HasNew old class k m.old.live → (j : ℕ) × HasNew old class j m.new.live) }
{
    let part = m.fresh(class)?;
    parts.push(part)?;
    Ok(())
}

/// So many new ranges of a class.
fn fresh_all(
    alloc: Global,
    m: &mut Matrix,
    class: ClassId,
    count: u32,
) -> Result<Numbers, AllocError>
    ensures ok { OnOk result (MayGrow m.old.live class count → HasNew m.old.live class count m.new.live) }
    ensures answer { IfOk result (λ made. MayGrow m.old.live class count → made ≡ numbers (length m.old.live.func.classes) count) }
    ensures err { OnErr result (MayGrow m.old.live class count → (j : ℕ) × HasNew m.old.live class j m.new.live) }
{
    let mut parts = Numbers::new(alloc);
    'labels: for k in 0..count {
        add_fresh(m, class, &mut parts)?;
    }
    Ok(parts)
}
