//! The lanes of register operands, with their widths and as sources.

ghost use Rattle.std.specs.Prelude.{◌≡◌, ◌+◌, ◌<◌, ◌^◌, ◌++◌, length, map, OnOk, IfOk, cond, slice_index};
ghost use Rattle.target_base.specs.Storage.{widths, class_units};
ghost use Rattle.meaning.specs.declared.types.Lane.TheVariants.{VirtualLane};
ghost use Rattle.meaning.specs.declared.types.Source.TheVariants.{FromLane, Undef};
ghost use Rattle.mir_func.specs.Binding.{class_of};
ghost use Rattle.mir_meaning.specs.Registers.{numbers, range_widths, range_lanes, unit_lanes, operand_lanes, operand_widths, use_sources, undefined_lanes, located_lanes};

use meaning::{Lane, Source};
use mir_func::operands::class_of;
use mir_func::{Func, Loc, RegOp};
use std::alloc::{AllocError, Global};
use target_base::classes::width_of;
use target_base::{IndexId, List, Numbers, Target, Unit, UnitDesc};

/// Lanes in order.
pub type LaneList = List<Lane>;

/// Sources in order.
pub type Sources = List<Source>;

/// Appends the widths of units.
pub fn push_widths(out: &mut Numbers, units: &[UnitDesc], us: &[Unit]) -> Result<(), AllocError>
    ensures { OnOk result (out.new ≡ out.old ++ widths units.now us.now) }
{
    for u in us {
        out.push(width_of(units, *u) as u32)?;
    }
    Ok(())
}

/// Appends units as lanes.
pub fn push_unit_lanes(out: &mut LaneList, us: &[Unit]) -> Result<(), AllocError>
    ensures { OnOk result (out.new ≡ out.old ++ unit_lanes us.now) }
{
    for u in us {
        out.push(Lane::UnitLane(u.0 as u32))?;
    }
    Ok(())
}

/// Appends the first lanes of a virtual register.
fn push_first_lanes(out: &mut LaneList, v: u32, count: u32) -> Result<(), AllocError>
    ensures { OnOk result (out.new ≡ out.old ++ map (VirtualLane v) (numbers 0 count)) }
{
    for k in 0..count {
        out.push(Lane::VirtualLane(v, k))?;
    }
    Ok(())
}

/// Appends the lanes of a virtual register that an index picks.
fn push_picked_lanes(out: &mut LaneList, v: u32, lanes: &[u8]) -> Result<(), AllocError>
    ensures { OnOk result (out.new ≡ out.old ++ map (VirtualLane v) lanes.now) }
{
    for k in lanes {
        out.push(Lane::VirtualLane(v, *k as u32))?;
    }
    Ok(())
}

/// The units that give a virtual register's lanes their widths; none without a class.
fn range_units<'a>(t: &'a Target, f: &Func, v: u32) -> &'a [Unit]
    ensures value { widths t.now.units result.now ≡ range_widths t.now f.now v }
    ensures few { length result.now < 2 ^ 32 }
{
    t.class_units(class_of(f, v))
}

/// Appends all lanes of a virtual register.
pub fn push_range_lanes(out: &mut LaneList, t: &Target, f: &Func, v: u32) -> Result<(), AllocError>
    ensures { OnOk result (out.new ≡ out.old ++ range_lanes t.now f.now v) }
{
    push_first_lanes(out, v, range_units(t, f, v).len() as u32)
}

/// Appends the lanes of a register: those of a virtual one through its index, or the units of a fixed one.
pub fn push_located_lanes(
    out: &mut LaneList,
    t: &Target,
    f: &Func,
    loc: Loc,
    index: Option<IndexId>,
) -> Result<(), AllocError>
    ensures { OnOk result (out.new ≡ out.old ++ located_lanes t.now f.now loc index) }
{
    match loc {
        Loc::Fixed(r) => push_unit_lanes(out, t.units_at(r)),
        Loc::Virtual(v) => match index {
            None => push_range_lanes(out, t, f, v),
            Some(x) => push_picked_lanes(out, v, t.lanes_at(x)),
        },
    }
}

/// The width of one of these units, by its place; 0 where there is none.
fn width_at(units: &[UnitDesc], us: &[Unit], k: u8) -> u32
    ensures { result ≡ slice_index (widths units.now us.now) k }
{
    match us.get(k as usize) {
        None => 0,
        Some(u) => width_of(units, *u) as u32,
    }
}

/// Appends the widths of the units at these places.
fn push_picked_widths(
    out: &mut Numbers,
    units: &[UnitDesc],
    us: &[Unit],
    lanes: &[u8],
) -> Result<(), AllocError>
    ensures { OnOk result (out.new ≡ out.old ++ map (slice_index (widths units.now us.now)) lanes.now) }
{
    for k in lanes {
        out.push(width_at(units, us, *k))?;
    }
    Ok(())
}

/// Appends the lane widths of a register operand.
pub fn push_operand_widths(
    out: &mut Numbers,
    t: &Target,
    f: &Func,
    o: &RegOp,
) -> Result<(), AllocError>
    ensures { OnOk result (out.new ≡ out.old ++ operand_widths t.now f.now o.now) }
{
    let units = t.units.as_slice();
    match o.loc {
        Loc::Fixed(r) => push_widths(out, units, t.units_at(r)),
        Loc::Virtual(v) => match o.index {
            None => push_widths(out, units, range_units(t, f, v)),
            Some(x) => push_picked_widths(out, units, range_units(t, f, v), t.lanes_at(x)),
        },
    }
}

/// Appends the lanes of a register operand.
pub fn push_operand_lanes(
    out: &mut LaneList,
    t: &Target,
    f: &Func,
    o: &RegOp,
) -> Result<(), AllocError>
    ensures { OnOk result (out.new ≡ out.old ++ operand_lanes t.now f.now o.now) }
{
    push_located_lanes(out, t, f, o.loc, o.index)
}

/// A lane as a source, or Undef.
fn source_of(undef: bool, l: Lane) -> Source
    ensures { result ≡ cond undef (λ x. Undef) FromLane l }
{
    if undef {
        Source::Undef
    } else {
        Source::FromLane(l)
    }
}

/// Appends lanes as sources, each Undef where `undef` says so.
fn push_sources(out: &mut Sources, undef: bool, lanes: &[Lane]) -> Result<(), AllocError>
    ensures { OnOk result (out.new ≡ out.old ++ map (cond undef (λ l. Undef) FromLane) lanes.now) }
{
    for l in lanes {
        out.push(source_of(undef, *l))?;
    }
    Ok(())
}

/// What a use reads: Undef in each lane where it is `undef`.
pub fn use_sources(alloc: Global, t: &Target, f: &Func, o: &RegOp) -> Result<Sources, AllocError>
    ensures { IfOk result (λ made. made ≡ use_sources t.now f.now o.now) }
{
    let mut lanes = List::new(alloc);
    push_operand_lanes(&mut lanes, t, f, o)?;
    let mut made = List::new(alloc);
    push_sources(&mut made, o.undef, lanes.as_slice())?;
    Ok(made)
}

/// Appends the lanes that an `undef` definition makes Undef beside those that it gives a value.
pub fn push_undefined_lanes(
    out: &mut LaneList,
    t: &Target,
    f: &Func,
    o: &RegOp,
) -> Result<(), AllocError>
    ensures { OnOk result (out.new ≡ out.old ++ undefined_lanes t.now f.now o.now) }
{
    match o.loc {
        Loc::Fixed(_) => Ok(()),
        Loc::Virtual(v) => {
            if o.def && o.undef {
                push_range_lanes(out, t, f, v)
            } else {
                Ok(())
            }
        }
    }
}
