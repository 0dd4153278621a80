//! Classes by the widths of their lanes.

ghost use Rattle.std.specs.Prelude.{◌≡◌, position};
ghost use Rattle.target_base.specs.Registers.{class_of_widths};
ghost use Rattle.target_base.specs.Storage.{widths, class_widths, same_numbers};

use target_base::classes::{first_units, width_of};
use target_base::{ClassId, Target, Unit};

/// Whether these units have the widths.
fn have_widths(target: &Target, units: &[Unit], wanted: &[u32]) -> bool
    ensures { result ≡ same_numbers (widths target.now.units units.now) wanted.now }
{
    if units.len() != wanted.len() {
        return false;
    }
    'each: for k in 0..units.len() {
        if width_of(target.units.as_slice(), units[k]) as u32 != wanted[k] {
            return false;
        }
    }
    true
}

/// The place of the first class with these lane widths.
fn place_of_widths(target: &Target, wanted: &[u32]) -> Option<usize>
    ensures { result ≡ position (λ d. same_numbers (class_widths target.now.units target.now.regs d.regs) wanted.now) target.now.classes }
{
    target.classes.as_slice().iter().position(|d| {
        have_widths(
            target,
            first_units(target.regs.as_slice(), d.regs.as_slice()),
            wanted,
        )
    })
}

/// The first class with these lane widths.
pub fn class_of_widths(target: &Target, wanted: &[u32]) -> Option<ClassId>
    ensures { result ≡ class_of_widths target.now wanted.now }
{
    match place_of_widths(target, wanted) {
        None => None,
        Some(place) => Some(ClassId(place as u16)),
    }
}
