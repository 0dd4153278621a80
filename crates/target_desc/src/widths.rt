//! Units, registers and classes of lists that aren't a target yet.

ghost use Rattle.std.specs.Prelude.{◌≡◌, sum};
ghost use Rattle.target_base.specs.Storage.{widths};

use target_base::classes::width_of;
use target_base::{Unit, UnitDesc};

/// The width in bits of several units together.
pub(crate) fn total_width(units: &[UnitDesc], us: &[Unit]) -> u128
    ensures { result ≡ sum (widths units.now us.now) }
{
    let mut total = 0u128;
    for u in us {
        total += u128::from(width_of(units, *u));
    }
    total
}
