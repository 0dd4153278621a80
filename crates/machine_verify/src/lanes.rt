//! The lanes of operands, where they are known.

ghost use Rattle.std.specs.Prelude.{◌≡◌};
ghost use Rattle.std.specs.List.{list_all};
ghost use Rattle.target_base.specs.Registers.{is_reserved_unit};
ghost use Rattle.mir_meaning.specs.Rules.{has_lanes_at, has_lanes, index_fits, has_class, is_reserved_register};

use mir_func::operands::class_of;
use mir_func::{Func, Loc, RegOp};
use target_base::{IndexId, Target, Unit};

/// Whether the register has one class, which the index fits.
fn has_lanes_at(target: &Target, f: &Func, loc: Loc, x: Option<IndexId>) -> bool
    ensures { result ≡ has_lanes_at target.now f.now loc x }
{
    match loc {
        Loc::Fixed(_) => true,
        Loc::Virtual(v) => match class_of(f, v) {
            None => false,
            Some(c) => target.fits_at(c, x),
        },
    }
}

/// Whether the lanes of an operand are known: its register has one class, which its index fits.
pub(crate) fn has_lanes(target: &Target, f: &Func, o: &RegOp) -> bool
    ensures { result ≡ has_lanes target.now f.now o.now }
{
    has_lanes_at(target, f, o.loc, o.index)
}

/// Whether the index fits the register's class, where that is known. Physical registers have none.
pub(crate) fn index_fits(target: &Target, f: &Func, loc: Loc, x: Option<IndexId>) -> bool
    ensures { result ≡ index_fits target.now f.now loc x }
{
    match loc {
        Loc::Fixed(_) => x.is_none(),
        Loc::Virtual(v) => match class_of(f, v) {
            None => true,
            Some(c) => target.fits_at(c, x),
        },
    }
}

/// Whether a virtual register has just one class.
pub(crate) fn has_class(f: &Func, loc: Loc) -> bool
    ensures { result ≡ has_class f.now loc }
{
    match loc {
        Loc::Fixed(_) => true,
        Loc::Virtual(v) => class_of(f, v).is_some(),
    }
}

fn are_reserved(target: &Target, units: &[Unit]) -> bool
    ensures { result ≡ list_all (λ u. is_reserved_unit target.now u.0) units.now }
{
    units.iter().all(|u| target.is_reserved_unit(u.0 as u32))
}

/// Whether a register is fixed and all its units are reserved.
pub(crate) fn is_reserved_register(target: &Target, loc: Loc) -> bool
    ensures { result ≡ is_reserved_register target.now loc }
{
    match loc {
        Loc::Virtual(_) => false,
        Loc::Fixed(r) => are_reserved(target, target.units_at(r)),
    }
}
