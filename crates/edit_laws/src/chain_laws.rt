//! Laws of the causes of live pieces and of what they rest on, as edits change them: they fall, and come
//! alive again.

ghost use Rattle.edit_laws.specs.Chains.{CutLaw, FirmLaw, RiseLaw};

/// Where each live piece has a right cause, rests on none or on a live piece, and its chain of causes
/// ends, all live pieces are founded.
pub fn firm_law()
    ensures { FirmLaw }
{}

/// Chains still end where a piece falls.
pub fn cut_law()
    ensures { CutLaw }
{}

/// They still end where a piece comes alive by a live one.
pub fn rise_law()
    ensures { RiseLaw }
{}
