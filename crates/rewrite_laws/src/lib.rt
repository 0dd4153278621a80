//! Laws of rewriting: a function whose ranges stand in registers without clashes does what it did.
//!
//! Each is the contract of a function, so that a check proves it.
#![tactic(auto)]

ghost use Rattle.rewrite_laws.specs.Laws.{RewriteRefines};

/// The physical form of a function in lowered form, by registers without clashes, does what the function did.
pub fn rewrite_law()
    ensures { RewriteRefines }
{}
