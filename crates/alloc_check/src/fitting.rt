//! Whether the classes of a function's virtual registers are those of its target, as every call with a
//! target asks: the verifiers are exact for such functions, and each function that is read under its
//! target is one. Of a function that anybody made it is tested.

ghost use Rattle.std.specs.Prelude.{◌≡◌, IsTrue};
ghost use Rattle.std.specs.List.{list_all};
ghost use Rattle.machine_verify.specs.Lives.{FitsTarget};
ghost use Rattle.alloc_check.specs.Fitting.{is_class};

use mir_func::Func;
use target_base::{ClassId, Target};

/// The most virtual registers whose numbers have 32 bits.
const MOST_RANGES: usize = 1 << 32;

/// Whether a class is one of the target; no class is no fault.
fn is_class(target: &Target, class: Option<ClassId>) -> bool
    ensures { result ≡ is_class target.now class }
{
    match class {
        None => true,
        Some(c) => (c.0 as usize) < target.classes.len(),
    }
}

fn are_classes(target: &Target, classes: &[Option<ClassId>]) -> bool
    ensures { result ≡ list_all (is_class target.now) classes.now }
{
    classes.iter().all(|class| is_class(target, *class))
}

/// Whether each virtual register of a function is of a class of the target, and their numbers have
/// 32 bits.
#[tactic(auto, using(crate::proofs::Classes::fits_of, crate::proofs::Classes::few_of, crate::proofs::Classes::classes_of))]
pub fn fits(target: &Target, f: &Func) -> bool
    ensures fits { IsTrue result → FitsTarget target.now f.now }
    ensures exact { FitsTarget target.now f.now → IsTrue result }
{
    f.classes.len() <= MOST_RANGES && are_classes(target, f.classes.as_slice())
}
