//! What the operands of an instruction say of the range.

ghost use Rattle.std.specs.Prelude.{◌≡◌, cond, Some, None, option_and_then};
ghost use Rattle.mir_func.specs.Binding.{as_register, operand_class};
ghost use Rattle.mir_meaning.specs.Places.{same_class};
ghost use Rattle.mir_meaning.specs.Points.{is_range};
ghost use Rattle.spiller.specs.Views.{same_way, named_by};

use crate::plan::SpillView;
use mir_func::opcodes::asked_class;
use mir_func::operands::{class_of, same_index};
use mir_func::{Func, Loc, Operand, RegOp};
use target_base::{ClassId, IndexId, Role, Target};

/// How an operand names the range: its index and its operand class.
#[derive(Clone, Copy, PartialEq, Eq)]
pub(crate) struct IndexedClass {
    /// The index.
    pub index: Option<IndexId>,
    /// The operand class; none where it has none.
    pub class: Option<ClassId>,
}

/// Whether the classes are one, or both are absent.
fn same_class(a: Option<ClassId>, b: Option<ClassId>) -> bool
    ensures { result ≡ same_class a b }
{
    match (a, b) {
        (None, None) => true,
        (Some(c), Some(d)) => c.0 == d.0,
        _ => false,
    }
}

/// Whether two uses name the range alike.
pub(crate) fn same_naming(a: IndexedClass, b: IndexedClass) -> bool
    ensures { result ≡ same_way a b }
{
    same_index(a.index, b.index) && same_class(a.class, b.class)
}

/// The register operand, where it is the range.
pub(crate) fn operand_of_range(view: SpillView<'_>, operand: &Operand) -> Option<RegOp>
    ensures { result ≡ option_and_then (λ o. cond (is_range view.entry.v o.loc) (Some o) None) (as_register operand.now) }
{
    match operand {
        Operand::Reg(op) if view.is_own(op) => Some(*op),
        _ => None,
    }
}

/// How an operand with its role names the range.
pub(crate) fn naming_of(view: SpillView<'_>, role: Option<Role>, op: &RegOp) -> IndexedClass
    ensures { result ≡ named_by view.entry role op.now }
{
    IndexedClass {
        index: op.index,
        class: operand_class(view.target, view.live.func(), role, op),
    }
}

/// The operand class of an operand with its role; none where it has none.
fn operand_class(target: &Target, f: &Func, role: Option<Role>, op: &RegOp) -> Option<ClassId>
    ensures { result ≡ operand_class target.now f.now role op.now }
{
    match role? {
        Role::Any => match op.loc {
            Loc::Virtual(w) => target.move_at(class_of(f, w)?, op.index),
            Loc::Fixed(_) => None,
        },
        role => asked_class(role),
    }
}
