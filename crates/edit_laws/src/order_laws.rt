//! Laws of where a table has the instructions and the blocks of a function, over edits.

ghost use Rattle.edit_laws.specs.Numbered.{ErasedPlainLaw, NumbersEditLaw};
ghost use Rattle.edit_laws.specs.OrderSteps.{OpenLaw, RemovedLaw};
ghost use Rattle.edit_laws.specs.Ordering.{ErasedOrderLaw, LaidOutLaw, PutOrderLaw, ReplacedOrderLaw};

/// An instruction is put into the order behind that which stands before its gap.
pub fn put_order_law()
    ensures { PutOrderLaw }
{}

/// An instruction that changes stands where it did.
pub fn replaced_order_law()
    ensures { ReplacedOrderLaw }
{}

/// An instruction goes from the order.
pub fn erased_order_law()
    ensures { ErasedOrderLaw }
{}

/// A table is laid out for a function where it has its lanes and its order, and tells of its code.
pub fn laid_out_law()
    ensures { LaidOutLaw }
{}

/// A table numbers the lanes of the edited function where it numbers those of the slot that comes.
pub fn numbers_edit_law()
    ensures { NumbersEditLaw }
{}

/// Instructions that edits erase are neither phis nor terminators when they go at last.
pub fn erased_plain_law()
    ensures { ErasedPlainLaw }
{}

/// An instruction can be put into any gap of a block: its id isn't in the order, and that before it is.
pub fn open_law()
    ensures { OpenLaw }
{}

/// Where an id goes from the order, all others keep their numbers.
pub fn removed_law()
    ensures { RemovedLaw }
{}
