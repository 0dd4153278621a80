//! Laws of edits of a function in which what is erased still stands, and does nothing, until the last edit
//! is done.

ghost use Rattle.edit_laws.specs.Deferred.{AllDeferredLaw, DeferredLaw, EditedRowsLaw};
ghost use Rattle.edit_laws.specs.Deferred.{ErasedLastLaw, StandingLaw, StandingTableLaw};
ghost use Rattle.edit_laws.specs.DeferredRows.{DeferredMake, PutsSpare};
ghost use Rattle.edit_laws.specs.EditedTable.{EditedTableLaw, FlowLaw, StandingOrderLaw};

/// An edit changes what the edited instruction alone does, at lanes alone at which it is touched.
pub fn deferred_law()
    ensures { DeferredLaw }
{}

/// So do edits one after the other.
pub fn all_deferred_law()
    ensures { AllDeferredLaw }
{}

/// Instructions may be erased after all other edits.
pub fn erased_last_law()
    ensures { ErasedLastLaw }
{}

/// The code in which erased instructions stand is that of the edited function but for these.
pub fn standing_law()
    ensures { StandingLaw }
{}

/// A table of the code in which erased instructions stand is one of the edited function's code.
pub fn standing_table_law()
    ensures { StandingTableLaw }
{}

/// A computed table is one of the function after edits where its rows are brought up to date so.
pub fn edited_rows_law()
    ensures { EditedRowsLaw }
{}

/// The ways between blocks are those of the edited code too.
pub fn flow_law()
    ensures { FlowLaw }
{}

/// The code in which erased instructions stand has the order of the function with these.
pub fn standing_order_law()
    ensures { StandingOrderLaw }
{}

/// From the table of before over edits to that of the function after them, from beginning to end.
pub fn edited_table_law()
    ensures { EditedTableLaw }
{}

/// Worked rows: an instruction that is erased first and goes last.
pub fn rows()
    ensures make { DeferredMake }
    ensures spare { PutsSpare }
{}
