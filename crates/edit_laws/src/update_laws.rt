//! Laws of live pieces that are brought up to date after edits: what lost its cause falls, and what has
//! a reason comes alive again.

ghost use Rattle.edit_laws.specs.Asked.{AsksLaw};
ghost use Rattle.edit_laws.specs.CarriedRows.{CarriedRowsLaw};
ghost use Rattle.edit_laws.specs.Needs.{NeedsLaw, NeedsServeLaw};
ghost use Rattle.edit_laws.specs.Rechecked.{CertainCauseLaw, HeldLaw, KeptHeldLaw, ListedLaw};
ghost use Rattle.edit_laws.specs.Recomputed.{RecomputedLaw, TableRecomputedLaw};
ghost use Rattle.edit_laws.specs.RowCause.{RowCauseLaw};
ghost use Rattle.edit_laws.specs.RowEnd.{RowEndLaw};
ghost use Rattle.edit_laws.specs.RowsUpdated.{RowsUpdateLaw};
ghost use Rattle.edit_laws.specs.Turned.{TurnedLaw};
ghost use Rattle.edit_laws.specs.Update.{GoneLaw, LastingLaw, OthersLaw, RunsFollow, UpdateLaw};
ghost use Rattle.edit_laws.specs.Updated.{TableUpdateLaw};

/// From a table that was grown before edits, over pieces that fall and that come alive again, one comes
/// to a table that is grown after them.
pub fn update_law()
    ensures { UpdateLaw }
{}

/// Lanes that no edit concerns, and that are copied into none that one does, keep their causes.
pub fn others_law()
    ensures { OthersLaw }
{}

/// A grown table stays so where instructions go that do nothing to lanes.
pub fn gone_law()
    ensures { GoneLaw }
{}

/// Pieces that no edit concerns, and that lead to none which died or came alive, end where they did.
pub fn lasting_law()
    ensures { LastingLaw }
{}

/// A computed table is one of an edited function where its causes are brought up to date so, and each
/// piece keeps its end or gets it anew.
pub fn table_update_law()
    ensures { TableUpdateLaw }
{}

/// Runs of such steps follow one another, and so do lists of pieces of which reasons are asked for.
pub fn runs_law()
    ensures { RunsFollow }
{}

/// Each piece has its end where those of the pieces concerned are computed anew and all others stay.
pub fn recomputed_law()
    ensures { RecomputedLaw }
{}

/// A computed table is one of an edited function where its causes are brought up to date so, and the
/// ends of the pieces concerned are computed anew.
pub fn table_recomputed_law()
    ensures { TableRecomputedLaw }
{}

/// What leads to a piece as a table tells it is what does.
pub fn needs_law()
    ensures { NeedsLaw }
{}

/// It may be asked for where the piece came alive; and where it fell, nothing is live for its sake once
/// none of these has its cause.
pub fn needs_serve_law()
    ensures { NeedsServeLaw }
{}

/// The reasons that count as a table tells them are those that do, so that what is asked for is found.
pub fn asks_law()
    ensures { AsksLaw }
{}

/// A cause that holds as before, as a table tells it, does.
pub fn held_law()
    ensures { HeldLaw }
{}

/// It does where each live piece keeps its cause of before, and others may have died.
pub fn kept_held_law()
    ensures { KeptHeldLaw }
{}

/// Where the pieces on both sides of each touched instruction are listed as a table tells them, they
/// are.
pub fn listed_law()
    ensures { ListedLaw }
{}

/// The certain cause of a piece is a reason that rests on no other piece, where there is one.
pub fn certain_cause_law()
    ensures { CertainCauseLaw }
{}

/// Rows in which a piece gets another cause tell the causes that such a step leaves.
pub fn row_cause_law()
    ensures { RowCauseLaw }
{}

/// Causes and ends that are copied by the instructions that begin pieces are carried over.
pub fn carried_rows_law()
    ensures { CarriedRowsLaw }
{}

/// Rows in which a piece gets another end tell it, and nothing else otherwise than before.
pub fn row_end_law()
    ensures { RowEndLaw }
{}

/// Of all pieces only those that fell or came alive may be live where they weren't, or the reverse.
pub fn turned_law()
    ensures { TurnedLaw }
{}

/// A computed table is one of an edited function where its rows are brought up to date so, from the
/// copying of causes and ends up to the ends that are computed anew.
pub fn rows_update_law()
    ensures { RowsUpdateLaw }
{}
