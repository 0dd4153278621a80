//! Laws of quiet joins, each the contract of a function, so that a check proves it.

ghost use Rattle.coalescer.specs.Asked.{TellsQuiet};
ghost use Rattle.coalescer.specs.QuietLaws.{AskedByInstrs, CopiesBySides, OnePartner, PartnersJoin, QuietByInstrs};

/// A join loses no value exactly where it loses none at any instruction.
pub(crate) fn quiet_points_law()
    ensures { QuietByInstrs }
{}

/// Two lanes become one exactly where they are partners.
pub(crate) fn quiet_lanes_law()
    ensures one { OnePartner }
    ensures join { PartnersJoin }
{}

/// Which writings are copies from a lane with the same image is told by the sides of copies.
pub(crate) fn quiet_copies_law()
    ensures { CopiesBySides }
{}

/// What is asked of the table is told instruction by instruction.
pub(crate) fn quiet_asked_law()
    ensures { AskedByInstrs }
{}

/// So the table tells exactly of each join that a copy asks for whether it loses a value.
pub fn quiet_law()
    ensures { TellsQuiet }
{}
