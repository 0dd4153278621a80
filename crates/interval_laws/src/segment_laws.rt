//! The law of segments.

ghost use Rattle.interval_laws.specs.Laws.{SegmentsLaw};

/// A computed table tells of each lane of a range at which points it is live, and its segments.
pub fn segments_law()
    ensures { SegmentsLaw }
{}
