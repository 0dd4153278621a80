//! Laws of clashes: what a table and the stretches that ranges hold tell of them is what the
//! meaning of the function says.

ghost use Rattle.alloc_laws.specs.Clashes.Facts.{BasicLaw, ClashesLaw, EvictionLaw, FactsLaw};
ghost use Rattle.alloc_laws.specs.Clashes.Kept.{KeptLaw};

/// A matrix whose table is computed and whose lists are what ranges hold tells exactly with which
/// units and with which assigned ranges a range in an unreserved register would clash.
pub fn clashes_law()
    ensures { ClashesLaw }
{}

/// It tells of all registers right: what it tells is what an eviction asks.
pub fn facts_law()
    ensures { FactsLaw }
{}

/// The eviction that is chosen by such a matrix is the cheapest one.
pub fn eviction_law()
    ensures { EvictionLaw }
{}

/// What the basic allocator chooses by it is its choice.
pub fn basic_law()
    ensures { BasicLaw }
{}

/// A matrix that keeps its lists is exact where its table is computed, and has what an assignment
/// asks of the extents of its lanes.
pub fn kept_law()
    ensures { KeptLaw }
{}
