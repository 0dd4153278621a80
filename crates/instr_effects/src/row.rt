//! Lanes with numbers in a row.

ghost use Rattle.std.specs.Prelude.{◌≡◌, ◌<◌, ◌+◌};
ghost use Rattle.instr_effects.specs.Row.{lane_in};

/// The lanes of a virtual register or of a slot, which have numbers in a row.
#[derive(Clone, Copy)]
pub struct LaneSpan {
    /// The number of lane 0.
    pub first: u32,
    /// How many lanes there are.
    pub count: u32,
    ghost fits: { first + count < 4294967296 },
}

impl LaneSpan {
    /// The number of lane `k`, where there is one.
    pub fn lane(self, k: u32) -> Option<u32>
        ensures { result ≡ lane_in self.first self.count k }
    {
        if k < self.count {
            Some(self.first + k)
        } else {
            None
        }
    }

    /// The number of the lane at a place, where there is one.
    pub fn lane_at(self, place: usize) -> Option<u32>
        ensures { result ≡ lane_in self.first self.count place }
    {
        if place < self.count as usize {
            Some(self.first + place as u32)
        } else {
            None
        }
    }
}

/// No lanes.
pub(crate) fn no_lanes() -> LaneSpan
    ensures { result.count ≡ 0 }
{
    LaneSpan { first: 0, count: 0 }
}
