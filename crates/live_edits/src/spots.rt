//! Lists of pieces with few repetitions.

ghost use Rattle.std.specs.Prelude.{◌≡◌, ◌&&◌, nat_eq, true, [], ◌∷◌, ◌++◌, IfOk, OnOk};
ghost use Rattle.mir_meaning.specs.Paths.{Among};
ghost use Rattle.live_edits.specs.Leading.{AreAlike};
ghost use Rattle.live_edits.specs.Pieces.{node_of, nodes_of, HasAll};

use crate::pieces::PieceSpot;
use std::alloc::{AllocError, Global};

/// So many pieces are told apart where one is added.
const COUNT: usize = 64;

/// A list of pieces. A piece that is added again is mostly not listed again.
#[derive(Drop)]
pub struct SpotList {
    /// The pieces.
    pub spots: Vec<PieceSpot>,
    /// The places of pieces that were added, by the last digits of their numbers. (These are hints:
    /// whether a piece stands at such a place is looked at.)
    places: Vec<usize>,
}

/// The last digits of a number of a piece.
fn digits(spot: PieceSpot) -> usize {
    let cell = spot.lane.wrapping_mul(37).wrapping_add(spot.block) as usize;
    cell.wrapping_add(spot.index) % COUNT
}

/// Whether these are the spot of one piece.
fn is_same(one: PieceSpot, other: PieceSpot) -> bool
    ensures { result ≡ ((nat_eq one.lane other.lane && nat_eq one.block other.block) && nat_eq one.index other.index) }
{
    one.lane == other.lane && one.block == other.block && one.index == other.index
}

/// Whether a piece is the last one of a list.
fn is_last(spots: &[PieceSpot], spot: PieceSpot) -> bool
    ensures { result ≡ true → Among (node_of spot) (nodes_of spots.now) }
{
    let count = spots.len();
    if count == 0 {
        return false;
    }
    is_same(spots[count - 1], spot)
}

/// Adds a piece to a list, unless it is the one that was added last.
pub fn add_new(spots: &mut Vec<PieceSpot>, spot: PieceSpot) -> Result<(), AllocError>
    ensures { OnOk result (AreAlike (nodes_of spots.new.items) (nodes_of spots.old.items ++ node_of spot ∷ [])) }
{
    if is_last(spots.as_slice(), spot) {
        return Ok(());
    }
    spots.push(spot)?;
    Ok(())
}

impl SpotList {
    /// A list without pieces, with room for so many.
    pub fn with_room(alloc: Global, count: usize) -> Result<SpotList, AllocError>
        ensures { IfOk result (λ list. list.spots.items ≡ []) }
    {
        let mut places = Vec::new(alloc);
        places.resize(COUNT, 0)?;
        let spots = Vec::with_capacity(alloc, count)?;
        Ok(SpotList { spots, places })
    }

    /// Whether a piece is the one that was added last with its digits.
    fn is_listed(&self, spot: PieceSpot) -> bool
        ensures { result ≡ true → Among (node_of spot) (nodes_of self.now.spots.items) }
    {
        let place = match self.places.get(digits(spot)) {
            Some(place) => *place,
            None => 0,
        };
        if place >= self.spots.len() {
            return false;
        }
        is_same(self.spots[place], spot)
    }

    /// Adds a piece.
    pub fn add(&mut self, spot: PieceSpot) -> Result<(), AllocError>
        ensures has { OnOk result (HasAll self.new.spots.items (self.old.spots.items ++ spot ∷ [])) }
        ensures only { OnOk result (HasAll (self.old.spots.items ++ spot ∷ []) self.new.spots.items) }
    {
        if self.is_listed(spot) {
            return Ok(());
        }
        let place = self.spots.len();
        self.spots.push(spot)?;
        if let Some(last) = self.places.get_mut(digits(spot)) {
            *last = place;
        }
        Ok(())
    }

    /// Adds pieces.
    pub fn add_all(&mut self, spots: &[PieceSpot]) -> Result<(), AllocError>
        ensures has { OnOk result (HasAll self.new.spots.items (self.old.spots.items ++ spots.now)) }
        ensures only { OnOk result (HasAll (self.old.spots.items ++ spots.now) self.new.spots.items) }
    {
        'spots: for spot in spots {
            self.add(*spot)?;
        }
        Ok(())
    }
}
