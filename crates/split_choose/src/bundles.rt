//! Edge bundles: the exit of a block and the entries of those that follow belong together.

ghost use Rattle.std.specs.Prelude.{◌≡◌, ◌<◌, ◌≤◌, ◌+◌, ◌*◌, ℕ, min, max, length, slice_set, IfOk};
ghost use Rattle.mir_meaning.specs.Registers.{numbers};
ghost use Rattle.live_lanes.specs.Ways.{successors};
ghost use Rattle.split_choose.specs.Bundles.{start_of, end_of, parent_of, root_of, AreEarlier, IsForest, SameRoots, IsClosed, Joins, AreBundles};

use live_lanes::LiveFunc;
use std::alloc::{AllocError, Global};

/// For each border, another one of its bundle or itself, up to the one that stands for all. The
/// borders of the block at position k have the numbers 2 * k, its start, and 2 * k + 1, its end.
#[derive(Drop)]
pub struct Bundles {
    parents: Vec<u32>,
}

/// The number of the border at the start of a block.
pub(crate) fn start_of(position: u32) -> u32
    ensures { position < 2147483648 → result ≡ start_of position }
{
    position.saturating_mul(2)
}

/// The number of the border at the end of a block.
pub(crate) fn end_of(position: u32) -> u32
    ensures { position < 2147483648 → result ≡ end_of position }
{
    position.saturating_mul(2).saturating_add(1)
}

/// The number of blocks.
fn block_count(live: &LiveFunc) -> u32
    ensures { length live.now.func.blocks < 4294967296 → result ≡ length live.now.func.blocks }
{
    u32::try_from(live.func().blocks.len()).unwrap_or(u32::MAX)
}

impl Bundles {
    /// The bundles of a function. Edits of its instructions don't change them.
    #[tactic(auto, using(crate::proofs::Joining::made))]
    pub fn of(alloc: Global, live: &LiveFunc) -> Result<Bundles, AllocError>
        ensures earlier { IfOk result (λ b. AreEarlier b.parents.items) }
        ensures exact { IfOk result (λ b. IsClosed (successors live.now.table.flow.items) (length live.now.func.blocks) → AreBundles (successors live.now.table.flow.items) b.parents.items) }
    {
        let count = block_count(live);
        let mut bundles = Bundles::alone(alloc, start_of(count))?;
        'blocks: for position in 0..count {
            bundles.join_all(live, position);
        }
        bundles.shorten(start_of(count));
        Ok(bundles)
    }

    /// Lets each border name the one that stands for all at once.
    #[tactic(auto, using(crate::proofs::Joining::shortens))]
    fn shorten(&mut self, count: u32)
        ensures earlier { AreEarlier self.old.parents.items → AreEarlier self.new.parents.items }
        ensures same { AreEarlier self.old.parents.items → SameRoots self.old.parents.items self.new.parents.items }
    {
        'borders: for border in 0..count {
            let at = self.find(border);
            self.set(border, at);
        }
    }

    /// Joins the end of the block at a position with the starts of those that follow it.
    #[tactic(auto, using(crate::proofs::Joining::joins))]
    fn join_all(&mut self, live: &LiveFunc, position: u32)
        ensures earlier { AreEarlier self.old.parents.items → AreEarlier self.new.parents.items }
        ensures joins { let next = successors live.now.table.flow.items in let count = length live.now.func.blocks in
            IsClosed next count → IsForest next count self.old.parents.items
            → Joins next count self.old.parents.items self.new.parents.items position (next position) }
    {
        'successors: for next in live.successors(position) {
            self.join(start_of(*next), end_of(position));
        }
    }

    /// Each border is a bundle of its own.
    #[tactic(auto, using(crate::proofs::Walked::numbers_push))]
    fn alone(alloc: Global, count: u32) -> Result<Bundles, AllocError>
        ensures { IfOk result (λ b. b.parents.items ≡ numbers 0 count) }
    {
        let mut parents = Vec::new(alloc);
        'borders: for border in 0..count {
            parents.push(border)?;
        }
        Ok(Bundles { parents })
    }

    fn parent(&self, border: u32) -> u32
        ensures { result ≡ parent_of self.now.parents.items border }
    {
        self.parents.get(border as usize).copied().unwrap_or(border)
    }

    /// The border that stands for the bundle of another.
    #[tactic(auto, using(crate::proofs::Walked::steps))]
    pub(crate) fn find(&self, border: u32) -> u32
        ensures { result ≡ root_of self.now.parents.items border }
    {
        let mut at = border;
        'parents: for _ in 0..self.parents.len() {
            let next = self.parent(at);
            if next == at {
                break;
            }
            at = next;
        }
        at
    }

    fn set(&mut self, border: u32, parent: u32)
        ensures { self.new.parents.items ≡ slice_set self.old.parents.items border parent }
    {
        if let Some(place) = self.parents.get_mut(border as usize) {
            *place = parent;
        }
    }

    fn join(&mut self, a: u32, b: u32)
        ensures { self.new.parents.items ≡ slice_set self.old.parents.items (max (root_of self.old.parents.items a) (root_of self.old.parents.items b)) (min (root_of self.old.parents.items a) (root_of self.old.parents.items b)) }
    {
        let (a, b) = (self.find(a), self.find(b));
        self.set(a.max(b), a.min(b));
    }
}
