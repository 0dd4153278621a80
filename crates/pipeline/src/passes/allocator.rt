//! The allocators that the program has.

ghost use Rattle.std.specs.Prelude.{◌≡◌};
ghost use Rattle.pipeline.specs.Passes.Allocators.{policy_of, colours};

use greedy_core::Policy;

/// By which allocator the virtual registers of a function get physical ones.
#[derive(Clone, Copy, Debug, PartialEq, Eq)]
pub enum Allocator {
    /// The greedy one.
    Greedy,
    /// The greedy one, and then the spill slots share storage where no two of them hold values at one
    /// point.
    Colour,
    /// The greedy one with region splits of least cost.
    Cut,
    /// The basic one, which splits nothing.
    Basic,
}

impl Allocator {
    /// The policy of its run.
    pub fn policy(self) -> Policy
        ensures { result ≡ policy_of self }
    {
        match self {
            Allocator::Greedy => Policy::Greedy,
            Allocator::Colour => Policy::Greedy,
            Allocator::Cut => Policy::Cut,
            Allocator::Basic => Policy::Basic,
        }
    }

    /// Whether spill slots are coloured once the function is in physical form.
    pub fn colours(self) -> bool
        ensures { result ≡ colours self }
    {
        matches!(self, Allocator::Colour)
    }
}
