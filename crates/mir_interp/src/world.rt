//! What a run finds.

ghost use Rattle.std.specs.Prelude.{◌≡◌, ℕ, Bool, Option};
ghost use Rattle.target_base.specs.declared.types.Unit.{Unit};

use target_base::Unit;

/// What a run finds outside the function. Each answer depends on the value and the arguments alone.
pub trait World {
    ghost entry: { Self → Unit → Option ℕ };

    ghost byte: { Self → ℕ → ℕ };

    ghost frame: { Self → Bool → ℕ → ℕ };

    ghost symbol: { Self → ℕ → ℕ };

    ghost answer: { Self → ℕ → ℕ → ℕ };

    /// What a unit holds at the start, taken modulo 2^width of the unit; None is the undefined
    /// value. Asked for the units of the entry block's `liveins` and for reserved ones.
    fn entry(&self, u: Unit) -> Option<u128>
        ensures { result ≡ entry self.now u };

    /// The byte at an address that nothing was stored to.
    fn byte(&self, a: u128) -> u8
        ensures { result ≡ byte self.now a };

    /// The address of `%stack.n`, or of `%fixed-stack.n` where `fixed`, taken modulo 2^64.
    fn frame(&self, fixed: bool, n: u32) -> u128
        ensures { result ≡ frame self.now fixed n };

    /// The address of the m-th symbol by first appearance in the function, from 0, taken modulo 2^64.
    fn symbol(&self, m: usize) -> u128
        ensures { result ≡ symbol self.now m };

    /// A lane of the answer to a call or to an opaque instruction that isn't a return, which are counted
    /// together, from 0 as the lanes are; it is taken modulo 2^width of the lane.
    fn answer(&self, call: u64, lane: usize) -> u128
        ensures { result ≡ answer self.now call lane };
}
