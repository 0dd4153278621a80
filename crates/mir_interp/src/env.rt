//! The environment of a number.

ghost use Rattle.std.specs.Prelude.{◌≡◌, ◌+◌, ◌*◌, ◌%◌, Some, cond};

use crate::world::World;
use target_base::Unit;

/// The environment of a number SEED: unit u starts as SEED + u, the byte at a is SEED + a, lane j of
/// answer k is SEED + 16 * k + j; `%stack.n` lies at 4096 * (n + 1), `%fixed-stack.n` at
/// 2^20 + 4096 * n, and symbol m at 2^24 + 65536 * m.
#[derive(Clone, Copy, Debug, PartialEq, Eq)]
pub struct Env {
    /// The number.
    pub seed: u64,
}

impl World for Env {
    ghost entry = { λ s u. Some (s.seed + u.0) };

    ghost byte = { λ s a. (s.seed + a) % 256 };

    ghost frame = { λ s fixed n. cond fixed (1048576 + 4096 * n) (4096 * (n + 1)) };

    ghost symbol = { λ s m. 16777216 + 65536 * m };

    ghost answer = { λ s k j. s.seed + 16 * k + j };

    fn entry(&self, u: Unit) -> Option<u128> {
        Some(self.seed as u128 + u.0 as u128)
    }

    fn byte(&self, a: u128) -> u8 {
        ((self.seed as u128 % 256 + a % 256) % 256) as u8
    }

    fn frame(&self, fixed: bool, n: u32) -> u128 {
        if fixed {
            1048576 + 4096 * n as u128
        } else {
            4096 * (n as u128 + 1)
        }
    }

    fn symbol(&self, m: usize) -> u128 {
        16777216 + 65536 * m as u128
    }

    fn answer(&self, call: u64, lane: usize) -> u128 {
        self.seed as u128 + 16 * call as u128 + lane as u128
    }
}
