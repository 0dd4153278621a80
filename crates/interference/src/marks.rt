//! A set of range numbers, which gives them in order.

ghost use Rattle.std.specs.Prelude.{◌≡◌, ◌<◌, ◌≤◌, ◌+◌, ◌-◌, ◌*◌, ◌++◌, ℕ, true, false, ◌||◌, nat_eq, length, filter, IfOk, OnOk};
ghost use Rattle.std.specs.Int.{bit_at};
ghost use Rattle.mir_meaning.specs.Registers.{numbers};
ghost use Rattle.interference.specs.Marked.{word_bits, is_marked};

use std::alloc::{AllocError, Global};

/// A set of range numbers below a bound, a bit for each.
#[derive(Drop)]
pub(crate) struct Marks {
    words: Vec<u64>,
    ghost small: { (w : ℕ) → is_marked words.items w ≡ true → w < 4294967296 },
}

impl Marks {
    /// No numbers, below a bound.
    pub fn new(alloc: Global, count: usize) -> Result<Marks, AllocError>
        ensures room { IfOk result (λ m. count ≤ length m.words.items * 64) }
        ensures none { IfOk result (λ m. (w : ℕ) → is_marked m.words.items w ≡ false) }
    {
        let len = (count / 64).saturating_add(1);
        Ok(Marks {
            words: Vec::from_elem(alloc, 0u64, len)?,
        })
    }

    /// Adds a number.
    pub fn mark(&mut self, n: u32)
        ensures room { length self.new.words.items ≡ length self.old.words.items }
        ensures marked { (w : ℕ) → w < length self.old.words.items * 64 → is_marked self.new.words.items w ≡ (nat_eq n w || is_marked self.old.words.items w) }
    {
        let at = (n / 64) as usize;
        if at < self.words.len() {
            self.words[at] |= 1u64 << (n % 64);
        }
    }

    /// The numbers in rising order.
    pub fn numbers(&self, alloc: Global) -> Result<Vec<u32>, AllocError>
        ensures { (n : ℕ) → ((w : ℕ) → is_marked self.now.words.items w ≡ true → w < n)
            → IfOk result (λ ns. ns.items ≡ filter (is_marked self.now.words.items) (numbers 0 n)) }
    {
        let mut numbers = Vec::new(alloc);
        let mut first = 0u32;
        'words: for word in self.words.as_slice() {
            if *word != 0 {
                add_bits(first, *word, &mut numbers)?;
            }
            first = first.saturating_add(64);
        }
        Ok(numbers)
    }
}

/// Adds the numbers of the bits of a word whose first bit has this number.
fn add_bits(first: u32, word: u64, made: &mut Vec<u32>) -> Result<(), AllocError>
    requires { first + 64 ≤ 4294967296 }
    ensures { OnOk result (made.new.items ≡ made.old.items ++ filter (λ n. nat_eq (bit_at word (n - first)) 1) (numbers first word_bits)) }
{
    'bits: for k in 0..64u32 {
        if word >> k & 1 == 1 {
            made.push(first + k)?;
        }
    }
    Ok(())
}
