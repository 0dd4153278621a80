//! The ranges that wait for a register.

use std::alloc::{AllocError, Global};
use std::collections::BTreeSet;

/// Ranges with their priorities. The highest priority comes first, and the lower number at a tie.
#[derive(Drop)]
pub(crate) struct Queue {
    /// What is left of 2^128 - 1 without the priority, and the range.
    waiting: BTreeSet<(u128, u32)>,
    /// The first of these of each range that waits, by range.
    keys: Vec<Option<u128>>,
}

impl Queue {
    /// No range waits.
    pub fn new(alloc: Global) -> Queue {
        Queue {
            waiting: BTreeSet::new(alloc),
            keys: Vec::new(alloc),
        }
    }

    fn key(&self, v: u32) -> Option<u128> {
        self.keys.get(v as usize).copied().unwrap_or(None)
    }

    fn set_key(&mut self, v: u32, key: Option<u128>) {
        if let Some(place) = self.keys.get_mut(v as usize) {
            *place = key;
        }
    }

    /// Makes room for the key of a range.
    fn make_room(&mut self, v: u32) -> Result<(), AllocError> {
        let count = (v as usize).saturating_add(1);
        if self.keys.len() < count {
            self.keys.resize(count, None)?;
        }
        Ok(())
    }

    /// Lets a range wait.
    pub fn add(&mut self, v: u32, priority: u128) -> Result<(), AllocError> {
        self.make_room(v)?;
        self.remove(v);
        let key = u128::MAX - priority;
        self.waiting.insert((key, v))?;
        self.set_key(v, Some(key));
        Ok(())
    }

    /// Lets a range wait no longer.
    pub fn remove(&mut self, v: u32) {
        if let Some(key) = self.key(v) {
            let _ = self.waiting.remove(&(key, v));
            self.set_key(v, None);
        }
    }

    /// Takes out the range that comes first.
    pub fn pop(&mut self) -> Option<u32> {
        let (_, v) = self.waiting.pop_first()?;
        self.set_key(v, None);
        Some(v)
    }
}
