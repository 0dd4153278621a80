//! A list whose first four elements need no allocation, seen by contracts as its elements in order.

ghost use Rattle.std.specs.Prelude.{◌≡◌, ◌<◌, ◌++◌, ◌∷◌, [], length, OnOk, OnErr, IfOk, slice_index_or, slice_set};
ghost use Rattle.smallvec.specs.SmallVec.{small_vec_len};

use smallvec::SmallVec;
use std::alloc::{AllocError, Global};
use std::default::MadeWith;
use std::marker::Model;
use target_base::Copied;

/// Elements in order, the first four in place.
#[derive(Drop)]
pub struct ShortList<T> {
    items: SmallVec<T, 4>,
}

impl<T> Model for ShortList<T> {
    ghost use Rattle.std.specs.Prelude.{List};

    ghost Value = { List T };

    ghost view = { λ l. l.items.items };
}

impl<T: MadeWith<Global> + Drop> ShortList<T> {
    /// The empty list, which takes no memory.
    pub fn new(alloc: Global) -> Self
        ensures { result ≡ [] }
    {
        ShortList {
            items: SmallVec::new(alloc),
        }
    }

    /// The number of elements.
    pub fn len(&self) -> usize
        ensures { result ≡ length self.now }
    {
        self.items.len()
    }

    /// The element at `i`, counted from 0.
    pub fn get(&self, i: usize) -> &T
        requires { i < length self.now }
        ensures { result.now ≡ slice_index_or self.now i result.now }
    {
        &self.items.as_slice()[i]
    }

    /// The elements as a slice.
    pub fn as_slice(&self) -> &[T]
        ensures { result.now ≡ self.now }
    {
        self.items.as_slice()
    }

    /// Puts an element at the end. After a refusal the list is unchanged.
    pub fn push(&mut self, x: T) -> Result<(), AllocError>
        ensures ok { OnOk result (self.new ≡ self.old ++ x ∷ []) }
        ensures err { OnErr result (self.new ≡ self.old) }
    {
        self.items.push(x)?;
        Ok(())
    }

    /// Replaces the element at `i`, where there is one.
    pub fn set(&mut self, i: usize, x: T)
        ensures { self.new ≡ slice_set self.old i x }
    {
        if i < self.items.len() {
            let place = &mut self.items.as_mut_slice()[i];
            *place = x;
        }
    }
}

impl<T: Copied + MadeWith<Global>> Copied for ShortList<T> {
    fn copied(&self, alloc: Global) -> Result<Self, AllocError> {
        let mut made = ShortList::new(alloc);
        for x in self.items.as_slice() {
            made.push(x.copied(alloc)?)?;
        }
        Ok(made)
    }
}
