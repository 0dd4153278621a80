//! A list that grows, seen by contracts as its elements in order.

ghost use Rattle.std.specs.Prelude.{◌≡◌, ◌<◌, ◌++◌, ◌∷◌, [], length, OnOk, OnErr, IfOk, slice_index_or, slice_set, insert, remove, ◌≤◌};
ghost use Rattle.std.specs.Borrow.{sem};

use std::alloc::{AllocError, Global};
use std::marker::Model;

/// Elements in order. It keeps the allocator that it was made with.
#[derive(Drop)]
pub struct List<T> {
    items: Vec<T>,
}

impl<T> Model for List<T> {
    ghost use Rattle.std.specs.Prelude.{List};

    ghost Value = { List T };

    ghost view = { λ l. l.items.items };
}

impl<T: Drop> List<T> {
    ghost use Rattle.target_base.specs.Lending.{LendsElement};

    /// The element at `i`, for writing.
    pub fn get_mut(&mut self, i: usize) -> &mut T
        requires { i < length self.old }
        ensures* writes_back { sem 𝓛 (LendsElement T.row self.entry i result) }
        ensures value { result.now ≡ slice_index_or self.old i result.now }
    {
        &mut self.items[i]
    }

    /// Puts an element before the one at `i`, or at the end where `i` is the length. After a
    /// refusal the list is unchanged.
    pub fn insert(&mut self, i: usize, x: T) -> Result<(), AllocError>
        requires { i ≤ length self.old }
        ensures ok { OnOk result (self.new ≡ insert self.old i x) }
        ensures err { OnErr result (self.new ≡ self.old) }
    {
        self.items.insert(i, x)?;
        Ok(())
    }

    /// Takes out the element at `i`; the later ones move up.
    pub fn remove(&mut self, i: usize) -> T
        requires { i < length self.old }
        ensures value { result ≡ slice_index_or self.old i result }
        ensures rest { self.new ≡ remove self.old i }
    {
        self.items.remove(i)
    }

    /// The empty list, which takes no memory.
    pub fn new(alloc: Global) -> Self
        ensures { result ≡ [] }
    {
        List {
            items: Vec::new(alloc),
        }
    }

    /// The list of a vector's elements. It takes no memory.
    pub fn from_vec(items: Vec<T>) -> Self
        ensures { result ≡ items.items }
    {
        List { items }
    }

    /// The elements as a vector. It takes no memory.
    pub fn into_vec(self) -> Vec<T>
        ensures { result.items ≡ self }
    {
        self.items
    }

    /// The number of elements.
    pub fn len(&self) -> usize
        ensures { result ≡ length self.now }
    {
        self.items.len()
    }

    /// The element at `i`, counted from 0.
    pub fn get(&self, i: usize) -> &T
        requires { i < length self.now }
        ensures { result.now ≡ slice_index_or self.now i result.now }
    {
        &self.items[i]
    }

    /// The allocator that the list was made with.
    pub fn allocator(&self) -> Global {
        *self.items.allocator()
    }

    /// The elements as a slice.
    pub fn as_slice(&self) -> &[T]
        ensures { result.now ≡ self.now }
    {
        self.items.as_slice()
    }

    /// Puts an element at the end. After a refusal the list is unchanged.
    pub fn push(&mut self, x: T) -> Result<(), AllocError>
        ensures ok { OnOk result (self.new ≡ self.old ++ x ∷ []) }
        ensures err { OnErr result (self.new ≡ self.old) }
    {
        self.items.push(x)?;
        Ok(())
    }
}

impl<T: Copy + Drop> List<T> {
    /// Puts copies of the elements at the end. After a refusal the list is unchanged.
    pub fn extend(&mut self, items: &[T]) -> Result<(), AllocError>
        ensures ok { OnOk result (self.new ≡ self.old ++ items.now) }
        ensures err { OnErr result (self.new ≡ self.old) }
    {
        self.items.extend_from_slice(items)
    }

    /// A list of copies of the elements.
    pub fn from_slice(alloc: Global, items: &[T]) -> Result<Self, AllocError>
        ensures { IfOk result (λ made. made ≡ items.now) }
    {
        Ok(List {
            items: Vec::from_slice(alloc, items)?,
        })
    }
}

/// A value of which an equal one can be made.
pub trait Copied: Drop {
    /// An equal value.
    fn copied(&self, alloc: Global) -> Result<Self, AllocError>
        ensures { IfOk result (λ r. r ≡ self.now) };
}

impl<T: Copied> Copied for List<T> {
    fn copied(&self, alloc: Global) -> Result<Self, AllocError> {
        let mut made = List {
            items: Vec::with_capacity(alloc, self.items.len())?,
        };
        for x in self.items.as_slice() {
            made.push(x.copied(alloc)?)?;
        }
        Ok(made)
    }
}

impl Copied for u8 {
    fn copied(&self, _alloc: Global) -> Result<u8, AllocError> {
        Ok(*self)
    }
}

impl Copied for u64 {
    fn copied(&self, _alloc: Global) -> Result<u64, AllocError> {
        Ok(*self)
    }
}

impl<T: Copied> Copied for Option<T> {
    fn copied(&self, alloc: Global) -> Result<Option<T>, AllocError> {
        match self {
            None => Ok(None),
            Some(x) => Ok(Some(x.copied(alloc)?)),
        }
    }
}

impl Copied for bool {
    fn copied(&self, _alloc: Global) -> Result<bool, AllocError> {
        Ok(*self)
    }
}

impl Copied for u32 {
    fn copied(&self, _alloc: Global) -> Result<u32, AllocError> {
        Ok(*self)
    }
}

impl<S: Copied, T: Copied> Copied for (S, T) {
    fn copied(&self, alloc: Global) -> Result<(S, T), AllocError> {
        Ok((self.0.copied(alloc)?, self.1.copied(alloc)?))
    }
}
