//! A list whose elements stand in boxes of their own, seen by contracts as its elements in order. To put
//! an element between others moves pointers, however large the elements are.

ghost use Rattle.std.specs.Prelude.{◌≡◌, ◌<◌, ◌++◌, ◌∷◌, [], length, OnOk, OnErr, IfOk, slice_index_or, slice_set, insert, remove, ◌≤◌};
ghost use Rattle.std.specs.Borrow.{sem};

use crate::list::Copied;
use std::alloc::{AllocError, Global};
use std::marker::Model;

/// A `Box` that contracts see as its value.
#[derive(Drop)]
pub struct Boxed<T> {
    inner: Box<T>,
}

impl<T> Model for Boxed<T> {
    ghost Value = { T };

    ghost coded = { T.code };

    ghost view = { λ b. b.inner.value };
}

impl<T> Boxed<T> {
    /// The value.
    pub fn get(&self) -> &T
        ensures { result.now ≡ self.now }
    {
        &self.inner
    }

    /// The value by itself; the box's memory is given back.
    pub fn into_inner(self) -> T
        ensures { result ≡ self }
    {
        let Boxed { inner } = self;
        Box::into_inner(inner)
    }
}

impl<T: Drop> Boxed<T> {
    ghost use Rattle.target_base.specs.BoxLending.{LendsValue};

    /// A box of the value.
    pub fn new(alloc: Global, value: T) -> Result<Boxed<T>, AllocError>
        ensures { IfOk result (λ b. b ≡ value) }
    {
        Ok(Boxed {
            inner: Box::new(alloc, value)?,
        })
    }

    /// The value, for writing.
    pub fn get_mut(&mut self) -> &mut T
        ensures* writes_back { sem 𝓛 (LendsValue T.row self.entry result) }
        ensures value { result.now ≡ self.old }
    {
        &mut self.inner
    }
}

/// Elements in order, each in a box. It keeps the allocator that it was made with.
#[derive(Drop)]
pub struct BoxedList<T> {
    items: Vec<Boxed<T>>,
}

impl<T> Model for BoxedList<T> {
    ghost use Rattle.std.specs.Prelude.{List};

    ghost Value = { List T };

    ghost view = { λ l. l.items.items };
}

impl<T: Drop> BoxedList<T> {
    ghost use Rattle.target_base.specs.BoxLending.{LendsItem};

    /// The element at `i`, for writing.
    pub fn get_mut(&mut self, i: usize) -> &mut T
        requires { i < length self.old }
        ensures* writes_back { sem 𝓛 (LendsItem T.row self.entry i result) }
        ensures value { result.now ≡ slice_index_or self.old i result.now }
    {
        let item = &mut self.items[i];
        item.get_mut()
    }

    /// Puts an element before the one at `i`, or at the end where `i` is the length. After a
    /// refusal the list is unchanged.
    pub fn insert(&mut self, i: usize, x: T) -> Result<(), AllocError>
        requires { i ≤ length self.old }
        ensures ok { OnOk result (self.new ≡ insert self.old i x) }
        ensures err { OnErr result (self.new ≡ self.old) }
    {
        let item = Boxed::new(self.allocator(), x)?;
        self.items.insert(i, item)?;
        Ok(())
    }

    /// Takes out the element at `i`; the later ones move up.
    pub fn remove(&mut self, i: usize) -> T
        requires { i < length self.old }
        ensures value { result ≡ slice_index_or self.old i result }
        ensures rest { self.new ≡ remove self.old i }
    {
        self.items.remove(i).into_inner()
    }

    /// The empty list, which takes no memory.
    pub fn new(alloc: Global) -> Self
        ensures { result ≡ [] }
    {
        BoxedList {
            items: Vec::new(alloc),
        }
    }

    /// The list of a vector's elements. It takes no memory.
    pub fn from_vec(items: Vec<Boxed<T>>) -> Self
        ensures { result ≡ items.items }
    {
        BoxedList { items }
    }

    /// The list of a vector's elements, each put into a box.
    pub fn from_items(alloc: Global, items: Vec<T>) -> Result<Self, AllocError>
        ensures { IfOk result (λ made. made ≡ items.items) }
    {
        let mut made = BoxedList::new(alloc);
        for x in items {
            made.push(x)?;
        }
        Ok(made)
    }

    /// The number of elements.
    pub fn len(&self) -> usize
        ensures { result ≡ length self.now }
    {
        self.items.len()
    }

    /// The element at `i`, counted from 0.
    pub fn get(&self, i: usize) -> &T
        requires { i < length self.now }
        ensures { result.now ≡ slice_index_or self.now i result.now }
    {
        self.items[i].get()
    }

    /// The allocator that the list was made with.
    pub fn allocator(&self) -> Global {
        *self.items.allocator()
    }

    /// The boxes of the elements as a slice.
    pub fn as_slice(&self) -> &[Boxed<T>]
        ensures { result.now ≡ self.now }
    {
        self.items.as_slice()
    }

    /// Puts an element at the end. After a refusal the list is unchanged.
    pub fn push(&mut self, x: T) -> Result<(), AllocError>
        ensures ok { OnOk result (self.new ≡ self.old ++ x ∷ []) }
        ensures err { OnErr result (self.new ≡ self.old) }
    {
        let item = Boxed::new(self.allocator(), x)?;
        self.items.push(item)?;
        Ok(())
    }
}

impl<T: Copied> Copied for BoxedList<T> {
    fn copied(&self, alloc: Global) -> Result<Self, AllocError> {
        let mut made = BoxedList {
            items: Vec::with_capacity(alloc, self.items.len())?,
        };
        for x in self.items.as_slice() {
            made.push(x.get().copied(alloc)?)?;
        }
        Ok(made)
    }
}
