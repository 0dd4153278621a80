//! The virtual registers of a function, numbered in the order in which they are first named.

ghost use Rattle.std.specs.Prelude.{◌≡◌, ◌<◌, ◌≤◌, ◌+◌, length, IfOk, OnOk, map, slice_set, position, None};
ghost use Rattle.target_base.specs.Storage.{same_numbers};
ghost use Rattle.mir_read.specs.Ranges.{one_of, joined, given_at, given_to, appended, regiven, mentioned, range_number, class_in, classes_of, no_ranges};

use crate::names::NameSet;
use mir_func::Classes;
use std::alloc::{AllocError, Global};
use target_base::{ClassId, List};

/// The classes that annotations give a virtual register.
#[derive(Clone, Copy, Debug, PartialEq, Eq)]
pub enum AnnotatedClass {
    /// None yet.
    Nothing,
    /// Just one.
    One(ClassId),
    /// Several.
    Several,
}

/// Virtual registers in the order in which they are first named, with what they are given.
#[derive(Drop)]
pub struct Ranges {
    pub names: NameSet,
    pub given: List<AnnotatedClass>,
}

/// What two annotations together give.
fn join_annotations(a: AnnotatedClass, b: AnnotatedClass) -> AnnotatedClass
    ensures { result ≡ joined a b }
{
    match a {
        AnnotatedClass::Nothing => b,
        AnnotatedClass::Several => AnnotatedClass::Several,
        AnnotatedClass::One(c) => match b {
            AnnotatedClass::Nothing => a,
            AnnotatedClass::Several => AnnotatedClass::Several,
            AnnotatedClass::One(d) => {
                if c.0 == d.0 {
                    a
                } else {
                    AnnotatedClass::Several
                }
            }
        },
    }
}

fn given_at(given: &[AnnotatedClass], k: usize) -> AnnotatedClass
    ensures { result ≡ given_at given.now k }
{
    match given.get(k) {
        None => AnnotatedClass::Nothing,
        Some(g) => *g,
    }
}

fn class_in(given: AnnotatedClass) -> Option<ClassId>
    ensures { result ≡ class_in given }
{
    match given {
        AnnotatedClass::One(c) => Some(c),
        _ => None,
    }
}

fn set_given(given: &mut List<AnnotatedClass>, k: usize, g: AnnotatedClass)
    ensures { given.new ≡ slice_set given.old k g }
{
    if k < given.len() {
        *given.get_mut(k) = g;
    }
}

impl Ranges {
    /// No registers.
    pub fn new(alloc: Global) -> Ranges
        ensures { result ≡ no_ranges }
    {
        Ranges {
            names: NameSet::new(alloc),
            given: List::new(alloc),
        }
    }

    /// What a register is given.
    pub fn given_to(&self, name: &[u8]) -> AnnotatedClass
        ensures { result ≡ given_to self.now name.now }
    {
        match self.names.place(name) {
            None => AnnotatedClass::Nothing,
            Some(k) => given_at(self.given.as_slice(), k as usize),
        }
    }

    /// Adds a register, which isn't named yet.
    fn append(
        &mut self,
        alloc: Global,
        name: &[u8],
        given: AnnotatedClass,
    ) -> Result<(), AllocError>
        requires few { length self.old.names < 4294967295 }
        requires new { position (same_numbers name.now) self.old.names ≡ None }
        ensures value { OnOk result (self.new ≡ appended self.old name.now given) }
        ensures more { OnOk result (length self.new.names ≤ length self.old.names + 1) }
        ensures given { OnOk result (length self.new.given ≤ length self.old.given + 1) }
    {
        self.names.add(alloc, name)?;
        self.given.push(given)?;
        Ok(())
    }

    /// Gives the register of this place something more.
    fn give(&mut self, k: usize, given: AnnotatedClass)
        ensures value { self.new ≡ regiven self.old k given }
        ensures given { length self.new.given ≡ length self.old.given }
    {
        let old = given_at(self.given.as_slice(), k);
        set_given(&mut self.given, k, join_annotations(old, given));
    }

    /// Names a register and gives it something; where that is the first time, it has been given
    /// something before.
    #[tactic(auto, unfolding(crate::specs::Ranges::mentioned))]
    pub fn mention(
        &mut self,
        alloc: Global,
        name: &[u8],
        first: AnnotatedClass,
        given: AnnotatedClass,
    ) -> Result<(), AllocError>
        requires { length self.old.names < 4294967295 }
        ensures value { OnOk result (self.new ≡ mentioned self.old name.now first given) }
        ensures more { OnOk result (length self.new.names ≤ length self.old.names + 1) }
        ensures given { OnOk result (length self.new.given ≤ length self.old.given + 1) }
    {
        match self.names.place(name) {
            None => self.append(alloc, name, join_annotations(first, given)),
            Some(k) => {
                self.give(k as usize, given);
                Ok(())
            }
        }
    }

    /// Names a register and gives it something, and answers its number; where that is the first
    /// time, it has been given what it is in these others.
    #[tactic(auto, unfolding(crate::specs::Ranges::mentioned, crate::specs::Ranges::range_number))]
    pub fn number(
        &mut self,
        alloc: Global,
        name: &[u8],
        keyed: &Ranges,
        given: AnnotatedClass,
    ) -> Result<u32, AllocError>
        requires { length self.old.names < 4294967295 }
        ensures value { OnOk result (self.new ≡ mentioned self.old name.now (given_to keyed.now name.now) given) }
        ensures number { IfOk result (λ n. n ≡ range_number self.old name.now) }
        ensures more { OnOk result (length self.new.names ≤ length self.old.names + 1) }
        ensures given { OnOk result (length self.new.given ≤ length self.old.given + 1) }
    {
        match self.names.place(name) {
            None => {
                let number = self.names.len();
                self.append(alloc, name, join_annotations(keyed.given_to(name), given))?;
                Ok(number)
            }
            Some(k) => {
                self.give(k as usize, given);
                Ok(k)
            }
        }
    }

    /// The class of each register, in the order of their numbers; none where several are given.
    pub fn classes(&self, alloc: Global) -> Result<Classes, AllocError>
        ensures { IfOk result (λ cs. cs ≡ classes_of self.now) }
    {
        let mut made = List::new(alloc);
        for g in self.given.as_slice() {
            made.push(class_in(*g))?;
        }
        Ok(made)
    }
}
