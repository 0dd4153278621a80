//! The key lines of a function document.

ghost use Rattle.std.specs.Prelude.{◌≡◌, ◌<◌, ◌≤◌, ◌+◌, ◌==◌, ◌++◌, codes, length, IfSome, OnOk, option_map, position, is_some, drop};
ghost use Rattle.mir_lines.specs.Bytes.{behind_word};
ghost use Rattle.mir_lines.specs.Reads.{part_and_rest, now_of};
ghost use Rattle.mir_read.specs.Names.{NameLists};
ghost use Rattle.mir_read.specs.Reading.{LeavesLine};
ghost use Rattle.mir_read.specs.Keys.{no_keys, unquoted, name_value, is_body_value, declared_number, ends_class, class_word, declared_class, contains, frame_in, declared_frame, is_key, key_named, name_begun, body_begun, key_begun, continued, colon_cut, begun_with, found, with_declared, with_frame, declared, kept, key_line, AddsToKeys};

use crate::names::TargetNames;
use crate::ranges::{AnnotatedClass, Ranges};
use crate::stop::{ReadStop, TextKind};
use mir_func::Frames;
use mir_lines::lexer::{Sort, before_word, behind_word, is, is_letter, skip, skip_back, span};
use mir_lines::numbers::number;
use mir_lines::registers::without_zeros;
use std::alloc::{AllocError, Global};
use target_base::{Bytes, List};

/// The key that a line belongs to, as far as it matters.
#[derive(Clone, Copy, Debug)]
pub enum Key {
    /// None: no key line stands before.
    Outside,
    /// `registers`.
    Registers,
    /// `liveins`.
    Liveins,
    /// `stack`.
    Stack,
    /// `body`.
    Body,
    /// Another key.
    Other,
}

/// What the key lines so far say.
#[derive(Drop)]
pub struct Keys {
    /// The key that the last line belongs to.
    pub key: Key,
    /// The function's name, once its line has come.
    pub name: Option<Bytes>,
    /// The lines that are kept.
    pub head: Bytes,
    /// The frame objects that are declared.
    pub frames: Frames,
    /// The virtual registers that are declared, with their classes.
    pub registers: Ranges,
}

/// Whether two keys are one.
fn is_key(a: Key, b: Key) -> bool
    ensures { result ≡ is_key a b }
{
    match a {
        Key::Outside => matches!(b, Key::Outside),
        Key::Registers => matches!(b, Key::Registers),
        Key::Liveins => matches!(b, Key::Liveins),
        Key::Stack => matches!(b, Key::Stack),
        Key::Body => matches!(b, Key::Body),
        Key::Other => matches!(b, Key::Other),
    }
}

/// Whether a key is that of the body.
pub fn is_body(key: Key) -> bool
    ensures { result ≡ is_key key Key.Body }
{
    is_key(key, Key::Body)
}

fn find_colon(line: &[u8]) -> Option<usize>
    ensures { result ≡ position (λ b. b == 58) line.now }
{
    line.iter().position(|b| *b == b':')
}

/// The text before the first colon, and what stands behind it.
#[tactic(auto, unfolding(crate::specs::Keys::colon_cut))]
fn colon_cut(line: &[u8]) -> Option<(&[u8], &[u8])>
    ensures { option_map part_and_rest result ≡ colon_cut line.now }
{
    match find_colon(line) {
        None => None,
        Some(k) => Some((&line[..k], &line[k + 1..])),
    }
}

/// A text without one pair of single quotes.
#[tactic(auto, unfolding(crate::specs::Keys::unquoted))]
fn strip_quotes(text: &[u8]) -> &[u8]
    ensures { result.now ≡ unquoted text.now }
{
    match behind_word(text, b"'") {
        None => text,
        Some(behind) => match before_word(behind, b"'") {
            None => text,
            Some(inside) => inside,
        },
    }
}

/// The value of the `name` key: without spaces at its ends and one pair of single quotes. None
/// where it is empty.
#[tactic(auto, unfolding(crate::specs::Keys::name_value))]
fn name_value(text: &[u8]) -> Option<&[u8]>
    ensures { option_map now_of result ≡ name_value text.now }
{
    let value = strip_quotes(skip_back(skip(text)));
    if value.is_empty() { None } else { Some(value) }
}

/// Whether this is the value of the `body` key: spaces and a bar.
#[tactic(auto, unfolding(crate::specs::Keys::is_body_value))]
fn is_body_value(text: &[u8]) -> bool
    ensures { result ≡ is_body_value text.now }
{
    match behind_word(text, b" ") {
        None => false,
        Some(rest) => is(skip(rest), b"|"),
    }
}

/// The digits of the number that a line of `registers` or `stack` declares, and the rest.
#[tactic(auto, unfolding(crate::specs::Keys::declared_number))]
pub fn declared_number(line: &[u8]) -> Option<(&[u8], &[u8])>
    ensures value { option_map part_and_rest result ≡ declared_number line.now }
    ensures some { IfSome result (λ p. 0 < length line.now) }
{
    match behind_word(line, b"  - { id: ") {
        None => None,
        Some(text) => {
            let (digits, rest) = span(text, Sort::Digit);
            match number(digits) {
                None => None,
                Some(_) => Some((digits, rest)),
            }
        }
    }
}

fn ends_class(text: &[u8]) -> bool
    ensures { result ≡ ends_class text.now }
{
    behind_word(text, b",").is_some() || behind_word(text, b" }").is_some()
}

/// The class behind the number that a line of `registers` declares.
#[tactic(auto, unfolding(crate::specs::Keys::class_word))]
fn class_word(text: &[u8]) -> Option<&[u8]>
    ensures { option_map now_of result ≡ class_word text.now }
{
    match behind_word(text, b", class: ") {
        None => None,
        Some(rest) => {
            let (class, end) = span(rest, Sort::Name);
            if !class.is_empty() && ends_class(end) {
                Some(class)
            } else {
                None
            }
        }
    }
}

/// The register and the name of the class that a line of `registers` gives it.
#[tactic(auto, unfolding(crate::specs::Keys::declared_class))]
fn declared_class(line: &[u8]) -> Option<(&[u8], &[u8])>
    ensures value { option_map part_and_rest result ≡ declared_class line.now }
    ensures some { IfSome result (λ p. 0 < length line.now) }
{
    match declared_number(line) {
        None => None,
        Some((digits, rest)) => match class_word(rest) {
            None => None,
            Some(class) => Some((without_zeros(digits), class)),
        },
    }
}

/// Whether a part stands at this place of a text.
fn stands_at(text: &[u8], k: usize, part: &[u8]) -> bool
    requires { k ≤ length text.now }
    ensures { result ≡ is_some (behind_word part.now (drop k text.now)) }
{
    let (_, behind) = text.split_at(k);
    behind_word(behind, part).is_some()
}

/// Whether a text contains a part.
fn contains(text: &[u8], part: &[u8]) -> bool
    ensures { result ≡ contains part.now text.now }
{
    for k in 0..text.len() {
        if stands_at(text, k, part) {
            return true;
        }
    }
    false
}

/// The frame object of these digits that a line declares, and whether it is a spill slot.
fn frame_in(line: &[u8], digits: &[u8]) -> Option<(u32, bool)>
    ensures { result ≡ frame_in line.now digits.now }
{
    match number(digits) {
        None => None,
        Some(n) => Some((n, contains(line, b"type: spill-slot"))),
    }
}

/// The frame object that a line of `stack` declares, and whether it is a spill slot.
#[tactic(auto, unfolding(crate::specs::Keys::declared_frame))]
pub fn declared_frame(line: &[u8]) -> Option<(u32, bool)>
    ensures value { result ≡ declared_frame line.now }
    ensures some { IfSome result (λ p. 0 < length line.now) }
{
    match declared_number(line) {
        None => None,
        Some((digits, rest)) => {
            if behind_word(rest, b",").is_some() {
                frame_in(line, digits)
            } else {
                None
            }
        }
    }
}

/// The key of this name, which is neither `name` nor `body`.
#[tactic(auto, unfolding(crate::specs::Keys::key_named))]
fn key_named(name: &[u8]) -> Key
    ensures { result ≡ key_named name.now }
{
    if is(name, b"registers") {
        Key::Registers
    } else if is(name, b"liveins") {
        Key::Liveins
    } else if is(name, b"stack") {
        Key::Stack
    } else {
        Key::Other
    }
}

impl Keys {
    /// Before the first key line.
    pub fn new(alloc: Global) -> Keys
        ensures { result ≡ no_keys }
    {
        Keys {
            key: Key::Outside,
            name: None,
            head: List::new(alloc),
            frames: List::new(alloc),
            registers: Ranges::new(alloc),
        }
    }

    /// Takes the name's line, which comes once.
    #[tactic(auto, unfolding(crate::specs::Keys::name_begun))]
    fn begin_name(&mut self, alloc: Global, value: &[u8]) -> Result<(), ReadStop>
        ensures value { LeavesLine result self.new (name_begun self.old value.now) }
        ensures adds { OnOk result (AddsToKeys 0 self.old self.new) }
    {
        if self.name.is_some() {
            return Err(ReadStop::Fault(TextKind::Layout));
        }
        match name_value(value) {
            None => Err(ReadStop::Fault(TextKind::Token)),
            Some(value) => {
                self.name = Some(List::from_slice(alloc, value)?);
                self.key = Key::Other;
                Ok(())
            }
        }
    }

    /// Takes the body's line, which comes behind the name.
    #[tactic(auto, unfolding(crate::specs::Keys::body_begun))]
    fn begin_body(&mut self, value: &[u8]) -> Result<(), ReadStop>
        ensures value { LeavesLine result self.new (body_begun self.old value.now) }
        ensures adds { OnOk result (AddsToKeys 0 self.old self.new) }
    {
        if self.name.is_none() {
            return Err(ReadStop::Fault(TextKind::Layout));
        }
        if !is_body_value(value) {
            return Err(ReadStop::Fault(TextKind::Token));
        }
        self.key = Key::Body;
        Ok(())
    }

    /// Takes a line that begins this key.
    #[tactic(auto, unfolding(crate::specs::Keys::key_begun))]
    fn begin_key(&mut self, alloc: Global, name: &[u8], value: &[u8]) -> Result<(), ReadStop>
        ensures value { LeavesLine result self.new (key_begun self.old name.now value.now) }
        ensures adds { OnOk result (AddsToKeys 0 self.old self.new) }
    {
        if is(name, b"name") {
            return self.begin_name(alloc, value);
        }
        if is(name, b"body") {
            return self.begin_body(value);
        }
        self.key = key_named(name);
        Ok(())
    }

    /// Whether a line may belong to the one before it.
    #[tactic(auto, unfolding(crate::specs::Keys::continued))]
    fn go_on(&self) -> Result<(), ReadStop>
        ensures value { LeavesLine result self.now (continued self.now) }
        ensures adds { OnOk result (AddsToKeys 0 self.now self.now) }
    {
        if is_key(self.key, Key::Outside) {
            Err(ReadStop::Fault(TextKind::Layout))
        } else {
            Ok(())
        }
    }

    /// Takes a line that begins a key.
    fn begin(&mut self, alloc: Global, line: &[u8]) -> Result<(), ReadStop>
        ensures value { LeavesLine result self.new (begun_with self.old (colon_cut line.now)) }
        ensures adds { OnOk result (AddsToKeys 0 self.old self.new) }
    {
        match colon_cut(line) {
            None => Err(ReadStop::Fault(TextKind::Layout)),
            Some((name, value)) => self.begin_key(alloc, name, value),
        }
    }

    /// Finds the key of a line.
    #[tactic(auto, unfolding(crate::specs::Keys::found))]
    fn find(&mut self, alloc: Global, line: &[u8]) -> Result<(), ReadStop>
        ensures value { LeavesLine result self.new (found self.old line.now) }
        ensures adds { OnOk result (AddsToKeys 0 self.old self.new) }
    {
        match line {
            [] => self.go_on(),
            [b, ..] => {
                if is_letter(*b) {
                    self.begin(alloc, line)
                } else if *b == b' ' || *b == b'#' {
                    self.go_on()
                } else {
                    Err(ReadStop::Fault(TextKind::Layout))
                }
            }
        }
    }

    /// Adds the class that a line of `registers` declares.
    fn declare_class(
        &mut self,
        alloc: Global,
        names: &TargetNames,
        line: &[u8],
    ) -> Result<(), ReadStop>
        requires { length self.old.registers.names < 4294967295 }
        ensures value { LeavesLine result self.new (with_declared names.now self.old (declared_class line.now)) }
        ensures adds { OnOk result (AddsToKeys (length line.now) self.old self.new) }
    {
        match declared_class(line) {
            None => Ok(()),
            Some((name, class)) => match names.class(class) {
                None => Err(ReadStop::Fault(TextKind::Name)),
                Some(c) => {
                    self.registers.mention(
                        alloc,
                        name,
                        AnnotatedClass::Nothing,
                        AnnotatedClass::One(c),
                    )?;
                    Ok(())
                }
            },
        }
    }

    /// Adds the frame object that a line of `stack` declares.
    fn declare_frame(&mut self, line: &[u8]) -> Result<(), AllocError>
        ensures value { OnOk result (self.new ≡ with_frame self.old (declared_frame line.now)) }
        ensures adds { OnOk result (AddsToKeys (length line.now) self.old self.new) }
    {
        if let Some(frame) = declared_frame(line) {
            self.frames.push(frame)?;
        }
        Ok(())
    }

    /// Adds what a line declares.
    #[tactic(auto, unfolding(crate::specs::Keys::declared))]
    fn declare(&mut self, alloc: Global, names: &TargetNames, line: &[u8]) -> Result<(), ReadStop>
        requires { length self.old.registers.names < 4294967295 }
        ensures value { LeavesLine result self.new (declared names.now self.old line.now) }
        ensures adds { OnOk result (AddsToKeys (length line.now) self.old self.new) }
    {
        if is_key(self.key, Key::Registers) {
            return self.declare_class(alloc, names, line);
        }
        if is_key(self.key, Key::Stack) {
            self.declare_frame(line)?;
        }
        Ok(())
    }

    /// Keeps a line, unless its key names virtual registers.
    #[tactic(auto, unfolding(crate::specs::Keys::kept))]
    fn keep(&mut self, line: &[u8]) -> Result<(), AllocError>
        ensures value { OnOk result (self.new ≡ kept self.old line.now) }
        ensures adds { OnOk result (AddsToKeys 0 self.old self.new) }
    {
        if !(is_key(self.key, Key::Registers) || is_key(self.key, Key::Liveins)) {
            self.head.extend(line)?;
            self.head.extend(b"\n")?;
        }
        Ok(())
    }

    /// Takes one line before the body, or answers the first test that the line fails.
    #[tactic(auto, unfolding(crate::specs::Keys::key_line))]
    pub fn line(&mut self, alloc: Global, names: &TargetNames, line: &[u8]) -> Result<(), ReadStop>
        requires { length self.old.registers.names < 4294967295 }
        ensures value { LeavesLine result self.new (key_line names.now self.old line.now) }
        ensures adds { OnOk result (AddsToKeys (length line.now) self.old self.new) }
    {
        self.find(alloc, line)?;
        self.declare(alloc, names, line)?;
        self.keep(line)?;
        Ok(())
    }
}
