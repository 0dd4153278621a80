//! Reading documents line by line.

ghost use Rattle.std.specs.Prelude.{◌≡◌, ◌<◌, ◌≤◌, ◌+◌, ◌^◌, ◌∷◌, ◌==◌, length, position, IfOk, IfSome, ℕ};
ghost use Rattle.mir_read.specs.Names.{name_lists};
ghost use Rattle.mir_read.specs.Reading.{GivesLine};
ghost use Rattle.mir_text.specs.BodyLines.{IsReadingWithin};
ghost use Rattle.mir_text.specs.Document.{lines, end_line, body_or_end, with_key_line, begins_comment, outside_line, ir_line, line_after, ended, document_of, stop_at, Gives, IsBulkWithin, AreKeysWithin, IsStateWithin};

use crate::doc::{Doc, TextFault, TextStop};
use crate::reading::BodyReader;
use mir_func::Func;
use mir_lines::lexer::{behind_word, is, is_blank, skip_back};
use mir_read::keys::{Keys, is_body};
use mir_read::names::TargetNames;
use mir_read::{ReadStop, TextKind};
use std::alloc::{AllocError, Global};
use std::marker::Model;
use target_base::{Boxed, Bytes, List, Shared, Target};

/// What the lines so far make.
#[derive(Drop)]
pub(crate) enum State {
    /// Lines before a document, which are kept.
    Outside(Bytes),
    /// An IR document that has begun.
    Ir,
    /// Lines before a function document, and the key lines of it.
    Keys(Bytes, Boxed<Keys>),
    /// Lines before a function document, and what is read of it.
    Body(Bytes, BodyReader),
    /// A whole IR document.
    EndOfIr,
    /// Lines before a function document, and its function.
    Function(Bytes, Boxed<Func>),
}

fn find_newline(text: &[u8]) -> Option<usize>
    ensures { result ≡ position (λ b. b == 10) text.now }
{
    text.iter().position(|b| *b == b'\n')
}

/// The first line of a text that isn't empty, and what stands behind its newline.
pub fn next_line(text: &[u8]) -> (&[u8], &[u8])
    requires { 0 < length text.now }
    ensures whole { lines text.now ≡ result.0.now ∷ lines result.1.now }
    ensures len { length result.0.now + length result.1.now ≤ length text.now }
    ensures shorter { length result.1.now < length text.now }
{
    match find_newline(text) {
        None => (text, &[]),
        Some(k) => (&text[..k], &text[k + 1..]),
    }
}

/// Whether a line is a comment.
fn begins_comment(line: &[u8]) -> bool
    ensures { result ≡ begins_comment line.now }
{
    behind_word(line, b"#").is_some()
}

/// The state behind a line before a document, or behind its first line; `first` says whether IR may
/// stand here.
#[tactic(auto, unfolding(crate::specs::Document::outside_line))]
fn outside_line(alloc: Global, first: bool, before: Bytes, line: &[u8]) -> Result<State, ReadStop>
    ensures value { GivesLine result (outside_line first before line.now) }
    ensures within { IfOk result (λ s. IsStateWithin 0 s) }
{
    if is_blank(line) || begins_comment(line) {
        let mut kept = before;
        kept.extend(line)?;
        kept.extend(b"\n")?;
        return Ok(State::Outside(kept));
    }
    let word = skip_back(line);
    if is(word, b"---") {
        let keys = Boxed::new(alloc, Keys::new(alloc))?;
        return Ok(State::Keys(before, keys));
    }
    if first && is(word, b"--- |") {
        return Ok(State::Ir);
    }
    Err(ReadStop::Fault(TextKind::Layout))
}

/// The state behind a line of an IR document.
#[tactic(auto, unfolding(crate::specs::Document::ir_line))]
fn ir_line(line: &[u8]) -> Result<State, ReadStop>
    ensures value { GivesLine result (ir_line line.now) }
    ensures within { IfOk result (λ s. IsStateWithin 0 s) }
{
    if is(line, b"...") {
        return Ok(State::EndOfIr);
    }
    if is_blank(line) || behind_word(line, b" ").is_some() {
        return Ok(State::Ir);
    }
    Err(ReadStop::Fault(TextKind::Layout))
}

/// The state behind a line before the body.
fn key_line(
    alloc: Global,
    names: &TargetNames,
    before: Bytes,
    keys: Boxed<Keys>,
    line: &[u8],
) -> Result<State, ReadStop>
    requires { AreKeysWithin 8388608 keys }
    ensures value { GivesLine result (with_key_line names.now before keys line.now) }
    ensures within { IfOk result (λ s. (n : ℕ) → AreKeysWithin n keys → IsStateWithin (n + length line.now) s) }
{
    let mut keys = keys;
    keys.get_mut().line(alloc, names, line)?;
    if is_body(keys.get().key) {
        Ok(State::Body(before, BodyReader::new(alloc, keys)?))
    } else {
        Ok(State::Keys(before, keys))
    }
}

/// The state behind a line of the body, or behind the end of the document.
#[tactic(auto, unfolding(crate::specs::Document::body_or_end, crate::specs::Document::end_line))]
fn body_or_end(
    alloc: Global,
    target: &Target,
    names: &TargetNames,
    before: Bytes,
    reading: BodyReader,
    line: &[u8],
) -> Result<State, ReadStop>
    requires small { IsReadingWithin 8388608 reading }
    requires short { length line.now ≤ 4194304 }
    ensures value { GivesLine result (body_or_end target.now names.now before reading line.now) }
    ensures within { IfOk result (λ s. (n : ℕ) → IsReadingWithin n reading → IsStateWithin (n + length line.now) s) }
{
    if is(line, b"...") {
        if !reading.body.get().is_begun() {
            return Err(ReadStop::Fault(TextKind::Layout));
        }
        let f = Boxed::new(alloc, reading.into_func(alloc, target)?)?;
        return Ok(State::Function(before, f));
    }
    Ok(State::Body(before, reading.line(alloc, target, names, line)?))
}

impl State {
    /// The state behind one more line.
    #[tactic(auto, unfolding(crate::specs::Document::line_after))]
    fn line(
        self,
        alloc: Global,
        target: &Target,
        names: &TargetNames,
        first: bool,
        line: &[u8],
    ) -> Result<State, ReadStop>
        requires small { IsStateWithin 8388608 self }
        requires short { length line.now ≤ 4194304 }
        ensures value { GivesLine result (line_after target.now names.now first self line.now) }
        ensures within { IfOk result (λ s. (n : ℕ) → IsStateWithin n self → IsStateWithin (n + length line.now) s) }
    {
        match self {
            State::Outside(before) => outside_line(alloc, first, before, line),
            State::Ir => ir_line(line),
            State::Keys(before, keys) => key_line(alloc, names, before, keys, line),
            State::Body(before, reading) => {
                body_or_end(alloc, target, names, before, reading, line)
            }
            State::EndOfIr => Err(ReadStop::Fault(TextKind::Layout)),
            State::Function(_, _) => Err(ReadStop::Fault(TextKind::Layout)),
        }
    }

    /// The document where no line is left. None inside a document.
    #[tactic(auto, unfolding(crate::specs::Document::ended))]
    fn end(self, alloc: Global, bytes: &[u8]) -> Result<Option<Doc>, AllocError>
        ensures value { IfOk result (λ d. d ≡ ended bytes.now self) }
        ensures within { IfOk result (λ o. IfSome o (λ d. (n : ℕ) → IsStateWithin n self → IsBulkWithin n d)) }
    {
        match self {
            State::Outside(_) => Ok(Some(Doc::Rest(List::from_slice(alloc, bytes)?))),
            State::EndOfIr => Ok(Some(Doc::Ir(List::from_slice(alloc, bytes)?))),
            State::Function(before, f) => Ok(Some(Doc::Function(before, f.into_inner()))),
            _ => Ok(None),
        }
    }
}

/// Why no document is read, where a line of this number stops.
fn at_line(number: u64, stop: ReadStop) -> TextStop
    ensures { result ≡ stop_at number stop }
{
    match stop {
        ReadStop::Fault(kind) => TextStop::Fault(TextFault { line: number, kind }),
        ReadStop::Memory(e) => TextStop::Memory(e),
    }
}

/// The document that bytes spell, with the names of the target given.
fn read_with(
    alloc: Global,
    target: &Target,
    names: &TargetNames,
    first: bool,
    line: u64,
    bytes: &[u8],
) -> Result<Doc, TextStop>
    requires named { names.now ≡ name_lists target.now }
    requires small { length bytes.now ≤ 4194304 }
    requires early { line ≤ 2 ^ 63 }
    ensures exact { Gives result (document_of target.now first line bytes.now) }
    ensures bulk { IfOk result (λ d. IsBulkWithin (length bytes.now) d) }
{
    let mut state = State::Outside(List::new(alloc));
    let mut rest = bytes;
    let mut number = line;
    'lines: while !rest.is_empty() {
        let (text, after) = next_line(rest);
        state = match state.line(alloc, target, names, first, text) {
            Ok(state) => state,
            Err(stop) => return Err(at_line(number, stop)),
        };
        number += 1;
        rest = after;
    }
    match state.end(alloc, bytes)? {
        None => Err(TextStop::Fault(TextFault {
            line: number,
            kind: TextKind::End,
        })),
        Some(doc) => Ok(doc),
    }
}

/// A reader of documents over a target, whose names are found once for all that it reads. Contracts
/// see it as the target.
#[derive(Drop)]
pub struct DocReader {
    target: Shared<Target>,
    names: TargetNames,
}

impl Model for DocReader {
    ghost use Rattle.std.specs.Prelude.{◌≡◌};
    ghost use Rattle.target_base.specs.declared.types.Target.{Target};
    ghost use Rattle.mir_read.specs.Names.{name_lists};

    ghost Value = { Target };

    ghost view = { λ r. r.target };

    ghost invariant = { λ r. r.names ≡ name_lists r.target };
}

impl DocReader {
    /// The reader over a target, which is copied.
    pub fn new(alloc: Global, target: &Target) -> Result<DocReader, AllocError>
        ensures { IfOk result (λ r. r ≡ target.now) }
    {
        let names = TargetNames::new(alloc, target)?;
        let target = Shared::new(alloc, target.copy(alloc)?)?;
        Ok(DocReader { target, names })
    }

    /// The target.
    pub fn target(&self) -> &Target
        ensures { result.now ≡ self.now }
    {
        self.target.get()
    }

    /// The target, which more may own.
    pub fn shared_target(&self) -> &Shared<Target>
        ensures { result.now ≡ self.now }
    {
        &self.target
    }

    /// Reads one document, whose first line has the number `line`; `first` says whether IR may stand
    /// here. Fault comes exactly where the bytes spell no document, with the first line that can't
    /// stand behind those before it and the first of Layout, Token and Name that fails there, or
    /// with End and the line behind the last. Each of the numbers of ids, virtual registers,
    /// operands and frame objects of the function is at most the number of bytes.
    pub fn read(&self, alloc: Global, first: bool, line: u64, bytes: &[u8]) -> Result<Doc, TextStop>
        requires small { length bytes.now ≤ 4194304 }
        requires early { line ≤ 2 ^ 63 }
        ensures exact { Gives result (document_of self.now first line bytes.now) }
        ensures bulk { IfOk result (λ d. IsBulkWithin (length bytes.now) d) }
    {
        read_with(alloc, self.target.get(), &self.names, first, line, bytes)
    }
}

/// Says of a document that it is the first of its file, so that IR may stand here.
pub const FIRST: bool = true;

/// Says of a document that it isn't the first of its file, so that no IR may stand here.
pub const LATER: bool = false;

/// Reads one document, whose first line has the number `line`; `first` says whether IR may stand
/// here. Fault comes exactly where the bytes spell no document, with the first line that can't
/// stand behind those before it and the first of Layout, Token and Name that fails there, or with
/// End and the line behind the last. Each of the numbers of ids, virtual registers, operands and
/// frame objects of the function is at most the number of bytes. A `DocReader` finds the names of the
/// target once for many documents.
pub fn read_doc(
    alloc: Global,
    target: &Target,
    first: bool,
    line: u64,
    bytes: &[u8],
) -> Result<Doc, TextStop>
    requires small { length bytes.now ≤ 4194304 }
    requires early { line ≤ 2 ^ 63 }
    ensures exact { Gives result (document_of target.now first line bytes.now) }
    ensures bulk { IfOk result (λ d. IsBulkWithin (length bytes.now) d) }
{
    let names = TargetNames::new(alloc, target)?;
    read_with(alloc, target, &names, first, line, bytes)
}
