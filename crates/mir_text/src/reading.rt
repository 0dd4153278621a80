//! The lines of a body, read one after another.

ghost use Rattle.std.specs.Prelude.{◌≡◌, ◌≤◌, ◌+◌, length, IfOk, IsTrue, None, ℕ};
ghost use Rattle.mir_lines.specs.Blocks.{or_none};
ghost use Rattle.mir_read.specs.Body.{is_begun, closed};
ghost use Rattle.mir_read.specs.Reading.{GivesLine};
ghost use Rattle.mir_text.specs.BodyLines.{reading_of, header_put, header_line, successors_line, liveins_line, instr_line, worded, body_line, function_of, IsReadingWithin, IsFunctionWithin, AddsToReading};

use mir_func::Func;
use mir_lines::instructions::{self, without_comment};
use mir_lines::lexer::{behind_word, is_blank, skip};
use mir_lines::{RawHeader, blocks};
use mir_read::body::Body;
use mir_read::keys::Keys;
use mir_read::names::TargetNames;
use mir_read::ranges::Ranges;
use mir_read::resolve::{self, Headers, Scope};
use mir_read::{ReadStop, TextKind};
use std::alloc::{AllocError, Global};
use target_base::{Boxed, Bytes, List, Target};

/// What is read of a function document whose body has begun. Each part stands in a box, so that
/// line by line only pointers move.
#[derive(Drop)]
pub(crate) struct BodyReader {
    pub(crate) keys: Boxed<Keys>,
    pub(crate) ranges: Boxed<Ranges>,
    pub(crate) headers: Boxed<Headers>,
    pub(crate) body: Boxed<Body>,
}

fn name_or_none(alloc: Global, name: Option<Bytes>) -> Bytes
    ensures { result ≡ or_none name }
{
    match name {
        None => List::new(alloc),
        Some(name) => name,
    }
}

impl BodyReader {
    /// Behind the key lines.
    pub(crate) fn new(alloc: Global, keys: Boxed<Keys>) -> Result<BodyReader, AllocError>
        ensures { IfOk result (λ r. r ≡ reading_of keys) }
    {
        Ok(BodyReader {
            keys,
            ranges: Boxed::new(alloc, Ranges::new(alloc))?,
            headers: Boxed::new(alloc, Headers::new(alloc))?,
            body: Boxed::new(alloc, Body::new(alloc))?,
        })
    }

    /// Behind this header of a block.
    #[tactic(auto, unfolding(crate::specs::BodyLines::header_put))]
    fn header_put(
        self,
        alloc: Global,
        target: &Target,
        header: RawHeader,
    ) -> Result<BodyReader, AllocError>
        requires { IsReadingWithin 8388608 self }
        ensures value { IfOk result (λ r. r ≡ header_put target.now self header) }
        ensures adds { IfOk result (λ r. AddsToReading 1 self r) }
    {
        let BodyReader {
            keys,
            ranges,
            headers,
            body,
        } = self;
        let headers = headers.into_inner();
        let headers = headers.add_header(alloc, header.number, header.name.as_slice())?;
        let body = body.into_inner().with_header(alloc, target, header)?;
        Ok(BodyReader {
            keys,
            ranges,
            headers: Boxed::new(alloc, headers)?,
            body: Boxed::new(alloc, body)?,
        })
    }

    /// Behind the header of a block.
    #[tactic(auto, unfolding(crate::specs::BodyLines::header_line))]
    fn header_line(
        self,
        alloc: Global,
        target: &Target,
        text: &[u8],
    ) -> Result<BodyReader, ReadStop>
        requires { IsReadingWithin 8388608 self }
        ensures value { GivesLine result (header_line target.now self text.now) }
        ensures adds { IfOk result (λ r. AddsToReading 1 self r) }
    {
        let header = blocks::header(alloc, text)?;
        Ok(self.header_put(alloc, target, header)?)
    }

    /// Behind a `successors:` line with this list.
    #[tactic(auto, unfolding(crate::specs::BodyLines::successors_line))]
    fn successors_line(self, alloc: Global, text: &[u8]) -> Result<BodyReader, ReadStop>
        requires { length text.now ≤ 4194304 }
        ensures value { GivesLine result (successors_line self text.now) }
        ensures adds { IfOk result (λ r. AddsToReading 0 self r) }
    {
        if !self.body.get().takes_successors() {
            return Err(ReadStop::Fault(TextKind::Layout));
        }
        let raw = blocks::successors(alloc, text)?;
        let edges = resolve::successors(alloc, raw.as_slice())?;
        let BodyReader {
            keys,
            ranges,
            headers,
            body,
        } = self;
        let body = body.into_inner().with_successors(edges);
        Ok(BodyReader {
            keys,
            ranges,
            headers,
            body: Boxed::new(alloc, body)?,
        })
    }

    /// Behind a `liveins:` line with this list.
    #[tactic(auto, unfolding(crate::specs::BodyLines::liveins_line))]
    fn liveins_line(
        self,
        alloc: Global,
        names: &TargetNames,
        text: &[u8],
    ) -> Result<BodyReader, ReadStop>
        ensures value { GivesLine result (liveins_line names.now self text.now) }
        ensures adds { IfOk result (λ r. AddsToReading 0 self r) }
    {
        if !self.body.get().takes_liveins() {
            return Err(ReadStop::Fault(TextKind::Layout));
        }
        let raw = blocks::liveins(alloc, text)?;
        match resolve::liveins(alloc, names, raw.as_slice())? {
            None => Err(ReadStop::Fault(TextKind::Name)),
            Some(regs) => {
                let BodyReader {
                    keys,
                    ranges,
                    headers,
                    body,
                } = self;
                let body = body.into_inner().with_liveins(regs);
                Ok(BodyReader {
                    keys,
                    ranges,
                    headers,
                    body: Boxed::new(alloc, body)?,
                })
            }
        }
    }

    /// Behind an instruction.
    #[tactic(auto, unfolding(crate::specs::BodyLines::instr_line))]
    fn instr_line(
        self,
        alloc: Global,
        target: &Target,
        names: &TargetNames,
        text: &[u8],
    ) -> Result<BodyReader, ReadStop>
        requires small { IsReadingWithin 8388608 self }
        requires short { length text.now ≤ 4194304 }
        ensures value { GivesLine result (instr_line target.now names.now self text.now) }
        ensures adds { IfOk result (λ r. AddsToReading (length text.now + 1) self r) }
    {
        if !self.body.get().is_begun() {
            return Err(ReadStop::Fault(TextKind::Layout));
        }
        let raw = instructions::instruction(alloc, target, text)?;
        let BodyReader {
            keys,
            mut ranges,
            headers,
            mut body,
        } = self;
        let id = body.get().next_id();
        let scope = Scope {
            names,
            headers: headers.get(),
            keyed: &keys.get().registers,
        };
        let named = resolve::instruction(alloc, &scope, ranges.get_mut(), id, raw)?;
        match named {
            None => Err(ReadStop::Fault(TextKind::Name)),
            Some(instr) => {
                body.get_mut().put_instr(instr)?;
                Ok(BodyReader {
                    keys,
                    ranges,
                    headers,
                    body,
                })
            }
        }
    }

    /// Behind a header, a list of a block, or an instruction.
    #[tactic(auto, unfolding(crate::specs::BodyLines::worded))]
    fn read_body_line(
        self,
        alloc: Global,
        target: &Target,
        names: &TargetNames,
        text: &[u8],
    ) -> Result<BodyReader, ReadStop>
        requires small { IsReadingWithin 8388608 self }
        requires short { length text.now ≤ 4194304 }
        ensures value { GivesLine result (worded target.now names.now self text.now) }
        ensures adds { IfOk result (λ r. AddsToReading (length text.now + 1) self r) }
    {
        if behind_word(text, b"bb.").is_some() {
            return self.header_line(alloc, target, text);
        }
        match behind_word(text, b"successors:") {
            Some(list) => self.successors_line(alloc, list),
            None => match behind_word(text, b"liveins:") {
                Some(list) => self.liveins_line(alloc, names, list),
                None => self.instr_line(alloc, target, names, text),
            },
        }
    }

    /// Behind a line of a body.
    #[tactic(auto, unfolding(crate::specs::BodyLines::body_line))]
    pub(crate) fn line(
        self,
        alloc: Global,
        target: &Target,
        names: &TargetNames,
        line: &[u8],
    ) -> Result<BodyReader, ReadStop>
        requires small { IsReadingWithin 8388608 self }
        requires short { length line.now ≤ 4194304 }
        ensures value { GivesLine result (body_line target.now names.now self line.now) }
        ensures adds { IfOk result (λ r. AddsToReading (length line.now) self r) }
    {
        let text = without_comment(line);
        if is_blank(text) {
            return Ok(self);
        }
        match behind_word(text, b" ") {
            None => Err(ReadStop::Fault(TextKind::Layout)),
            Some(words) => self.read_body_line(alloc, target, names, skip(words)),
        }
    }

    /// The function of a document that ends here.
    pub(crate) fn into_func(self, alloc: Global, target: &Target) -> Result<Func, AllocError>
        requires begun { IsTrue (is_begun self.body) }
        requires small { IsReadingWithin 8388608 self }
        ensures value { IfOk result (λ f. f ≡ function_of self (closed target.now self.body None)) }
        ensures within { IfOk result (λ f. (n : ℕ) → IsReadingWithin n self → IsFunctionWithin n f) }
    {
        let BodyReader {
            keys,
            ranges,
            headers: _,
            body,
        } = self;
        let Body {
            done,
            opened: _,
            instrs: _,
            next_id,
        } = body.into_inner().close_block(alloc, target, None)?;
        let Keys {
            key: _,
            name,
            head,
            frames,
            registers: _,
        } = keys.into_inner();
        Ok(Func {
            name: name_or_none(alloc, name),
            head,
            classes: ranges.get().classes(alloc)?,
            frames,
            blocks: done,
            next_id,
        })
    }
}
