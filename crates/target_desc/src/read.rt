//! Reading the text of a target.

ghost use Rattle.std.specs.Prelude.{◌≡◌, ◌<◌, IfOk, IsTrue, option_map, length};
ghost use Rattle.target_desc.specs.Resolving.{is_new};
ghost use Rattle.std.specs.List.{list_all};
ghost use Rattle.target_base.specs.Rules.{is_complete, are_flag_words};
ghost use Rattle.target_desc.specs.Drafts.{empty_draft, names_of};
ghost use Rattle.target_desc.specs.Keeping.{keeps_rules};
ghost use Rattle.target_desc.specs.Ending.{belongs, reserved_units, reserved_of, is_whole, options_of, parts_of, parts_under, ended};
ghost use Rattle.target_desc.specs.Reading.{ruled, named, laid_out, line_after, spelled, stop_at, GivesLine, Gives};

use crate::add::{add_to_draft, empty_draft, first_names, note_name};
use crate::complete::is_complete;
use crate::draft::{Draft, Line, Options};
use crate::fault::{TargetFault, TargetKind, TargetLineStop, TargetStop};
use crate::forms::raw_line;
use crate::names::NameTables;
use crate::raw::{Header, RawLine};
use crate::resolve::{is_new, resolve_line};
use crate::rules::stands;
use crate::text::{is_comment, next_part, next_word};
use std::alloc::{AllocError, Global};
use target_base::registers::{has_unit, units_at};
use target_base::{
    Boxed, ClassDesc, IndexDesc, List, OpcodeDesc, Reg, RegDesc, Target, TextOptions, Unit,
    UnitList,
};

/// What the lines so far make: a draft that keeps the rules, and the names that it declares. Each
/// stands in a box, so that line by line only pointers move.
#[derive(Drop)]
struct TargetReader {
    draft: Boxed<Draft>,
    names: Boxed<NameTables>,
    ghost named: { names ≡ names_of draft },
    ghost sound: { IsTrue (keeps_rules draft) },
}

impl TargetReader {
    /// The reader before the first line.
    fn new(alloc: Global) -> Result<TargetReader, AllocError>
        ensures { IfOk result (λ r. r.draft ≡ empty_draft) }
    {
        let draft = Boxed::new(alloc, empty_draft(alloc)?)?;
        let names = Boxed::new(alloc, first_names(alloc)?)?;
        Ok(TargetReader { draft, names })
    }

    /// The reader behind a line whose names are looked up, where it keeps the rules.
    fn add_line(self, alloc: Global, line: Line) -> Result<TargetReader, TargetLineStop>
        requires { IsTrue (is_new self.names line) }
        ensures { GivesLine (λ r. r.draft) result (ruled self.draft line) }
    {
        let TargetReader { draft, names } = self;
        if !stands(draft.get(), &line) {
            return Err(TargetLineStop::Fault(TargetKind::Rule));
        }
        let names = note_name(alloc, names, &line)?;
        let draft = add_to_draft(alloc, draft, line)?;
        Ok(TargetReader { draft, names })
    }

    /// The reader behind a line, where its names are declared and the one that it declares isn't.
    fn add_named_line(
        self,
        alloc: Global,
        line: Option<Line>,
    ) -> Result<TargetReader, TargetLineStop>
        ensures { GivesLine (λ r. r.draft) result (named self.draft line) }
    {
        match line {
            None => Err(TargetLineStop::Fault(TargetKind::Name)),
            Some(line) => {
                if is_new(self.names.get(), &line) {
                    self.add_line(alloc, line)
                } else {
                    Err(TargetLineStop::Fault(TargetKind::Name))
                }
            }
        }
    }

    /// The reader behind a line, where it is of some form.
    fn laid_out(self, alloc: Global, raw: Option<RawLine>) -> Result<TargetReader, TargetLineStop>
        ensures { GivesLine (λ r. r.draft) result (laid_out self.draft raw) }
    {
        match raw {
            None => Err(TargetLineStop::Fault(TargetKind::Layout)),
            Some(raw) => {
                let line = resolve_line(alloc, self.names.get(), raw)?;
                self.add_named_line(alloc, line)
            }
        }
    }

    /// The reader behind a line, or the first test that the line fails.
    #[tactic(auto, unfolding(crate::specs::Reading::line_after))]
    fn line(self, alloc: Global, line: &[u8]) -> Result<TargetReader, TargetLineStop>
        ensures { GivesLine (λ r. r.draft) result (line_after self.draft line.now) }
    {
        if is_comment(line) {
            return Ok(self);
        }
        match next_word(line) {
            None => Ok(self),
            Some((word, rest)) => {
                let raw = raw_line(alloc, word, rest)?;
                self.laid_out(alloc, raw)
            }
        }
    }

    /// The target of the lines so far with these reserved units and what they opt in. None where no
    /// line came.
    fn into_target(self, reserved: UnitList, options: TextOptions) -> Option<Target>
        requires reserved { reserved ≡ reserved_of self.draft }
        requires options { options_of options ≡ self.draft.options }
        requires complete { IsTrue (is_whole self.draft) }
        ensures { option_map parts_of result ≡ option_map (λ h. parts_under h self.draft) self.draft.header }
    {
        let TargetReader { draft, names: _ } = self;
        let Draft {
            header,
            units,
            regs,
            reserved: _,
            indexes,
            classes,
            masks,
            opcodes,
            options: _,
        } = draft.into_inner();
        match header {
            None => None,
            Some(Header { name, version }) => Some(Target {
                name,
                version,
                units,
                regs,
                reserved,
                indexes,
                classes,
                masks,
                opcodes,
                options,
            }),
        }
    }

    /// The target of the lines so far. None where something lacks.
    fn end(self, alloc: Global) -> Result<Option<Target>, AllocError>
        ensures { IfOk result (λ t. option_map parts_of t ≡ ended self.draft) }
    {
        let draft = self.draft.get();
        let reserved = reserved_of(alloc, draft)?;
        if is_whole(draft, reserved.as_slice()) {
            let options = options_of(alloc, &draft.options)?;
            Ok(self.into_target(reserved, options))
        } else {
            Ok(None)
        }
    }
}

/// What the lines so far opt in, as a target has it.
fn options_of(alloc: Global, o: &Options) -> Result<TextOptions, AllocError>
    requires { IsTrue (are_flag_words o.now.flags) }
    ensures { IfOk result (λ made. options_of made ≡ o.now) }
{
    Ok(TextOptions {
        offsets: o.offsets,
        pool: o.pool,
        noreg: o.noreg,
        open_blocks: o.open_blocks,
        flags: o.flags.to_words(alloc)?,
    })
}

/// Whether a unit belongs to one of these registers.
fn belongs(regs: &[RegDesc], rs: &[Reg], u: Unit) -> bool
    ensures { result ≡ belongs regs.now rs.now u }
{
    rs.iter().any(|r| has_unit(units_at(regs, *r), u))
}

/// Those of the first `count` units that belong to these registers, by number.
fn reserved_units(
    alloc: Global,
    count: usize,
    regs: &[RegDesc],
    rs: &[Reg],
) -> Result<UnitList, AllocError>
    requires { count < 65536 }
    ensures { IfOk result (λ us. us ≡ reserved_units count regs.now rs.now) }
{
    let mut made = List::new(alloc);
    for u in 0..count {
        let unit = Unit(u as u16);
        if belongs(regs, rs, unit) {
            made.push(unit)?;
        }
    }
    Ok(made)
}

/// The units of the registers that a draft reserves.
fn reserved_of(alloc: Global, d: &Draft) -> Result<UnitList, AllocError>
    requires { length d.now.units < 65536 }
    ensures { IfOk result (λ us. us ≡ reserved_of d.now) }
{
    reserved_units(
        alloc,
        d.units.len(),
        d.regs.as_slice(),
        d.reserved.as_slice(),
    )
}

/// Whether each class of a draft is complete under its reserved units.
#[tactic(auto, unfolding(crate::specs::Ending::is_whole))]
fn is_whole(d: &Draft, reserved: &[Unit]) -> bool
    requires { reserved.now ≡ reserved_of d.now }
    ensures { result ≡ is_whole d.now }
{
    are_complete(
        d.regs.as_slice(),
        reserved,
        d.indexes.as_slice(),
        d.classes.as_slice(),
        d.opcodes.as_slice(),
    )
}

/// Whether each class can be spilled and reloaded, has an unreserved register, and has a part for
/// each index that fits.
fn are_complete(
    regs: &[RegDesc],
    reserved: &[Unit],
    indexes: &[IndexDesc],
    classes: &[ClassDesc],
    opcodes: &[OpcodeDesc],
) -> bool
    ensures { result ≡ list_all (is_complete regs.now reserved.now indexes.now classes.now opcodes.now) classes.now }
{
    classes.iter().all(|c| is_complete(regs, reserved, indexes, classes, opcodes, c))
}

/// Why no target is read, where a line of this number stops.
fn at_line(number: u64, stop: TargetLineStop) -> TargetStop
    ensures { result ≡ stop_at number stop }
{
    match stop {
        TargetLineStop::Fault(kind) => TargetStop::Fault(TargetFault { line: number, kind }),
        TargetLineStop::Memory(e) => TargetStop::Memory(e),
    }
}

/// The bytes of a target file as the target that they spell. Fault comes exactly where they spell
/// none, with the first line that can't follow those before it and the first test that fails
/// there, or with End and the line behind the last.
pub fn read_target(alloc: Global, bytes: &[u8]) -> Result<Target, TargetStop>
    ensures { Gives parts_of result (spelled bytes.now) }
{
    let mut reader = TargetReader::new(alloc)?;
    let mut rest = bytes;
    let mut number = 1u64;
    'lines: while !rest.is_empty() {
        let (line, after) = next_part(rest, b'\n');
        reader = match reader.line(alloc, line) {
            Ok(reader) => reader,
            Err(stop) => return Err(at_line(number, stop)),
        };
        number += 1;
        rest = after;
    }
    match reader.end(alloc)? {
        None => Err(TargetStop::Fault(TargetFault {
            line: number,
            kind: TargetKind::End,
        })),
        Some(target) => Ok(target),
    }
}
