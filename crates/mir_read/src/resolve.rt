//! Looking up the names of a line.

ghost use Rattle.std.specs.Prelude.{◌≡◌, ◌<◌, ◌≤◌, ◌+◌, ◌==◌, ◌++◌, ◌∷◌, [], length, map, IfOk, IfSome, OnOk, option_map, position};
ghost use Rattle.std.specs.List.{list_all};
ghost use Rattle.target_base.specs.Storage.{same_numbers};
ghost use Rattle.mir_lines.specs.Reads.{now_of};
ghost use Rattle.mir_read.specs.Names.{NameLists, has_flag};
ghost use Rattle.mir_read.specs.Ranges.{range_number};
ghost use Rattle.mir_read.specs.Resolving.{no_headers, noted, differs, header_at, index_if, class_if, placed, reg_op, operand_named, operands_named, opcode_named, instr_of, instr_named, regs_named, share, edge, equal_shares, with_share, shared, successors_named, HasMore};

use crate::names::{NumberSet, TargetNames};
use crate::ranges::{AnnotatedClass, Ranges};
use mir_func::{Edge, Edges, Instr, Loc, Op, Operand, Operands, RegOp, ShortList};
use mir_lines::{RawEdge, RawInstr, RawOperand, RawPlace, RawReg, Words};
use std::alloc::{AllocError, Global};
use target_base::{Bytes, Copied, IndexId, List, Regs};

/// The first header of each block number on the lines so far: the number and the name.
#[derive(Drop)]
pub struct Headers {
    pub numbers: NumberSet,
    pub names: List<Bytes>,
}

impl Headers {
    /// No headers.
    pub fn new(alloc: Global) -> Headers
        ensures { result ≡ no_headers }
    {
        Headers {
            numbers: NumberSet::new(alloc),
            names: List::new(alloc),
        }
    }

    /// The headers with this one.
    #[tactic(auto, using(crate::proofs::Sets::sets), unfolding(crate::specs::Resolving::noted))]
    pub fn add_header(self, alloc: Global, number: u32, name: &[u8]) -> Result<Headers, AllocError>
        requires { length self.numbers < 4294967295 }
        ensures value { IfOk result (λ h. h ≡ noted self number name.now) }
        ensures more { IfOk result (λ h. length h.numbers ≤ length self.numbers + 1) }
    {
        let Headers { numbers, names } = self;
        let mut numbers = numbers;
        let mut names = names;
        if numbers.place(number).is_none() {
            numbers.add(number)?;
            names.push(List::from_slice(alloc, name)?)?;
        }
        Ok(Headers { numbers, names })
    }

    /// The name of the first header of this number.
    fn name_of(&self, number: u32) -> Option<&[u8]>
        ensures { option_map now_of result ≡ header_at self.now (position (λ m. m == number) self.now.numbers) }
    {
        match self.numbers.place(number) {
            None => None,
            Some(k) => match self.names.as_slice().get(k) {
                None => None,
                Some(name) => Some(name.as_slice()),
            },
        }
    }

    /// Whether a name that is written behind a block's number isn't the one of its header.
    #[tactic(auto, unfolding(crate::specs::Resolving::differs))]
    fn differs(&self, number: u32, name: &Option<Bytes>) -> bool
        ensures { result ≡ differs self.now number name.now }
    {
        match name {
            None => false,
            Some(name) => match self.name_of(number) {
                None => false,
                Some(header) => !are_same(header, name.as_slice()),
            },
        }
    }
}

/// Whether two texts are the same.
fn are_same(a: &[u8], b: &[u8]) -> bool
    ensures { result ≡ same_numbers a.now b.now }
{
    a == b
}

/// A written index. None where the target lacks it.
fn index_if(names: &TargetNames, index: &Option<Bytes>) -> Option<Option<IndexId>>
    ensures { result ≡ index_if names.now index.now }
{
    match index {
        None => Some(None),
        Some(name) => match names.index(name.as_slice()) {
            None => None,
            Some(i) => Some(Some(i)),
        },
    }
}

/// What a written class gives. None where the target lacks it.
fn class_if(names: &TargetNames, class: &Option<Bytes>) -> Option<AnnotatedClass>
    ensures { result ≡ class_if names.now class.now }
{
    match class {
        None => Some(AnnotatedClass::Nothing),
        Some(name) => match names.class(name.as_slice()) {
            None => None,
            Some(c) => Some(AnnotatedClass::One(c)),
        },
    }
}

/// What the names of a line are looked up in.
#[derive(Clone, Copy)]
pub struct Scope<'a> {
    /// The names of the target.
    pub names: &'a TargetNames,
    /// The headers of blocks on the lines before.
    pub headers: &'a Headers,
    /// The registers of the keys.
    pub keyed: &'a Ranges,
}

/// Where an operand lies and its index; its register is named and given what is written. None where a
/// name isn't known.
#[tactic(auto, unfolding(crate::specs::Resolving::placed))]
fn place(
    alloc: Global,
    names: &TargetNames,
    keyed: &Ranges,
    ranges: &mut Ranges,
    place: &RawPlace,
) -> Result<Option<(Loc, Option<IndexId>)>, AllocError>
    requires { length ranges.old.names < 4294967295 }
    ensures value { IfOk result (λ o. option_map (λ p. (ranges.new, p.0, p.1)) o ≡ placed names.now keyed.now ranges.old place.now) }
    ensures more { IfOk result (λ o. IfSome o (λ p. length ranges.new.names ≤ length ranges.old.names + 1)) }
    ensures given { IfOk result (λ o. IfSome o (λ p. length ranges.new.given ≤ length ranges.old.given + 1)) }
{
    match place {
        RawPlace::Fixed(name) => match names.reg(name.as_slice()) {
            None => Ok(None),
            Some(r) => Ok(Some((Loc::Fixed(r), None))),
        },
        RawPlace::Virtual(name, index, class) => {
            let Some(index) = index_if(names, index) else {
                return Ok(None);
            };
            let Some(given) = class_if(names, class) else {
                return Ok(None);
            };
            let number = ranges.number(alloc, name.as_slice(), keyed, given)?;
            Ok(Some((Loc::Virtual(number), index)))
        }
    }
}

#[tactic(auto, unfolding(crate::specs::Resolving::reg_op))]
fn reg_op(loc: Loc, index: Option<IndexId>, o: &RawReg) -> RegOp
    ensures { result ≡ reg_op loc index o.now }
{
    RegOp {
        loc,
        index,
        def: o.def,
        implicit: o.implicit,
        undef: o.undef,
        early: o.early,
        renamable: false,
        tie: o.tie,
    }
}

/// Whether the target has all these words of `target-flags`.
fn are_flags(names: &TargetNames, flags: &[Bytes]) -> bool
    ensures { result ≡ list_all (has_flag names.now) flags.now }
{
    flags.iter().all(|w| names.has_flag(w.as_slice()))
}

/// An operand with its names looked up; its register is named and given what is written. None where a
/// name isn't known.
#[tactic(auto, unfolding(crate::specs::Resolving::operand_named))]
fn operand(
    alloc: Global,
    scope: &Scope,
    ranges: &mut Ranges,
    raw: &RawOperand,
) -> Result<Option<Operand>, AllocError>
    requires { length ranges.old.names < 4294967295 }
    ensures value { IfOk result (λ o. option_map (λ p. (ranges.new, p)) o ≡ operand_named scope.now.names.now scope.now.headers.now scope.now.keyed.now ranges.old raw.now) }
    ensures more { IfOk result (λ o. IfSome o (λ p. length ranges.new.names ≤ length ranges.old.names + 1)) }
    ensures given { IfOk result (λ o. IfSome o (λ p. length ranges.new.given ≤ length ranges.old.given + 1)) }
{
    let names = scope.names;
    match raw {
        RawOperand::Reg(o) => match place(alloc, names, scope.keyed, ranges, &o.place)? {
            None => Ok(None),
            Some((loc, index)) => Ok(Some(Operand::Reg(reg_op(loc, index, o)))),
        },
        RawOperand::Imm(n) => Ok(Some(Operand::Imm(*n))),
        RawOperand::Block(n, name) => {
            if scope.headers.differs(*n, name) {
                return Ok(None);
            }
            Ok(Some(Operand::Block(*n)))
        }
        RawOperand::Stack(n) => Ok(Some(Operand::Stack(*n))),
        RawOperand::FixedStack(n) => Ok(Some(Operand::FixedStack(*n))),
        RawOperand::Symbol(text, flags) => {
            if !are_flags(names, flags.as_slice()) {
                return Ok(None);
            }
            Ok(Some(Operand::Symbol(text.copied(alloc)?)))
        }
        RawOperand::Index(name) => match names.index(name.as_slice()) {
            None => Ok(None),
            Some(i) => Ok(Some(Operand::Index(i))),
        },
        RawOperand::Mask(name) => match names.mask(name.as_slice()) {
            None => Ok(None),
            Some(m) => Ok(Some(Operand::Mask(m))),
        },
    }
}

/// Operands with their names looked up; their registers are named and given what is written. None
/// where a name isn't known.
fn operands(
    alloc: Global,
    scope: &Scope,
    ranges: &mut Ranges,
    raw: &[RawOperand],
) -> Result<Option<Operands>, AllocError>
    requires { length ranges.old.names + length raw.now < 4294967295 }
    ensures value { IfOk result (λ o. option_map (λ p. (ranges.new, p)) o ≡ operands_named scope.now.names.now scope.now.headers.now scope.now.keyed.now ranges.old raw.now) }
    ensures more { IfOk result (λ o. IfSome o (λ p. HasMore ranges.old (length raw.now) (ranges.new, p))) }
{
    let mut made: Operands = ShortList::new(alloc);
    for o in raw {
        match operand(alloc, scope, ranges, o)? {
            None => return Ok(None),
            Some(operand) => made.push(operand)?,
        }
    }
    Ok(Some(made))
}

/// The opcode of an instruction. None where the target lacks it.
fn opcode(alloc: Global, names: &TargetNames, raw: &RawInstr) -> Result<Option<Op>, AllocError>
    ensures { IfOk result (λ o. o ≡ opcode_named names.now raw.now) }
{
    if raw.excluded {
        return Ok(Some(Op::Excluded(raw.opcode.copied(alloc)?)));
    }
    match names.opcode(raw.opcode.as_slice()) {
        None => Ok(None),
        Some(op) => Ok(Some(Op::Known(op))),
    }
}

/// The instruction of this id with its names looked up; its registers are named and given what is
/// written. None where a name isn't known.
#[tactic(auto, unfolding(crate::specs::Resolving::instr_named, crate::specs::Resolving::instr_of))]
pub fn instruction(
    alloc: Global,
    scope: &Scope,
    ranges: &mut Ranges,
    id: u32,
    raw: RawInstr,
) -> Result<Option<Instr>, AllocError>
    requires { length ranges.old.names + length raw.operands < 4294967295 }
    ensures value { IfOk result (λ o. option_map (λ i. (ranges.new, i)) o ≡ instr_named scope.now.names.now scope.now.headers.now scope.now.keyed.now ranges.old id raw) }
    ensures more { IfOk result (λ o. IfSome o (λ i. HasMore ranges.old (length raw.operands) (ranges.new, i.operands))) }
    ensures id { IfOk result (λ o. IfSome o (λ i. i.id ≡ id)) }
{
    let Some(op) = opcode(alloc, scope.names, &raw)? else {
        return Ok(None);
    };
    match operands(alloc, scope, ranges, raw.operands.as_slice())? {
        None => Ok(None),
        Some(operands) => Ok(Some(Instr {
            id,
            op,
            flags: raw.flags,
            operands,
            tail: raw.tail,
        })),
    }
}

/// The registers of a `liveins:` line. None where the target lacks one.
pub fn liveins(
    alloc: Global,
    names: &TargetNames,
    raw: &[Bytes],
) -> Result<Option<Regs>, AllocError>
    ensures { IfOk result (λ rs. rs ≡ regs_named names.now raw.now) }
{
    let mut made = List::new(alloc);
    for name in raw {
        match names.reg(name.as_slice()) {
            None => return Ok(None),
            Some(r) => made.push(r)?,
        }
    }
    Ok(Some(made))
}

fn put_edges(edges: &mut Edges, blocks: &[u32], prob: u32) -> Result<(), AllocError>
    ensures { OnOk result (edges.new ≡ edges.old ++ map (edge prob) blocks.now) }
{
    for block in blocks {
        edges.push(Edge {
            block: *block,
            prob,
        })?;
    }
    Ok(())
}

/// Equal shares of 2^31 for these blocks; what is left of it goes to the first.
#[tactic(auto, unfolding(crate::specs::Resolving::equal_shares))]
pub fn equal_shares(alloc: Global, blocks: &[u32]) -> Result<Edges, AllocError>
    requires { length blocks.now < 4294967296 }
    ensures { IfOk result (λ es. es ≡ equal_shares blocks.now) }
{
    let mut made = List::new(alloc);
    match blocks {
        [] => {}
        [first, rest @ ..] => {
            let count = blocks.len() as u32;
            made.push(Edge {
                block: *first,
                prob: 0x8000_0000 / count + 0x8000_0000 % count,
            })?;
            put_edges(&mut made, rest, 0x8000_0000 / count)?;
        }
    }
    Ok(made)
}

fn blocks_of(alloc: Global, raw: &[RawEdge]) -> Result<List<u32>, AllocError>
    ensures { IfOk result (λ ns. ns ≡ map (λ e. e.block) raw.now) }
{
    let mut blocks = List::new(alloc);
    for e in raw {
        blocks.push(e.block)?;
    }
    Ok(blocks)
}

/// The successors with their probabilities. None where one has none.
fn share_probabilities(alloc: Global, raw: &[RawEdge]) -> Result<Option<Edges>, AllocError>
    ensures { IfOk result (λ es. es ≡ shared raw.now) }
{
    let mut made = List::new(alloc);
    for e in raw {
        match e.prob {
            None => return Ok(None),
            Some(prob) => made.push(Edge {
                block: e.block,
                prob,
            })?,
        }
    }
    Ok(Some(made))
}

/// The successors of a `successors:` line; without probabilities they have equal shares.
#[tactic(auto, unfolding(crate::specs::Resolving::successors_named))]
pub fn successors(alloc: Global, raw: &[RawEdge]) -> Result<Edges, AllocError>
    requires { length raw.now < 4294967296 }
    ensures { IfOk result (λ es. es ≡ successors_named raw.now) }
{
    match share_probabilities(alloc, raw)? {
        None => equal_shares(alloc, blocks_of(alloc, raw)?.as_slice()),
        Some(made) => Ok(made),
    }
}
