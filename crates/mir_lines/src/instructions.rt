//! The instruction that a line spells, before its names are looked up.

ghost use Rattle.std.specs.Prelude.{◌≡◌, ◌≤◌, ◌<◌, ◌==◌, ◌++◌, ◌∷◌, [], Some, length, IfOk, IfSome, option_map, is_some, position, not, take, ◌+◌};
ghost use Rattle.mir_lines.specs.Bytes.{behind_word};
ghost use Rattle.mir_lines.specs.Reads.{Reads, it, and_rest, part_and_rest, onto};
ghost use Rattle.mir_lines.specs.Instructions.{uncommented, without_comment, is_tail_behind, begins_tail, tail_at, linked, and_link, definition_at, element_at, elements_at, operands_at, opcode_at, is_generic, is_opaque, declares_opaque, is_excluded, instr_of, behind_opcode, behind_definitions, with_definitions, instruction_in, instruction_of, IsShorter, AreFew};

use crate::lexer::{Sort, behind_word, is, is_ascii, is_blank, is_op_name, skip, span};
use crate::operands::{begins_register, take_operand};
use crate::parts::join_words;
use crate::raw::{RawInstr, RawOperand, RawOperands};
use crate::registers::{BEFORE_EQUALS, continues, is_tail_word, take_register, take_words};
use crate::stop::LineStop;
use std::alloc::Global;
use target_base::{Bytes, Effect, List, Target, TextOptions};

/// A list of operands in a line.
#[derive(Clone, Copy, Debug, PartialEq, Eq)]
pub(crate) enum OperandSide {
    /// The definitions before the equals sign.
    Definitions,
    /// The operands behind the opcode.
    Others,
}

/// What follows an element of a list.
#[derive(Clone, Copy)]
pub(crate) enum ListTail<'a> {
    /// Nothing; this stands behind the list.
    End(&'a [u8]),
    /// The next element.
    More(&'a [u8]),
}

/// Whether a tail begins here: with `::`, or with one of its words, before which a comma may stand.
#[tactic(auto, unfolding(crate::specs::Instructions::begins_tail))]
fn begins_tail(text: &[u8]) -> bool
    ensures { result ≡ begins_tail text.now }
{
    if behind_word(text, b"::").is_some() || is_tail_word(text) {
        return true;
    }
    match behind_word(text, b",") {
        None => false,
        Some(rest) => is_tail_word(skip(rest)),
    }
}

/// The tail behind the last operand, which may be empty. None where operands go on.
#[tactic(auto, unfolding(crate::specs::Instructions::tail_at))]
fn tail(text: &[u8]) -> Option<&[u8]>
    ensures value { option_map (λ t. t.now) result ≡ tail_at text.now }
    ensures len { IfSome result (λ t. length t.now ≤ length text.now) }
{
    let start = skip(text);
    if begins_tail(start) {
        return Some(start);
    }
    if is_blank(text) {
        return Some(&[]);
    }
    None
}

/// An operand with what follows it: this, where the list ends, or the text of the next element.
fn with_tail<'a>(
    operand: RawOperand,
    end: Option<&'a [u8]>,
    next: Option<&'a [u8]>,
) -> Result<(RawOperand, ListTail<'a>), LineStop>
    ensures { Reads and_link result (linked operand (option_map (λ t. t.now) end.entry) (option_map (λ t. t.now) next.entry)) }
{
    match end {
        Some(rest) => Ok((operand, ListTail::End(rest))),
        None => match next {
            None => Err(LineStop::Token),
            Some(text) => Ok((operand, ListTail::More(text))),
        },
    }
}

/// A definition: a register behind its flags, and the rest.
#[tactic(auto, unfolding(crate::specs::Instructions::definition_at))]
fn take_definition(alloc: Global, text: &[u8]) -> Result<(RawOperand, &[u8]), LineStop>
    ensures value { Reads and_rest result (definition_at text.now) }
    ensures len { IfOk result (λ r. length r.1.now ≤ length text.now) }
{
    let (words, rest) = take_words(alloc, text)?;
    let (reg, after) = take_register(alloc, BEFORE_EQUALS, words.as_slice(), rest)?;
    Ok((RawOperand::Reg(reg), after))
}

/// An element of a list, and what follows it.
#[tactic(auto, unfolding(crate::specs::Instructions::element_at))]
fn take_element<'a>(
    alloc: Global,
    options: &TextOptions,
    part: OperandSide,
    text: &'a [u8],
) -> Result<(RawOperand, ListTail<'a>), LineStop>
    ensures value { Reads and_link result (element_at options.now part text.now) }
    ensures len { IfOk result (λ r. IsShorter r.1 part (length text.now)) }
{
    match part {
        OperandSide::Definitions => {
            let (operand, after) = take_definition(alloc, text)?;
            let behind = skip(after);
            with_tail(
                operand,
                behind_word(behind, b"="),
                behind_word(behind, b","),
            )
        }
        OperandSide::Others => {
            let (operand, after) = take_operand(alloc, options, text)?;
            with_tail(operand, tail(after), behind_word(skip(after), b","))
        }
    }
}

/// The elements of a list that begins here, behind those that are there, and the rest behind it.
#[tactic(auto, using(crate::proofs::Few::few))]
fn take_elements<'a>(
    alloc: Global,
    options: &TextOptions,
    part: OperandSide,
    before: RawOperands,
    text: &'a [u8],
) -> Result<(RawOperands, &'a [u8]), LineStop>
    ensures value { Reads and_rest result (onto before (elements_at options.now part text.now)) }
    ensures few { IfOk result (λ r. AreFew part (length before) (length text.now) r) }
    ensures len { IfOk result (λ r. length r.1.now ≤ length text.now) }
{
    let mut made = before;
    let mut rest = text;
    'elements: loop {
        let (operand, link) = take_element(alloc, options, part, rest)?;
        made.push(operand)?;
        match link {
            ListTail::End(behind) => return Ok((made, behind)),
            ListTail::More(next) => rest = next,
        }
    }
}

/// The operands behind an opcode, put behind the definitions, and the tail.
#[tactic(auto, unfolding(crate::specs::Instructions::operands_at))]
fn take_operands<'a>(
    alloc: Global,
    options: &TextOptions,
    definitions: RawOperands,
    text: &'a [u8],
) -> Result<(RawOperands, &'a [u8]), LineStop>
    ensures value { Reads and_rest result (onto definitions (operands_at options.now text.now)) }
    ensures few { IfOk result (λ r. length r.0 ≤ length definitions + length text.now + 1) }
{
    match tail(text) {
        None => take_elements(alloc, options, OperandSide::Others, definitions, text),
        Some(tail) => Ok((definitions, tail)),
    }
}

/// An opcode's name, and the rest.
#[tactic(auto, unfolding(crate::specs::Instructions::opcode_at))]
fn take_opcode(text: &[u8]) -> Result<(&[u8], &[u8]), LineStop>
    ensures value { Reads part_and_rest result (opcode_at text.now) }
    ensures len { IfOk result (λ r. length r.1.now < length text.now) }
{
    let (word, rest) = span(text, Sort::Word);
    if is_op_name(word) && !continues(rest) {
        Ok((word, rest))
    } else {
        Err(LineStop::Token)
    }
}

/// Whether an opcode is one of the generic opcodes that have no meaning of their own.
#[tactic(auto, unfolding(crate::specs::Instructions::is_generic))]
fn is_generic(name: &[u8]) -> bool
    ensures { result ≡ is_generic name.now }
{
    is(name, b"INLINEASM")
        || (is(name, b"INLINEASM_BR")
            || (is(name, b"BUNDLE")
                || (is(name, b"DBG_VALUE")
                    || (is(name, b"DBG_VALUE_LIST")
                        || (is(name, b"DBG_INSTR_REF")
                            || (is(name, b"DBG_PHI")
                                || (is(name, b"DBG_LABEL")
                                    || (is(name, b"EH_LABEL")
                                        || (is(name, b"SUBREG_TO_REG")
                                            || (is(name, b"STATEPOINT")
                                                || (is(name, b"PATCHPOINT")
                                                    || (is(name, b"STACKMAP")
                                                        || (is(name, b"KILL")
                                                            || is(
                                                                name,
                                                                b"CFI_INSTRUCTION",
                                                            ))))))))))))))
}

fn is_opaque(effect: Effect) -> bool
    ensures { result ≡ is_opaque effect }
{
    matches!(effect, Effect::Opaque(_))
}

/// Whether the target has an opaque opcode of this name.
fn declares_opaque(target: &Target, name: &[u8]) -> bool
    ensures { result ≡ declares_opaque target.now name.now }
{
    let opcodes = target.opcodes.as_slice();
    opcodes
        .iter()
        .any(|o| is_opaque(o.effect) && is(o.name.as_slice(), name))
}

/// Whether an opcode is a generic one that no stage has a meaning for. An opaque one of the target
/// has a meaning.
#[tactic(auto, unfolding(crate::specs::Instructions::is_excluded))]
fn is_excluded(target: &Target, name: &[u8]) -> bool
    ensures { result ≡ is_excluded target.now name.now }
{
    is_generic(name) && !declares_opaque(target, name)
}

/// An instruction of these definitions, these flags and this opcode, with what stands behind it.
/// The operands of an opcode without a meaning aren't read.
#[tactic(auto, unfolding(crate::specs::Instructions::behind_opcode, crate::specs::Instructions::instr_of))]
fn behind_opcode(
    alloc: Global,
    target: &Target,
    definitions: RawOperands,
    flags: &[Bytes],
    opcode: &[u8],
    text: &[u8],
) -> Result<RawInstr, LineStop>
    ensures value { Reads it result (behind_opcode target.now definitions flags.now opcode.now text.now) }
    ensures few { IfOk result (λ i. length i.operands ≤ length definitions + length text.now + 1) }
{
    let flags = join_words(alloc, b" ", flags)?;
    let name = List::from_slice(alloc, opcode)?;
    if is_excluded(target, opcode) {
        if !is_ascii(text) {
            return Err(LineStop::Token);
        }
        return Ok(RawInstr {
            operands: definitions,
            flags,
            opcode: name,
            excluded: true,
            tail: List::new(alloc),
        });
    }
    let (operands, tail) = take_operands(alloc, &target.options, definitions, text)?;
    Ok(RawInstr {
        operands,
        flags,
        opcode: name,
        excluded: false,
        tail: List::from_slice(alloc, tail)?,
    })
}

/// An instruction of these definitions and flags, with what stands behind them.
#[tactic(auto, unfolding(crate::specs::Instructions::behind_definitions))]
fn behind_definitions(
    alloc: Global,
    target: &Target,
    definitions: RawOperands,
    flags: &[Bytes],
    text: &[u8],
) -> Result<RawInstr, LineStop>
    ensures value { Reads it result (behind_definitions target.now definitions flags.now text.now) }
    ensures few { IfOk result (λ i. length i.operands ≤ length definitions + length text.now) }
{
    let (opcode, rest) = take_opcode(text)?;
    behind_opcode(alloc, target, definitions, flags, opcode, rest)
}

/// The instruction that begins with definitions.
fn with_definitions(alloc: Global, target: &Target, text: &[u8]) -> Result<RawInstr, LineStop>
    ensures value { Reads it result (with_definitions target.now text.now) }
    ensures few { IfOk result (λ i. length i.operands ≤ length text.now) }
{
    let (definitions, behind) = take_elements(
        alloc,
        &target.options,
        OperandSide::Definitions,
        List::new(alloc),
        text,
    )?;
    let (flags, after) = take_words(alloc, behind)?;
    behind_definitions(alloc, target, definitions, flags.as_slice(), after)
}

/// The instruction that a line spells; the line has no comment and no space at its front. The target
/// says which spellings of symbols it takes, and which of the generic opcodes have a meaning.
#[tactic(auto, unfolding(crate::specs::Instructions::instruction_of))]
pub fn instruction(alloc: Global, target: &Target, text: &[u8]) -> Result<RawInstr, LineStop>
    ensures value { Reads it result (instruction_of target.now text.now) }
    ensures few { IfOk result (λ i. length i.operands ≤ length text.now) }
{
    let (words, behind) = take_words(alloc, text)?;
    if begins_register(behind) {
        with_definitions(alloc, target, text)
    } else {
        behind_definitions(alloc, target, List::new(alloc), words.as_slice(), behind)
    }
}

fn find_comment(line: &[u8]) -> usize
    ensures value { take result line.now ≡ without_comment line.now }
    ensures within { result ≤ length line.now }
{
    let mut quoted = false;
    for k in 0..line.len() {
        let b = line[k];
        if b == b';' && !quoted {
            return k;
        }
        quoted = if b == b'"' { !quoted } else { quoted };
    }
    line.len()
}

/// The line without its comment, which a semicolon outside double quotes begins.
pub fn without_comment(line: &[u8]) -> &[u8]
    ensures value { result.now ≡ without_comment line.now }
    ensures len { length result.now ≤ length line.now }
{
    &line[..find_comment(line)]
}
