//! Operands at the front of a text.

ghost use Rattle.std.specs.Prelude.{◌≡◌, ◌≤◌, ◌<◌, ◌==◌, length, IfOk, IfSome, Some, option_map};
ghost use Rattle.mir_lines.specs.Reads.{Reads, it, and_rest, part_and_rest};
ghost use Rattle.mir_lines.specs.Operands.{labelled, numbered_at, block_at, stack_at, fixed_stack_at, subreg_at, object_at, negative_at, positive_at, immediate_at, begins_immediate, mask_of, mask_at, plain_at, begins_register, as_register, wordless_at, worded_at, operand_behind, operand_at};

use crate::lexer::{Sort, behind_word, is, is_name, span};
use crate::numbers::{decimal, number};
use crate::raw::RawOperand;
use crate::registers::{
    BEHIND_EQUALS, begins_with_digit, continues, is_tail_word, take_name, take_register, take_words,
};
use crate::stop::LineStop;
use crate::symbols::{begins_symbol, behind_noreg, no_register, take_flagged_symbol, take_symbol};
use std::alloc::Global;
use target_base::{Bytes, List, TextOptions};

/// A number, a name behind a dot where one is written, and the rest.
#[tactic(auto, unfolding(crate::specs::Operands::numbered_at))]
pub fn take_numbered(text: &[u8]) -> Result<(u32, Option<&[u8]>, &[u8]), LineStop>
    ensures value { Reads labelled result (numbered_at text.now) }
    ensures len { IfOk result (λ r. length r.2.now ≤ length text.now) }
{
    let (digits, rest) = span(text, Sort::Digit);
    let n = match number(digits) {
        None => return Err(LineStop::Token),
        Some(n) => n,
    };
    match behind_word(rest, b".") {
        None => {
            if continues(rest) {
                return Err(LineStop::Token);
            }
            Ok((n, None, rest))
        }
        Some(behind) => {
            let (label, after) = span(behind, Sort::Label);
            if label.is_empty() || continues(after) {
                return Err(LineStop::Token);
            }
            Ok((n, Some(label), after))
        }
    }
}

fn copy_label(alloc: Global, label: Option<&[u8]>) -> Result<Option<Bytes>, LineStop>
    ensures { Reads it result (Some (option_map (λ l. l.now) label.entry)) }
{
    match label {
        None => Ok(None),
        Some(label) => Ok(Some(List::from_slice(alloc, label)?)),
    }
}

/// A block behind `%bb.`, and the rest.
#[tactic(auto, unfolding(crate::specs::Operands::block_at))]
fn take_block(alloc: Global, text: &[u8]) -> Result<(RawOperand, &[u8]), LineStop>
    ensures value { Reads and_rest result (block_at text.now) }
    ensures len { IfOk result (λ r. length r.1.now ≤ length text.now) }
{
    let (n, label, rest) = take_numbered(text)?;
    Ok((RawOperand::Block(n, copy_label(alloc, label)?), rest))
}

/// A frame object behind `%stack.`, and the rest.
#[tactic(auto, unfolding(crate::specs::Operands::stack_at))]
fn take_stack(text: &[u8]) -> Result<(RawOperand, &[u8]), LineStop>
    ensures value { Reads and_rest result (stack_at text.now) }
    ensures len { IfOk result (λ r. length r.1.now ≤ length text.now) }
{
    let (n, _, rest) = take_numbered(text)?;
    Ok((RawOperand::Stack(n), rest))
}

/// A frame object behind `%fixed-stack.`, and the rest.
#[tactic(auto, unfolding(crate::specs::Operands::fixed_stack_at))]
fn take_fixed_stack(text: &[u8]) -> Result<(RawOperand, &[u8]), LineStop>
    ensures value { Reads and_rest result (fixed_stack_at text.now) }
    ensures len { IfOk result (λ r. length r.1.now ≤ length text.now) }
{
    let (n, _, rest) = take_numbered(text)?;
    Ok((RawOperand::FixedStack(n), rest))
}

/// A subregister index behind `%subreg.`, and the rest.
#[tactic(auto, unfolding(crate::specs::Operands::subreg_at))]
fn take_subreg(alloc: Global, text: &[u8]) -> Result<(RawOperand, &[u8]), LineStop>
    ensures value { Reads and_rest result (subreg_at text.now) }
    ensures len { IfOk result (λ r. length r.1.now ≤ length text.now) }
{
    let (name, rest) = take_name(text)?;
    if continues(rest) {
        return Err(LineStop::Token);
    }
    Ok((RawOperand::Index(List::from_slice(alloc, name)?), rest))
}

/// A block, a frame object, a subregister index or `$noreg`, and the rest; None where the text begins
/// none of them.
#[tactic(auto, unfolding(crate::specs::Operands::object_at))]
fn take_object<'a>(
    alloc: Global,
    options: &TextOptions,
    text: &'a [u8],
) -> Result<Option<(RawOperand, &'a [u8])>, LineStop>
    ensures value { Reads (option_map and_rest) result (object_at options.now text.now) }
    ensures len { IfOk result (λ o. IfSome o (λ r. length r.1.now < length text.now)) }
{
    if let Some(behind) = behind_word(text, b"%bb.") {
        return Ok(Some(take_block(alloc, behind)?));
    }
    if let Some(behind) = behind_word(text, b"%stack.") {
        return Ok(Some(take_stack(behind)?));
    }
    if let Some(behind) = behind_word(text, b"%fixed-stack.") {
        return Ok(Some(take_fixed_stack(behind)?));
    }
    if let Some(behind) = behind_word(text, b"%subreg.") {
        return Ok(Some(take_subreg(alloc, behind)?));
    }
    if let Some(rest) = behind_noreg(options, text) {
        return Ok(Some((no_register(alloc)?, rest)));
    }
    Ok(None)
}

/// An immediate that isn't negative, and the rest: at most 2^64 - 1.
#[tactic(auto, unfolding(crate::specs::Operands::positive_at))]
fn take_positive(text: &[u8]) -> Result<(RawOperand, &[u8]), LineStop>
    ensures value { Reads and_rest result (positive_at text.now) }
    ensures len { IfOk result (λ r. length r.1.now ≤ length text.now) }
{
    let (digits, rest) = span(text, Sort::Digit);
    match decimal(digits, 0xffff_ffff_ffff_ffff) {
        None => Err(LineStop::Token),
        Some(n) => {
            if continues(rest) {
                return Err(LineStop::Token);
            }
            Ok((RawOperand::Imm(n as i128), rest))
        }
    }
}

/// An immediate behind its minus sign, and the rest: at least -2^63.
#[tactic(auto, unfolding(crate::specs::Operands::negative_at))]
fn take_negative(text: &[u8]) -> Result<(RawOperand, &[u8]), LineStop>
    ensures value { Reads and_rest result (negative_at text.now) }
    ensures len { IfOk result (λ r. length r.1.now ≤ length text.now) }
{
    let (digits, rest) = span(text, Sort::Digit);
    match decimal(digits, 0x8000_0000_0000_0000) {
        None => Err(LineStop::Token),
        Some(n) => {
            if continues(rest) {
                return Err(LineStop::Token);
            }
            Ok((RawOperand::Imm(-(n as i128)), rest))
        }
    }
}

/// An immediate, and the rest.
#[tactic(auto, unfolding(crate::specs::Operands::immediate_at))]
fn take_immediate(text: &[u8]) -> Result<(RawOperand, &[u8]), LineStop>
    ensures value { Reads and_rest result (immediate_at text.now) }
    ensures len { IfOk result (λ r. length r.1.now ≤ length text.now) }
{
    match behind_word(text, b"-") {
        None => take_positive(text),
        Some(digits) => take_negative(digits),
    }
}

#[tactic(auto, unfolding(crate::specs::Operands::begins_immediate))]
fn begins_immediate(text: &[u8]) -> bool
    ensures { result ≡ begins_immediate text.now }
{
    if begins_with_digit(text) {
        return true;
    }
    match behind_word(text, b"-") {
        None => false,
        Some(digits) => begins_with_digit(digits),
    }
}

/// The mask of this name.
fn mask_of(alloc: Global, word: &[u8]) -> Result<RawOperand, LineStop>
    ensures { Reads it result (mask_of word.now) }
{
    if !is_name(word) {
        return Err(LineStop::Token);
    }
    Ok(RawOperand::Mask(List::from_slice(alloc, word)?))
}

/// The name of a call mask, and the rest.
#[tactic(auto, unfolding(crate::specs::Operands::mask_at))]
fn take_mask(alloc: Global, text: &[u8]) -> Result<(RawOperand, &[u8]), LineStop>
    ensures value { Reads and_rest result (mask_at text.now) }
    ensures len { IfOk result (λ r. length r.1.now ≤ length text.now) }
{
    let (word, rest) = span(text, Sort::Word);
    if is_tail_word(text) || continues(rest) {
        return Err(LineStop::Token);
    }
    Ok((mask_of(alloc, word)?, rest))
}

/// An operand that no lower-case word begins and that is no register and no symbol, and the rest.
#[tactic(auto, unfolding(crate::specs::Operands::plain_at))]
fn take_plain(alloc: Global, text: &[u8]) -> Result<(RawOperand, &[u8]), LineStop>
    ensures value { Reads and_rest result (plain_at text.now) }
    ensures len { IfOk result (λ r. length r.1.now ≤ length text.now) }
{
    if begins_immediate(text) {
        take_immediate(text)
    } else {
        take_mask(alloc, text)
    }
}

/// Whether a register, a block or a frame object stands first.
#[tactic(auto, unfolding(crate::specs::Operands::begins_register))]
pub fn begins_register(text: &[u8]) -> bool
    ensures { result ≡ begins_register text.now }
{
    match text {
        [] => false,
        [b, ..] => *b == b'$' || *b == b'%',
    }
}

/// A register operand behind these flags, and the rest.
fn take_reg<'a>(
    alloc: Global,
    words: &[Bytes],
    text: &'a [u8],
) -> Result<(RawOperand, &'a [u8]), LineStop>
    ensures value { Reads and_rest result (as_register words.now text.now) }
    ensures len { IfOk result (λ r. length r.1.now ≤ length text.now) }
{
    let (reg, rest) = take_register(alloc, BEHIND_EQUALS, words, text)?;
    Ok((RawOperand::Reg(reg), rest))
}

/// An operand before which no lower-case word stands, and the rest.
#[tactic(auto, unfolding(crate::specs::Operands::wordless_at))]
fn take_wordless<'a>(
    alloc: Global,
    options: &TextOptions,
    text: &'a [u8],
) -> Result<(RawOperand, &'a [u8]), LineStop>
    ensures value { Reads and_rest result (wordless_at options.now text.now) }
    ensures len { IfOk result (λ r. length r.1.now ≤ length text.now) }
{
    if begins_symbol(options, text) {
        let (name, rest) = take_symbol(alloc, options, text)?;
        return Ok((RawOperand::Symbol(name, List::new(alloc)), rest));
    }
    if !begins_register(text) {
        return take_plain(alloc, text);
    }
    match take_object(alloc, options, text)? {
        None => take_reg(alloc, &[], text),
        Some(taken) => Ok(taken),
    }
}

/// An operand behind one lower-case word that is no flag of a register, and the rest: a symbol with
/// flags, or the mask of that name.
fn take_worded<'a>(
    alloc: Global,
    options: &TextOptions,
    word: &[u8],
    text: &'a [u8],
) -> Result<(RawOperand, &'a [u8]), LineStop>
    ensures value { Reads and_rest result (worded_at options.now word.now text.now) }
    ensures len { IfOk result (λ r. length r.1.now ≤ length text.now) }
{
    if is(word, b"target-flags") {
        return take_flagged_symbol(alloc, options, text);
    }
    Ok((mask_of(alloc, word)?, text))
}

/// An operand behind these lower-case words, and the rest.
#[tactic(auto, unfolding(crate::specs::Operands::operand_behind))]
fn take_behind<'a>(
    alloc: Global,
    options: &TextOptions,
    words: &[Bytes],
    text: &'a [u8],
) -> Result<(RawOperand, &'a [u8]), LineStop>
    ensures value { Reads and_rest result (operand_behind options.now words.now text.now) }
    ensures len { IfOk result (λ r. length r.1.now ≤ length text.now) }
{
    if words.is_empty() {
        return take_wordless(alloc, options, text);
    }
    if begins_register(text) {
        return take_reg(alloc, words, text);
    }
    match words {
        [word] => take_worded(alloc, options, word.as_slice(), text),
        _ => Err(LineStop::Token),
    }
}

/// An operand, and the rest. The options say which spellings of symbols are taken.
#[tactic(auto, unfolding(crate::specs::Operands::operand_at))]
pub fn take_operand<'a>(
    alloc: Global,
    options: &TextOptions,
    text: &'a [u8],
) -> Result<(RawOperand, &'a [u8]), LineStop>
    ensures value { Reads and_rest result (operand_at options.now text.now) }
    ensures len { IfOk result (λ r. length r.1.now ≤ length text.now) }
{
    let (words, rest) = take_words(alloc, text)?;
    take_behind(alloc, options, words.as_slice(), rest)
}
