//! Names, words and register operands at the front of a text.

ghost use Rattle.std.specs.Prelude.{◌≡◌, ◌≤◌, ◌||◌, ◌==◌, ◌<◌, IsTrue, length, IfOk, IfSome, option_map, not, ◌&&◌};
ghost use Rattle.std.specs.List.{list_all, position};
ghost use Rattle.mir_lines.specs.Reads.{Reads, it, and_rest, part_and_rest};
ghost use Rattle.mir_lines.specs.Bytes.{is_word_byte, run, behind, behind_word};
ghost use Rattle.mir_lines.specs.Registers.{continues, is_ended, is_tail_word, is_flag_ahead, words_at, name_at, marked_name_at, class_at, begins_with_digit, without_zeros, is_kept_word, is_virtual_name, virtual_name_at, virtual_at, fixed_at, place_at, has_word, is_reg_flag, is_implicit, may_flag, flagged, tie_number_at, tie_at, tied, register_at};

use crate::lexer::{Sort, are_of, behind_word, is, is_digit, is_letter, is_of, skip, span};
use crate::numbers::{decimal, number};
use crate::raw::{RawPlace, RawReg, Words};
use crate::stop::LineStop;
use std::alloc::Global;
use target_base::{Bytes, List};

/// Whether a byte follows that can't stand right behind a token which ends in a name character.
#[tactic(auto, unfolding(crate::specs::Registers::continues))]
pub fn continues(text: &[u8]) -> bool
    ensures { result ≡ continues text.now }
{
    match text {
        [] => false,
        [b, ..] => {
            is_of(Sort::Label, *b) || (*b == b'@' || (*b == b'&' || (*b == b'%' || *b == b'"')))
        }
    }
}

fn begins_word(text: &[u8], word: &[u8]) -> bool
    ensures { result ≡ is_ended (behind_word word.now text.now) }
{
    match behind_word(text, word) {
        None => false,
        Some(rest) => !continues(rest),
    }
}

/// Whether a word that begins a tail stands first.
#[tactic(auto, unfolding(crate::specs::Registers::is_tail_word))]
pub fn is_tail_word(text: &[u8]) -> bool
    ensures { result ≡ is_tail_word text.now }
{
    begins_word(text, b"debug-location") || begins_word(text, b"debug-instr-number")
}

/// Whether a word of lower-case letters and dashes stands first, and begins no tail.
#[tactic(auto, unfolding(crate::specs::Registers::is_flag_ahead))]
fn is_flag_ahead(text: &[u8]) -> bool
    ensures value { result ≡ is_flag_ahead text.now }
    ensures some { IsTrue result → 0 < length (run is_word_byte text.now) }
{
    let (word, _) = span(text, Sort::Word);
    !word.is_empty() && are_of(Sort::Flag, word) && !is_tail_word(text)
}

/// The words of lower-case letters and dashes that stand first, and the text behind them.
#[tactic(auto, unfolding(crate::specs::Registers::words_at))]
pub fn take_words(alloc: Global, text: &[u8]) -> Result<(Words, &[u8]), LineStop>
    ensures value { Reads and_rest result (words_at text.now) }
    ensures len { IfOk result (λ r. length r.1.now ≤ length text.now) }
{
    let mut words = List::new(alloc);
    let mut rest = skip(text);
    'words: while is_flag_ahead(rest) {
        let (word, after) = span(rest, Sort::Word);
        if continues(after) {
            return Err(LineStop::Token);
        }
        words.push(List::from_slice(alloc, word)?)?;
        rest = skip(after);
    }
    Ok((words, rest))
}

/// A name of letters, digits and underscores that begins with a letter, and the rest.
#[tactic(auto, unfolding(crate::specs::Registers::name_at))]
pub fn take_name(text: &[u8]) -> Result<(&[u8], &[u8]), LineStop>
    ensures value { Reads part_and_rest result (name_at text.now) }
    ensures len { IfOk result (λ r. length r.1.now ≤ length text.now) }
{
    match text {
        [b, ..] if is_letter(*b) => Ok(span(text, Sort::Name)),
        _ => Err(LineStop::Token),
    }
}

/// A name behind a mark byte, where the mark stands first.
#[tactic(auto, unfolding(crate::specs::Registers::marked_name_at))]
fn take_marked_name(
    alloc: Global,
    text: &[u8],
    mark: u8,
) -> Result<(Option<Bytes>, &[u8]), LineStop>
    ensures value { Reads and_rest result (marked_name_at mark text.now) }
    ensures len { IfOk result (λ r. length r.1.now ≤ length text.now) }
{
    match text {
        [b, rest @ ..] if *b == mark => {
            let (name, rest) = take_name(rest)?;
            Ok((Some(List::from_slice(alloc, name)?), rest))
        }
        _ => Ok((None, text)),
    }
}

/// A class behind a colon, where one stands first; two colons begin a tail.
#[tactic(auto, unfolding(crate::specs::Registers::class_at))]
fn take_class(alloc: Global, text: &[u8]) -> Result<(Option<Bytes>, &[u8]), LineStop>
    ensures value { Reads and_rest result (class_at text.now) }
    ensures len { IfOk result (λ r. length r.1.now ≤ length text.now) }
{
    if behind_word(text, b"::").is_some() {
        return Ok((None, text));
    }
    take_marked_name(alloc, text, b':')
}

/// Whether a digit stands first.
pub fn begins_with_digit(text: &[u8]) -> bool
    ensures { result ≡ begins_with_digit text.now }
{
    match text {
        [] => false,
        [b, ..] => is_digit(*b),
    }
}

/// Digits without the zeros before the number that they spell.
#[tactic(auto, unfolding(crate::specs::Registers::without_zeros))]
pub fn without_zeros(digits: &[u8]) -> &[u8]
    ensures { result.now ≡ without_zeros digits.now }
{
    if is_zero(digits) {
        b"0"
    } else {
        behind_zeros(digits)
    }
}

fn is_zero(digits: &[u8]) -> bool
    ensures { result ≡ list_all (λ b. b == 48) digits.now }
{
    digits.iter().all(|b| *b == b'0')
}

fn find_not_zero(digits: &[u8]) -> Option<usize>
    ensures { result ≡ position (λ b. not (b == 48)) digits.now }
{
    digits.iter().position(|b| *b != b'0')
}

fn behind_zeros(digits: &[u8]) -> &[u8]
    ensures { result.now ≡ behind (λ b. b == 48) digits.now }
{
    match find_not_zero(digits) {
        None => &[],
        Some(k) => &digits[k..],
    }
}

/// Whether a word behind a percent sign names no virtual register.
#[tactic(auto, unfolding(crate::specs::Registers::is_kept_word))]
fn is_kept_word(name: &[u8]) -> bool
    ensures { result ≡ is_kept_word name.now }
{
    is(name, b"bb")
        || (is(name, b"stack")
            || (is(name, b"fixed-stack")
                || (is(name, b"subreg")
                    || (is(name, b"const") || (is(name, b"jump-table") || is(name, b"ir"))))))
}

#[tactic(auto, unfolding(crate::specs::Registers::is_virtual_name))]
fn is_virtual_name(name: &[u8]) -> bool
    ensures { result ≡ is_virtual_name name.now }
{
    match name {
        [] => false,
        [b, ..] => (is_letter(*b) || *b == b'_') && !is_kept_word(name),
    }
}

/// The name of a virtual register behind the percent sign, and the rest: its digits without zeros
/// before them, or its word.
#[tactic(auto, unfolding(crate::specs::Registers::virtual_name_at))]
fn take_virtual_name(text: &[u8]) -> Result<(&[u8], &[u8]), LineStop>
    ensures value { Reads part_and_rest result (virtual_name_at text.now) }
    ensures len { IfOk result (λ r. length r.1.now ≤ length text.now) }
{
    if begins_with_digit(text) {
        let (digits, rest) = span(text, Sort::Digit);
        return match number(digits) {
            None => Err(LineStop::Token),
            Some(_) => Ok((without_zeros(digits), rest)),
        };
    }
    let (name, rest) = span(text, Sort::Word);
    if is_virtual_name(name) {
        Ok((name, rest))
    } else {
        Err(LineStop::Token)
    }
}

/// A virtual register with its index and its class, where they are written, and the rest.
#[tactic(auto, unfolding(crate::specs::Registers::virtual_at))]
fn take_virtual(alloc: Global, text: &[u8]) -> Result<(RawPlace, &[u8]), LineStop>
    ensures value { Reads and_rest result (virtual_at text.now) }
    ensures len { IfOk result (λ r. length r.1.now ≤ length text.now) }
{
    let (name, rest) = take_virtual_name(text)?;
    let name = List::from_slice(alloc, name)?;
    let (index, rest) = take_marked_name(alloc, rest, b'.')?;
    let (class, rest) = take_class(alloc, rest)?;
    Ok((RawPlace::Virtual(name, index, class), rest))
}

/// A physical register, and the rest.
fn take_fixed(alloc: Global, text: &[u8]) -> Result<(RawPlace, &[u8]), LineStop>
    ensures value { Reads and_rest result (fixed_at text.now) }
    ensures len { IfOk result (λ r. length r.1.now ≤ length text.now) }
{
    let (name, rest) = take_name(text)?;
    Ok((RawPlace::Fixed(List::from_slice(alloc, name)?), rest))
}

/// A physical or a virtual register, and the rest.
#[tactic(auto, unfolding(crate::specs::Registers::place_at))]
fn take_place(alloc: Global, text: &[u8]) -> Result<(RawPlace, &[u8]), LineStop>
    ensures value { Reads and_rest result (place_at text.now) }
    ensures len { IfOk result (λ r. length r.1.now < length text.now) }
{
    match text {
        [b, rest @ ..] if *b == b'$' => take_fixed(alloc, rest),
        [b, rest @ ..] if *b == b'%' => take_virtual(alloc, rest),
        _ => Err(LineStop::Token),
    }
}

/// Whether a word is among these.
fn has_word(words: &[Bytes], word: &[u8]) -> bool
    ensures { result ≡ has_word word.now words.now }
{
    words.iter().any(|w| is(w.as_slice(), word))
}

/// Whether a word is a flag of a register operand.
#[tactic(auto, unfolding(crate::specs::Registers::is_reg_flag))]
fn is_reg_flag(w: &[u8]) -> bool
    ensures { result ≡ is_reg_flag w.now }
{
    is(w, b"implicit")
        || (is(w, b"implicit-def")
            || (is(w, b"dead")
                || (is(w, b"killed")
                    || (is(w, b"undef") || (is(w, b"early-clobber") || is(w, b"renamable"))))))
}

fn are_reg_flags(words: &[Bytes]) -> bool
    ensures { result ≡ list_all is_reg_flag words.now }
{
    words.iter().all(|w| is_reg_flag(w.as_slice()))
}

fn is_implicit(words: &[Bytes]) -> bool
    ensures { result ≡ is_implicit words.now }
{
    has_word(words, b"implicit") || has_word(words, b"implicit-def")
}

/// Whether these words may be the flags of a register: `implicit` doesn't stand with
/// `implicit-def`, and neither before the equals sign.
#[tactic(auto, unfolding(crate::specs::Registers::may_flag))]
fn may_flag(def: bool, words: &[Bytes]) -> bool
    ensures { result ≡ may_flag def words.now }
{
    are_reg_flags(words)
        && (!(has_word(words, b"implicit") && has_word(words, b"implicit-def"))
            && !(def && is_implicit(words)))
}

/// A register with these flags.
#[tactic(auto, unfolding(crate::specs::Registers::flagged))]
fn apply_flags(def: bool, words: &[Bytes], place: RawPlace) -> RawReg
    ensures { result ≡ flagged def words.now place }
{
    let defines = def || has_word(words, b"implicit-def");
    RawReg {
        place,
        def: defines,
        implicit: is_implicit(words),
        undef: has_word(words, b"undef"),
        early: has_word(words, b"early-clobber"),
        tie: None,
    }
}

/// The number of a tie and its closing parenthesis, and the rest.
#[tactic(auto, unfolding(crate::specs::Registers::tie_number_at))]
fn take_tie_number(text: &[u8]) -> Result<(Option<u8>, &[u8]), LineStop>
    ensures value { Reads and_rest result (tie_number_at text.now) }
    ensures len { IfOk result (λ r. length r.1.now ≤ length text.now) }
{
    let (digits, rest) = span(text, Sort::Digit);
    match decimal(digits, 255) {
        None => Err(LineStop::Token),
        Some(k) => match behind_word(skip(rest), b")") {
            None => Err(LineStop::Token),
            Some(after) => Ok((Some(k as u8), after)),
        },
    }
}

/// The tie behind a use, where one is written, and the rest.
#[tactic(auto, unfolding(crate::specs::Registers::tie_at))]
fn take_tie(text: &[u8]) -> Result<(Option<u8>, &[u8]), LineStop>
    ensures value { Reads and_rest result (tie_at text.now) }
    ensures len { IfOk result (λ r. length r.1.now ≤ length text.now) }
{
    match behind_word(skip(text), b"(") {
        None => Ok((None, text)),
        Some(inside) => match behind_word(skip(inside), b"tied-def ") {
            None => Err(LineStop::Token),
            Some(behind) => take_tie_number(skip(behind)),
        },
    }
}

/// The register with the tie behind it, which only a use may have, and the rest.
#[tactic(auto, unfolding(crate::specs::Registers::tied))]
fn with_tie(reg: RawReg, text: &[u8]) -> Result<(RawReg, &[u8]), LineStop>
    ensures value { Reads and_rest result (tied reg text.now) }
    ensures len { IfOk result (λ r. length r.1.now ≤ length text.now) }
{
    if continues(text) {
        return Err(LineStop::Token);
    }
    if reg.def {
        return Ok((reg, text));
    }
    let (tie, rest) = take_tie(text)?;
    let mut reg = reg;
    reg.tie = tie;
    Ok((reg, rest))
}

/// Says of a register that it stands before the equals sign.
pub const BEFORE_EQUALS: bool = true;

/// Says of a register that it stands behind the equals sign, or where no such sign is.
pub const BEHIND_EQUALS: bool = false;

/// A register operand behind these flags, and the rest. `def` says that it stands before the
/// equals sign.
#[tactic(auto, unfolding(crate::specs::Registers::register_at))]
pub fn take_register<'a>(
    alloc: Global,
    def: bool,
    words: &[Bytes],
    text: &'a [u8],
) -> Result<(RawReg, &'a [u8]), LineStop>
    ensures value { Reads and_rest result (register_at def words.now text.now) }
    ensures len { IfOk result (λ r. length r.1.now < length text.now) }
{
    if !may_flag(def, words) {
        return Err(LineStop::Token);
    }
    let (place, rest) = take_place(alloc, text)?;
    with_tie(apply_flags(def, words, place), rest)
}
