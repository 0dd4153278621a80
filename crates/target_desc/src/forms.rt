//! The forms that a line may have.

ghost use Rattle.std.specs.Prelude.{◌≡◌, IfOk, option_map, option_and_then};
ghost use Rattle.std.specs.List.{list_all};
ghost use Rattle.target_desc.specs.Text.{words};
ghost use Rattle.target_desc.specs.Forms.{names_in, name_list, numbers_in, number_list, two_words, header_of, target_line, unit_of, unit_line, index_line, named_list, named_role, tie_digits, tied_role, either_role, role_of, roles_of, stands_anywhere, may_have, opcode_of, opcode_line, text_forms_of, forms_line, flags_in, flags_line, formed, raw_line};

use crate::raw::{Header, LineForm, NameList, NamedRole, RawLine, RawRole, TextForm};
use crate::tables::{effect_of, form_of, named_role_of, plain_role_of, text_form_of, version_of};
use crate::text::{
    are_same, copy_of, cut, is_flag_word, is_name, is_number, is_op_name, next_word, number,
};
use std::alloc::{AllocError, Global};
use target_base::{Bytes, Effect, IndexDesc, LaneNumbers, List, Role, UnitDesc, Words};

/// The names of a text. None where one of its words is no name.
fn names_in(alloc: Global, text: &[u8]) -> Result<Option<NameList>, AllocError>
    ensures { IfOk result (λ r. r ≡ names_in (words text.now)) }
{
    let mut names = List::new(alloc);
    let mut rest = text;
    'words: while let Some((word, after)) = next_word(rest) {
        if !is_name(word) {
            return Ok(None);
        }
        names.push(copy_of(alloc, word)?)?;
        rest = after;
    }
    Ok(Some(names))
}

/// One or more names.
fn name_list(alloc: Global, text: &[u8]) -> Result<Option<NameList>, AllocError>
    ensures { IfOk result (λ r. r ≡ name_list (words text.now)) }
{
    match next_word(text) {
        None => Ok(None),
        Some(_) => names_in(alloc, text),
    }
}

/// The numbers of a text. None where one of its words is no number.
fn numbers_in(alloc: Global, text: &[u8]) -> Result<Option<LaneNumbers>, AllocError>
    ensures { IfOk result (λ r. r ≡ numbers_in (words text.now)) }
{
    let mut numbers = List::new(alloc);
    let mut rest = text;
    'words: while let Some((word, after)) = next_word(rest) {
        if !is_number(word) {
            return Ok(None);
        }
        numbers.push(number(word))?;
        rest = after;
    }
    Ok(Some(numbers))
}

/// One or more numbers.
fn number_list(alloc: Global, text: &[u8]) -> Result<Option<LaneNumbers>, AllocError>
    ensures { IfOk result (λ r. r ≡ number_list (words text.now)) }
{
    match next_word(text) {
        None => Ok(None),
        Some(_) => numbers_in(alloc, text),
    }
}

/// The two words of a text. None where it has fewer or more.
fn two_words(text: &[u8]) -> Option<(&[u8], &[u8])>
    ensures { option_map (λ p. (p.0.now, p.1.now)) result ≡ two_words (words text.now) }
{
    let Some((first, rest)) = next_word(text) else {
        return None;
    };
    let Some((second, rest)) = next_word(rest) else {
        return None;
    };
    match next_word(rest) {
        None => Some((first, second)),
        Some(_) => None,
    }
}

/// The target's name and version.
fn header_of(alloc: Global, name: &[u8], version: &[u8]) -> Result<Option<RawLine>, AllocError>
    ensures { IfOk result (λ r. r ≡ header_of name.now version.now) }
{
    if !is_name(name) {
        return Ok(None);
    }
    match version_of(version) {
        None => Ok(None),
        Some(version) => Ok(Some(RawLine::Target(Header {
            name: copy_of(alloc, name)?,
            version,
        }))),
    }
}

/// `target NAME V`, behind the first word.
fn target_line(alloc: Global, text: &[u8]) -> Result<Option<RawLine>, AllocError>
    ensures { IfOk result (λ r. r ≡ target_line (words text.now)) }
{
    match two_words(text) {
        None => Ok(None),
        Some((name, version)) => header_of(alloc, name, version),
    }
}

/// A unit of this name and width.
fn unit_of(alloc: Global, name: &[u8], width: &[u8]) -> Result<Option<RawLine>, AllocError>
    ensures { IfOk result (λ r. r ≡ unit_of name.now width.now) }
{
    if is_name(name) && is_number(width) {
        Ok(Some(RawLine::Unit(UnitDesc {
            name: copy_of(alloc, name)?,
            width: number(width),
        })))
    } else {
        Ok(None)
    }
}

/// `unit NAME WIDTH`, behind the first word.
fn unit_line(alloc: Global, text: &[u8]) -> Result<Option<RawLine>, AllocError>
    ensures { IfOk result (λ r. r ≡ unit_line (words text.now)) }
{
    match two_words(text) {
        None => Ok(None),
        Some((name, width)) => unit_of(alloc, name, width),
    }
}

/// `index NAME LANE ..`, behind the first word.
fn index_line(alloc: Global, text: &[u8]) -> Result<Option<RawLine>, AllocError>
    ensures { IfOk result (λ r. r ≡ index_line (words text.now)) }
{
    let Some((name, rest)) = next_word(text) else {
        return Ok(None);
    };
    if !is_name(name) {
        return Ok(None);
    }
    match number_list(alloc, rest)? {
        None => Ok(None),
        Some(lanes) => Ok(Some(RawLine::Index(IndexDesc {
            name: copy_of(alloc, name)?,
            lanes,
        }))),
    }
}

/// A name, and then one or more names.
fn named_list(alloc: Global, text: &[u8]) -> Result<Option<(Bytes, NameList)>, AllocError>
    ensures { IfOk result (λ r. r ≡ named_list (words text.now)) }
{
    let Some((name, rest)) = next_word(text) else {
        return Ok(None);
    };
    if !is_name(name) {
        return Ok(None);
    }
    match name_list(alloc, rest)? {
        None => Ok(None),
        Some(names) => Ok(Some((copy_of(alloc, name)?, names))),
    }
}

/// A role that is a word, a colon and a name.
fn named_role(alloc: Global, word: &[u8]) -> Result<Option<RawRole>, AllocError>
    ensures { IfOk result (λ r. r ≡ named_role word.now) }
{
    let (head, name) = cut(word, b':');
    if !is_name(name) {
        return Ok(None);
    }
    match named_role_of(head) {
        None => Ok(None),
        Some(role) => Ok(Some(RawRole::Named(role, copy_of(alloc, name)?))),
    }
}

/// What stands behind `tied/` in a word that begins so. Nothing in another word.
fn tie_digits(word: &[u8]) -> &[u8]
    ensures { result.now ≡ tie_digits word.now }
{
    let (head, digits) = cut(word, b'/');
    if are_same(head, b"tied") { digits } else { &[] }
}

/// A role `tied/N:K`: the number of a definition and the name of a class.
fn tied_role(alloc: Global, word: &[u8]) -> Result<Option<RawRole>, AllocError>
    ensures { IfOk result (λ r. r ≡ tied_role word.now) }
{
    let (head, name) = cut(word, b':');
    let digits = tie_digits(head);
    if is_number(digits) && is_name(name) {
        let name = copy_of(alloc, name)?;
        Ok(Some(RawRole::Tied(number(digits), name)))
    } else {
        Ok(None)
    }
}

/// The role that a word spells by a name.
fn naming_role(alloc: Global, word: &[u8]) -> Result<Option<RawRole>, AllocError>
    ensures { IfOk result (λ r. r ≡ either_role (named_role word.now) (tied_role word.now)) }
{
    match named_role(alloc, word)? {
        None => tied_role(alloc, word),
        Some(role) => Ok(Some(role)),
    }
}

/// The role that a word spells.
#[tactic(auto, unfolding(crate::specs::Forms::role_of))]
fn role_of(alloc: Global, word: &[u8]) -> Result<Option<RawRole>, AllocError>
    ensures { IfOk result (λ r. r ≡ role_of word.now) }
{
    match plain_role_of(word) {
        None => naming_role(alloc, word),
        Some(role) => Ok(Some(RawRole::Plain(role))),
    }
}

/// The roles of a text. None where one of its words is no role.
fn roles_in(alloc: Global, text: &[u8]) -> Result<Option<List<RawRole>>, AllocError>
    ensures { IfOk result (λ r. r ≡ roles_of (words text.now)) }
{
    let mut roles = List::new(alloc);
    let mut rest = text;
    'words: while let Some((word, after)) = next_word(rest) {
        match role_of(alloc, word)? {
            None => return Ok(None),
            Some(role) => roles.push(role)?,
        }
        rest = after;
    }
    Ok(Some(roles))
}

/// Whether a role stands at each effect, and not at opaque ones alone.
fn stands_anywhere(role: &RawRole) -> bool
    ensures { result ≡ stands_anywhere role.now }
{
    match role {
        RawRole::Plain(Role::Value(_)) => false,
        RawRole::Named(NamedRole::Value, _) => false,
        RawRole::Tied(_, _) => false,
        _ => true,
    }
}

/// Whether all roles stand at each effect.
fn stand_anywhere(roles: &[RawRole]) -> bool
    ensures { result ≡ list_all stands_anywhere roles.now }
{
    roles.iter().all(|role| stands_anywhere(role))
}

/// Whether an effect has such roles.
fn may_have(effect: Effect, roles: &[RawRole]) -> bool
    ensures { result ≡ may_have effect roles.now }
{
    match effect {
        Effect::Opaque(_) => true,
        _ => !roles.is_empty() && stand_anywhere(roles),
    }
}

/// An opcode of this name, effect and roles. None where the effect doesn't have such roles.
fn opcode_of(
    alloc: Global,
    name: &[u8],
    effect: Effect,
    roles: List<RawRole>,
) -> Result<Option<RawLine>, AllocError>
    ensures { IfOk result (λ r. r ≡ opcode_of name.now effect roles) }
{
    if may_have(effect, roles.as_slice()) {
        let name = copy_of(alloc, name)?;
        Ok(Some(RawLine::Opcode(name, effect, roles)))
    } else {
        Ok(None)
    }
}

/// An opcode of this name and effect with the roles that a text spells.
fn opcode_with(
    alloc: Global,
    name: &[u8],
    effect: Effect,
    text: &[u8],
) -> Result<Option<RawLine>, AllocError>
    ensures { IfOk result (λ r. r ≡ option_and_then (λ roles. opcode_of name.now effect roles) (roles_of (words text.now))) }
{
    match roles_in(alloc, text)? {
        None => Ok(None),
        Some(roles) => opcode_of(alloc, name, effect, roles),
    }
}

/// `op NAME EFFECT ROLE ..`, behind the first word.
fn opcode_line(alloc: Global, text: &[u8]) -> Result<Option<RawLine>, AllocError>
    ensures { IfOk result (λ r. r ≡ opcode_line (words text.now)) }
{
    let Some((name, rest)) = next_word(text) else {
        return Ok(None);
    };
    let Some((word, rest)) = next_word(rest) else {
        return Ok(None);
    };
    if !is_op_name(name) {
        return Ok(None);
    }
    match effect_of(word) {
        None => Ok(None),
        Some(effect) => opcode_with(alloc, name, effect, rest),
    }
}

/// The forms of text that words opt in. None where a word is none of theirs.
fn text_forms_in(alloc: Global, text: &[u8]) -> Result<Option<List<TextForm>>, AllocError>
    ensures { IfOk result (λ r. r ≡ text_forms_of (words text.now)) }
{
    let mut forms = List::new(alloc);
    let mut rest = text;
    'words: while let Some((word, after)) = next_word(rest) {
        match text_form_of(word) {
            None => return Ok(None),
            Some(form) => forms.push(form)?,
        }
        rest = after;
    }
    Ok(Some(forms))
}

/// `form WORD ..`, behind the first word.
fn forms_line(alloc: Global, text: &[u8]) -> Result<Option<RawLine>, AllocError>
    ensures { IfOk result (λ r. r ≡ forms_line (words text.now)) }
{
    if next_word(text).is_none() {
        return Ok(None);
    }
    match text_forms_in(alloc, text)? {
        None => Ok(None),
        Some(forms) => Ok(Some(RawLine::Forms(forms))),
    }
}

/// The words of `target-flags` in a text. None where one isn't spelled so.
fn flags_in(alloc: Global, text: &[u8]) -> Result<Option<Words>, AllocError>
    ensures { IfOk result (λ r. r ≡ flags_in (words text.now)) }
{
    let mut flags = List::new(alloc);
    let mut rest = text;
    'words: while let Some((word, after)) = next_word(rest) {
        if !is_flag_word(word) {
            return Ok(None);
        }
        flags.push(copy_of(alloc, word)?)?;
        rest = after;
    }
    Ok(Some(flags))
}

/// `flags WORD ..`, behind the first word.
fn flags_line(alloc: Global, text: &[u8]) -> Result<Option<RawLine>, AllocError>
    ensures { IfOk result (λ r. r ≡ flags_line (words text.now)) }
{
    if next_word(text).is_none() {
        return Ok(None);
    }
    match flags_in(alloc, text)? {
        None => Ok(None),
        Some(flags) => Ok(Some(RawLine::Flags(flags))),
    }
}

/// What a text says behind the first word of its line.
#[tactic(auto, unfolding(crate::specs::Forms::formed))]
fn parse_form(alloc: Global, form: LineForm, text: &[u8]) -> Result<Option<RawLine>, AllocError>
    ensures { IfOk result (λ r. r ≡ formed form (words text.now)) }
{
    match form {
        LineForm::Target => target_line(alloc, text),
        LineForm::Unit => unit_line(alloc, text),
        LineForm::Index => index_line(alloc, text),
        LineForm::Opcode => opcode_line(alloc, text),
        LineForm::Forms => forms_line(alloc, text),
        LineForm::Flags => flags_line(alloc, text),
        LineForm::Reserved => match name_list(alloc, text)? {
            None => Ok(None),
            Some(names) => Ok(Some(RawLine::Reserved(names))),
        },
        LineForm::Reg => match named_list(alloc, text)? {
            None => Ok(None),
            Some((name, units)) => Ok(Some(RawLine::Reg(name, units))),
        },
        LineForm::Class => match named_list(alloc, text)? {
            None => Ok(None),
            Some((name, regs)) => Ok(Some(RawLine::Class(name, regs))),
        },
        LineForm::Mask => match named_list(alloc, text)? {
            None => Ok(None),
            Some((name, regs)) => Ok(Some(RawLine::Mask(name, regs))),
        },
    }
}

/// What a line says, by its first word and the text behind it. None where it is of no form.
pub(crate) fn raw_line(
    alloc: Global,
    word: &[u8],
    text: &[u8],
) -> Result<Option<RawLine>, AllocError>
    ensures { IfOk result (λ r. r ≡ raw_line word.now (words text.now)) }
{
    match form_of(word) {
        None => Ok(None),
        Some(form) => parse_form(alloc, form, text),
    }
}
