//! The bytes of a line: sorts of bytes, runs of bytes and spaces.

ghost use Rattle.std.specs.Prelude.{◌≡◌, ◌≤◌, ◌<◌, ◌+◌, ◌==◌, not, length, IfSome, nat_eq, nat_le, option_map, IsTrue};
ghost use Rattle.std.specs.List.{position, list_all, list_any};
ghost use Rattle.target_base.specs.Names.{is_upper, is_lower, is_letter, is_digit, is_name_byte, is_name, is_op_name, is_flag_word};
ghost use Rattle.target_base.specs.Names as names;
ghost use Rattle.mir_lines.specs.Bytes.{is_hex, is_flag_byte, is_word_byte, is_label_byte, is_of, run, behind, skip, skip_back, is_word, behind_word, before_word, is_blank, is_ascii};

/// Sorts of bytes that a part of a line is made of.
#[derive(Clone, Copy, Debug, PartialEq, Eq)]
pub enum Sort {
    /// Decimal digits.
    Digit,
    /// Hexadecimal digits in either case.
    Hex,
    /// Lower-case letters and dashes, as in a flag.
    Flag,
    /// Letters, digits and underscores, as in the name of a register.
    Name,
    /// Letters, digits, underscores and dashes, as in the name of a virtual register.
    Word,
    /// Letters, digits, and `_ . - $`, as in the name of a block.
    Label,
    /// Lower-case letters, digits, underscores and dashes, as in a word of `target-flags`.
    TargetFlag,
}

/// Whether a byte is a letter.
pub fn is_letter(b: u8) -> bool
    ensures { result ≡ is_letter b }
{
    (b'A' <= b && b <= b'Z') || (b'a' <= b && b <= b'z')
}

/// Whether a byte is a decimal digit.
pub fn is_digit(b: u8) -> bool
    ensures { result ≡ is_digit b }
{
    b'0' <= b && b <= b'9'
}

fn is_hex(b: u8) -> bool
    ensures { result ≡ is_hex b }
{
    is_digit(b) || (b'a' <= b && b <= b'f') || (b'A' <= b && b <= b'F')
}

fn is_flag_byte(b: u8) -> bool
    ensures { result ≡ is_flag_byte b }
{
    (b'a' <= b && b <= b'z') || b == b'-'
}

fn is_name_byte(b: u8) -> bool
    ensures { result ≡ is_name_byte b }
{
    is_letter(b) || is_digit(b) || b == b'_'
}

fn is_word_byte(b: u8) -> bool
    ensures { result ≡ is_word_byte b }
{
    is_name_byte(b) || b == b'-'
}

fn is_label_byte(b: u8) -> bool
    ensures { result ≡ is_label_byte b }
{
    is_word_byte(b) || b == b'.' || b == b'$'
}

fn is_lower(b: u8) -> bool
    ensures { result ≡ is_lower b }
{
    b'a' <= b && b <= b'z'
}

fn is_target_flag_byte(b: u8) -> bool
    ensures { result ≡ names.is_flag_byte b }
{
    is_lower(b) || is_digit(b) || b == b'_' || b == b'-'
}

/// Whether a byte is of a sort.
pub fn is_of(sort: Sort, b: u8) -> bool
    ensures { result ≡ is_of sort b }
{
    match sort {
        Sort::Digit => is_digit(b),
        Sort::Hex => is_hex(b),
        Sort::Flag => is_flag_byte(b),
        Sort::Name => is_name_byte(b),
        Sort::Word => is_word_byte(b),
        Sort::Label => is_label_byte(b),
        Sort::TargetFlag => is_target_flag_byte(b),
    }
}

/// Whether all bytes are of a sort.
pub fn are_of(sort: Sort, text: &[u8]) -> bool
    ensures { result ≡ list_all (is_of sort) text.now }
{
    text.iter().all(|b| is_of(sort, *b))
}

fn find_other(sort: Sort, text: &[u8]) -> Option<usize>
    ensures { result ≡ position (λ b. not (is_of sort b)) text.now }
{
    text.iter().position(|b| !is_of(sort, *b))
}

/// The bytes of a sort that stand first, and the rest.
pub fn span(text: &[u8], sort: Sort) -> (&[u8], &[u8])
    ensures front { result.0.now ≡ run (is_of sort) text.now }
    ensures back { result.1.now ≡ behind (is_of sort) text.now }
    ensures whole { length result.0.now + length result.1.now ≡ length text.now }
{
    match find_other(sort, text) {
        None => (text, &[]),
        Some(k) => text.split_at(k),
    }
}

fn find_not_space(text: &[u8]) -> Option<usize>
    ensures { result ≡ position (λ b. not (b == 32)) text.now }
{
    text.iter().position(|b| *b != b' ')
}

/// Without the spaces at the front.
#[tactic(auto, unfolding(crate::specs::Bytes::skip))]
pub fn skip(text: &[u8]) -> &[u8]
    ensures value { result.now ≡ skip text.now }
    ensures len { length result.now ≤ length text.now }
{
    match find_not_space(text) {
        None => &[],
        Some(k) => &text[k..],
    }
}

/// Without the spaces at the end.
#[tactic(auto, unfolding(crate::specs::Bytes::skip_back))]
pub fn skip_back(text: &[u8]) -> &[u8]
    ensures { result.now ≡ skip_back text.now }
{
    let mut n = text.len();
    'spaces: while n > 0 && text[n - 1] == b' ' {
        n -= 1;
    }
    &text[..n]
}

/// Whether a text is this word. (Most texts differ in the first byte.)
pub fn is(text: &[u8], word: &[u8]) -> bool
    ensures { result ≡ is_word text.now word.now }
{
    match (text, word) {
        ([first, ..], [b, ..]) if *first != *b => false,
        _ => text == word,
    }
}

/// What stands behind this word, where it stands first. (Byte by byte: most texts differ in the first.)
#[tactic(auto, unfolding(crate::specs::Bytes::behind_word))]
pub fn behind_word<'a>(text: &'a [u8], word: &[u8]) -> Option<&'a [u8]>
    ensures value { option_map (λ r. r.now) result ≡ behind_word word.now text.now }
    ensures len { IfSome result (λ r. length r.now + length word.now ≡ length text.now) }
{
    let mut rest = text;
    for b in word {
        match rest {
            [] => return None,
            [first, behind @ ..] => {
                if *first != *b {
                    return None;
                }
                rest = behind;
            }
        }
    }
    Some(rest)
}

/// What stands before this word, where it stands last.
#[tactic(auto, unfolding(crate::specs::Bytes::before_word))]
pub fn before_word<'a>(text: &'a [u8], word: &[u8]) -> Option<&'a [u8]>
    ensures { option_map (λ r. r.now) result ≡ before_word word.now text.now }
{
    text.strip_suffix(word)
}

/// Whether no byte but spaces stands there.
pub fn is_blank(text: &[u8]) -> bool
    ensures { result ≡ is_blank text.now }
{
    text.iter().all(|b| *b == b' ')
}

/// Whether all bytes are ASCII.
pub fn is_ascii(text: &[u8]) -> bool
    ensures { result ≡ is_ascii text.now }
{
    text.iter().all(|b| *b <= 127)
}

/// Whether a text is a name: a letter, then letters, digits and underscores.
pub fn is_name(text: &[u8]) -> bool
    ensures value { result ≡ is_name text.now }
    ensures some { IsTrue result → 0 < length text.now }
{
    match text {
        [] => false,
        [first, rest @ ..] => is_letter(*first) && are_of(Sort::Name, rest),
    }
}

fn has_upper(text: &[u8]) -> bool
    ensures { result ≡ list_any is_upper text.now }
{
    text.iter().any(|b| b'A' <= *b && *b <= b'Z')
}

/// Whether a text is a word of `target-flags`: a lower-case letter, then lower-case letters, digits,
/// underscores and dashes.
pub(crate) fn is_flag_word(text: &[u8]) -> bool
    ensures { result ≡ is_flag_word text.now }
{
    match text {
        [] => false,
        [first, rest @ ..] => is_lower(*first) && are_of(Sort::TargetFlag, rest),
    }
}

/// Whether a text is an opcode's name: a name with an upper-case letter.
pub fn is_op_name(text: &[u8]) -> bool
    ensures value { result ≡ is_op_name text.now }
    ensures some { IsTrue result → 0 < length text.now }
{
    is_name(text) && has_upper(text)
}
