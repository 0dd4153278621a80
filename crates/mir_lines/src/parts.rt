//! The parts of a text between commas, and texts that are joined.

ghost use Rattle.std.specs.Prelude.{◌≡◌, ◌<◌, ◌==◌, ◌++◌, length, position, IfOk, IfSome, OnOk};
ghost use Rattle.std.specs.List.{flat_map};
ghost use Rattle.mir_lines.specs.Parts.{comma_parts, parts_from, joined};

use std::alloc::{AllocError, Global};
use target_base::{Bytes, List};

fn find_comma(text: &[u8]) -> Option<usize>
    ensures { result ≡ position (λ b. b == 44) text.now }
{
    text.iter().position(|b| *b == b',')
}

/// The part before the first comma, and what stands behind it where there is one.
pub(crate) fn next_part(text: &[u8]) -> (&[u8], Option<&[u8]>)
    ensures whole { comma_parts text.now ≡ parts_from result }
    ensures len { IfSome result.1 (λ r. length r.now < length text.now) }
{
    match find_comma(text) {
        None => (text, None),
        Some(k) => (&text[..k], Some(&text[k + 1..])),
    }
}

fn put_more_words(made: &mut Bytes, separator: &[u8], words: &[Bytes]) -> Result<(), AllocError>
    ensures { OnOk result (made.new ≡ made.old ++ flat_map (λ w. separator.now ++ w) words.now) }
{
    for word in words {
        made.extend(separator)?;
        made.extend(word.as_slice())?;
    }
    Ok(())
}

/// The words with this separator between them.
#[tactic(auto, unfolding(crate::specs::Parts::joined))]
pub(crate) fn join_words(
    alloc: Global,
    separator: &[u8],
    words: &[Bytes],
) -> Result<Bytes, AllocError>
    ensures { IfOk result (λ made. made ≡ joined separator.now words.now) }
{
    match words {
        [] => Ok(List::new(alloc)),
        [first, rest @ ..] => {
            let mut made = List::from_slice(alloc, first.as_slice())?;
            put_more_words(&mut made, separator, rest)?;
            Ok(made)
        }
    }
}
