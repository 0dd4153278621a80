//! The function that the text for a seed spells.

ghost use Rattle.std.specs.Prelude.{◌≡◌, ◌≤◌, ℕ, IfOk, IfSome, length};
ghost use Rattle.mir_text.specs.Document.{IsBulkWithin};
ghost use Rattle.ra_top.specs.Generator.Generated.{function_of, generated_for};

use crate::generator::text::generated_text;
use mir_func::Func;
use mir_text::{Doc, FIRST, TextStop, read_doc};
use std::alloc::{AllocError, Global};
use target_base::Target;

/// The function of a document. None where it is no function document.
fn function_of(doc: Doc) -> Option<Func>
    ensures value { result ≡ function_of doc }
    ensures few { (n : ℕ) → IsBulkWithin n doc → IfSome result (λ f. length f.classes ≤ n) }
{
    match doc {
        Doc::Function(_, f) => Some(f),
        Doc::Ir(_) => None,
        Doc::Rest(_) => None,
    }
}

/// The function that is generated for a seed: its text as it is read over a target, which is meant to
/// be the built-in one, with at most 4,194,304 virtual registers. None where the text spells no function
/// over the target.
pub fn generate(alloc: Global, target: &Target, seed: u64) -> Result<Option<Func>, AllocError>
    ensures value { IfOk result (λ f. f ≡ generated_for target.now seed) }
    ensures few { IfOk result (λ o. IfSome o (λ f. length f.classes ≤ 4194304)) }
{
    let text = generated_text(alloc, seed)?;
    match read_doc(alloc, target, FIRST, 1, text.as_slice()) {
        Ok(doc) => Ok(function_of(doc)),
        Err(TextStop::Fault(_)) => Ok(None),
        Err(TextStop::Memory(e)) => Err(e),
    }
}
