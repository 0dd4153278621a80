//! What is printed of an allocated function is read again before the checker is asked: so what was
//! checked is what the text says.

ghost use Rattle.std.specs.Prelude.{◌≡◌, ◌≤◌, true, false, [], length, IfOk, IfSome};
ghost use Rattle.target_base.specs.Storage.{same_numbers};
ghost use Rattle.mir_text.specs.declared.doc.Doc.TheVariants as docs;
ghost use Rattle.mir_text.specs.Document.{Spells};
ghost use Rattle.pipeline.specs.Guarded.Function.{IsTextFor};

use mir_func::Func;
use mir_text::{Doc, DocReader, LATER, TextStop, print_doc};
use std::alloc::{AllocError, Global};
use target_base::Bytes;

/// The most bytes of a document that can be read.
const MOST_BYTES: usize = 4_194_304;

/// An allocated function and its text.
#[derive(Drop)]
pub struct Allocation {
    /// The function, as its text spells it: `renamable` is printed, and no reader keeps it.
    pub func: Func,
    /// What is printed of the function alone.
    pub text: Bytes,
}

/// Whether two texts are one.
pub(crate) fn same_text(a: &[u8], b: &[u8]) -> bool
    ensures { result ≡ same_numbers a.now b.now }
{
    a == b
}

/// The function of a document that has no lines before it.
fn function_alone(doc: Doc) -> Option<Func>
    ensures { IfSome result (λ f. doc ≡ docs.Function [] f) }
{
    match doc {
        Doc::Function(before, f) => {
            if before.as_slice().is_empty() {
                Some(f)
            } else {
                None
            }
        }
        _ => None,
    }
}

/// The function that a text spells alone, if it spells one with these key lines.
fn read_alone(
    alloc: Global,
    reader: &DocReader,
    text: &[u8],
    head: &[u8],
) -> Result<Option<Func>, AllocError>
    requires { length text.now ≤ 4194304 }
    ensures spells { IfOk result (λ made. IfSome made (λ f. Spells reader.now false 1 text.now (docs.Function [] f))) }
    ensures head { IfOk result (λ made. IfSome made (λ f. same_numbers f.head head.now ≡ true)) }
{
    match reader.read(alloc, LATER, 1, text) {
        Ok(doc) => match function_alone(doc) {
            Some(f) => {
                if same_text(f.head.as_slice(), head) {
                    Ok(Some(f))
                } else {
                    Ok(None)
                }
            }
            None => Ok(None),
        },
        Err(TextStop::Fault(_)) => Ok(None),
        Err(TextStop::Memory(e)) => Err(e),
    }
}

/// What is printed of a function, with the function that this spells: the function itself where the
/// text is longer than a document may be that is read. None where it spells none, or one with other
/// key lines: a reader drops the keys `registers` and `liveins`, which no answer has.
#[tactic(auto, using(crate::proofs::GuardLemmas::Texts::texts))]
pub(crate) fn print_and_read(
    alloc: Global,
    reader: &DocReader,
    f: Func,
) -> Result<Option<Allocation>, AllocError>
    ensures { IfOk result (λ made. IfSome made (λ a. IsTextFor reader.now a.func a.text)) }
{
    let doc = Doc::Function(Bytes::new(alloc), f);
    let text = print_doc(alloc, reader.target(), &doc)?;
    let Some(f) = function_alone(doc) else {
        return Ok(None);
    };
    if text.as_slice().len() > MOST_BYTES {
        return Ok(Some(Allocation { func: f, text }));
    }
    match read_alone(alloc, reader, text.as_slice(), f.head.as_slice())? {
        Some(func) => Ok(Some(Allocation { func, text })),
        None => Ok(None),
    }
}
