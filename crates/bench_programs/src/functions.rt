//! What is asked of functions by themselves.

use crate::documents::{function_of, tell, text_of};
use crate::lives::tell_live;
use anyhow::Result;
use mir_func::Func;
use mir_text::{Doc, print_doc};
use slot_colour::colour_slots;
use std::rt::HostRuntime;
use target_base::{Bytes, Target};

/// What is asked of a function.
#[derive(Clone, Copy)]
pub enum FunctionQuestion {
    /// What is live.
    Live,
    /// Its text once its spill slots are coloured.
    Coloured,
}

/// Prints a function.
fn tell_function(rt: &HostRuntime, target: &Target, f: Func) -> Result<()> {
    let doc = Doc::Function(Bytes::new(rt.alloc()), f);
    let text = print_doc(rt.alloc(), target, &doc)?;
    print!(rt; "{}", text_of(text.as_slice()))?;
    Ok(())
}

/// Answers a question of a function.
fn answer_function(
    rt: &HostRuntime,
    question: FunctionQuestion,
    target: &Target,
    f: Func,
) -> Result<()> {
    match question {
        FunctionQuestion::Live => tell_live(rt, target, f),
        FunctionQuestion::Coloured => {
            tell_function(rt, target, colour_slots(rt.alloc(), target, f)?)
        }
    }
}

/// Answers a question of the function of each of these files.
pub fn answer_functions(
    rt: &HostRuntime,
    question: FunctionQuestion,
    target: &Target,
    paths: &[String],
) -> Result<()> {
    for path in paths {
        match function_of(rt, target, path.as_str())? {
            Some(f) => answer_function(rt, question, target, f)?,
            None => tell(rt, "no function")?,
        }
    }
    Ok(())
}
