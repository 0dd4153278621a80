//! Parts of the program alone, for benches, comparisons and tables of tests. Its words are groups, each begun by what is
//! asked (TARGET `-` is the built-in target):
//!
//! - `--targets FILE..` reads target files, and prints of each `ok`, or the line and the kind of the fault;
//! - `--documents FILE..` reads documents over the built-in target, each a file of its own, and prints how many bytes
//!   are printed of each: reading and printing alone;
//! - `--pairs TARGET SOURCE ALLOCATED ..` asks the checker of allocations: of each pair of a source and an allocated
//!   function, a document each, it prints `yes`, `no` and a place, or why the pair isn't asked;
//! - `--texts TARGET SOURCE ALLOCATED ..` prints of each such pair, without asking more, whether the allocated function
//!   keeps the text of the source: `kept` or `lost`;
//! - `--reserved TARGET SOURCE ALLOCATED ..` prints of each such pair whether the allocated function holds in reserved
//!   units what the source holds there, wherever that can be seen: `held` or `lost`;
//! - `--region TARGET FILE WORD..` makes the function of a document ready as before a run of the allocator; then a word
//!   `V=R` assigns the range V to the register R, and a word `V` prints the region of least cost of the range V, by the
//!   lines that the module `regions` says;
//! - `--live TARGET FILE..` prints what is live in the function of each document, by the lines that the module `lives`
//!   says;
//! - `--edits TARGET SEED COUNT FILE..` does COUNT lists of random edits to the function of each document, a valid
//!   source, with what is live in it, and compares this behind each list with what is computed anew, by the lines that
//!   the module `edits` says;
//! - `--coloured TARGET FILE..` prints the function of each document, whose registers are physical, with its spill slots
//!   coloured;
//! - `--operand TARGET FILE ID OPERAND REGISTER WORD..` puts a physical register in the place of an operand of the
//!   instruction of an id (the words are `def`, `implicit`, `tied`, which is to the operand 0, or the number of a
//!   subregister index), and prints what each verifier says of the function, which a text may not spell;
//! - `--cut NODES ARCS SEED ROUNDS` makes a random net with so many nodes (2 to 4,096) and at most so many arcs (at most
//!   16,384), finds a least cut of it so many times, and prints `cost` and what it costs. bench/cut.cc makes the same
//!   net and prints the same;
//! - `--net NODES FROM-TO:CAPACITY..` finds a least cut of the net of these arcs, and prints how many arcs it has, what
//!   the cut costs, and the nodes on the side of the source.
#![tactic(auto)]

mod cuts;
mod documents;
mod edits;
mod functions;
mod live_differences;
mod lives;
mod operands;
mod pairs;
mod random_edits;
mod regions;

use crate::cuts::{answer_cut, answer_net};
use crate::documents::{target_of, tell_documents, tell_targets};
use crate::edits::answer_edits;
use crate::functions::{FunctionQuestion, answer_functions};
use crate::operands::answer_operand;
use crate::pairs::{PairQuestion, ValidQuestion, answer_pairs};
use crate::regions::answer_region;
use anyhow::{Result, bail};
use std::env;
use std::rt::HostRuntime;
use target_base::Target;

/// What is asked over a target.
#[derive(Clone, Copy)]
enum Question {
    /// Something of pairs of functions.
    Pairs(PairQuestion),
    /// Something of functions.
    Functions(FunctionQuestion),
    /// Regions of ranges.
    Region,
    /// Whether edits keep what is live exact.
    Edits,
    /// Whether a function with another operand is valid.
    Operand,
}

/// The question over a target that a word asks.
fn question_of(word: &str) -> Option<Question> {
    match word {
        "--pairs" => Some(Question::Pairs(PairQuestion::Valid(ValidQuestion::Verdict))),
        "--reserved" => Some(Question::Pairs(PairQuestion::Valid(ValidQuestion::Reserved))),
        "--texts" => Some(Question::Pairs(PairQuestion::Text)),
        "--live" => Some(Question::Functions(FunctionQuestion::Live)),
        "--coloured" => Some(Question::Functions(FunctionQuestion::Coloured)),
        "--region" => Some(Question::Region),
        "--edits" => Some(Question::Edits),
        "--operand" => Some(Question::Operand),
        _ => None,
    }
}

/// Answers a question over a target.
fn answer_over(
    rt: &HostRuntime,
    question: Question,
    target: &Target,
    words: &[String],
) -> Result<()> {
    match question {
        Question::Pairs(question) => answer_pairs(rt, question, target, words),
        Question::Functions(question) => answer_functions(rt, question, target, words),
        Question::Region => answer_region(rt, target, words),
        Question::Edits => answer_edits(rt, target, words),
        Question::Operand => answer_operand(rt, target, words),
    }
}

/// Answers a question over the target that the first of its words names.
fn answer_question(rt: &HostRuntime, question: Question, words: &[String]) -> Result<()> {
    let [target, words @ ..] = words else {
        bail!("a target is missing");
    };
    let target = target_of(rt, target.as_str())?;
    answer_over(rt, question, &target, words)
}

/// Answers a group: the word that begins it, and those behind it.
fn answer_group(rt: &HostRuntime, kind: &str, words: &[String]) -> Result<()> {
    if let Some(question) = question_of(kind) {
        return answer_question(rt, question, words);
    }
    match kind {
        "--targets" => tell_targets(rt, words),
        "--documents" => tell_documents(rt, words),
        "--cut" => answer_cut(rt, words),
        "--net" => answer_net(rt, words),
        _ => bail!(
            "a group begins with --targets, --documents, --pairs, --texts, --reserved, --region, --live, --edits, --coloured, --operand, --cut or --net"
        ),
    }
}

/// Whether a word begins a group.
fn begins_group(word: &str) -> bool {
    word.starts_with("--")
}

/// The words behind this many, up to the next that begins a group.
fn words_behind(words: &[String], count: usize) -> &[String] {
    let (_, behind) = words.split_at(count.min(words.len()));
    let mut length: usize = 0;
    for word in behind {
        if begins_group(word.as_str()) {
            break;
        }
        length = length.saturating_add(1);
    }
    let (own, _) = behind.split_at(length.min(behind.len()));
    own
}

/// Answers all groups in turn. Words before the first aren't looked at.
fn answer_all(rt: &HostRuntime, words: &[String]) -> Result<()> {
    let mut count: usize = 0;
    for word in words {
        count = count.saturating_add(1);
        if begins_group(word.as_str()) {
            answer_group(rt, word.as_str(), words_behind(words, count))?;
        }
    }
    Ok(())
}

/// The words of the program.
fn words_of(rt: &HostRuntime) -> Result<Vec<String>> {
    let mut words = Vec::new(rt.alloc());
    for word in env::args(rt)?.skip(1) {
        words.push(word)?;
    }
    Ok(words)
}

fn main(rt: HostRuntime) -> Result<()> {
    let words = words_of(&rt)?;
    answer_all(&rt, words.as_slice())
}
