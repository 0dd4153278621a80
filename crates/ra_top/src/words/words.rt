//! The commands by their words.

ghost use Rattle.std.specs.Prelude.{◌≡◌, ◌==◌, ◌≤◌, ◌∷◌, [], ℕ, List, IfOk, option_map, length, nat_le, IsTrue, ◌<◌, ◌^◌};
ghost use Rattle.std.specs.List.{list_all};
ghost use Rattle.ra_top.specs.Words.Words.{is_word, is_digit, is_number, number_of, plain_words, trace_form, alloc_form, asked, asks, command_of, bytes_of, texts_of};
ghost use Rattle.clap.specs.Words.{app_of};
ghost use Rattle.ra_top.specs.Words.Parser.{parser};

use clap::error::ErrorKind;
use clap::{Arg, ArgAction, Command as Parser};
use pipeline::guarded::Allocator;
use std::alloc::{AllocError, Global};

/// What the program is asked to do. A target is a file's name, or `-` for the built-in target; a file
/// is its name, or `-` for standard input.
#[derive(Clone, Copy)]
pub enum Command<'a> {
    /// TARGET and FILE: every document, functions allocated by this allocator.
    Alloc(Allocator, &'a str, &'a str),
    /// TARGET and FILE: whether each function is valid before allocation.
    VerifySource(&'a str, &'a str),
    /// TARGET and FILE: whether each function is valid after allocation.
    VerifyAllocated(&'a str, &'a str),
    /// TARGET, FILE, NAME, N and SEED: a run of the function of that name, through N counted
    /// instructions, in the environment of SEED. Both numbers are below 1,000,000,000.
    Run(&'a str, &'a str, &'a str, u64, u64),
    /// TARGET and FILE: frequencies and live segments.
    Intervals(&'a str, &'a str),
    /// TARGET and FILE: the steps of this allocator.
    Trace(Allocator, &'a str, &'a str),
    /// TARGET, SOURCE and ALLOCATED: whether each function of the second file is an allocation of its
    /// partner in the first.
    Check(&'a str, &'a str, &'a str),
    /// SEED, below 1,000,000,000: a generated function, allocated and run.
    Gen(u64),
}

fn are_digits(word: &[u8]) -> bool
    ensures { result ≡ list_all is_digit word.now }
{
    word.iter().all(|b| b'0' <= *b && *b <= b'9')
}

/// Whether a word is 1 to 9 decimal digits.
fn is_number(word: &str) -> bool
    ensures { result ≡ is_number word.now }
{
    let bytes = word.as_bytes();
    bytes.len() >= 1 && (bytes.len() <= 9 && are_digits(bytes))
}

/// The number that 1 to 9 digits write.
fn number(digits: &[u8]) -> u64
    requires { IsTrue (is_number digits.now) }
    ensures value { result ≡ number_of digits.now }
    ensures within { result < 10 ^ 9 }
{
    let mut n = 0u64;
    for b in digits {
        n = n * 10 + (*b - b'0') as u64;
    }
    n
}

/// The parser of the words: each is a value of one argument, and there is neither help nor version.
fn parser<'a>(alloc: Global) -> Result<Parser<'a>, AllocError>
    ensures { IfOk result (λ p. app_of p ≡ parser) }
{
    let words = Arg::new(alloc, "words").action(ArgAction::Append);
    Parser::new(alloc, "llra")
        .no_binary_name(true)
        .disable_help_flag(true)
        .disable_version_flag(true)
        .arg(words)
}

/// The words without the first `--`; None where a word before it looks like an option.
fn plain_words<'a>(alloc: Global, words: &'a [String]) -> Result<Option<Vec<&'a str>>, AllocError>
    ensures { IfOk result (λ r. option_map (λ v. texts_of v.items) r ≡ plain_words (bytes_of words.now)) }
{
    match parser(alloc)?.try_get_matches_from(words) {
        Ok(matches) => match matches.get_strs("words") {
            None => Ok(Some(Vec::new(alloc))),
            Some(plain) => Ok(Some(Vec::from_slice(alloc, plain)?)),
        },
        Err(fault) => match fault.kind() {
            ErrorKind::OutOfMemory => Err(AllocError),
            _ => Ok(None),
        },
    }
}

/// A command of a name, TARGET and FILE.
fn of_a_file<'a>(name: &str, target: &'a str, file: &'a str) -> Option<Command<'a>>
    ensures { option_map asks result ≡ asked (name.now ∷ target.now ∷ file.now ∷ []) }
{
    if name == "alloc" {
        Some(Command::Alloc(Allocator::Greedy, target, file))
    } else if name == "intervals" {
        Some(Command::Intervals(target, file))
    } else if name == "trace" {
        Some(Command::Trace(Allocator::Greedy, target, file))
    } else {
        None
    }
}

/// The allocator of a form of `trace`.
fn trace_form(form: &str) -> Option<Allocator>
    ensures { result ≡ trace_form form.now }
{
    if form == "cut" {
        Some(Allocator::Cut)
    } else if form == "basic" {
        Some(Allocator::Basic)
    } else {
        None
    }
}

/// The allocator of a form of `alloc`.
fn alloc_form(form: &str) -> Option<Allocator>
    ensures { result ≡ alloc_form form.now }
{
    if form == "colour" {
        Some(Allocator::Colour)
    } else {
        trace_form(form)
    }
}

/// The command of a name and a form, TARGET and FILE; the three words behind `check` are TARGET, SOURCE
/// and ALLOCATED.
fn of_a_form<'a>(name: &str, form: &'a str, target: &'a str, file: &'a str) -> Option<Command<'a>>
    ensures { option_map asks result ≡ asked (name.now ∷ form.now ∷ target.now ∷ file.now ∷ []) }
{
    if name == "alloc" {
        match alloc_form(form) {
            Some(allocator) => Some(Command::Alloc(allocator, target, file)),
            None => None,
        }
    } else if name == "trace" {
        match trace_form(form) {
            Some(allocator) => Some(Command::Trace(allocator, target, file)),
            None => None,
        }
    } else if name == "verify" && form == "source" {
        Some(Command::VerifySource(target, file))
    } else if name == "verify" && form == "allocated" {
        Some(Command::VerifyAllocated(target, file))
    } else if name == "check" {
        Some(Command::Check(form, target, file))
    } else {
        None
    }
}

/// The command that plain words spell.
fn parse_command<'a>(words: &[&'a str]) -> Option<Command<'a>>
    ensures { option_map asks result ≡ asked (texts_of words.now) }
{
    match words {
        [name, seed] => {
            if *name == "gen" && is_number(seed) {
                Some(Command::Gen(number(seed.as_bytes())))
            } else {
                None
            }
        }
        [name, target, file] => of_a_file(name, target, file),
        [name, form, target, file] => of_a_form(name, form, target, file),
        [name, target, file, function, n, seed] => {
            if *name == "run" && (is_number(n) && is_number(seed)) {
                Some(Command::Run(
                    target,
                    file,
                    function,
                    number(n.as_bytes()),
                    number(seed.as_bytes()),
                ))
            } else {
                None
            }
        }
        _ => None,
    }
}

/// What the program is asked to do by its words, those after its name. None, a usage fault, comes
/// exactly where they are none of the program's lists.
pub fn read_words<'a>(alloc: Global, words: &'a [String]) -> Result<Option<Command<'a>>, AllocError>
    ensures { IfOk result (λ c. option_map asks c ≡ command_of (bytes_of words.now)) }
{
    match plain_words(alloc, words)? {
        None => Ok(None),
        Some(plain) => Ok(parse_command(plain.as_slice())),
    }
}
