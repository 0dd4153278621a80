//! What the verifiers say of a function of which one operand is replaced by another, also by one that no text spells.

use crate::documents::{function_of, tell};
use crate::regions::register_of;
use anyhow::{Context, Result, bail};
use machine_verify::{VerifyStop, verify_allocated, verify_source};
use mir_func::{Func, Loc, RegOp};
use std::rt::HostRuntime;
use target_base::{IndexId, Reg, Target};

/// A plain use of a register.
fn plain_use(register: Reg) -> RegOp {
    RegOp {
        loc: Loc::Fixed(register),
        index: None,
        def: false,
        implicit: false,
        undef: false,
        early: false,
        renamable: false,
        tie: None,
    }
}

/// Changes an operand as a word says: `def`, `implicit`, `tied`, or the number of a subregister index.
fn change(operand: &mut RegOp, word: &str) -> Result<()> {
    match word {
        "def" => operand.def = true,
        "implicit" => operand.implicit = true,
        "tied" => operand.tie = Some(0),
        _ => operand.index = Some(IndexId(word.parse::<u16>().context("reading an index")?)),
    }
    Ok(())
}

/// The operand of a register that the words describe.
fn operand_of(target: &Target, name: &str, words: &[String]) -> Result<RegOp> {
    let Some(register) = register_of(target, name) else {
        bail!("no such register");
    };
    let mut operand = plain_use(register);
    for word in words {
        change(&mut operand, word.as_str())?;
    }
    Ok(operand)
}

/// Prints why a verifier refuses the function, or that it is valid.
fn tell_validity(rt: &HostRuntime, form: &str, stop: Option<VerifyStop>) -> Result<()> {
    match stop {
        None => println!(rt; "{form} valid")?,
        Some(stop) => println!(rt; "{form} {stop}")?,
    }
    Ok(())
}

/// Prints what both verifiers say of a function.
fn verify(rt: &HostRuntime, target: &Target, f: Func) -> Result<()> {
    let allocated = verify_allocated(rt.alloc(), target, &f).err();
    let source = verify_source(rt.alloc(), target, f).err();
    tell_validity(rt, "allocated", allocated)?;
    tell_validity(rt, "source", source)
}

/// Prints what both verifiers say of the function of a file, where an operand is replaced.
fn tell_replaced(
    rt: &HostRuntime,
    target: &Target,
    path: &str,
    id: u32,
    place: usize,
    operand: RegOp,
) -> Result<()> {
    match function_of(rt, target, path)? {
        Some(mut f) => {
            f.rename(id, place, operand);
            verify(rt, target, f)
        }
        None => tell(rt, "no function"),
    }
}

/// Answers `--operand`.
pub fn answer_operand(rt: &HostRuntime, target: &Target, words: &[String]) -> Result<()> {
    let [path, id, place, register, words @ ..] = words else {
        bail!("a file, an instruction, an operand and a register are missing");
    };
    let id = id.as_str().parse::<u32>().context("reading an id")?;
    let place = place
        .as_str()
        .parse::<usize>()
        .context("reading an operand")?;
    let operand = operand_of(target, register.as_str(), words)?;
    tell_replaced(rt, target, path.as_str(), id, place, operand)
}
