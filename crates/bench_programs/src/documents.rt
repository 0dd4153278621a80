//! Targets, documents and functions that files hold.

ghost use Rattle.std.specs.Prelude.{◌≤◌, IfOk, vec_len};

use anyhow::{Context, Result, bail};
use machine_verify::{VerifyStop, verify_source};
use mir_func::{Func, Valid};
use mir_text::{Doc, TextStop, print_doc, read_doc};
use std::alloc::{AllocError, Global};
use std::fs;
use std::rt::HostRuntime;
use target_base::{Target, mini};
use target_desc::{TargetFault, TargetStop, read_target};

/// The most bytes of a document.
const LONGEST: usize = 4_194_304;

/// Prints a line.
pub fn tell(rt: &HostRuntime, line: &str) -> Result<()> {
    println!(rt; "{line}")?;
    Ok(())
}

/// The text of bytes; empty where they spell none.
pub fn text_of(bytes: &[u8]) -> &str {
    match str::from_utf8(bytes) {
        Ok(text) => text,
        Err(_) => "",
    }
}

/// The target of a word.
pub fn target_of(rt: &HostRuntime, word: &str) -> Result<Target> {
    if word == "-" {
        return Ok(mini(rt.alloc())?);
    }
    let bytes = fs::read(rt, word).context("reading the target")?;
    match read_target(rt.alloc(), bytes.as_slice()) {
        Ok(target) => Ok(target),
        Err(TargetStop::Fault(_)) => bail!("no target"),
        Err(TargetStop::Memory(_)) => bail!("out of memory"),
    }
}

/// The fault of a target file; None where it spells a target.
fn target_fault(rt: &HostRuntime, path: &str) -> Result<Option<TargetFault>> {
    let bytes = fs::read(rt, path).context("reading the file")?;
    match read_target(rt.alloc(), bytes.as_slice()) {
        Ok(_) => Ok(None),
        Err(TargetStop::Fault(fault)) => Ok(Some(fault)),
        Err(TargetStop::Memory(_)) => bail!("out of memory"),
    }
}

/// Answers `--targets`.
pub fn tell_targets(rt: &HostRuntime, paths: &[String]) -> Result<()> {
    for path in paths {
        match target_fault(rt, path.as_str())? {
            None => println!(rt; "ok")?,
            Some(fault) => println!(rt; "{} {}", fault.line, fault.kind)?,
        }
    }
    Ok(())
}

/// The bytes of a file, if it isn't longer than a document may be.
fn bytes_of(rt: &HostRuntime, path: &str, aim: &'static str) -> Result<Vec<u8>>
    ensures { IfOk result (λ bytes. vec_len bytes ≤ 4194304) }
{
    let bytes = fs::read(rt, path).context(aim)?;
    if bytes.len() > LONGEST {
        bail!("the document is too long");
    }
    Ok(bytes)
}

/// How many bytes are printed of a document.
fn printed_length(alloc: Global, target: &Target, doc: &Doc) -> Result<usize, AllocError> {
    let text = print_doc(alloc, target, doc)?;
    Ok(text.len())
}

/// How many bytes are printed of the document in a file, or else the line of the file's fault.
fn document_length(rt: &HostRuntime, target: &Target, path: &str) -> Result<Result<usize, u64>> {
    let bytes = bytes_of(rt, path, "reading the file")?;
    match read_doc(rt.alloc(), target, true, 1, bytes.as_slice()) {
        Ok(doc) => Ok(Ok(printed_length(rt.alloc(), target, &doc)?)),
        Err(TextStop::Fault(fault)) => Ok(Err(fault.line)),
        Err(TextStop::Memory(_)) => bail!("out of memory"),
    }
}

/// Prints how many bytes are printed of each document, or the line of its fault.
fn tell_each(rt: &HostRuntime, target: &Target, paths: &[String]) -> Result<()> {
    for path in paths {
        match document_length(rt, target, path.as_str())? {
            Ok(length) => println!(rt; "{length} bytes")?,
            Err(line) => println!(rt; "a fault in line {line}")?,
        }
    }
    Ok(())
}

/// Answers `--documents`.
pub fn tell_documents(rt: &HostRuntime, paths: &[String]) -> Result<()> {
    let target = mini(rt.alloc())?;
    tell_each(rt, &target, paths)
}

/// The function of a document; None where the file holds none.
pub fn function_of(rt: &HostRuntime, target: &Target, path: &str) -> Result<Option<Func>> {
    let bytes = bytes_of(rt, path, "reading a function")?;
    match read_doc(rt.alloc(), target, true, 1, bytes.as_slice()) {
        Ok(Doc::Function(_, f)) => Ok(Some(f)),
        Ok(_) => Ok(None),
        Err(TextStop::Fault(_)) => Ok(None),
        Err(TextStop::Memory(_)) => bail!("out of memory"),
    }
}

/// The source where it is valid.
pub fn source_of(rt: &HostRuntime, target: &Target, f: Func) -> Result<Option<Valid>> {
    match verify_source(rt.alloc(), target, f) {
        Ok(source) => Ok(Some(source)),
        Err(VerifyStop::Invalid(_)) => Ok(None),
        Err(VerifyStop::Memory(_)) => bail!("out of memory"),
    }
}
