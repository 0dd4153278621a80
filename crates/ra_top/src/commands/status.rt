//! How the program ends, and the line that says so.

ghost use Rattle.std.specs.Prelude.{◌≡◌, ◌++◌, OnOk, codes};
ghost use Rattle.std.specs.List.{flat_map};
ghost use Rattle.ra_top.specs.Devices.Device.{HasCause, WritesAll, WritesPart};
ghost use Rattle.ra_top.specs.Commands.Status.{line_of, fault_line, limit_line, refusal_line, joined, limit_word, target_kind_word, text_kind_word};

use crate::devices::moves::write_all;
use crate::devices::{Failed, Sink};
use machine_verify::Invalid;
use mir_func::Place;
use mir_text::{TextFault, TextKind};
pub use pipeline::guarded::LimitName;
use target_desc::{TargetFault, TargetKind};

/// How the program ends.
#[derive(Clone, Copy, Debug, PartialEq, Eq)]
pub enum Status {
    /// All output was written.
    Done,
    /// The words ask for nothing that the program does.
    Usage,
    /// The target file spells no target.
    Target(TargetFault),
    /// A document of the file spells none.
    Text(TextFault),
    /// A count passes its number.
    Limit(LimitName),
    /// A function breaks a rule of its form.
    Invalid(Invalid),
    /// A call of the files failed.
    ReadFault,
    /// A call of the output failed.
    WriteFault,
    /// Memory ran out.
    Memory,
    /// Operands of an instruction have no registers that differ as they must.
    Unassignable(Place),
    /// The run of the allocator came to no end, the checker of allocations didn't say Yes to what it
    /// made, or its text doesn't keep the source's.
    NotYet,
}

impl Status {
    ghost use Rattle.ra_top.specs.Commands.Status.{code_of};

    /// The number that the process ends with. It takes no memory.
    pub fn code(&self) -> u8
        ensures { result ≡ code_of self.now }
    {
        match self {
            Status::Done => 0,
            Status::Target(_) => 1,
            Status::Text(_) => 1,
            Status::Limit(_) => 1,
            Status::Invalid(_) => 1,
            Status::Usage => 2,
            Status::ReadFault => 3,
            Status::WriteFault => 4,
            Status::Memory => 5,
            Status::Unassignable(_) => 6,
            Status::NotYet => 7,
        }
    }
}

fn limit_word(limit: LimitName) -> &'static str
    ensures { result.now ≡ limit_word limit }
{
    match limit {
        LimitName::TargetBytes => "targetbytes",
        LimitName::File => "file",
        LimitName::Document => "document",
        LimitName::Blocks => "blocks",
        LimitName::Instructions => "instructions",
        LimitName::Registers => "registers",
        LimitName::Variables => "variables",
        LimitName::Ranges => "ranges",
    }
}

fn target_kind_word(kind: TargetKind) -> &'static str
    ensures { result.now ≡ target_kind_word kind }
{
    match kind {
        TargetKind::Layout => "layout",
        TargetKind::Name => "name",
        TargetKind::Rule => "rule",
        TargetKind::End => "end",
    }
}

fn text_kind_word(kind: TextKind) -> &'static str
    ensures { result.now ≡ text_kind_word kind }
{
    match kind {
        TextKind::Layout => "layout",
        TextKind::Token => "token",
        TextKind::Name => "name",
        TextKind::End => "end",
    }
}

/// Writes the line of a status, for a file of a name and with a detail: the number of a line of that
/// file, or what is said of a function. It takes no memory.
pub fn write_line<E: Sink>(
    err: &mut E,
    status: Status,
    file: &str,
    detail: &[u8],
) -> Result<(), Failed>
    ensures all { OnOk result (WritesAll (E.written err.old) (E.written err.new) (line_of status file.now detail.now)) }
    ensures part { WritesPart (E.written err.old) (E.written err.new) (line_of status file.now detail.now) }
    ensures cause { HasCause (E.faults err.old) (E.faults err.new) result }
{
    match status {
        Status::Done => Ok(()),
        Status::Usage => write_text(err, "llra: usage\n"),
        Status::Target(fault) => {
            write_fault(err, file, detail, ": target ", target_kind_word(fault.kind))
        }
        Status::Text(fault) => write_fault(err, file, detail, ": ", text_kind_word(fault.kind)),
        Status::Limit(limit) => write_limit(err, file, limit_word(limit)),
        Status::Invalid(_) => write_refusal(err, detail),
        Status::Unassignable(_) => write_refusal(err, detail),
        Status::ReadFault => write_named(err, "llra: cannot read ", file),
        Status::WriteFault => write_text(err, "llra: cannot write\n"),
        Status::Memory => write_text(err, "llra: out of memory\n"),
        Status::NotYet => write_text(err, "llra: not yet\n"),
    }
}

/// Writes the line of a fault of a text.
fn write_fault<E: Sink>(
    err: &mut E,
    file: &str,
    detail: &[u8],
    before: &str,
    kind: &str,
) -> Result<(), Failed>
    ensures all { OnOk result (WritesAll (E.written err.old) (E.written err.new) (fault_line file.now detail.now before.now kind.now)) }
    ensures part { WritesPart (E.written err.old) (E.written err.new) (fault_line file.now detail.now before.now kind.now) }
    ensures cause { HasCause (E.faults err.old) (E.faults err.new) result }
{
    let parts: [&[u8]; 7] = [
        b"llra: ",
        file.as_bytes(),
        b":",
        detail,
        before.as_bytes(),
        kind.as_bytes(),
        b"\n",
    ];
    write_parts(err, &parts)
}

/// Writes the line of a limit.
fn write_limit<E: Sink>(err: &mut E, file: &str, limit: &str) -> Result<(), Failed>
    ensures all { OnOk result (WritesAll (E.written err.old) (E.written err.new) (limit_line file.now limit.now)) }
    ensures part { WritesPart (E.written err.old) (E.written err.new) (limit_line file.now limit.now) }
    ensures cause { HasCause (E.faults err.old) (E.faults err.new) result }
{
    let parts: [&[u8]; 5] = [
        b"llra: ",
        file.as_bytes(),
        b": limit ",
        limit.as_bytes(),
        b"\n",
    ];
    write_parts(err, &parts)
}

/// Writes the line of a function that is refused.
fn write_refusal<E: Sink>(err: &mut E, detail: &[u8]) -> Result<(), Failed>
    ensures all { OnOk result (WritesAll (E.written err.old) (E.written err.new) (refusal_line detail.now)) }
    ensures part { WritesPart (E.written err.old) (E.written err.new) (refusal_line detail.now) }
    ensures cause { HasCause (E.faults err.old) (E.faults err.new) result }
{
    let parts: [&[u8]; 3] = [b"llra: ", detail, b"\n"];
    write_parts(err, &parts)
}

/// Writes a line that ends with a name.
fn write_named<E: Sink>(err: &mut E, before: &str, name: &str) -> Result<(), Failed>
    ensures all { OnOk result (WritesAll (E.written err.old) (E.written err.new) (before.now ++ (name.now ++ codes "\n"))) }
    ensures part { WritesPart (E.written err.old) (E.written err.new) (before.now ++ (name.now ++ codes "\n")) }
    ensures cause { HasCause (E.faults err.old) (E.faults err.new) result }
{
    write_text(err, before)?;
    write_text(err, name)?;
    write_text(err, "\n")
}

fn write_text<E: Sink>(err: &mut E, text: &str) -> Result<(), Failed>
    ensures all { OnOk result (WritesAll (E.written err.old) (E.written err.new) text.now) }
    ensures part { WritesPart (E.written err.old) (E.written err.new) text.now }
    ensures cause { HasCause (E.faults err.old) (E.faults err.new) result }
{
    write_all(err, text.as_bytes())
}

/// Writes parts one after the other. After a fault nothing more is written.
fn write_parts<E: Sink>(err: &mut E, parts: &[&[u8]]) -> Result<(), Failed>
    ensures all { OnOk result (WritesAll (E.written err.old) (E.written err.new) (joined parts.now)) }
    ensures part { WritesPart (E.written err.old) (E.written err.new) (joined parts.now) }
    ensures cause { HasCause (E.faults err.old) (E.faults err.new) result }
{
    for part in parts {
        write_all(err, part)?;
    }
    Ok(())
}
