//! A function that is read, with one register operand replaced by another that no text spells. Each
//! row breaks one rule alone in both forms, or none.

use machine_verify::{Invalid, Place, VerifyStop, verify_allocated, verify_source};
use mir_func::{Func, Loc, RegOp};
use mir_text::{Doc, TextStop, read_doc};
use std::alloc::{AllocError, Global};
use std::process::Abort;
use std::test::Fail;
use target_base::{IndexId, Reg, Target, mini};

const TEXT: &[u8] =
    b"---\nname: f\nbody: |\n  bb.0:\n    liveins: $eax\n    NOP $eax\n    $ecx = COPY $eax\n    CMP32rr $eax, $ecx, implicit-def $eflags\n    RET implicit $ecx\n...\n";

const EAX: Reg = Reg(0);

const ECX: Reg = Reg(1);

const EFLAGS: Reg = Reg(18);

const SUB_8: Option<IndexId> = Some(IndexId(0));

const SUB_16: Option<IndexId> = Some(IndexId(2));

/// The instruction whose operand is replaced, by its place, the operand's place, and the rule that
/// fails there.
#[derive(Clone, Copy)]
struct Row {
    at: u32,
    operand: usize,
    to: RegOp,
    rule: Option<u8>,
}

fn fixed(reg: Reg, index: Option<IndexId>) -> RegOp {
    RegOp {
        loc: Loc::Fixed(reg),
        index,
        def: false,
        implicit: false,
        undef: false,
        early: false,
        renamable: false,
        tie: None,
    }
}

fn definition(reg: Reg, index: Option<IndexId>) -> RegOp {
    RegOp {
        def: true,
        ..fixed(reg, index)
    }
}

/// The function of the text, where it spells one.
fn read(rt: &impl Abort, alloc: Global, target: &Target) -> Result<Option<Func>, AllocError> {
    assert!(rt; TEXT.len() <= 4_194_304);
    match read_doc(alloc, target, false, 1, TEXT) {
        Ok(Doc::Function(_, f)) => Ok(Some(f)),
        Ok(_) | Err(TextStop::Fault(_)) => Ok(None),
        Err(TextStop::Memory(e)) => Err(e),
    }
}

fn source_fault(alloc: Global, target: &Target, f: Func) -> Result<Option<Invalid>, AllocError> {
    match verify_source(alloc, target, f) {
        Ok(_) => Ok(None),
        Err(VerifyStop::Invalid(fault)) => Ok(Some(fault)),
        Err(VerifyStop::Memory(e)) => Err(e),
    }
}

fn allocated_fault(
    alloc: Global,
    target: &Target,
    f: &Func,
) -> Result<Option<Invalid>, AllocError> {
    match verify_allocated(alloc, target, f) {
        Ok(()) => Ok(None),
        Err(VerifyStop::Invalid(fault)) => Ok(Some(fault)),
        Err(VerifyStop::Memory(e)) => Err(e),
    }
}

/// What both verifiers say of the function with the operand of a row.
fn check_row(
    rt: &impl Abort,
    alloc: Global,
    target: &Target,
    mut f: Func,
    row: &Row,
) -> Result<(), Fail> {
    let at = row.at;
    let wanted = row.rule.map(|rule| Invalid {
        place: Place { block: 0, at },
        rule,
    });
    f.rename(at, row.operand, row.to);
    assert_eq!(rt; allocated_fault(alloc, target, &f)?, wanted);
    assert_eq!(rt; source_fault(alloc, target, f)?, wanted);
    Ok(())
}

fn change(at: u32, operand: usize, to: RegOp, rule: Option<u8>) -> Row {
    Row {
        at,
        operand,
        to,
        rule,
    }
}

/// Physical registers have no index, and a tie stands behind a use.
#[test]
fn refuses_what_no_text_spells(rt: HostRuntime) -> Result<(), Fail> {
    let flags = RegOp {
        implicit: true,
        ..definition(EFLAGS, SUB_8)
    };
    let tied = RegOp {
        tie: Some(0),
        ..definition(ECX, None)
    };
    let rows = [
        change(0, 0, fixed(EAX, None), None),
        change(0, 0, fixed(EAX, SUB_8), Some(4)),
        change(1, 0, definition(ECX, SUB_16), Some(4)),
        change(2, 2, flags, Some(4)),
        change(1, 0, tied, Some(11)),
    ];
    let alloc = rt.alloc();
    let target = mini(alloc)?;
    for row in &rows {
        match read(&rt, alloc, &target)? {
            None => assert!(rt; false, "no function"),
            Some(f) => check_row(&rt, alloc, &target, f, row)?,
        }
    }
    Ok(())
}
