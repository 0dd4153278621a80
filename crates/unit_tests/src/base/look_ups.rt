//! The look-ups of the built-in target against values that an independent model gives.

use std::process::Abort;
use std::test::Fail;
use target_base::{ClassId, IndexId, OpId, Reg, Target, mini};

const NO_INDEX: u16 = 99;

/// Register, index, and the register of these lanes, or 99 for none.
static SUBS: [(u16, u16, u16); 12] = [
    (0, 0, 8),
    (0, 1, 12),
    (0, 2, 4),
    (0, 3, 0),
    (0, 4, 99),
    (4, 3, 99),
    (8, 0, 8),
    (8, 1, 99),
    (16, 4, 1),
    (17, 3, 2),
    (18, 0, 99),
    (18, 3, 18),
];

/// Class, index or 99 for none, its part, and the class that copies of it go through.
static PARTS: [(u16, u16, u16, u16); 9] = [
    (0, 99, 0, 0),
    (0, 1, 2, 2),
    (0, 2, 1, 1),
    (1, 0, 2, 2),
    (3, 99, 3, 0),
    (3, 3, 0, 0),
    (4, 99, 4, 4),
    (4, 2, 1, 1),
    (4, 4, 0, 0),
];

/// Classes and indexes that don't fit them.
static MISFITS: [(u16, u16); 4] = [(0, 4), (1, 3), (2, 1), (3, 4)];

/// Class, its spill opcode, its reload opcode.
static SLOT_OPS: [(u16, u16, u16); 5] = [
    (0, 45, 49),
    (1, 46, 50),
    (2, 47, 51),
    (3, 45, 49),
    (4, 48, 52),
];

/// Two registers and whether they share a unit.
static ALIASES: [(u16, u16, bool); 6] = [
    (0, 8, true),
    (4, 12, true),
    (8, 12, false),
    (16, 1, true),
    (16, 2, false),
    (18, 18, true),
];

fn index(i: u16) -> Option<IndexId> {
    if i == NO_INDEX {
        None
    } else {
        Some(IndexId(i))
    }
}

fn check_subs(rt: &impl Abort, t: &Target) {
    for (r, i, want) in &SUBS {
        assert!(rt; (*r as usize) < t.regs.len());
        assert!(rt; (*i as usize) < t.indexes.len());
        let found = match t.sub_of(Reg(*r), IndexId(*i)) {
            None => 99,
            Some(s) => s.0,
        };
        assert_eq!(rt; found, *want);
    }
}

fn check_part(rt: &impl Abort, t: &Target, c: ClassId, i: Option<IndexId>) -> (u16, u16) {
    assert!(rt; (c.0 as usize) < t.classes.len());
    if let Some(i) = i {
        assert!(rt; (i.0 as usize) < t.indexes.len());
    }
    assert!(rt; t.fits(c, i));
    (t.part(c, i).0, t.move_of(c, i).0)
}

fn check_slot_ops(rt: &impl Abort, t: &Target) {
    for (c, spill, reload) in &SLOT_OPS {
        assert!(rt; (*c as usize) < t.classes.len());
        assert_eq!(rt; t.spill_op(ClassId(*c)), OpId(*spill));
        assert_eq!(rt; t.reload_op(ClassId(*c)), OpId(*reload));
    }
}

fn check_aliases(rt: &impl Abort, t: &Target) {
    for (a, b, want) in &ALIASES {
        assert!(rt; (*a as usize) < t.regs.len());
        assert!(rt; (*b as usize) < t.regs.len());
        assert_eq!(rt; t.alias(Reg(*a), Reg(*b)), *want);
    }
}

#[test]
fn answers_as_the_model(rt: HostRuntime) -> Result<(), Fail> {
    let alloc = rt.alloc();
    let t = mini(alloc)?.copy(alloc)?;
    assert_eq!(rt; t.version(), 1);
    check_subs(&rt, &t);
    for (c, i, part, moved) in &PARTS {
        assert_eq!(rt;
            check_part(&rt, &t, ClassId(*c), index(*i)),
            (*part, *moved)
        );
    }
    for (c, i) in &MISFITS {
        assert!(rt; (*c as usize) < t.classes.len());
        assert!(rt; (*i as usize) < t.indexes.len());
        assert!(rt; !t.fits(ClassId(*c), Some(IndexId(*i))));
    }
    check_slot_ops(&rt, &t);
    check_aliases(&rt, &t);
    Ok(())
}
