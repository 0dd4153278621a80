//! Spill slots that are coloured, over the built-in target.

use mir_text::{Doc, TextStop, print_doc, read_doc};
use slot_colour::colour_slots;
use std::alloc::{AllocError, Global};
use std::process::Abort;
use std::test::Fail;
use target_base::{Bytes, Target, mini};

/// A function, and what is printed of it once its slots are coloured.
#[derive(Clone, Copy)]
struct Row {
    given: &'static [u8],
    printed: &'static [u8],
}

/// One slot's value is read before the other one's is stored.
const ONE_AFTER_THE_OTHER: Row = Row {
    given: b"---\nname: f\nstack:\n  - { id: 0, type: spill-slot, size: 4, alignment: 4 }\n  - { id: 1, type: spill-slot, size: 4, alignment: 4 }\nbody: |\n  bb.0:\n    liveins: $eax\n    SPILL32 $eax, %stack.0, 0\n    CALL @g, csr\n    $eax = RELOAD32 %stack.0, 0\n    SPILL32 $eax, %stack.1, 0\n    CALL @g, csr\n    $eax = RELOAD32 %stack.1, 0\n    RET implicit $eax\n...\n",
    printed: b"---\nname: f\nstack:\n  - { id: 0, type: spill-slot, size: 4, alignment: 4 }\nbody: |\n  bb.0:\n    liveins: $eax\n    SPILL32 $eax, %stack.0, 0\n    CALL @g, csr\n    $eax = RELOAD32 %stack.0, 0\n    SPILL32 $eax, %stack.0, 0\n    CALL @g, csr\n    $eax = RELOAD32 %stack.0, 0\n    RET implicit $eax\n...\n",
};

/// Both hold something around the call.
const AT_ONE_TIME: &[u8] =
    b"---\nname: f\nstack:\n  - { id: 0, type: spill-slot, size: 4, alignment: 4 }\n  - { id: 1, type: spill-slot, size: 4, alignment: 4 }\nbody: |\n  bb.0:\n    liveins: $eax, $ecx\n    SPILL32 $eax, %stack.0, 0\n    SPILL32 $ecx, %stack.1, 0\n    CALL @g, csr\n    $eax = RELOAD32 %stack.0, 0\n    $ecx = RELOAD32 %stack.1, 0\n    STORE32mr $ecx, 0, $eax\n    RET\n...\n";

/// The second is never read, but is written while the first holds something.
const WRITTEN_BETWEEN: &[u8] =
    b"---\nname: f\nstack:\n  - { id: 0, type: spill-slot, size: 4, alignment: 4 }\n  - { id: 1, type: spill-slot, size: 4, alignment: 4 }\nbody: |\n  bb.0:\n    liveins: $eax, $ecx\n    SPILL32 $eax, %stack.0, 0\n    SPILL32 $ecx, %stack.1, 0\n    $eax = RELOAD32 %stack.0, 0\n    RET implicit $eax\n...\n";

/// The second differs in its alignment, so that the third goes to the first. The lines of other frame
/// objects and of other keys stay.
const NOT_ALIKE: Row = Row {
    given: b"---\nname: f\nfixedStack:\n  - { id: 2, type: spill-slot, size: 4, alignment: 4 }\nstack:\n  - { id: 3, size: 4, alignment: 4 }\n  - { id: 2, type: spill-slot, size: 4, alignment: 4 }\n  - { id: 1, type: spill-slot, size: 4, alignment: 8 }\n  - { id: 0, type: spill-slot, size: 4, alignment: 4 }\nother: 1\n  - { id: 2, type: spill-slot, size: 4, alignment: 4 }\nbody: |\n  bb.0:\n    liveins: $eax\n    SPILL32 $eax, %stack.0, 0\n    $eax = RELOAD32 %stack.0, 0\n    SPILL32 $eax, %stack.1, 0\n    $eax = RELOAD32 %stack.1, 0\n    SPILL32 $eax, %stack.2, 0\n    $eax = RELOAD32 %stack.2, 0\n    RET implicit $eax\n...\n",
    printed: b"---\nname: f\nfixedStack:\n  - { id: 2, type: spill-slot, size: 4, alignment: 4 }\nstack:\n  - { id: 3, size: 4, alignment: 4 }\n  - { id: 1, type: spill-slot, size: 4, alignment: 8 }\n  - { id: 0, type: spill-slot, size: 4, alignment: 4 }\nother: 1\n  - { id: 2, type: spill-slot, size: 4, alignment: 4 }\nbody: |\n  bb.0:\n    liveins: $eax\n    SPILL32 $eax, %stack.0, 0\n    $eax = RELOAD32 %stack.0, 0\n    SPILL32 $eax, %stack.1, 0\n    $eax = RELOAD32 %stack.1, 0\n    SPILL32 $eax, %stack.0, 0\n    $eax = RELOAD32 %stack.0, 0\n    RET implicit $eax\n...\n",
};

/// The fourth clashes with the third, which is a member of the first by then.
const WITH_A_MEMBER: Row = Row {
    given: b"---\nname: f\nstack:\n  - { id: 0, type: spill-slot, size: 4, alignment: 4 }\n  - { id: 1, type: spill-slot, size: 4, alignment: 4 }\n  - { id: 2, type: spill-slot, size: 4, alignment: 4 }\n  - { id: 3, type: spill-slot, size: 4, alignment: 4 }\nbody: |\n  bb.0:\n    liveins: $eax, $ecx\n    SPILL32 $eax, %stack.0, 0\n    SPILL32 $ecx, %stack.1, 0\n    $eax = RELOAD32 %stack.0, 0\n    $ecx = RELOAD32 %stack.1, 0\n    SPILL32 $eax, %stack.2, 0\n    SPILL32 $ecx, %stack.3, 0\n    $eax = RELOAD32 %stack.2, 0\n    $ecx = RELOAD32 %stack.3, 0\n    STORE32mr $ecx, 0, $eax\n    RET\n...\n",
    printed: b"---\nname: f\nstack:\n  - { id: 0, type: spill-slot, size: 4, alignment: 4 }\n  - { id: 1, type: spill-slot, size: 4, alignment: 4 }\nbody: |\n  bb.0:\n    liveins: $eax, $ecx\n    SPILL32 $eax, %stack.0, 0\n    SPILL32 $ecx, %stack.1, 0\n    $eax = RELOAD32 %stack.0, 0\n    $ecx = RELOAD32 %stack.1, 0\n    SPILL32 $eax, %stack.0, 0\n    SPILL32 $ecx, %stack.1, 0\n    $eax = RELOAD32 %stack.0, 0\n    $ecx = RELOAD32 %stack.1, 0\n    STORE32mr $ecx, 0, $eax\n    RET\n...\n",
};

/// A function that stays as it is.
fn stays(given: &'static [u8]) -> Row {
    Row {
        given,
        printed: given,
    }
}

/// What is printed of the coloured function that a text spells; nothing where it spells none.
fn coloured(
    rt: &impl Abort,
    alloc: Global,
    target: &Target,
    text: &[u8],
) -> Result<Bytes, AllocError> {
    assert!(rt; text.len() <= 4_194_304);
    match read_doc(alloc, target, false, 1, text) {
        Ok(Doc::Function(before, f)) => {
            let f = colour_slots(alloc, target, f)?;
            print_doc(alloc, target, &Doc::Function(before, f))
        }
        Ok(_) | Err(TextStop::Fault(_)) => Ok(Bytes::new(alloc)),
        Err(TextStop::Memory(e)) => Err(e),
    }
}

#[test]
fn colours_slots(rt: HostRuntime) -> Result<(), Fail> {
    let rows = [
        ONE_AFTER_THE_OTHER,
        stays(AT_ONE_TIME),
        stays(WRITTEN_BETWEEN),
        NOT_ALIKE,
        WITH_A_MEMBER,
    ];
    let target = mini(rt.alloc())?;
    for (k, row) in rows.iter().enumerate() {
        let text = coloured(&rt, rt.alloc(), &target, row.given)?;
        assert!(&rt; text.as_slice() == row.printed, "row {k}");
    }
    Ok(())
}
