//! Two worked functions over the built-in target, whose live ranges are read off the calls point by
//! point: a copy taken and given on, and a range that is live around a loop.

use live_lanes::LiveFunc;
use mir_func::Func;
use mir_text::{Doc, TextStop, read_doc};
use std::alloc::{AllocError, Global};
use std::process::Abort;
use std::test::Fail;
use target_base::{Target, Unit, mini};

const COPIED: &[u8] =
    b"---\nname: f\nbody: |\n  bb.0:\n    liveins: $ecx\n    %0:gr32 = COPY $ecx\n    $eax = COPY %0\n    RET implicit $eax\n...\n";

const LOOPED: &[u8] =
    b"---\nname: f\nbody: |\n  bb.0:\n    %0:gr32 = MOV32ri 1\n  bb.1:\n    successors: %bb.1(0x7fffffff), %bb.2(0x00000001)\n    JNZ32 %0, %bb.1\n  bb.2:\n    RET\n...\n";

/// The first lane of eax.
const AL: Unit = Unit(0);

/// The first lane of ecx.
const CL: Unit = Unit(3);

/// A block's start by the block's number; the entry and the exit of an instruction by its id.
#[derive(Clone, Copy)]
enum Point {
    Start(u32),
    Entry(u32),
    Exit(u32),
}

/// What is live at a point: all lanes of range 0, and the first lanes of eax and of ecx.
#[derive(Clone, Copy)]
struct Row {
    at: Point,
    range: bool,
    eax: bool,
    ecx: bool,
}

fn wanted(at: Point, range: bool, eax: bool, ecx: bool) -> Row {
    Row {
        at,
        range,
        eax,
        ecx,
    }
}

/// The function that a text spells, if it spells one.
fn read(
    rt: &impl Abort,
    alloc: Global,
    target: &Target,
    text: &[u8],
) -> Result<Option<Func>, AllocError> {
    assert!(rt; text.len() <= 4_194_304);
    match read_doc(alloc, target, false, 1, text) {
        Ok(Doc::Function(_, f)) => Ok(Some(f)),
        Ok(_) | Err(TextStop::Fault(_)) => Ok(None),
        Err(TextStop::Memory(e)) => Err(e),
    }
}

fn lane_lives(live: &LiveFunc, lane: usize, at: Point) -> bool {
    match at {
        Point::Start(block) => live.live_at(0, lane, block),
        Point::Entry(id) => live.live_in(0, lane, id),
        Point::Exit(id) => live.live_out(0, lane, id),
    }
}

fn unit_lives(live: &LiveFunc, unit: Unit, at: Point) -> bool {
    match at {
        Point::Start(block) => live.unit_at(unit, block),
        Point::Entry(id) => live.unit_in(unit, id),
        Point::Exit(id) => live.unit_out(unit, id),
    }
}

fn check_point(rt: &impl Abort, live: &LiveFunc, row: &Row) -> Result<(), Fail> {
    for lane in 0..3 {
        assert_eq!(rt; lane_lives(live, lane, row.at), row.range);
    }
    assert!(rt; !lane_lives(live, 3, row.at));
    assert_eq!(rt; unit_lives(live, AL, row.at), row.eax);
    assert_eq!(rt; unit_lives(live, CL, row.at), row.ecx);
    Ok(())
}

/// Of the function that the text spells, what is live at these points, and how many points range 0 has.
fn check(
    rt: &impl Abort,
    alloc: Global,
    text: &[u8],
    rows: &[Row],
    points: u64,
) -> Result<(), Fail> {
    let target = mini(alloc)?;
    match read(rt, alloc, &target, text)? {
        None => assert!(rt; false, "no function"),
        Some(f) => {
            let live = LiveFunc::compute(alloc, &target, f)?;
            for row in rows {
                check_point(rt, &live, row)?;
            }
            assert_eq!(rt; live.points(0), points);
            assert_eq!(rt; live.points(1), 0);
        }
    }
    Ok(())
}

/// A copy's source lives up to it, and its result from its exit on.
#[test]
fn reads_a_copied_range(rt: HostRuntime) -> Result<(), Fail> {
    let rows = [
        wanted(Point::Start(0), false, false, true),
        wanted(Point::Entry(0), false, false, true),
        wanted(Point::Exit(0), true, false, false),
        wanted(Point::Entry(1), true, false, false),
        wanted(Point::Exit(1), false, true, false),
        wanted(Point::Entry(2), false, true, false),
        wanted(Point::Exit(2), false, false, false),
    ];
    check(&rt, rt.alloc(), COPIED, &rows, 2)
}

/// A range that a loop reads lives around it, and not behind it.
#[test]
fn reads_a_range_around_a_loop(rt: HostRuntime) -> Result<(), Fail> {
    let rows = [
        wanted(Point::Start(0), false, false, false),
        wanted(Point::Entry(0), false, false, false),
        wanted(Point::Exit(0), true, false, false),
        wanted(Point::Start(1), true, false, false),
        wanted(Point::Entry(1), true, false, false),
        wanted(Point::Exit(1), true, false, false),
        wanted(Point::Start(2), false, false, false),
        wanted(Point::Entry(2), false, false, false),
        wanted(Point::Exit(2), false, false, false),
    ];
    check(&rt, rt.alloc(), LOOPED, &rows, 4)
}
