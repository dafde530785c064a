//! Scenes of VOX files, run by the program, and what it makes of what was written.

use crate::calls::{ONE, ends, ends_by, has, holds, lacks};
use std::alloc::Global;
use std::test::Fail;
use testkit::{GatePoint, Rule};
use vw_io::{MemoryShelf, Shelf};

/// A model of 3 x 1 x 1 cells whose first two are set, in a group of two movers: the first moves it
/// not at all, the second turns it by `105` and moves it by `10 0 0`.
const BARS: [u8; 241] =
    *b"VOX \x96\0\0\0MAIN\0\0\0\0\xdd\0\0\0SIZE\x0c\0\0\0\0\0\0\0\x03\0\0\0\x01\0\0\0\x01\0\0\
     \0XYZI\x0c\0\0\0\0\0\0\0\x02\0\0\0\0\0\0\x07\x01\0\0\x08nGRP\x14\0\0\0\0\0\0\0\0\0\0\0\
     \0\0\0\0\x02\0\0\0\x01\0\0\0\x02\0\0\0nTRN\x1c\0\0\0\0\0\0\0\x01\0\0\0\0\0\0\0\x03\0\0\
     \0\xff\xff\xff\xff\xff\xff\xff\xff\x01\0\0\0\0\0\0\0nTRN9\0\0\0\0\0\0\0\x02\0\0\0\0\0\
     \0\0\x03\0\0\0\xff\xff\xff\xff\xff\xff\xff\xff\x01\0\0\0\x02\0\0\0\x02\0\0\0_r\x03\0\0\
     \0105\x02\0\0\0_t\x06\0\0\010 0 0nSHP\x14\0\0\0\0\0\0\0\x03\0\0\0\0\0\0\0\x01\0\0\0\0\
     \0\0\0\0\0\0\0";

/// The two bars, the second one upright.
const TURNED: [u8; 116] =
    *b"VOX \x96\0\0\0MAIN\0\0\0\0`\0\0\0SIZE\x0c\0\0\0\0\0\0\0\x03\0\0\0\x01\0\0\0\x01\0\0\0X\
     YZI\x0c\0\0\0\0\0\0\0\x02\0\0\0\0\0\0\x07\x01\0\0\x08SIZE\x0c\0\0\0\0\0\0\0\x01\0\0\0\
     \x01\0\0\0\x03\0\0\0XYZI\x0c\0\0\0\0\0\0\0\x02\0\0\0\0\0\x01\x08\0\0\x02\x07";

/// The same model, and a group below itself.
const LOOP: [u8; 96] =
    *b"VOX \x96\0\0\0MAIN\0\0\0\0L\0\0\0SIZE\x0c\0\0\0\0\0\0\0\x03\0\0\0\x01\0\0\0\x01\0\0\0X\
     YZI\x0c\0\0\0\0\0\0\0\x02\0\0\0\0\0\0\x07\x01\0\0\x08nGRP\x10\0\0\0\0\0\0\0\0\0\0\0\0\
     \0\0\0\x01\0\0\0\0\0\0\0";

fn shelf(alloc: Global) -> Result<MemoryShelf, Fail> {
    let mut shelf = MemoryShelf::new(alloc);
    shelf.write("bars", &BARS)?;
    shelf.write("one", &ONE)?;
    shelf.write("loop", &LOOP)?;
    shelf.write("nothing", b"")?;
    Ok(shelf)
}

// The line, what it prints, and the files that it leaves.
const SCENES: &[(&str, &str, &[u8], &str)] = &[
    (
        "scene bars o s",
        "side 16 placements 2\n",
        &TURNED,
        "stamp 0 0 0 1\nstamp 1 11 0 0\n",
    ),
    (
        "scene one o s",
        "side 4 placements 1\n",
        &ONE,
        "stamp 0 0 0 0\n",
    ),
];

#[test]
fn a_scene_is_written(rt: HostRuntime) -> Result<(), Fail> {
    for &(line, printed, models, script) in SCENES {
        let mut shelf = shelf(rt.alloc())?;
        ends(&rt, rt.alloc(), line, &mut shelf, 0, printed)?;
        holds(&shelf, "o", models)?;
        has(&shelf, "s", script)?;
    }
    Ok(())
}

const QUESTIONS: &[u8] =
    b"count 0 0 0 16 16 16\nget 0 0 1\nget 1 0 1\nget 11 0 1\nget 11 0 2\nbounds\n";

const ANSWERS: &str =
    "1 @2 count 4\n2 @2 set\n3 @2 set\n4 @2 set\n5 @2 set\n6 @2 bounds 0 0 1 12 1 2\n";

// The scene's script has its last answer, on line 2, before the questions begin.
const IN_TURN: &[Rule] = &[((1, 1, GatePoint::Before), (0, 2, GatePoint::After))];

#[test]
fn what_was_written_builds_the_scene(rt: HostRuntime) -> Result<(), Fail> {
    let mut shelf = shelf(rt.alloc())?;
    let printed = "side 16 placements 2\n";
    ends(&rt, rt.alloc(), "scene bars o s", &mut shelf, 0, printed)?;
    shelf.write("q", QUESTIONS)?;
    let printed = "scripts 2 records 2 marks 0 nodes 6\n";
    let line = "run --side 16 o s q";
    ends_by(&rt, IN_TURN, rt.alloc(), line, &mut shelf, 0, printed)?;
    has(&shelf, "q.out", ANSWERS)
}

const REFUSED: &[(&str, u8, &str)] = &[
    ("scene loop o s", 11, "voxdag: scene 6 0\n"),
    ("scene no o s", 2, "voxdag: missing no\n"),
    ("scene nothing o s", 4, "voxdag: vox 1 0\n"),
    ("scene one one s", 1, "voxdag: usage\n"),
    ("scene one o one", 1, "voxdag: usage\n"),
    ("scene one o o", 1, "voxdag: usage\n"),
    ("scene one o", 1, "voxdag: usage\n"),
    ("scene one o s s", 1, "voxdag: usage\n"),
    ("scene one -o s", 1, "voxdag: usage\n"),
    ("scene --side 8 one o s", 1, "voxdag: usage\n"),
];

#[test]
fn a_refused_scene_writes_nothing(rt: HostRuntime) -> Result<(), Fail> {
    let mut shelf = shelf(rt.alloc())?;
    for &(line, status, printed) in REFUSED {
        ends(&rt, rt.alloc(), line, &mut shelf, status, printed)?;
        lacks(&shelf, "o")?;
        lacks(&shelf, "s")?;
    }
    Ok(())
}
