//! Plans in which an edit fits only where its first attempt, which came too late, left nothing.

use std::alloc::Global;
use std::sync::Wait;
use std::test::Fail;
use std::thread::Threads;
use testkit::GatePoint::{After, Before, Between};
use testkit::{Meeting, Rule};
use tests_program::{ask_gated, shelf_with};
use vw_io::{MemoryShelf, Shelf};

// The second script is held between its pin and its commit until the first one has its answer.
const HELD: &[Rule] = &[
    ((0, 1, Before), (1, 1, Between)),
    ((1, 1, Between), (0, 1, After)),
];

// The program's line, both scripts, and what they are told, the first one's answer first.
type Row = (&'static str, &'static str, &'static str, &'static str);

const ROWS: &[Row] = &[
    // two slots for leaves: the head's {1}, and {0, 1} where {0} went back
    (
        "run --side 4 --buckets 1 --cap 2 one.vox s t",
        "fill 1 0 0 1 1 1\n",
        "fill 0 0 0 1 1 1\n",
        "1 @1 ok\n1 @2 ok\n",
    ),
    // three slots a level, and a box that is remembered. Of level 3 the first attempt made the
    // blocks at 0 and 32, the head has one at 32, and the new root wants that at 0 and another one
    // at 32, where cells of both edits are
    (
        "run --side 64 --buckets 1 --cap 3 one.vox s t",
        "fill 63 0 0 1 1 1\n",
        "fill 0 0 0 33 1 1\n",
        "1 @1 ok\n1 @2 ok\n",
    ),
    // five slots for leaves: the head has two, and the new root wants the box's two and two others
    // that have a cell of the head besides
    (
        "run --side 64 --buckets 1 --cap 5 one.vox s t",
        "fill 3 1 0 2 1 1\n",
        "fill 0 0 0 33 1 1\n",
        "1 @1 ok\n1 @1 full 0 0\n",
    ),
];

fn text<'a>(shelf: &'a MemoryShelf, name: &str) -> Result<&'a str, Fail> {
    let bytes = shelf.file(name).ok_or("a transcript")?;
    Ok(std::str::from_utf8(bytes)?)
}

fn told<R: Threads + Wait + Sync>(rt: &R, alloc: Global, row: &Row) -> Result<String, Fail> {
    let &(line, first, second, _) = row;
    let mut shelf = shelf_with(alloc, first.as_bytes())?;
    shelf.write("t", second.as_bytes())?;
    let meeting = Meeting::new(HELD);
    let (_, _) = ask_gated(rt, &meeting, alloc, line, &mut shelf)?;
    let both = format!(in alloc; "{}{}", text(&shelf, "s.out")?, text(&shelf, "t.out")?)?;
    Ok(both)
}

#[test]
fn what_an_attempt_left_fills_no_bucket(rt: HostRuntime) -> Result<(), Fail> {
    for row in ROWS {
        let both = told(&rt, rt.alloc(), row)?;
        assert_eq!(rt; both.as_str(), row.3, "at {}", row.0);
    }
    Ok(())
}
