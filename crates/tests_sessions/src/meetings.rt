//! Two sessions that go in turn, each in a thread of its own.
use crate::calls::Call::{Act, Count, FillOnce};
use crate::calls::{Heard, Row, Told};
use crate::players::both_answered;
use crate::worlds::{FIRST, PLAIN, SECOND, WHOLE, no_models, world_begun};
use conformance::{ActAnswer, OnceAnswer};
use history_model::Act::{Erase, Fill};
use std::alloc::{AllocError, Global};
use std::sync::Wait;
use std::test::Fail;
use std::thread::Threads;
use testkit::Turns;

// What the calls of two sessions of a world of side 8 are told, and whether one waited in vain.
fn meet<R: Threads + Wait + Sync>(
    rt: &R,
    alloc: Global,
    first: &[Row],
    second: &[Row],
) -> Result<(Heard, bool), Fail> {
    let models = no_models(alloc);
    let (world, sessions) = world_begun(alloc, PLAIN, models, 2)?;
    let turns = Turns::new();
    let heard = both_answered(rt, alloc, &world, sessions, first, second, &turns);
    Ok((heard, turns.is_given_up()))
}

fn done(n: u32) -> Told {
    Told::Act(ActAnswer::Done { n })
}

// Session 0's edit, and what it and the other session see behind both.
const FASTER: &[Row] = &[
    (Act(Fill(SECOND)), Told::Act(ActAnswer::Done { n: 1 })),
    (Count(None, WHOLE, 1), Told::Count(1, 1, 1)),
];

// Session 1 pinned the empty world before it, and comes to its commit behind it.
const TOO_LATE: &[Row] = &[
    (
        FillOnce(FIRST),
        Told::Once(OnceAnswer::Stale { at: 1, base: 0 }),
    ),
    (Count(None, WHOLE, 1), Told::Count(1, 1, 1)),
];

#[test]
fn an_attempt_comes_too_late(rt: HostRuntime) -> Result<(), Fail> {
    assert_eq!(rt;
        meet(&rt, rt.alloc(), FASTER, TOO_LATE)?,
        (Heard::all(4), false)
    );
    Ok(())
}

const ALSO_FASTER: &[Row] = &[
    (Act(Fill(SECOND)), Told::Act(ActAnswer::Done { n: 1 })),
    (Count(None, WHOLE, 1), Told::Count(2, 2, 2)),
];

const MADE_AGAIN: &[Row] = &[
    (Act(Fill(FIRST)), Told::Act(ActAnswer::Done { n: 2 })),
    (Count(None, WHOLE, 1), Told::Count(2, 2, 2)),
];

#[test]
fn an_edit_that_comes_too_late_is_made_again(rt: HostRuntime) -> Result<(), Fail> {
    assert_eq!(rt;
        meet(&rt, rt.alloc(), ALSO_FASTER, MADE_AGAIN)?,
        (Heard::all(4), false)
    );
    Ok(())
}

// So many edits, each of the whole world: it is filled and erased in turn.
fn whole_edits(alloc: Global, times: u32) -> Result<Vec<Row>, AllocError> {
    let mut rows = Vec::new(alloc);
    for k in 0..times {
        let act = if k % 2 == 0 {
            Fill(WHOLE)
        } else {
            Erase(WHOLE)
        };
        rows.push((Act(act), done(k.saturating_add(1))))?;
    }
    Ok(rows)
}

// Session 1 pinned the empty world before the first edit, and counts version 1 a hundred times,
// each time behind one more edit.
const COUNTED: &[Row] = &[
    (Count(None, WHOLE, 1), Told::Count(0, 0, 0)),
    (Count(Some(1), WHOLE, 100), Told::Count(1, 512, 512)),
];

// Session 0 fills the world, and then commits a hundred edits of all of it.
#[test]
fn a_pinned_version_stays(rt: HostRuntime) -> Result<(), Fail> {
    let edits = whole_edits(rt.alloc(), 101)?;
    assert_eq!(rt;
        meet(&rt, rt.alloc(), edits.as_slice(), COUNTED)?,
        (Heard::all(103), false)
    );
    Ok(())
}
