//! Calls of two sessions of one world, one session after the other.
ghost use Rattle.std.specs.Prelude.{All};
ghost use Rattle.vox_read.specs.Contents.{AreModels};
ghost use Rattle.tests_sessions.specs.Free.{IsFree};

use crate::calls::Call::{Act, Count, FillOnce, Forget, Head, Same};
use crate::calls::{Heard, Row, Told, answered};
use crate::worlds::{AWAY, Begun, FIRST, PLAIN, SECOND, WHOLE, no_models, world_begun};
use conformance::{ActAnswer, OnceAnswer};
use gate_run::NoGate;
use history_model::Act::{Fill, Redo, Undo};
use history_model::Mark;
use node_words::Full;
use session::{Session, World};
use std::alloc::Global;
use std::sync::Wait;
use std::test::Fail;
use version_log::{ForgetRefused, PinRefused, SameAt, SameRefused};
use vox_read::Models;
use vw_cell::{Boxed, Cell};

// What all calls are told: the last session makes the first ones, and then the one before it, where
// there is one, makes the second ones.
fn rows_answered<R: Wait>(
    rt: &R,
    world: &World,
    mut sessions: Vec<Session>,
    first: &[Row],
    second: &[Row],
) -> Heard
    requires { All (IsFree world.now) sessions.items }
{
    let mut all = Heard::all(0);
    let mut rows = first;
    while let Some(mut session) = sessions.pop() {
        all = all.and(answered(rt, world, &mut session, rows, &NoGate));
        rows = second;
        session.end();
    }
    sessions.destroy_empty();
    all
}

/// The same in a new world.
pub fn answered_in<R: Wait>(
    rt: &R,
    alloc: Global,
    begun: Begun,
    models: Models,
    first: &[Row],
    second: &[Row],
) -> Result<Heard, Fail>
    requires { AreModels models }
{
    let (world, sessions) = world_begun(alloc, begun, models, 2)?;
    Ok(rows_answered(rt, &world, sessions, first, second))
}

// Undo and redo are of the one history, whoever made it.
const MAKES: &[Row] = &[
    (Act(Undo), Told::Act(ActAnswer::NothingToUndo { at: 0 })),
    (Act(Fill(FIRST)), Told::Act(ActAnswer::Done { n: 1 })),
    (Act(Undo), Told::Act(ActAnswer::Done { n: 2 })),
    (Act(Fill(SECOND)), Told::Act(ActAnswer::Done { n: 3 })),
];

const GOES_BACK: &[Row] = &[
    (Act(Redo), Told::Act(ActAnswer::NothingToRedo { at: 3 })),
    (Act(Undo), Told::Act(ActAnswer::Done { n: 4 })),
    (Count(None, WHOLE, 1), Told::Count(4, 0, 0)),
    (Act(Redo), Told::Act(ActAnswer::Done { n: 5 })),
    (Count(None, WHOLE, 1), Told::Count(5, 1, 1)),
];

#[test]
fn undos_have_their_answers(rt: HostRuntime) -> Result<(), Fail> {
    let models = no_models(rt.alloc());
    assert_eq!(rt;
        answered_in(&rt, rt.alloc(), PLAIN, models, MAKES, GOES_BACK)?,
        Heard::all(9)
    );
    Ok(())
}

const FORGETS: &[Row] = &[
    (Act(Fill(FIRST)), Told::Act(ActAnswer::Done { n: 1 })),
    (Act(Fill(SECOND)), Told::Act(ActAnswer::Done { n: 2 })),
    (Forget(1), Told::Forget(Ok(2))),
];

// What session 1 forgot by its line 3.
const MARK: Mark = Mark {
    version: 1,
    at: 2,
    session: 1,
    line: 3,
};

const MEETS_A_MARK: &[Row] = &[
    (Count(None, WHOLE, 1), Told::Count(2, 2, 2)),
    (
        Count(Some(1), WHOLE, 1),
        Told::NotPinned(PinRefused::Forgotten { at: 2, mark: MARK }),
    ),
    (
        Count(Some(3), WHOLE, 1),
        Told::NotPinned(PinRefused::NoVersion { at: 2 }),
    ),
    (
        Act(Undo),
        Told::Act(ActAnswer::Forgotten { at: 2, mark: MARK }),
    ),
    (
        Forget(1),
        Told::Forget(Err(ForgetRefused::Forgotten { at: 2, mark: MARK })),
    ),
    (
        Forget(2),
        Told::Forget(Err(ForgetRefused::IsHead { at: 2 })),
    ),
    (
        Forget(9),
        Told::Forget(Err(ForgetRefused::NoVersion { at: 2 })),
    ),
    (
        Same(0, 2),
        Told::Same(Ok(SameAt {
            at: 2,
            equal: false,
        })),
    ),
    (Same(2, 2), Told::Same(Ok(SameAt { at: 2, equal: true }))),
    (
        Same(0, 1),
        Told::Same(Err(SameRefused::Forgotten { at: 2, mark: MARK })),
    ),
    (
        Same(9, 1),
        Told::Same(Err(SameRefused::NoVersion { at: 2, version: 9 })),
    ),
    (Head, Told::Head(2)),
    (FillOnce(FIRST), Told::Once(OnceAnswer::Done { n: 3 })),
    (Same(2, 3), Told::Same(Ok(SameAt { at: 3, equal: true }))),
    (Head, Told::Head(3)),
];

#[test]
fn a_forgotten_version_is_refused(rt: HostRuntime) -> Result<(), Fail> {
    let models = no_models(rt.alloc());
    assert_eq!(rt;
        answered_in(&rt, rt.alloc(), PLAIN, models, FORGETS, MEETS_A_MARK)?,
        Heard::all(18)
    );
    Ok(())
}

// One slot on each level: a cell in another leaf needs a second node.
const FULL: Full = Full {
    level: 1,
    bucket: 0,
};

const FILLS: &[Row] = &[
    (Act(Fill(FIRST)), Told::Act(ActAnswer::Done { n: 1 })),
    (
        Act(Fill(AWAY)),
        Told::Act(ActAnswer::Full { at: 1, full: FULL }),
    ),
];

const OUTSIDE: Boxed = Boxed {
    at: Cell { x: 8, y: 0, z: 0 },
    size: Cell { x: 1, y: 1, z: 1 },
};

const FILLS_TOO: &[Row] = &[
    (
        FillOnce(AWAY),
        Told::Once(OnceAnswer::Full { at: 1, full: FULL }),
    ),
    (Act(Fill(OUTSIDE)), Told::Outside),
    (Count(None, WHOLE, 1), Told::Count(1, 1, 1)),
];

#[test]
fn a_full_bucket_is_told(rt: HostRuntime) -> Result<(), Fail> {
    let models = no_models(rt.alloc());
    let small = Begun {
        buckets: 1,
        cap: 1,
        ..PLAIN
    };
    assert_eq!(rt;
        answered_in(&rt, rt.alloc(), small, models, FILLS, FILLS_TOO)?,
        Heard::all(5)
    );
    Ok(())
}

// With the last two versions alone, version 0 falls out with record 2, and version 1 with record 3.
const FALLS_OUT: &[Row] = &[
    (Act(Fill(FIRST)), Told::Act(ActAnswer::Done { n: 1 })),
    (Act(Fill(SECOND)), Told::Act(ActAnswer::Done { n: 2 })),
    (Act(Undo), Told::Act(ActAnswer::Done { n: 3 })),
    (
        Act(Undo),
        Told::Act(ActAnswer::Forgotten {
            at: 3,
            mark: FALLEN,
        }),
    ),
    (Act(Redo), Told::Act(ActAnswer::Done { n: 4 })),
    (
        Count(Some(0), WHOLE, 1),
        Told::NotPinned(PinRefused::Forgotten {
            at: 4,
            mark: FALLEN,
        }),
    ),
    (Count(None, WHOLE, 1), Told::Count(4, 2, 2)),
];

// What session 1 pushed out by its line 2.
const FALLEN: Mark = Mark {
    version: 0,
    at: 2,
    session: 1,
    line: 2,
};

// And by its line 5.
const FALLEN_LAST: Mark = Mark {
    version: 2,
    at: 4,
    session: 1,
    line: 5,
};

// The other session forgets version 3 by hand before it would fall out, and record 5 pushes it out.
const HELD_LAST: &[Row] = &[
    (
        Count(Some(2), WHOLE, 1),
        Told::NotPinned(PinRefused::Forgotten {
            at: 4,
            mark: FALLEN_LAST,
        }),
    ),
    (Count(Some(3), WHOLE, 1), Told::Count(4, 1, 1)),
    (Forget(3), Told::Forget(Ok(4))),
    (Act(Fill(AWAY)), Told::Act(ActAnswer::Done { n: 5 })),
    (
        Forget(3),
        Told::Forget(Err(ForgetRefused::Forgotten {
            at: 5,
            mark: BY_HAND,
        })),
    ),
    (Count(Some(4), WHOLE, 1), Told::Count(5, 2, 2)),
];

const BY_HAND: Mark = Mark {
    version: 3,
    at: 4,
    session: 0,
    line: 3,
};

#[test]
fn the_last_versions_alone_are_held(rt: HostRuntime) -> Result<(), Fail> {
    let models = no_models(rt.alloc());
    let last_two = Begun { keep: 2, ..PLAIN };
    assert_eq!(rt;
        answered_in(&rt, rt.alloc(), last_two, models, FALLS_OUT, HELD_LAST)?,
        Heard::all(13)
    );
    Ok(())
}
