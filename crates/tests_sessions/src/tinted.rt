//! Worlds whose cells have tints: their acts, the colours of versions, and what is listed of them.
ghost use Rattle.std.specs.Prelude.{◌≡◌, All};
ghost use Rattle.vw_cell.specs.Places.{FitsAt};
ghost use Rattle.session.specs.SessionWorlds.{side_seen};
ghost use Rattle.tests_sessions.specs.Free.{IsFree};

use crate::calls::Call::{Act, Colour, Count, Same};
use crate::calls::{Heard, Row, Told, answered};
use crate::pins::lists;
use crate::rows::answered_in;
use crate::worlds::{
    FIRST, PLAIN, SECOND, TINTED, WHOLE, no_models, sessions_ended, within, world_begun,
};
use conformance::ActAnswer;
use gate_run::NoGate;
use history_model::Act::{Fill, Stamp, Tint, Undo};
use history_model::TintAct;
use session::{Session, World};
use std::alloc::Global;
use std::sync::Wait;
use std::test::Fail;
use version_log::SameAt;
use vox_read::{Voxel, read_models};
use vw_cell::{Boxed, Cell};

const ORIGIN: Cell = Cell { x: 0, y: 0, z: 0 };

const NEXT: Cell = Cell { x: 1, y: 0, z: 0 };

// The first place of the store behind the world.
const BEHIND: Cell = Cell { x: 8, y: 0, z: 0 };

// A cell is given a tint and then another one. An act without a tint isn't one of the world.
const GIVES_TINTS: &[Row] = &[
    (
        Act(Tint(TintAct::Fill(FIRST, 5))),
        Told::Act(ActAnswer::Done { n: 1 }),
    ),
    (Colour(None, ORIGIN), Told::Colour(1, 5)),
    (Colour(None, NEXT), Told::Colour(1, 0)),
    (Colour(None, BEHIND), Told::Outside),
    (Count(None, WHOLE, 1), Told::Count(1, 1, 1)),
    (
        Act(Tint(TintAct::Fill(FIRST, 2))),
        Told::Act(ActAnswer::Done { n: 2 }),
    ),
    (Colour(None, ORIGIN), Told::Colour(2, 2)),
    (Act(Fill(SECOND)), Told::Outside),
    (Act(Tint(TintAct::Fill(FIRST, 0))), Told::Outside),
];

// Both versions have the same cells and other tints.
const GOES_BACK: &[Row] = &[
    (Colour(Some(1), ORIGIN), Told::Colour(2, 5)),
    (Colour(Some(0), ORIGIN), Told::Colour(2, 0)),
    (
        Same(1, 2),
        Told::Same(Ok(SameAt {
            at: 2,
            equal: false,
        })),
    ),
    (Act(Undo), Told::Act(ActAnswer::Done { n: 3 })),
    (Colour(None, ORIGIN), Told::Colour(3, 5)),
    (Same(1, 3), Told::Same(Ok(SameAt { at: 3, equal: true }))),
];

#[test]
fn a_cell_has_its_last_tint(rt: HostRuntime) -> Result<(), Fail> {
    let models = no_models(rt.alloc());
    assert_eq!(rt;
        answered_in(&rt, rt.alloc(), TINTED, models, GIVES_TINTS, GOES_BACK)?,
        Heard::all(15)
    );
    Ok(())
}

// Where cells have no tints, a set one is told to have colour 1.
const WITHOUT_TINTS: &[Row] = &[
    (Act(Tint(TintAct::Fill(FIRST, 5))), Told::Outside),
    (Act(Fill(FIRST)), Told::Act(ActAnswer::Done { n: 1 })),
    (Colour(None, ORIGIN), Told::Colour(1, 1)),
    (Colour(None, NEXT), Told::Colour(1, 0)),
];

#[test]
fn a_cell_without_tints_has_colour_1(rt: HostRuntime) -> Result<(), Fail> {
    let models = no_models(rt.alloc());
    assert_eq!(rt;
        answered_in(&rt, rt.alloc(), PLAIN, models, WITHOUT_TINTS, &[])?,
        Heard::all(4)
    );
    Ok(())
}

// A model of two places beside each other, of colours 9 and 200.
const PAIR: &[u8] =
    b"VOX \x96\0\0\0MAIN\0\0\0\0\x30\0\0\0SIZE\x0c\0\0\0\0\0\0\0\x02\0\0\0\x01\0\0\0\
\x01\0\0\0XYZI\x0c\0\0\0\0\0\0\0\x02\0\0\0\0\0\0\x09\x01\0\0\xc8";

const STAMPS: &[Row] = &[
    (
        Act(Tint(TintAct::Fill(SECOND, 6))),
        Told::Act(ActAnswer::Done { n: 1 }),
    ),
    (
        Act(Tint(TintAct::Stamp(0, NEXT))),
        Told::Act(ActAnswer::Done { n: 2 }),
    ),
    (Colour(None, ORIGIN), Told::Colour(2, 0)),
    (Colour(None, NEXT), Told::Colour(2, 9)),
    (
        Colour(None, Cell { x: 2, y: 0, z: 0 }),
        Told::Colour(2, 200),
    ),
    (Act(Stamp(0, NEXT)), Told::Outside),
    (Act(Tint(TintAct::Stamp(1, NEXT))), Told::Outside),
    (
        Act(Tint(TintAct::Stamp(0, Cell { x: 7, y: 0, z: 0 }))),
        Told::Outside,
    ),
];

#[test]
fn a_stamp_gives_the_tints_of_its_model(rt: HostRuntime) -> Result<(), Fail> {
    let models = read_models(rt.alloc(), PAIR)?;
    assert_eq!(rt;
        answered_in(&rt, rt.alloc(), TINTED, models, STAMPS, &[])?,
        Heard::all(8)
    );
    Ok(())
}

// Whether a version has just these cells in its part.
fn lists_version<R: Wait>(
    rt: &R,
    alloc: Global,
    world: &World,
    s: &mut Session,
    version: u32,
    part: Boxed,
    want: &[Voxel],
) -> bool
    requires free { IsFree world.now s.old }
    requires fits { FitsAt part.at part.size (side_seen world.now) }
    ensures free { IsFree world.now s.new }
{
    match world.pin(rt, s, Some(version)) {
        Ok(pinned) => {
            let listed = lists(alloc, world, s, &pinned, part, want);
            world.unpin(rt, s, pinned);
            listed
        }
        Err(_) => false,
    }
}

// Four cells have tint 7, and then one of them another one. Two go to the layer above, and one of
// those below is cleared.
const EDITS: &[Row] = &[
    (
        Act(Tint(TintAct::Fill(LAYER, 7))),
        Told::Act(ActAnswer::Done { n: 1 }),
    ),
    (
        Act(Tint(TintAct::Fill(LAST, 200))),
        Told::Act(ActAnswer::Done { n: 2 }),
    ),
    (
        Act(Tint(TintAct::Copy(ROW, Cell { x: 1, y: 0, z: 2 }))),
        Told::Act(ActAnswer::Done { n: 3 }),
    ),
    (
        Act(Tint(TintAct::Erase(LEAST))),
        Told::Act(ActAnswer::Done { n: 4 }),
    ),
];

const LAYER: Boxed = Boxed {
    at: Cell { x: 1, y: 0, z: 1 },
    size: Cell { x: 2, y: 2, z: 1 },
};

const LEAST: Boxed = Boxed {
    at: Cell { x: 1, y: 0, z: 1 },
    size: Cell { x: 1, y: 1, z: 1 },
};

const LAST: Boxed = Boxed {
    at: Cell { x: 2, y: 1, z: 1 },
    size: Cell { x: 1, y: 1, z: 1 },
};

const ROW: Boxed = Boxed {
    at: Cell { x: 1, y: 1, z: 1 },
    size: Cell { x: 2, y: 1, z: 1 },
};

// The part that is listed, and what version 4 has in it.
const PART: Boxed = Boxed {
    at: Cell { x: 1, y: 0, z: 1 },
    size: Cell { x: 2, y: 2, z: 2 },
};

const LISTED: [Voxel; 5] = [
    Voxel {
        x: 1,
        y: 0,
        z: 0,
        colour: 7,
    },
    Voxel {
        x: 0,
        y: 1,
        z: 0,
        colour: 7,
    },
    Voxel {
        x: 1,
        y: 1,
        z: 0,
        colour: 200,
    },
    Voxel {
        x: 0,
        y: 0,
        z: 1,
        colour: 7,
    },
    Voxel {
        x: 1,
        y: 0,
        z: 1,
        colour: 200,
    },
];

// What the edits are told, and whether version 4 is listed so.
fn listed_behind<R: Wait>(rt: &R, alloc: Global, world: &World, s: &mut Session) -> (Heard, bool)
    requires { IsFree world.now s.old }
    ensures { IsFree world.now s.new }
{
    let Some(part) = within(world, PART) else {
        return (Heard::all(0), false);
    };
    let heard = answered(rt, world, s, EDITS, &NoGate);
    let listed = lists_version(rt, alloc, world, s, 4, part, &LISTED);
    (heard, listed)
}

fn listed_in<R: Wait>(
    rt: &R,
    alloc: Global,
    world: &World,
    mut sessions: Vec<Session>,
) -> (Heard, bool)
    requires { All (IsFree world.now) sessions.items }
{
    let Some(mut s) = sessions.pop() else {
        sessions_ended(world, sessions);
        return (Heard::all(0), false);
    };
    sessions_ended(world, sessions);
    let told = listed_behind(rt, alloc, world, &mut s);
    s.end();
    told
}

#[test]
fn cells_are_listed_with_their_tints(rt: HostRuntime) -> Result<(), Fail> {
    let models = no_models(rt.alloc());
    let (world, sessions) = world_begun(rt.alloc(), TINTED, models, 1)?;
    assert_eq!(rt;
        listed_in(&rt, rt.alloc(), &world, sessions),
        (Heard::all(4), true)
    );
    Ok(())
}
