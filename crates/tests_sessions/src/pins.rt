//! A version that is pinned while another session forgets it.
ghost use Rattle.std.specs.Prelude.{◌≡◌, ◌≤◌, All};
ghost use Rattle.vw_cell.specs.Places.{FitsAt};
ghost use Rattle.version_log.specs.Pins.{IsPinned};
ghost use Rattle.session.specs.Resting.{IsAtRest};
ghost use Rattle.session.specs.SessionWorlds.{side_seen};
ghost use Rattle.tests_sessions.specs.Free.{IsFree};

use crate::calls::Call::{Act, Count, Forget};
use crate::calls::{Heard, Row, Told, answered};
use crate::worlds::{PLAIN, no_models, sessions_ended, within, world_begun};
use conformance::ActAnswer;
use gate_run::NoGate;
use history_model::Act::{Erase, Fill};
use history_model::{Mark, Question};
use session::{Session, World};
use std::alloc::Global;
use std::sync::Wait;
use std::test::Fail;
use transcript::Answer;
use version_log::{PinRefused, Pinned};
use vox_read::Voxel;
use vw_cell::{Boxed, Cell};

// What is set in version 1.
const MADE: Boxed = Boxed {
    at: Cell { x: 1, y: 0, z: 1 },
    size: Cell { x: 1, y: 2, z: 1 },
};

// The part that is listed, and its list.
const PART: Boxed = Boxed {
    at: Cell { x: 1, y: 0, z: 0 },
    size: Cell { x: 2, y: 2, z: 2 },
};

const SET: [Voxel; 2] = [
    Voxel {
        x: 0,
        y: 0,
        z: 1,
        colour: 1,
    },
    Voxel {
        x: 0,
        y: 1,
        z: 1,
        colour: 1,
    },
];

/// Whether the pinned version has just these cells in its part.
pub fn lists(
    alloc: Global,
    world: &World,
    s: &mut Session,
    p: &Pinned,
    part: Boxed,
    want: &[Voxel],
) -> bool
    requires rest { IsAtRest world.now.table s.old }
    requires pinned { IsPinned s.old.view p.now }
    requires fits { FitsAt part.at part.size (side_seen world.now) }
    ensures rest { IsAtRest world.now.table s.new }
    ensures pinned { IsPinned s.new.view p.now }
    ensures held { s.new.view.held ≡ s.old.view.held }
{
    if part.size.x > 256 || part.size.y > 256 || part.size.z > 256 {
        return false;
    }
    let mut voxels = Vec::new(alloc);
    match world.cells_in(s, p, part, &mut voxels) {
        Ok(()) => voxels.as_slice() == want,
        Err(_) => false,
    }
}

// Whether what was pinned counts and lists so.
fn is_kept(alloc: Global, world: &World, s: &mut Session, p: &Pinned, part: Boxed) -> bool
    requires rest { IsAtRest world.now.table s.old }
    requires pinned { IsPinned s.old.view p.now }
    requires fits { FitsAt part.at part.size (side_seen world.now) }
    ensures rest { IsAtRest world.now.table s.new }
    ensures pinned { IsPinned s.new.view p.now }
    ensures held { s.new.view.held ≡ s.old.view.held }
{
    let counted = world.ask(s, p, &Question::Count(part)) == Answer::Count(2);
    let listed = lists(alloc, world, s, p, part, &SET);
    counted && listed
}

// Whether version 1, which one session pins, is kept while the other makes its calls, and what
// these are told.
fn outlives<R: Wait>(
    rt: &R,
    alloc: Global,
    world: &World,
    a: &mut Session,
    b: &mut Session,
    part: Boxed,
    rows: &[Row],
) -> (bool, Heard)
    requires first { IsFree world.now a.old }
    requires second { IsFree world.now b.old }
    requires fits { FitsAt part.at part.size (side_seen world.now) }
    ensures first { IsFree world.now a.new }
    ensures second { IsFree world.now b.new }
{
    match world.pin(rt, b, Some(1)) {
        Ok(pinned) => {
            let heard = answered(rt, world, a, rows, &NoGate);
            let kept = is_kept(alloc, world, b, &pinned, part);
            world.unpin(rt, b, pinned);
            (kept, heard)
        }
        Err(_) => (false, Heard::all(0)),
    }
}

// Version 1 is made, and the empty version 2.
const EDITS: &[Row] = &[
    (Act(Fill(MADE)), Told::Act(ActAnswer::Done { n: 1 })),
    (Act(Erase(MADE)), Told::Act(ActAnswer::Done { n: 2 })),
];

const MARK: Mark = Mark {
    version: 1,
    at: 2,
    session: 1,
    line: 1,
};

const GONE: Row = (
    Count(Some(1), PART, 1),
    Told::NotPinned(PinRefused::Forgotten { at: 2, mark: MARK }),
);

const FORGETS: &[Row] = &[(Forget(1), Told::Forget(Ok(2))), GONE];

const MEETS_A_MARK: &[Row] = &[GONE];

// One session makes the versions. The other one pins version 1, and the first one forgets it. Given
// back, it can't be pinned again. Whether it was kept, and what the calls were told.
fn forgotten_beside<R: Wait>(
    rt: &R,
    alloc: Global,
    world: &World,
    a: &mut Session,
    b: &mut Session,
) -> (bool, Heard)
    requires first { IsFree world.now a.old }
    requires second { IsFree world.now b.old }
    ensures first { IsFree world.now a.new }
    ensures second { IsFree world.now b.new }
{
    let Some(part) = within(world, PART) else {
        return (false, Heard::all(0));
    };
    let edited = answered(rt, world, a, EDITS, &NoGate);
    let (kept, heard) = outlives(rt, alloc, world, a, b, part, FORGETS);
    let refused = answered(rt, world, b, MEETS_A_MARK, &NoGate);
    (kept, edited.and(heard).and(refused))
}

fn both_forgotten_beside<R: Wait>(
    rt: &R,
    alloc: Global,
    world: &World,
    mut sessions: Vec<Session>,
) -> (bool, Heard)
    requires { All (IsFree world.now) sessions.items }
{
    let Some(mut a) = sessions.pop() else {
        sessions_ended(world, sessions);
        return (false, Heard::all(0));
    };
    let Some(mut b) = sessions.pop() else {
        a.end();
        sessions_ended(world, sessions);
        return (false, Heard::all(0));
    };
    sessions_ended(world, sessions);
    let told = forgotten_beside(rt, alloc, world, &mut a, &mut b);
    a.end();
    b.end();
    told
}

#[test]
fn a_pin_outlives_a_mark(rt: HostRuntime) -> Result<(), Fail> {
    let models = no_models(rt.alloc());
    let (world, sessions) = world_begun(rt.alloc(), PLAIN, models, 2)?;
    assert_eq!(rt;
        both_forgotten_beside(&rt, rt.alloc(), &world, sessions),
        (true, Heard::all(5))
    );
    Ok(())
}
