//! Worlds that are closed.
ghost use Rattle.std.specs.Prelude.{All, IfSome};
ghost use Rattle.tests_sessions.specs.Free.{IsFree};

use crate::calls::Call::{Act, Forget};
use crate::calls::{Heard, Row, Told, answered};
use crate::worlds::{Begun, FIRST, PLAIN, SECOND, TINTED, no_models, sessions_ended, world_begun};
use conformance::ActAnswer;
use gate_run::NoGate;
use history_model::Act::{Fill, Redo, Tint, Undo};
use history_model::TintAct;
use session::{CloseRefused, Ended, Session, World};
use std::alloc::Global;
use std::sync::Wait;
use std::test::Fail;

// What the world leaves, with all of its sessions.
fn closed(alloc: Global, world: World, sessions: Vec<Session>) -> Option<Ended>
    requires { All (IsFree world) sessions.items }
{
    match world.close(alloc, sessions) {
        Ok(ended) => Some(ended),
        Err(
            CloseRefused::Count {
                world,
                sessions,
                made: _,
            },
        ) => {
            sessions_ended(&world, sessions);
            None
        }
        Err(CloseRefused::Memory { world, sessions }) => {
            sessions_ended(&world, sessions);
            None
        }
    }
}

// The sessions and one more.
fn with_one_more(
    alloc: Global,
    world: &World,
    mut sessions: Vec<Session>,
    one: Session,
) -> Option<Vec<Session>>
    requires sessions { All (IsFree world.now) sessions.items }
    requires one { IsFree world.now one }
    ensures { IfSome result (λ more. All (IsFree world.now) more.items) }
{
    let Ok(mut more) = Vec::with_capacity(alloc, sessions.len().saturating_add(1)) else {
        one.end();
        sessions_ended(world, sessions);
        return None;
    };
    while let Some(session) = sessions.pop() {
        more.push_reserved(session);
    }
    sessions.destroy_empty();
    more.push_reserved(one);
    Some(more)
}

// How many sessions the world has, by what refused it without this one, and what it leaves with it.
fn closed_late(
    alloc: Global,
    world: World,
    sessions: Vec<Session>,
    one: Session,
) -> Option<(u16, Ended)>
    requires sessions { All (IsFree world) sessions.items }
    requires one { IsFree world one }
{
    match world.close(alloc, sessions) {
        Err(
            CloseRefused::Count {
                world,
                sessions,
                made,
            },
        ) => {
            let all = with_one_more(alloc, &world, sessions, one)?;
            let ended = closed(alloc, world, all)?;
            Some((made, ended))
        }
        Err(CloseRefused::Memory { world, sessions }) => {
            one.end();
            sessions_ended(&world, sessions);
            None
        }
        Ok(_) => {
            one.end();
            None
        }
    }
}

// What a world leaves: whether its history is coloured, how many records, marks and kept versions,
// and the nodes of its four lowest levels.
#[derive(Clone, Copy, Debug, PartialEq, Eq)]
struct Left {
    coloured: bool,
    records: usize,
    marks: usize,
    kept: usize,
    live: [u32; 4],
}

fn left_by(ended: &Ended) -> Left {
    let closed = ended.closed();
    Left {
        coloured: closed.history.coloured,
        records: closed.history.records.len(),
        marks: closed.history.marks.len(),
        kept: closed.roots.len(),
        live: [
            closed.live[0],
            closed.live[1],
            closed.live[2],
            closed.live[3],
        ],
    }
}

// The last session makes its calls, and the world is closed without it and then with it. What the
// calls were told, how many sessions the world has, and what it leaves.
fn ends<R: Wait>(
    rt: &R,
    alloc: Global,
    world: World,
    mut sessions: Vec<Session>,
    rows: &[Row],
) -> Option<(Heard, u16, Left)>
    requires { All (IsFree world) sessions.items }
{
    let Some(mut one) = sessions.pop() else {
        sessions_ended(&world, sessions);
        return None;
    };
    let heard = answered(rt, &world, &mut one, rows, &NoGate);
    let (made, ended) = closed_late(alloc, world, sessions, one)?;
    Some((heard, made, left_by(&ended)))
}

// Version 1 is forgotten, and the versions 0 and 2 are kept.
const ROWS: &[Row] = &[
    (Act(Fill(FIRST)), Told::Act(ActAnswer::Done { n: 1 })),
    (Act(Fill(SECOND)), Told::Act(ActAnswer::Done { n: 2 })),
    (Forget(1), Told::Forget(Ok(2))),
];

// What a world of two sessions leaves behind these calls of the last one.
fn ended_by<R: Wait>(
    rt: &R,
    alloc: Global,
    begun: Begun,
    rows: &[Row],
) -> Result<Option<(Heard, u16, Left)>, Fail> {
    let models = no_models(alloc);
    let (world, sessions) = world_begun(alloc, begun, models, 2)?;
    Ok(ends(rt, alloc, world, sessions, rows))
}

#[test]
fn a_world_is_closed_with_all_its_sessions(rt: HostRuntime) -> Result<(), Fail> {
    let left = Left {
        coloured: false,
        records: 2,
        marks: 1,
        kept: 2,
        live: [1, 1, 0, 0],
    };
    assert_eq!(rt;
        ended_by(&rt, rt.alloc(), PLAIN, ROWS)?,
        Some((Heard::all(3), 2, left))
    );
    Ok(())
}

// With the last two versions alone, the versions 3 and 4 are kept.
const LAST_TWO: &[Row] = &[
    (Act(Fill(FIRST)), Told::Act(ActAnswer::Done { n: 1 })),
    (Act(Fill(SECOND)), Told::Act(ActAnswer::Done { n: 2 })),
    (Act(Undo), Told::Act(ActAnswer::Done { n: 3 })),
    (Act(Redo), Told::Act(ActAnswer::Done { n: 4 })),
];

#[test]
fn a_closed_world_keeps_its_last_versions(rt: HostRuntime) -> Result<(), Fail> {
    let left = Left {
        coloured: false,
        records: 4,
        marks: 3,
        kept: 2,
        live: [2, 2, 0, 0],
    };
    let last_two = Begun { keep: 2, ..PLAIN };
    assert_eq!(rt;
        ended_by(&rt, rt.alloc(), last_two, LAST_TWO)?,
        Some((Heard::all(4), 2, left))
    );
    Ok(())
}

// Both versions have one cell, of tint 5 and of tint 2: its plane is one node of the lowest two
// levels. The block of the cells' plane is one of the third, and so are the blocks of the bits of
// both tints; each version has a root.
const TWO_TINTS: &[Row] = &[
    (
        Act(Tint(TintAct::Fill(FIRST, 5))),
        Told::Act(ActAnswer::Done { n: 1 }),
    ),
    (
        Act(Tint(TintAct::Fill(FIRST, 2))),
        Told::Act(ActAnswer::Done { n: 2 }),
    ),
];

#[test]
fn a_closed_world_with_tints_is_coloured(rt: HostRuntime) -> Result<(), Fail> {
    let left = Left {
        coloured: true,
        records: 2,
        marks: 0,
        kept: 3,
        live: [1, 1, 3, 2],
    };
    assert_eq!(rt;
        ended_by(&rt, rt.alloc(), TINTED, TWO_TINTS)?,
        Some((Heard::all(2), 2, left))
    );
    Ok(())
}
