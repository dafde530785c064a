//! How a run ends: its world is closed, or given up.
ghost use Rattle.std.specs.Prelude.{◌≡◌, ◌≤◌, [], All, IfErr, IfOk, length, take, vec_capacity, vec_len};
ghost use Rattle.node_table.specs.LogTurns.{HasNoTurn};
ghost use Rattle.report.specs.Numbers.{AreNumbers};
ghost use Rattle.report.specs.Roots.{TellsReport};
ghost use Rattle.conformance.specs.sessions.Ran.{ClosesWorld};
ghost use Rattle.session.specs.Closes.{HadHistory, session_views};
ghost use Rattle.session.specs.Resting.{IsAtRest};
ghost use Rattle.session.specs.SessionWorlds.{session_view};
ghost use Rattle.world_run.specs.Ends.{IsEndOf};
ghost use Rattle.world_run.specs.Open.{IsSaved, saved_seen};

use crate::open_runs::SavedSession;
use session::{CloseRefused, Ended, Session, World};
use std::alloc::Global;
use std::sync::Wait;
use vw_cell::Memory;

/// What a run leaves when its world is closed.
#[derive(Drop)]
pub struct WorldRan {
    pub ended: Ended,
    /// How many nodes of each level are live, from level 0 up.
    pub numbers: Vec<u32>,
}

/// Gives back what is held for saves, and closes the world.
pub(crate) fn close_over<R: Wait>(
    rt: &R,
    alloc: Global,
    world: World,
    sessions: Vec<SavedSession>,
    room: Vec<Session>,
) -> Result<WorldRan, Memory>
    requires saved { All (IsSaved world.tint world.table) sessions.items }
    requires all { length sessions.items ≡ world.table.made }
    requires none { room.items ≡ [] }
    requires capacity { length sessions.items ≤ vec_capacity room }
    ensures closes { IfOk result (λ r. ClosesWorld world.tint world.table.plan
        world.table.models (saved_seen sessions.items) r.ended.history) }
    ensures is_end { IfOk result
        (λ r. IsEndOf world.tint world.table.models r.ended.history r.ended) }
    ensures report { IfOk result (λ r. TellsReport world.table.models r.ended) }
    ensures numbers { IfOk result
        (λ r. AreNumbers world.table.models r.ended.history r.numbers.items) }
    ensures refused { IfErr result (λ _. HadHistory world.tint world.table.plan
        world.table.models (saved_seen sessions.items)) }
{
    let sessions = unpin_all(rt, &world, sessions, room);
    let levels = usize::from(world.plan().side().root_level()) + 1;
    match world.close(alloc, sessions) {
        Ok(ended) => told(alloc, ended, levels),
        Err(CloseRefused::Count { .. }) => unreachable!(),
        Err(CloseRefused::Memory { world, sessions }) => {
            world.give_up(sessions);
            Err(Memory)
        }
    }
}

// What a closed world tells by level.
fn told(alloc: Global, ended: Ended, levels: usize) -> Result<WorldRan, Memory>
    requires levels { levels ≤ 11 }
    ensures ended { IfOk result (λ r. r.ended ≡ ended) }
    ensures numbers { IfOk result (λ r. r.numbers.items ≡ take levels ended.live) }
{
    let numbers = first_numbers(alloc, &ended.closed().live, levels)?;
    Ok(WorldRan { ended, numbers })
}

fn first_numbers(alloc: Global, live: &[u32; 11], levels: usize) -> Result<Vec<u32>, Memory>
    requires { levels ≤ 11 }
    ensures { IfOk result (λ numbers. numbers.items ≡ take levels live.now) }
{
    let mut numbers = Vec::with_capacity(alloc, levels)?;
    numbers.extend_from_slice(&live[..levels])?;
    Ok(numbers)
}

/// Gives back what is held for saves, and gives up the world with its sessions.
pub(crate) fn give_up_over<R: Wait>(
    rt: &R,
    world: World,
    sessions: Vec<SavedSession>,
    room: Vec<Session>,
)
    requires saved { All (IsSaved world.tint world.table) sessions.items }
    requires all { length sessions.items ≡ world.table.made }
    requires none { room.items ≡ [] }
    requires capacity { length sessions.items ≤ vec_capacity room }
    ensures { HadHistory world.tint world.table.plan world.table.models
        (saved_seen sessions.items) }
{
    let sessions = unpin_all(rt, &world, sessions, room);
    world.give_up(sessions);
}

/// Gives up sessions that hold nothing.
pub(crate) fn end_all(sessions: Vec<Session>)
    requires held { All (λ s. s.view.held ≡ []) sessions.items }
    requires idle { All (λ s. HasNoTurn s.view) sessions.items }
{
    let mut sessions = sessions.into_iter();
    while let Some(session) = sessions.next() {
        session.end();
    }
    sessions.destroy_empty();
}

// The sessions, when nothing is held any more, behind those of the list.
fn unpin_all<R: Wait>(
    rt: &R,
    world: &World,
    sessions: Vec<SavedSession>,
    room: Vec<Session>,
) -> Vec<Session>
    requires saved { All (IsSaved world.now.tint world.now.table) sessions.items }
    requires none { room.items ≡ [] }
    requires capacity { length sessions.items ≤ vec_capacity room }
    ensures rest { All (IsAtRest world.now.table) result.items }
    ensures spare { All (λ s. s.view.held ≡ []) result.items }
    ensures seen { session_views result.items ≡ saved_seen sessions.items }
    ensures many { vec_len result ≡ length sessions.items }
{
    let mut spare = room;
    let mut sessions = sessions.into_iter();
    while let Some(saved) = sessions.next() {
        let session = unpin_one(rt, world, saved);
        spare.push_reserved(session);
    }
    sessions.destroy_empty();
    spare
}

// The session, when nothing is held any more.
fn unpin_one<R: Wait>(rt: &R, world: &World, saved: SavedSession) -> Session
    requires saved { IsSaved world.now.tint world.now.table saved }
    ensures rest { IsAtRest world.now.table result }
    ensures none { result.view.held ≡ [] }
    ensures seen { session_view result.view ≡ session_view saved.session.view }
{
    let SavedSession {
        mut session,
        saves: _,
        pins,
    } = saved;
    world.unpin_saves(rt, &mut session, pins);
    session
}
