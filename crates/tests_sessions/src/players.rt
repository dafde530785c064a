//! Workers with a session each.
ghost use Rattle.std.specs.Prelude.{◌≡◌, All, IfSome};
ghost use Rattle.gate_run.specs.Runs.{RanEach};
ghost use Rattle.tests_sessions.specs.Free.{IsFree};

use crate::calls::{Heard, Row, answered};
use crate::worlds::sessions_ended;
use gate_run::{Gate, Worker, run_all};
use session::{Session, World};
use std::alloc::Global;
use std::sync::Wait;
use std::thread::Threads;

/// A session that makes its calls, and what they were told.
pub struct Player<'a> {
    pub world: &'a World,
    pub session: Session,
    pub rows: &'a [Row],
    pub heard: Heard,
}

impl<'a, G: Gate> Worker<G> for Player<'a> {
    ghost use Rattle.tests_sessions.specs.Free.{IsFree};

    ghost may_run = { λ p. IsFree p.world.now p.session };

    ghost ran = { λ old new. IsFree new.world.now new.session };

    fn run<R: Wait>(&mut self, rt: &R, gate: &G) {
        self.heard = answered(rt, self.world, &mut self.session, self.rows, gate);
    }
}

// Session 0 makes the first calls, and each other the second ones.
fn players_of<'a>(
    alloc: Global,
    world: &'a World,
    mut sessions: Vec<Session>,
    first: &'a [Row],
    second: &'a [Row],
) -> Option<Vec<Player<'a>>>
    requires { All (IsFree world.now) sessions.items }
    ensures { IfSome result (λ players. All (λ p. IsFree p.world.now p.session) players.items) }
{
    let Ok(mut players) = Vec::with_capacity(alloc, sessions.len()) else {
        sessions_ended(world, sessions);
        return None;
    };
    while let Some(session) = sessions.pop() {
        let rows = if session.number() == 0 { first } else { second };
        players.push_reserved(Player {
            world,
            session,
            rows,
            heard: Heard::all(0),
        });
    }
    sessions.destroy_empty();
    Some(players)
}

// Each runs once, in a thread of its own where one can be had.
fn all_ran<R: Threads + Wait + Sync, G: Gate + Sync, W: Worker<G> + Send>(
    rt: &R,
    mut workers: Vec<W>,
    gate: &G,
) -> Vec<W>
    requires may { All W.may_run workers.items }
    ensures ran { RanEach W.ran workers.items result.items }
{
    run_all(rt, workers.as_mut_slice(), gate);
    workers
}

// What all of them were told. Their sessions are given up.
fn players_ended(mut players: Vec<Player<'_>>) -> Heard
    requires { All (λ p. IsFree p.world.now p.session) players.items }
{
    let mut all = Heard::all(0);
    while let Some(player) = players.pop() {
        let Player {
            world: _,
            session,
            rows: _,
            heard,
        } = player;
        all = all.and(heard);
        session.end();
    }
    players.destroy_empty();
    all
}

/// What the calls of two sessions are told, each in a thread of its own where one can be had.
pub fn both_answered<R: Threads + Wait + Sync, G: Gate + Sync>(
    rt: &R,
    alloc: Global,
    world: &World,
    sessions: Vec<Session>,
    first: &[Row],
    second: &[Row],
    gate: &G,
) -> Heard
    requires { All (IsFree world.now) sessions.items }
{
    let Some(players) = players_of(alloc, world, sessions, first, second) else {
        return Heard::all(0);
    };
    let players = all_ran(rt, players, gate);
    players_ended(players)
}
