//! Scripts are run in threads.
ghost use Rattle.std.specs.Prelude.{◌≡◌, ◌^◌, ◌≤◌, true, [], All, IfOk, length, vec_capacity};
ghost use Rattle.vox_read.specs.Contents.{AreModels};
ghost use Rattle.script.specs.Fitting.{CommandFits, RisesFrom};
ghost use Rattle.gate_run.specs.Runs.{RanEach};
ghost use Rattle.node_table.specs.Begins.{AreNewPasses, terms_of};
ghost use Rattle.conformance.specs.sessions.LoggedSaves.{logged_of};
ghost use Rattle.conformance.specs.sessions.Ran.{SessionsRanKeeping};
ghost use Rattle.session.specs.Resting.{IsAtRest};
ghost use Rattle.session.specs.SessionWorlds.{AreLinesOfWorld};
ghost use Rattle.std.specs.List.{AllZip};
ghost use Rattle.world_run.specs.Open.{IsSaved, logged_in, saved_seen};
ghost use Rattle.world_run.specs.Works.{AreDone, AreWorks, IsRoomFor};
ghost use Rattle.world_run.specs.Starts.{StartsScripts};

use crate::accepted::push_accepted;
use crate::endings::end_all;
use crate::open_runs::{OpenRun, SavedSession};
use crate::rooms::{ScriptRoom, give_up_rooms, rooms_of};
use crate::works::SessionWork;
use conformance::Transcript;
use gate_run::{Gate, Worker, run_all};
use node_words::Plan;
use script::Script;
use session::{Session, World};
use std::alloc::Global;
use std::sync::Wait;
use std::thread::Threads;
use vox_read::Models;
use vw_cell::Memory;

/// Whether the cells of a run's world have tints, and how many last versions alone are held, or 0
/// for all.
#[derive(Clone, Copy)]
pub struct Settings {
    pub tint: bool,
    pub keep: u32,
}

/// A run whose sessions all ran their scripts, and their transcripts.
pub struct ScriptsRun {
    pub run: OpenRun,
    pub transcripts: Vec<Transcript>,
}

// What comes of the scripts, in their order, and room for the sessions when they are given up.
struct Outcomes {
    sessions: Vec<SavedSession>,
    transcripts: Vec<Transcript>,
    room: Vec<Session>,
}

// The sessions of a new world, and room for what comes of them.
struct Start {
    sessions: Vec<Session>,
    rooms: Vec<ScriptRoom>,
    outcomes: Outcomes,
}

/// Runs scripts in threads, script k as session k, from an empty world in a store of this plan. A
/// world whose cells have tints has a quarter of the store's side.
///
/// The world, a stencil of each model and the lists of all answers and saves are taken before the
/// first command; a command takes no memory. A run of no script, for which no words ask, is told as
/// want of memory.
pub fn run_scripts<R: Threads + Wait + Sync, G: Gate + Sync>(
    rt: &R,
    gate: &G,
    alloc: Global,
    plan: &Plan,
    models: Models,
    scripts: &[Script],
    settings: Settings,
) -> Result<ScriptsRun, Memory>
    requires models { AreModels models }
    requires large { settings.tint ≡ true → 4 ≤ plan.now.side }
    requires few { length scripts.now ≤ 64 }
    requires rise { All (RisesFrom 1) scripts.now }
    requires fit { All
        (All (λ l. CommandFits settings.tint (2 ^ plan.now.side) models l.command))
        scripts.now }
    ensures ran { IfOk result (λ r. SessionsRanKeeping settings.keep settings.tint plan.now
        models 0 scripts.now r.transcripts.items r.run.sessions) }
    ensures saved { IfOk result
        (λ r. r.run.kept ≡ logged_of scripts.now r.transcripts.items r.run.sessions) }
    ensures models { IfOk result (λ r. r.run.models ≡ models) }
    ensures plan { IfOk result (λ r. r.run.plan ≡ plan.now) }
    ensures tint { IfOk result (λ r. r.run.tint ≡ settings.tint) }
{
    if scripts.is_empty() {
        return Err(Memory);
    }
    let rooms = rooms_of(alloc, scripts)?;
    let Ok(outcomes) = room_for(alloc, scripts.len()) else {
        give_up_rooms(rooms);
        return Err(Memory);
    };
    let Settings { tint, keep } = settings;
    match World::begin(alloc, plan, models, scripts.len() as u16, tint, keep) {
        Ok((world, begun)) => {
            let start = Start {
                sessions: begun,
                rooms,
                outcomes,
            };
            run_in(rt, gate, alloc, world, start, scripts)
        }
        Err(refused) => {
            give_up_rooms(rooms);
            give_up_outcomes(outcomes);
            Err(refused)
        }
    }
}

// Room for what comes of so many scripts.
fn room_for(alloc: Global, number: usize) -> Result<Outcomes, Memory>
    ensures no_session { IfOk result (λ o. o.sessions.items ≡ []) }
    ensures no_transcript { IfOk result (λ o. o.transcripts.items ≡ []) }
    ensures no_room { IfOk result (λ o. o.room.items ≡ []) }
    ensures sessions { IfOk result (λ o. number ≤ vec_capacity o.sessions) }
    ensures transcripts { IfOk result (λ o. number ≤ vec_capacity o.transcripts) }
    ensures room { IfOk result (λ o. number ≤ vec_capacity o.room) }
{
    let transcripts = Vec::with_capacity(alloc, number)?;
    let Ok(sessions) = Vec::with_capacity(alloc, number) else {
        return Err(Memory);
    };
    let Ok(room) = Vec::with_capacity(alloc, number) else {
        sessions.destroy_empty();
        return Err(Memory);
    };
    Ok(Outcomes {
        sessions,
        transcripts,
        room,
    })
}

// Gives up room into which nothing came.
fn give_up_outcomes(outcomes: Outcomes)
    requires no_session { outcomes.sessions.items ≡ [] }
    requires no_room { outcomes.room.items ≡ [] }
{
    let Outcomes {
        sessions,
        transcripts: _,
        room,
    } = outcomes;
    sessions.destroy_empty();
    room.destroy_empty();
}

// Runs the scripts in a world where nothing was done yet.
fn run_in<R: Threads + Wait + Sync, G: Gate + Sync>(
    rt: &R,
    gate: &G,
    alloc: Global,
    world: World,
    start: Start,
    scripts: &[Script],
) -> Result<ScriptsRun, Memory>
    requires begun { StartsScripts world.table scripts.now start }
    requires few { length scripts.now ≤ 64 }
    requires rise { All (RisesFrom 1) scripts.now }
    requires fit { All (AreLinesOfWorld world) scripts.now }
    ensures ran { IfOk result (λ r. SessionsRanKeeping world.keep world.tint
        world.table.plan world.table.models 0 scripts.now r.transcripts.items
        r.run.sessions) }
    ensures saved { IfOk result
        (λ r. r.run.kept ≡ logged_of scripts.now r.transcripts.items r.run.sessions) }
    ensures models { IfOk result (λ r. r.run.models ≡ world.table.models) }
    ensures plan { IfOk result (λ r. r.run.plan ≡ world.table.plan) }
    ensures tint { IfOk result (λ r. r.run.tint ≡ world.tint) }
{
    let Start {
        sessions,
        rooms,
        outcomes,
    } = start;
    let Ok(room) = Vec::with_capacity(alloc, scripts.len()) else {
        give_up_rooms(rooms);
        end_all(sessions);
        give_up_outcomes(outcomes);
        return Err(Memory);
    };
    let works = give_out(&world, sessions, rooms, scripts, room);
    let works = run_works(rt, works, gate);
    let Outcomes {
        sessions,
        transcripts,
        room,
    } = take_in(&world, scripts, works, outcomes);
    let run = OpenRun {
        world,
        sessions,
        room,
    };
    Ok(ScriptsRun { run, transcripts })
}

// Each session's work: its script, and its room.
fn give_out<'a>(
    world: &'a World,
    sessions: Vec<Session>,
    rooms: Vec<ScriptRoom>,
    scripts: &'a [Script],
    room: Vec<SessionWork<'a>>,
) -> Vec<SessionWork<'a>>
    requires new { AreNewPasses world.now.table.id (terms_of world.now.table) sessions.items }
    requires many { length sessions.items ≡ length scripts.now }
    requires rooms { AllZip IsRoomFor scripts.now rooms.items }
    requires rest { All (IsAtRest world.now.table) sessions.items }
    requires rise { All (RisesFrom 1) scripts.now }
    requires fit { All (AreLinesOfWorld world.now) scripts.now }
    requires empty { room.items ≡ [] }
    requires capacity { length scripts.now ≤ vec_capacity room }
    ensures works { AreWorks world.now 0 scripts.now result.items }
    ensures many { length result.items ≡ length scripts.now }
{
    let mut works = room;
    let mut sessions = sessions.into_iter();
    let mut rooms = rooms.into_iter();
    for script in scripts {
        let Some(session) = sessions.next() else {
            unreachable!()
        };
        let Some(room) = rooms.next() else {
            unreachable!()
        };
        works.push_reserved(SessionWork {
            world,
            session,
            script,
            room,
        });
    }
    sessions.destroy_empty();
    rooms.destroy_empty();
    works
}

// Each runs once, in a thread of its own where one can be had.
fn run_works<R: Threads + Wait + Sync, G: Gate + Sync, W: Worker<G> + Send>(
    rt: &R,
    works: Vec<W>,
    gate: &G,
) -> Vec<W>
    requires may { All W.may_run works.items }
    ensures ran { RanEach W.ran works.items result.items }
{
    let mut works = works;
    run_all(rt, works.as_mut_slice(), gate);
    works
}

// What came of the works that are done, in the order of the scripts.
fn take_in(
    _world: &World,
    scripts: &[Script],
    works: Vec<SessionWork<'_>>,
    outcomes: Outcomes,
) -> Outcomes
    requires done { AreDone _world.now 0 scripts.now works.items }
    requires many { length works.items ≡ length scripts.now }
    requires fit { All (AreLinesOfWorld _world.now) scripts.now }
    requires no_session { outcomes.sessions.items ≡ [] }
    requires no_transcript { outcomes.transcripts.items ≡ [] }
    requires sessions { length scripts.now ≤ vec_capacity outcomes.sessions }
    requires transcripts { length scripts.now ≤ vec_capacity outcomes.transcripts }
    ensures room { result.room ≡ outcomes.room }
    ensures ran { SessionsRanKeeping _world.now.keep _world.now.tint _world.now.table.plan
        _world.now.table.models 0 scripts.now result.transcripts.items
        (saved_seen result.sessions.items) }
    ensures kept { logged_in result.sessions.items ≡ logged_of scripts.now result.transcripts.items
        (saved_seen result.sessions.items) }
    ensures saved { All (IsSaved _world.now.tint _world.now.table) result.sessions.items }
    ensures many { length result.sessions.items ≡ length scripts.now }
{
    let Outcomes {
        mut sessions,
        mut transcripts,
        room: spare,
    } = outcomes;
    let mut works = works.into_iter();
    for script in scripts {
        let Some(work) = works.next() else {
            unreachable!()
        };
        let SessionWork {
            world: _,
            session,
            script: _,
            room,
        } = work;
        let ScriptRoom {
            answers,
            mut saves,
            pins,
        } = room;
        push_accepted(script.lines.as_slice(), answers.as_slice(), &mut saves);
        sessions.push_reserved(SavedSession {
            session,
            saves,
            pins,
        });
        transcripts.push_reserved(Transcript { lines: answers });
    }
    works.destroy_empty();
    Outcomes {
        sessions,
        transcripts,
        room: spare,
    }
}
