//! A run whose sessions all ran their scripts.
ghost use Rattle.std.specs.Prelude.{◌≡◌, ◌<◌, ◌≤◌, true, Some, All, IfErr, IfOk, length};
ghost use Rattle.std.specs.List.{slice_get};
ghost use Rattle.report.specs.Numbers.{AreNumbers};
ghost use Rattle.report.specs.Roots.{TellsReport};
ghost use Rattle.script.specs.Placing.{is_save_name};
ghost use Rattle.conformance.specs.declared.saves.SavedBox.{SavedBox};
ghost use Rattle.conformance.specs.sessions.LoggedSaves.{LoggedSave, logged_at};
ghost use Rattle.conformance.specs.sessions.Ran.{ClosesWorld};
ghost use Rattle.session.specs.Closes.{HadHistory};
ghost use Rattle.session.specs.SessionWorlds.{session_view};
ghost use Rattle.world_run.specs.Ends.{IsEndOf};
ghost use Rattle.world_run.specs.Open.{HasSave, IsSaved, SavesAt, logged_in, file_of_save};

use crate::endings::{WorldRan, close_over, give_up_over};
use conformance::SavedBox;
use session::{Pinned, Session, World};
use std::alloc::Global;
use std::marker::Model;
use std::sync::Wait;
use vw_cell::Memory;

/// A session that ran its script, its accepted saves, and the pin of each.
pub(crate) struct SavedSession {
    pub(crate) session: Session,
    pub(crate) saves: Vec<SavedBox>,
    pub(crate) pins: Vec<Pinned>,
}

/// A run whose sessions all ran their scripts, all sessions of its world. It holds what was saved,
/// so that files can be made one at a time, and then its world is closed, or it is given up, for
/// which it has room.
pub struct OpenRun {
    pub(crate) world: World,
    pub(crate) sessions: Vec<SavedSession>,
    pub(crate) room: Vec<Session>,
}

impl Model for OpenRun {
    ghost use Rattle.std.specs.Prelude.{◌≡◌, ◌≤◌, [], All, length, vec_capacity};
    ghost use Rattle.std.specs.Coded.{codes};
    ghost use Rattle.node_words.specs.shapes.ShapeCode.{coded_shape};
    ghost use Rattle.one_store.specs.notes.StoreNotes.{coded_wanted};
    ghost use Rattle.world_run.specs.Open.{IsSaved, RunState, logged_in, saved_seen};

    ghost Value = { RunState };

    ghost coded = { Prim.hlevel (codes, coded_shape, coded_wanted) };

    ghost view = { λ r. record {
      plan = r.world.table.plan;
      tint = r.world.tint;
      models = r.world.table.models;
      sessions = saved_seen r.sessions.items;
      kept = logged_in r.sessions.items;
    } };

    ghost invariant = { λ r. All (IsSaved r.world.tint r.world.table) r.sessions.items
        × (length r.sessions.items ≡ r.world.table.made)
        × (length r.sessions.items ≤ 64)
        × (r.room.items ≡ [])
        × (length r.sessions.items ≤ vec_capacity r.room) };
}

// Which save of which session.
#[derive(Clone, Copy)]
struct SaveIndex {
    session: usize,
    save: usize,
}

// How many saves there are.
fn number_kept(sessions: &[SavedSession]) -> usize
    requires few { length sessions.now ≤ 64 }
    requires each { All (λ s. length s.saves.items ≤ 1024) sessions.now }
    ensures { result ≡ length (logged_in sessions.now) }
{
    let mut number: usize = 0;
    for s in sessions {
        number += s.saves.len();
    }
    number
}

// Where the save of this number stands.
fn place_of(sessions: &[SavedSession], k: usize) -> SaveIndex
    requires { k < length (logged_in sessions.now) }
    ensures { HasSave sessions.now k result }
{
    let mut left = k;
    for at in 0..sessions.len() {
        let number = sessions[at].saves.len();
        if left < number {
            return SaveIndex {
                session: at,
                save: left,
            };
        }
        left -= number;
    }
    unreachable!()
}

// The file of the save at this place.
fn file_in(alloc: Global, world: &World, s: &mut SavedSession, k: usize) -> Result<Vec<u8>, Memory>
    requires saved { IsSaved world.now.tint world.now.table s.old }
    requires there { k < length s.old.saves.items }
    ensures saved { IsSaved world.now.tint world.now.table s.new }
    ensures same { s.new.saves ≡ s.old.saves }
    ensures seen { session_view s.new.session.view ≡ session_view s.old.session.view }
    ensures file { IfOk result (λ file. (b : SavedBox) → slice_get s.old.saves.items k ≡ Some b
        → file.items ≡ file_of_save world.now.tint world.now.table.models
        (logged_at (session_view s.old.session.view).log b)) }
{
    let part = s.saves[k].part;
    world.saved_file(alloc, &mut s.session, s.pins.as_slice(), k, part)
}

impl OpenRun {
    /// How many saves were accepted.
    pub fn saves(&self) -> usize
        ensures { result ≡ length self.now.kept }
    {
        number_kept(self.sessions.as_slice())
    }

    /// The save of this number, counted from 0.
    pub fn save(&self, k: usize) -> SavedBox
        requires { k < length self.now.kept }
        ensures is { SavesAt self.now.kept k result }
        ensures is_name { is_save_name result.name ≡ true }
    {
        let place = place_of(self.sessions.as_slice(), k);
        self.sessions[place.session].saves[place.save]
    }

    /// The file of the save of this number.
    pub fn file(&mut self, alloc: Global, k: usize) -> Result<Vec<u8>, Memory>
        requires { k < length self.old.kept }
        ensures file { IfOk result (λ file. (s : LoggedSave) → slice_get self.old.kept k ≡ Some s
            → file.items ≡ file_of_save self.old.tint self.old.models s) }
        ensures same { self.new ≡ self.old }
    {
        let place = place_of(self.sessions.as_slice(), k);
        let OpenRun {
            world,
            sessions,
            room: _,
        } = self;
        file_in(alloc, world, &mut sessions[place.session], place.save)
    }

    /// Gives back what is held for saves, and closes the world.
    pub fn close<R: Wait>(self, rt: &R, alloc: Global) -> Result<WorldRan, Memory>
        ensures closes { IfOk result (λ r. ClosesWorld self.tint self.plan
            self.models self.sessions r.ended.history) }
        ensures is_end { IfOk result
            (λ r. IsEndOf self.tint self.models r.ended.history r.ended) }
        ensures report { IfOk result (λ r. TellsReport self.models r.ended) }
        ensures numbers { IfOk result
            (λ r. AreNumbers self.models r.ended.history r.numbers.items) }
        ensures refused { IfErr result (λ _. HadHistory self.tint self.plan
            self.models self.sessions) }
    {
        let OpenRun {
            world,
            sessions,
            room,
        } = self;
        close_over(rt, alloc, world, sessions, room)
    }

    /// Gives back what is held for saves, and gives up the sessions and their world. They had one
    /// history, which is not told. It takes no memory.
    pub fn give_up<R: Wait>(self, rt: &R)
        ensures { HadHistory self.tint self.plan self.models
            self.sessions }
    {
        let OpenRun {
            world,
            sessions,
            room,
        } = self;
        give_up_over(rt, world, sessions, room);
    }
}
