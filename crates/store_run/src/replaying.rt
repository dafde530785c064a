ghost use Rattle.std.specs.Prelude.{◌≡◌, ◌+◌, ◌<◌, ◌≤◌, ◌^◌, ◌↔◌, ◌++◌, ◌∷◌, true, false, [], IfOk, IfErr, OnOk, length, IsTrue, Ok, MatchResult};
ghost use Rattle.vox_read.specs.Contents.{AreModels};
ghost use Rattle.history_model.specs.Worlds.{is_edit};
ghost use Rattle.history_model.specs.Logs.{FitsWorld, side_of_world, suits_tints};
ghost use Rattle.history_model.specs.Moments.{world_has, world_tint};
ghost use Rattle.history_model.specs.Tints.{SameTints};
ghost use Rattle.script.specs.Fitting.{QuestionFits};
ghost use Rattle.conformance.specs.Answers.{target_at};
ghost use Rattle.conformance.specs.QuestionAnswers.{AnswersTo};
ghost use Rattle.store_run.specs.Kept.{IsLargeStore};
ghost use Rattle.store_run.specs.Replaying.{ReplayState, IsReplay, MakesOnlyParts, Replays, RefusesRecord};

use crate::lines::is_edit;
use crate::stored_versions::Versions;
use history_model::{Act, Question, Record};
use node_words::{Full, Plan, Steps};
use std::alloc::Global;
use std::marker::Model;
use std::sync::ledger::{Blank, Ledger};
use transcript::Answer;
use vox_read::Models;
use vw_cell::Memory;

/// Why a record was not replayed.
#[derive(Clone, Copy, Debug, PartialEq, Eq)]
pub enum ReplayRefused {
    /// A bucket had no room for what the record needs.
    Full(Full),
    Memory,
}

/// A history that is replayed record by record, and whose versions can all be asked: none is
/// forgotten. Contracts see the plan, the models, the records, and what the store noted.
#[derive(Drop)]
pub struct Replay<L: Ledger> {
    versions: Versions,
    steps: Steps<L>,
}

impl<L: Ledger> Model for Replay<L> {
    ghost use Rattle.std.specs.Coded.{codes};
    ghost use Rattle.node_words.specs.shapes.ShapeCode.{coded_shape};
    ghost use Rattle.one_store.specs.notes.StoreNotes.{coded_wanted};
    ghost use Rattle.store_run.specs.Replaying.{ReplayState, IsReplay, replay_state};

    ghost Value = { ReplayState };

    ghost coded = { Prim.hlevel (codes, coded_shape, coded_wanted) };

    ghost view = { λ r. replay_state r.versions };

    ghost invariant = { λ r. IsReplay r.versions };
}

impl<L: Ledger> Replay<L> {
    /// A history with no record, room for so many, and these models, of a world whose cells have
    /// tints, or have none.
    #[tactic(auto, using(crate::proofs::Filling::nothing_made))]
    pub fn begin(
        alloc: Global,
        plan: &Plan,
        models: Models,
        tint: bool,
        records: usize,
        blank: Blank,
    ) -> Result<Replay<L>, Memory>
        requires models { AreModels models }
        requires large { IsLargeStore tint plan.now.side }
        requires name { blank.name ≡ L.name }
        requires parts { blank.parts ≡ L.parts }
        requires some { 0 < L.parts }
        ensures plan { IfOk result (λ r. r.plan ≡ plan.now) }
        ensures tint { IfOk result (λ r. r.tint ≡ tint) }
        ensures models { IfOk result (λ r. r.models ≡ models) }
        ensures records { IfOk result (λ r. r.records ≡ []) }
        ensures made { IfOk result MakesOnlyParts }
    {
        let versions = Versions::begin(alloc, plan, models, records, tint)?;
        let steps = Steps::start(blank);
        Ok(Replay { versions, steps })
    }

    /// The record comes behind the others, where it can: `Ok(false)` where it is an undo or a redo
    /// that has no version to go to. Whatever is refused, the records stay.
    #[tactic(auto, using(crate::proofs::Filling::edit_parts, crate::proofs::Filling::way_parts, crate::proofs::Filling::edit_fills))]
    pub fn take(&mut self, next: Record) -> Result<bool, ReplayRefused>
        requires early { length self.old.records < 65535 }
        requires suits { suits_tints self.old.tint next.act ≡ true }
        requires fits { FitsWorld (2 ^ self.old.plan.side) self.old.models next.act }
        requires made { MakesOnlyParts self.old }
        ensures plan { self.new.plan ≡ self.old.plan }
        ensures tint { self.new.tint ≡ self.old.tint }
        ensures models { self.new.models ≡ self.old.models }
        ensures replays { Replays self.old.records next result self.new.records }
        ensures made { OnOk result (MakesOnlyParts self.new) }
        ensures refused { IfErr result (RefusesRecord self.old next) }
    {
        if self.versions.reserve().is_err() {
            return Err(ReplayRefused::Memory);
        }
        if !is_edit(next.act) {
            return Ok(self.versions.take_undo(next));
        }
        let steps = &mut self.steps;
        match self.versions.take_edit(next, steps) {
            Ok(()) => {}
            Err(full) => return Err(ReplayRefused::Full(full)),
        }
        Ok(true)
    }

    /// How many records there are.
    pub fn number(&self) -> u32
        ensures value { result ≡ length self.now.records }
        ensures few { result ≤ 65535 }
    {
        self.versions.moment()
    }

    /// The version that an undo goes back to now, or a redo on to.
    pub fn target(&self, act: Act) -> Option<u32>
        ensures { result ≡ target_at self.now.records (length self.now.records) act }
    {
        self.versions.target(act)
    }

    /// What the question asks of a version.
    #[tactic(auto, using(crate::proofs::Taking::free_few, crate::proofs::Taking::unmarked_kept))]
    pub fn ask(&mut self, version: u32, question: Question) -> Answer
        requires there { version ≤ length self.old.records }
        requires fits { QuestionFits
            (side_of_world self.old.tint (2 ^ self.old.plan.side)) question }
        ensures tells { AnswersTo (side_of_world self.old.tint (2 ^ self.old.plan.side))
            (world_has self.old.models self.old.records version)
            (world_tint self.old.models self.old.records version) question result }
        ensures same { self.new ≡ self.old }
    {
        let steps = &mut self.steps;
        self.versions.ask(version, question, steps)
    }

    /// Whether two versions have the same tints.
    pub fn has_same_tints(&self, v: u32, w: u32) -> bool
        requires there { (v ≤ length self.now.records) × (w ≤ length self.now.records) }
        ensures { IsTrue result ↔ SameTints (side_of_world self.now.tint (2 ^ self.now.plan.side))
            (world_tint self.now.models self.now.records v)
            (world_tint self.now.models self.now.records w) }
    {
        let _number = self.versions.store.number();
        self.versions.has_same_roots(v, w)
    }
}
