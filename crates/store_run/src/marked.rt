ghost use Rattle.std.specs.Prelude.{◌≡◌, ◌+◌, ◌<◌, ◌≤◌, ◌^◌, ◌↔◌, ◌++◌, ◌∷◌, [], IfOk, IfErr, OnOk, length, true, false};
ghost use Rattle.vox_read.specs.Contents.{AreModels};
ghost use Rattle.history_model.specs.Logs.{FitsWorld, MayFollow, suits_tints};
ghost use Rattle.history_model.specs.Positions.{position_after};
ghost use Rattle.core_laws.specs.contents.Versions.{HoldsVersion};
ghost use Rattle.one_store.specs.Known.{known_state};
ghost use Rattle.store_run.specs.Changing.{LogGainsMark, log_with_record};
ghost use Rattle.store_run.specs.Kept.{IsLargeStore};
ghost use Rattle.store_run.specs.Marked.{HoldsVersions, replayed};
ghost use Rattle.store_run.specs.Replaying.{MakesOnlyParts, RefusesRecord};

use crate::held_roots::HeldRoots;
use crate::lines::is_edit;
use crate::open_worlds::OpenWorld;
use crate::replaying::ReplayRefused;
use crate::stored_versions::Versions;
use history_model::{Mark, Record};
use node_words::{Plan, Steps};
use std::alloc::Global;
use std::marker::Model;
use std::sync::ledger::{Blank, Ledger};
use vox_read::Models;
use vw_cell::Memory;

/// A history that is replayed record by record, and whose versions are given back at their marks.
/// Contracts see the plan, the models, the history so far, and what the store noted.
#[derive(Drop)]
pub struct MarkedReplay<L: Ledger> {
    versions: Versions,
    steps: Steps<L>,
}

impl<L: Ledger> Model for MarkedReplay<L> {
    ghost use Rattle.std.specs.Coded.{codes};
    ghost use Rattle.node_words.specs.shapes.ShapeCode.{coded_shape};
    ghost use Rattle.one_store.specs.notes.StoreNotes.{coded_wanted};
    ghost use Rattle.store_run.specs.Worlds.{WorldState, world_state, AreStoredAtRest};

    ghost Value = { WorldState };

    ghost coded = { Prim.hlevel (codes, coded_shape, coded_wanted) };

    ghost view = { λ r. world_state r.versions };

    ghost invariant = { λ r. AreStoredAtRest r.versions };
}

impl<L: Ledger> MarkedReplay<L> {
    /// A history with no record, room for so many, and these models, of a world whose cells have
    /// tints, or have none.
    #[tactic(auto, using(crate::proofs::Filling::nothing_made))]
    pub fn begin(
        alloc: Global,
        plan: &Plan,
        models: Models,
        tint: bool,
        records: usize,
        blank: Blank,
    ) -> Result<MarkedReplay<L>, Memory>
        requires models { AreModels models }
        requires large { IsLargeStore tint plan.now.side }
        requires name { blank.name ≡ L.name }
        requires parts { blank.parts ≡ L.parts }
        requires some { 0 < L.parts }
        ensures plan { IfOk result (λ r. r.plan ≡ plan.now) }
        ensures models { IfOk result (λ r. r.models ≡ models) }
        ensures log { IfOk result
            (λ r. r.log
            ≡ record { side = plan.now.side; coloured = tint; records = []; marks = [] }) }
        ensures made { IfOk result (λ r. MakesOnlyParts (replayed r)) }
    {
        let versions = Versions::begin(alloc, plan, models, records, tint)?;
        let steps = Steps::start(blank);
        Ok(MarkedReplay { versions, steps })
    }

    /// The record comes behind the others, which it can follow. Whatever is refused, the history
    /// stays.
    #[tactic(auto, using(crate::proofs::Filling::edit_parts, crate::proofs::Filling::way_parts, crate::proofs::Filling::edit_fills, crate::proofs::Followed::log_taken, crate::proofs::Taking::free_few, crate::proofs::Taking::same_free))]
    pub fn take(&mut self, next: Record) -> Result<(), ReplayRefused>
        requires early { length self.old.log.records < 65535 }
        requires suits { suits_tints self.old.log.coloured next.act ≡ true }
        requires fits { FitsWorld (2 ^ self.old.plan.side) self.old.models next.act }
        requires follows { MayFollow self.old.log.marks (length self.old.log.records + 1) next.act
            (position_after self.old.log.records) }
        requires made { MakesOnlyParts (replayed self.old) }
        ensures plan { self.new.plan ≡ self.old.plan }
        ensures models { self.new.models ≡ self.old.models }
        ensures log { OnOk result (self.new.log ≡ log_with_record self.old.log next) }
        ensures made { OnOk result (MakesOnlyParts (replayed self.new)) }
        ensures refused { IfErr result (RefusesRecord (replayed self.old) next) }
    {
        if self.versions.reserve().is_err() {
            return Err(ReplayRefused::Memory);
        }
        if !is_edit(next.act) {
            self.versions.follow_undo(next);
            return Ok(());
        }
        let steps = &mut self.steps;
        match self.versions.take_edit(next, steps) {
            Ok(()) => {}
            Err(full) => return Err(ReplayRefused::Full(full)),
        }
        Ok(())
    }

    /// The version of the mark is given back, now.
    #[tactic(auto, using(crate::proofs::Followed::marks_come, crate::proofs::Followed::marked_parts, crate::proofs::Taking::free_few, crate::proofs::Taking::same_free))]
    pub fn forget(&mut self, mark: Mark)
        requires kept { HoldsVersion self.old.log mark.version }
        requires earlier { mark.version < length self.old.log.records }
        requires now { mark.at ≡ length self.old.log.records }
        requires made { MakesOnlyParts (replayed self.old) }
        ensures plan { self.new.plan ≡ self.old.plan }
        ensures models { self.new.models ≡ self.old.models }
        ensures marks { LogGainsMark self.old.log mark self.new.log }
        ensures made { MakesOnlyParts (replayed self.new) }
    {
        let steps = &mut self.steps;
        self.versions.forget(mark, steps);
    }

    /// How many records there are.
    pub fn number(&self) -> u32
        ensures value { result ≡ length self.now.log.records }
        ensures few { result ≤ 65535 }
    {
        self.versions.moment()
    }

    /// The world that stands open behind what was replayed.
    pub fn into_world(self) -> OpenWorld
        ensures { result ≡ self }
    {
        let MarkedReplay { versions, .. } = self;
        OpenWorld::of(versions)
    }

    /// The root of each version that is kept, and the store that holds a share of it.
    pub fn into_roots(self, alloc: Global) -> Result<HeldRoots, Memory>
        ensures side { IfOk result (λ h. h.store.words.plan.side ≡ self.plan.side) }
        ensures roots { IfOk result (λ h. HoldsVersions self.plan.side self.models self.log
            (known_state h.store).held h.roots.items) }
    {
        let MarkedReplay { versions, .. } = self;
        versions.held_roots(alloc)
    }
}
