//! How the records of a history are replayed.
ghost use Rattle.std.specs.Prelude.{◌≡◌, ◌+◌, ◌<◌, ◌≤◌, ◌^◌, true, false, None, [], IfErr, OnOk};
ghost use Rattle.history_model.specs.Worlds.{is_edit};
ghost use Rattle.history_model.specs.Logs.{FitsWorld, MayFollow, suits_tints};
ghost use Rattle.history_model.specs.Positions.{position_after};
ghost use Rattle.node_words.specs.shapes.Weights.{number_of_trees};
ghost use Rattle.conformance.specs.Answers.{target_at};
ghost use Rattle.store_run.specs.Kept.{moment_of, log_of, AreStoredVersions, HoldsSame, HasRecordRoom};
ghost use Rattle.store_run.specs.Replaying.{TakesEdit, TakesUndo, FillsBucket, CanFollow};

use crate::stored_versions::Versions;
use history_model::Record;
use node_words::{Full, Steps};
use std::sync::ledger::Ledger;

impl Versions {
    /// An edit becomes the next record, unless a bucket is full.
    #[tactic(auto, using(crate::proofs::Rebuilding::suits_still, crate::proofs::Targets::may_edit, crate::proofs::Taking::edit_taken, crate::proofs::Filling::fills_bucket, crate::proofs::Holding::same_again, crate::proofs::Holding::gained_tree, crate::proofs::Holding::gained_room))]
    pub(crate) fn take_edit<L: Ledger>(
        &mut self,
        next: Record,
        steps: &mut Steps<L>,
    ) -> Result<(), Full>
        requires are { AreStoredVersions self.old }
        requires few { number_of_trees self.old.store.told.held ≤ 2048 }
        requires room { HasRecordRoom self.old }
        requires early { moment_of self.old < 65535 }
        requires edit { is_edit next.act ≡ true }
        requires suits { suits_tints self.old.models.tint next.act ≡ true }
        requires fits { FitsWorld (2 ^ self.old.side) self.old.models.models next.act }
        ensures are { AreStoredVersions self.new }
        ensures same { HoldsSame self.old.store self.new.store }
        ensures takes { OnOk result (TakesEdit self.old next self.new) }
        ensures fills { IfErr result (λ full. FillsBucket self.old next.act full self.new) }
    {
        let root = match self.rebuild(next.act, steps) {
            Ok(root) => root,
            Err(full) => {
                self.store.full_buckets_had_enough();
                return Err(full);
            }
        };
        self.append(next, root);
        Ok(())
    }

    /// An undo or a redo becomes the next record, where it has a version to go to.
    #[tactic(auto, using(crate::proofs::KeptWorlds::way_suits, crate::proofs::Targets::may_go_to, crate::proofs::Taking::way_taken, crate::proofs::Taking::target_kept, crate::proofs::Taking::target_follows, crate::proofs::Answering::went_same, crate::proofs::Holding::same_held, crate::proofs::Rebuilding::shared_tree))]
    pub(crate) fn take_undo(&mut self, next: Record) -> bool
        requires are { AreStoredVersions self.old }
        requires few { number_of_trees self.old.store.told.held ≤ 2048 }
        requires room { HasRecordRoom self.old }
        requires early { moment_of self.old < 65535 }
        requires other { is_edit next.act ≡ false }
        requires unmarked { (log_of self.old).marks ≡ [] }
        ensures are { AreStoredVersions self.new }
        ensures same { HoldsSame self.old.store self.new.store }
        ensures takes { result ≡ true → TakesUndo self.old next self.new }
        ensures follows { result ≡ true → CanFollow self.old.records.items next }
        ensures stays { result ≡ false → self.new ≡ self.old }
        ensures target { result ≡ false
            → target_at self.old.records.items (moment_of self.old) next.act ≡ None }
    {
        let to = match self.target(next.act) {
            Some(to) => to,
            None => return false,
        };
        let root = self.share(to);
        let _number = self.store.number();
        self.append(next, root);
        true
    }

    /// An undo or a redo becomes the next record, which can follow those before it.
    #[tactic(auto, using(crate::proofs::KeptWorlds::way_suits, crate::proofs::Targets::may_go_to, crate::proofs::Taking::way_taken, crate::proofs::Followed::followed_kept, crate::proofs::Followed::target_there, crate::proofs::Answering::went_same, crate::proofs::Holding::same_held, crate::proofs::Rebuilding::shared_tree))]
    pub(crate) fn follow_undo(&mut self, next: Record)
        requires are { AreStoredVersions self.old }
        requires few { number_of_trees self.old.store.told.held ≤ 2048 }
        requires room { HasRecordRoom self.old }
        requires early { moment_of self.old < 65535 }
        requires other { is_edit next.act ≡ false }
        requires follows { MayFollow (log_of self.old).marks (moment_of self.old + 1) next.act
            (position_after self.old.records.items) }
        ensures are { AreStoredVersions self.new }
        ensures same { HoldsSame self.old.store self.new.store }
        ensures takes { TakesUndo self.old next self.new }
    {
        let to = match self.target(next.act) {
            Some(to) => to,
            None => unreachable!(),
        };
        let root = self.share(to);
        let _number = self.store.number();
        self.append(next, root);
    }
}
