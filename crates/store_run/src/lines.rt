//! What acts and marks make of versions, and how they are answered.
ghost use Rattle.std.specs.Prelude.{◌≡◌, ◌<◌, ◌≤◌, ◌^◌, Bool, true, false};
ghost use Rattle.history_model.specs.Worlds.{is_edit};
ghost use Rattle.history_model.specs.Logs.{FitsWorld, suits_tints};
ghost use Rattle.node_words.specs.shapes.Weights.{number_of_trees};
ghost use Rattle.script.specs.declared.commands.Command.TheVariants.{Edit, Forget};
ghost use Rattle.conformance.specs.Answers.{target_at, mark_of};
ghost use Rattle.store_run.specs.Kept.{log_of, moment_of, AreStoredVersions, HoldsSame, HasRecordRoom};
ghost use Rattle.store_run.specs.Answering.{ExtendsBy, nothing_to_go_to};
ghost use Rattle.store_run.specs.Changing.{Changes, AnswersForget, ForgetsFallen};
ghost use Rattle.store_run.specs.Worlds.{world_state};

use crate::stored_versions::{RECORDS, VersionFound, Versions};
use history_model::{Act, Mark, Record};
use node_words::Steps;
use retain::falls_out;
use std::sync::ledger::Ledger;
use transcript::Answer;

impl Versions {
    /// An edit: full, or the history is, or it becomes the next record.
    #[tactic(auto, using(crate::proofs::Rebuilding::suits_still, crate::proofs::Targets::may_edit, crate::proofs::Answering::edit_full, crate::proofs::Answering::edit_done, crate::proofs::Answering::edit_late, crate::proofs::Answering::full_same, crate::proofs::Holding::same_again, crate::proofs::Holding::gained_tree, crate::proofs::Holding::gained_room))]
    pub(crate) fn edit<L: Ledger>(
        &mut self,
        session: u16,
        line: u32,
        act: Act,
        steps: &mut Steps<L>,
    ) -> Answer
        requires are { AreStoredVersions self.old }
        requires few { number_of_trees self.old.store.told.held ≤ 2048 }
        requires room { HasRecordRoom self.old }
        requires edit { is_edit act ≡ true }
        requires suits { suits_tints self.old.models.tint act ≡ true }
        requires fits { FitsWorld (2 ^ self.old.side) self.old.models.models act }
        ensures are { AreStoredVersions self.new }
        ensures goes_on { (once : Bool) → ExtendsBy self.old session
            (record { line = line; command = Edit act once }) result self.new }
        ensures logs { Changes (log_of self.old)
            (record { session = session; line = line; act = act }) result (log_of self.new) }
        ensures same { HoldsSame self.old.store self.new.store }
    {
        let root = match self.rebuild(act, steps) {
            Ok(root) => root,
            Err(full) => {
                return Answer::Full {
                    level: full.level,
                    bucket: full.bucket,
                };
            }
        };
        if self.moment() == RECORDS {
            self.give_back(root, steps);
            return Answer::LogFull;
        }
        self.append(Record { session, line, act }, root);
        Answer::Done
    }

    /// An undo or a redo: it has nowhere to go, its version was forgotten, the history is full, or
    /// it becomes the next record.
    #[tactic(auto, using(crate::proofs::KeptWorlds::way_suits, crate::proofs::Targets::may_go_to, crate::proofs::Answering::go_nowhere, crate::proofs::Answering::go_forgotten, crate::proofs::Answering::go_late, crate::proofs::Answering::go_done, crate::proofs::Answering::go_past, crate::proofs::Answering::went_same, crate::proofs::Holding::same_held, crate::proofs::Rebuilding::shared_tree))]
    pub(crate) fn go(&mut self, session: u16, line: u32, act: Act) -> Answer
        requires are { AreStoredVersions self.old }
        requires few { number_of_trees self.old.store.told.held ≤ 2048 }
        requires room { HasRecordRoom self.old }
        requires other { is_edit act ≡ false }
        ensures are { AreStoredVersions self.new }
        ensures goes_on { (once : Bool) → ExtendsBy self.old session
            (record { line = line; command = Edit act once }) result self.new }
        ensures logs { Changes (log_of self.old)
            (record { session = session; line = line; act = act }) result (log_of self.new) }
        ensures same { HoldsSame self.old.store self.new.store }
    {
        let to = match self.target(act) {
            Some(to) => to,
            None => return nothing_to_go_to(act),
        };
        match self.find(to) {
            VersionFound::Kept => {}
            VersionFound::Marked => return Answer::Forgotten(to),
            VersionFound::NotThere => return nothing_to_go_to(act),
        }
        if self.moment() == RECORDS {
            return Answer::LogFull;
        }
        let root = self.share(to);
        let _number = self.store.number();
        self.append(Record { session, line, act }, root);
        Answer::Done
    }

    // The version that an undo or a redo goes to.
    #[tactic(auto, using(crate::proofs::Targets::target_undo, crate::proofs::Targets::target_redo))]
    pub(crate) fn target(&self, act: Act) -> Option<u32>
        requires { AreStoredVersions self.now }
        ensures { result ≡ target_at self.now.records.items (moment_of self.now) act }
    {
        match act {
            Act::Undo => self.trail.undo_target(),
            Act::Redo => self.trail.redo_target(),
            _ => None,
        }
    }

    #[tactic(auto, using(crate::proofs::Answering::forget_missing, crate::proofs::Answering::forget_marked, crate::proofs::Answering::forgets_head, crate::proofs::Answering::forgot_version, crate::proofs::Answering::kept_earlier, crate::proofs::Holding::same_held))]
    pub(crate) fn forget_version<L: Ledger>(
        &mut self,
        session: u16,
        line: u32,
        version: u32,
        steps: &mut Steps<L>,
    ) -> Answer
        requires are { AreStoredVersions self.old }
        requires few { number_of_trees self.old.store.told.held ≤ 2048 }
        ensures are { AreStoredVersions self.new }
        ensures goes_on { ExtendsBy self.old session
            (record { line = line; command = Forget version }) result self.new }
        ensures logs { AnswersForget (log_of self.old)
            (mark_of version (moment_of self.old) session line) result (log_of self.new) }
        ensures same { HoldsSame self.old.store self.new.store }
    {
        match self.find(version) {
            VersionFound::NotThere => Answer::NoVersion(version),
            VersionFound::Marked => Answer::Forgotten(version),
            VersionFound::Kept => {
                let at = self.moment();
                if version == at {
                    return Answer::IsHead;
                }
                let mark = Mark {
                    version,
                    at,
                    session,
                    line,
                };
                self.forget(mark, steps);
                Answer::Forgot(version)
            }
        }
    }

    /// Forgets the version that the newest record pushed out of the last `keep`, as this line of
    /// this session, where it has no mark.
    #[tactic(auto, using(crate::proofs::Keeping::none_fell, crate::proofs::Keeping::fallen_earlier, crate::proofs::Holding::same_held))]
    pub(crate) fn forget_fallen<L: Ledger>(
        &mut self,
        session: u16,
        line: u32,
        keep: u32,
        steps: &mut Steps<L>,
    )
        requires are { AreStoredVersions self.old }
        requires few { number_of_trees self.old.store.told.held ≤ 2048 }
        ensures are { AreStoredVersions self.new }
        ensures falls { ForgetsFallen keep (world_state self.old) session line
            (world_state self.new) }
        ensures same { HoldsSame self.old.store self.new.store }
    {
        let at = self.moment();
        let Some(version) = falls_out(at, keep) else {
            return;
        };
        match self.find(version) {
            VersionFound::NotThere | VersionFound::Marked => {}
            VersionFound::Kept => {
                let mark = Mark {
                    version,
                    at,
                    session,
                    line,
                };
                self.forget(mark, steps);
            }
        }
    }
}

fn nothing_to_go_to(act: Act) -> Answer
    ensures { result ≡ nothing_to_go_to act }
{
    match act {
        Act::Redo => Answer::NothingToRedo,
        _ => Answer::NothingToUndo,
    }
}

pub(crate) fn is_edit(act: Act) -> bool
    ensures { result ≡ is_edit act }
{
    match act {
        Act::Undo | Act::Redo => false,
        _ => true,
    }
}
