//! What an audit asks of a replayed history.
ghost use Rattle.std.specs.Prelude.{◌≡◌, ◌+◌, ◌<◌, ◌≤◌, ◌^◌, ◌↔◌, ℕ, List, length, IsTrue, Some, None};
ghost use Rattle.std.specs.List.{Contains};
ghost use Rattle.vw_cell.specs.Counts.{number_in};
ghost use Rattle.history_model.specs.Logs.{world_side};
ghost use Rattle.script.specs.Fitting.{QuestionFits};
ghost use Rattle.vw_cell.specs.Places.{FitsAt};
ghost use Rattle.conformance.specs.Answers.{IsUnforgotten, IsReadable, IsForgotten, target_at, mark_of};
ghost use Rattle.retain.specs.Retained.{KeepsLast};
ghost use Rattle.audit.specs.Fitting.{AnswersVersion, AreSame};
ghost use Rattle.audit.specs.Reruns.{IsRerun};

use crate::comparing_answers::is_told;
use crate::marks;
use crate::replaying::UndoTargets;
use history_model::{Act, History, Mark, Question};
use std::sync::ledger::Ledger;
use store_run::Replay;
use transcript::Answer;

// A replayed history, where its undos and redos go, and the marks of its versions.
#[derive(Drop)]
pub(crate) struct Rerun<L: Ledger> {
    pub(crate) replay: Replay<L>,
    pub(crate) ways: Vec<UndoTargets>,
    pub(crate) table: Vec<Option<Mark>>,
}

impl<L: Ledger> Rerun<L> {
    // Whether the session's line can read the version at moment n.
    #[tactic(auto, using(crate::proofs::Recalling::stands_rerun))]
    pub(crate) fn is_readable(
        &self,
        log: &History,
        session: u16,
        line: u32,
        n: u32,
        version: u32,
    ) -> bool
        requires { IsRerun log.now self.now.replay self.now.ways.items self.now.table.items }
        ensures { IsTrue result
            ↔ IsReadable (IsUnforgotten log.now.marks session line n) n version }
    {
        version <= n
            && marks::stands(
                marks::mark_of(self.table.as_slice(), version),
                session,
                line,
                n,
            )
    }

    // Whether it may find the version forgotten.
    #[tactic(auto, using(crate::proofs::Recalling::forgotten_rerun))]
    pub(crate) fn is_forgotten(
        &self,
        log: &History,
        session: u16,
        line: u32,
        n: u32,
        version: u32,
    ) -> bool
        requires { IsRerun log.now self.now.replay self.now.ways.items self.now.table.items }
        ensures { IsTrue result ↔ IsForgotten log.now.marks session line n version }
    {
        marks::is_forgotten(
            marks::mark_of(self.table.as_slice(), version),
            session,
            line,
            n,
        )
    }

    // Whether each version that fell out of the last `keep` had its mark by then.
    pub(crate) fn keeps_last(&self, log: &History, keep: u32) -> bool
        requires { IsRerun log.now self.now.replay self.now.ways.items self.now.table.items }
        ensures { IsTrue result ↔ KeepsLast keep log.now }
    {
        if keep == 0 {
            return true;
        }
        let fallen = (log.records.len() + 1).saturating_sub(keep as usize);
        for version in 0..fallen {
            let mark = marks::mark_of(self.table.as_slice(), version as u32);
            if !marks::is_marked_by(mark, version as u32 + keep) {
                return false;
            }
        }
        true
    }

    // Whether the history has this mark.
    #[tactic(auto, using(crate::proofs::Recalling::mark_rerun))]
    pub(crate) fn has_mark(
        &self,
        log: &History,
        version: u32,
        n: u32,
        session: u16,
        line: u32,
    ) -> bool
        requires { IsRerun log.now self.now.replay self.now.ways.items self.now.table.items }
        ensures { IsTrue result ↔ Contains log.now.marks (mark_of version n session line) }
    {
        marks::is_mark(
            marks::mark_of(self.table.as_slice(), version),
            Mark {
                version,
                at: n,
                session,
                line,
            },
        )
    }

    // The version that an undo goes back to at moment n, or a redo on to.

    pub(crate) fn target(&self, log: &History, n: u32, act: Act) -> Option<u32>
        requires rerun { IsRerun log.now self.now.replay self.now.ways.items self.now.table.items }
        requires there { n ≤ length log.now.records }
        ensures { result ≡ target_at log.now.records n act }
    {
        match act {
            Act::Undo => self.ways[n as usize].undo,
            Act::Redo => self.ways[n as usize].redo,
            _ => None,
        }
    }

    // Whether the answer tells what the question asks of a version.
    #[tactic(auto, using(crate::proofs::Recalling::told_same, crate::proofs::Recalling::question_rerun))]
    pub(crate) fn tells(
        &mut self,
        log: &History,
        version: u32,
        question: Question,
        answer: Answer,
    ) -> bool
        requires rerun { IsRerun log.now self.old.replay self.old.ways.items self.old.table.items }
        requires there { version ≤ length log.now.records }
        requires fits { QuestionFits (world_side log.now) question }
        ensures tells { IsTrue result ↔ AnswersVersion self.old.replay.models log.now version
            question answer }
        ensures same { self.new ≡ self.old }
    {
        let told = self.replay.ask(version, question);
        is_told(told, answer)
    }

    // Whether two versions have the same tints.
    pub(crate) fn are_same(&self, log: &History, v: u32, w: u32) -> bool
        requires rerun { IsRerun log.now self.now.replay self.now.ways.items self.now.table.items }
        requires there { (v ≤ length log.now.records) × (w ≤ length log.now.records) }
        ensures { IsTrue result ↔ AreSame self.now.replay.models log.now v w }
    {
        self.replay.has_same_tints(v, w)
    }
}
