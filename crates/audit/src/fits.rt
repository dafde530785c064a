//! Whether a transcript's line answers a script's line.
ghost use Rattle.std.specs.Prelude.{◌≡◌, ◌<◌, ◌≤◌, ◌^◌, ◌↔◌, ℕ, List, length, IsTrue, Bool, true, false, None, Some};
ghost use Rattle.vw_cell.specs.Counts.{number_in};
ghost use Rattle.history_model.specs.Logs.{world_side};
ghost use Rattle.history_model.specs.Moments.{world_has};
ghost use Rattle.history_model.specs.declared.questions.Question.TheVariants as questions;
ghost use Rattle.script.specs.Fitting.{CommandFits};
ghost use Rattle.script.specs.declared.commands.Command.TheVariants.{Head};
ghost use Rattle.transcript.specs.declared.answers.Answer.TheVariants as answers;
ghost use Rattle.conformance.specs.Answers.{IsReadable, IsUnforgotten, LineFits, asked_version};
ghost use Rattle.std.specs.Bool.{MatchBool};
ghost use Rattle.vw_cell.specs.Places.{FitsAt};
ghost use Rattle.audit.specs.Reruns.{IsRerun};
ghost use Rattle.audit.specs.Fitting.{FitsBy, AnsweredFits, SavedFits, SameFits, AreSame};

use crate::lines;
use crate::reruns::Rerun;
use history_model::{Act, History, Question};
use node_words::Plan;
use script::{Command, ScriptLine};
use std::sync::ledger::Ledger;
use transcript::{Answer, LineAnswer};
use vw_cell::Boxed;

impl<L: Ledger> Rerun<L> {
    // Whether the line of a transcript answers that of the session's script.
    #[tactic(auto, using(crate::proofs::Fitting::line_is))]
    pub(crate) fn line_fits(
        &mut self,
        log: &History,
        judged: &Plan,
        session: u16,
        l: &ScriptLine,
        a: &LineAnswer,
    ) -> bool
        requires rerun { IsRerun log.now self.old.replay self.old.ways.items self.old.table.items }
        requires fits { CommandFits log.now.coloured (2 ^ log.now.side) self.old.replay.models
            l.now.command }
        ensures fits { IsTrue result ↔ LineFits judged.now self.old.replay.models log.now session
            l.now a.now }
        ensures same { self.new ≡ self.old }
    {
        if a.line != l.line || a.at as usize > log.records.len() {
            return false;
        }
        self.answer_fits(log, judged, session, l.line, a.at, &l.command, a.answer)
    }

    // Whether the answer fits the command at moment n.
    fn answer_fits(
        &mut self,
        log: &History,
        judged: &Plan,
        session: u16,
        line: u32,
        n: u32,
        command: &Command,
        answer: Answer,
    ) -> bool
        requires rerun { IsRerun log.now self.old.replay self.old.ways.items self.old.table.items }
        requires there { n ≤ length log.now.records }
        requires fits { CommandFits log.now.coloured (2 ^ log.now.side) self.old.replay.models
            command.now }
        ensures fits { IsTrue result ↔ FitsBy judged.now self.old.replay.models log.now
            (IsUnforgotten log.now.marks session line n) session line n command.now answer }
        ensures same { self.new ≡ self.old }
    {
        match answer {
            Answer::Done => lines::done_fits(log, session, line, n, command),
            Answer::Forgot(v) => self.forgot_fits(log, session, line, n, command, v),
            Answer::Is(_) => self.answered_fits(log, judged, session, line, n, command, answer),
            Answer::Colour(_) => self.answered_fits(log, judged, session, line, n, command, answer),
            Answer::Count(_) => self.answered_fits(log, judged, session, line, n, command, answer),
            Answer::Faces(_) => self.answered_fits(log, judged, session, line, n, command, answer),
            Answer::Extent(_) => self.answered_fits(log, judged, session, line, n, command, answer),
            Answer::Hit(_) => self.answered_fits(log, judged, session, line, n, command, answer),
            Answer::Same(same) => self.same_fits(log, judged, session, line, n, command, same),
            Answer::Head => head_fits(command),
            Answer::Saved(cells) => self.saved_fits(log, judged, session, line, n, command, cells),
            Answer::Full { level, bucket } => lines::full_fits(judged, level, bucket, command),
            Answer::NoVersion(v) => n < v && self.names(log, session, line, n, command, v),
            Answer::Forgotten(v) => {
                self.is_forgotten(log, session, line, n, v)
                    && self.looks_up(log, session, line, n, command, v)
            }
            Answer::IsHead => lines::is_head_fits(n, command),
            Answer::NothingToUndo => self.no_undo_fits(log, n, command),
            Answer::NothingToRedo => self.no_redo_fits(log, n, command),
            Answer::LogFull => self.log_full_fits(log, session, line, n, command),
            Answer::Stale(base) => lines::stale_fits(n, base, command),
        }
    }

    // What a question is answered.
    fn answered_fits(
        &mut self,
        log: &History,
        judged: &Plan,
        session: u16,
        line: u32,
        n: u32,
        command: &Command,
        answer: Answer,
    ) -> bool
        requires rerun { IsRerun log.now self.old.replay self.old.ways.items self.old.table.items }
        requires there { n ≤ length log.now.records }
        requires fits { CommandFits log.now.coloured (2 ^ log.now.side) self.old.replay.models
            command.now }
        ensures fits { IsTrue result ↔ AnsweredFits judged.now self.old.replay.models log.now
            (IsUnforgotten log.now.marks session line n) session line n command.now answer }
        ensures same { self.new ≡ self.old }
    {
        match command {
            Command::Ask { version, question } => {
                let asked = asked(*version, n);
                self.is_readable(log, session, line, n, asked)
                    && self.tells(log, asked, *question, answer)
            }
            Command::Edit { .. } => false,
            Command::Forget(_) => false,
            Command::Save { .. } => false,
            Command::Same(_, _) => false,
            Command::Head => false,
        }
    }

    // `saved k`
    fn saved_fits(
        &mut self,
        log: &History,
        judged: &Plan,
        session: u16,
        line: u32,
        n: u32,
        command: &Command,
        cells: u64,
    ) -> bool
        requires rerun { IsRerun log.now self.old.replay self.old.ways.items self.old.table.items }
        requires there { n ≤ length log.now.records }
        requires fits { CommandFits log.now.coloured (2 ^ log.now.side) self.old.replay.models
            command.now }
        ensures fits { IsTrue result ↔ SavedFits judged.now self.old.replay.models log.now
            (IsUnforgotten log.now.marks session line n) session line n command.now cells }
        ensures same { self.new ≡ self.old }
    {
        match command {
            Command::Save { version, part, .. } => {
                let asked = asked(*version, n);
                self.is_readable(log, session, line, n, asked)
                    && self.counts(log, asked, *part, cells)
            }
            Command::Edit { .. } => false,
            Command::Forget(_) => false,
            Command::Ask { .. } => false,
            Command::Same(_, _) => false,
            Command::Head => false,
        }
    }

    // Whether a version has so many cells in a box.
    #[tactic(auto, using(crate::proofs::Fitting::counted))]
    fn counts(&mut self, log: &History, version: u32, part: Boxed, cells: u64) -> bool
        requires rerun { IsRerun log.now self.old.replay self.old.ways.items self.old.table.items }
        requires there { version ≤ length log.now.records }
        requires fits { FitsAt part.at part.size (world_side log.now) }
        ensures fits { IsTrue result ↔ (cells ≡ number_in part
            (world_has self.old.replay.models log.now.records version)) }
        ensures same { self.new ≡ self.old }
    {
        self.tells(log, version, Question::Count(part), Answer::Count(cells))
    }

    // `same` and `different`
    fn same_fits(
        &self,
        log: &History,
        judged: &Plan,
        session: u16,
        line: u32,
        n: u32,
        command: &Command,
        same: bool,
    ) -> bool
        requires rerun { IsRerun log.now self.now.replay self.now.ways.items self.now.table.items }
        requires there { n ≤ length log.now.records }
        ensures { IsTrue result ↔ SameFits judged.now self.now.replay.models log.now
            (IsUnforgotten log.now.marks session line n) session line n command.now same }
    {
        match command {
            Command::Same(v, w) => {
                self.is_readable(log, session, line, n, *v)
                    && self.is_readable(log, session, line, n, *w)
                    && self.is_same(log, *v, *w, same)
            }
            Command::Edit { .. } => false,
            Command::Forget(_) => false,
            Command::Ask { .. } => false,
            Command::Save { .. } => false,
            Command::Head => false,
        }
    }

    fn is_same(&self, log: &History, v: u32, w: u32, same: bool) -> bool
        requires rerun { IsRerun log.now self.now.replay self.now.ways.items self.now.table.items }
        requires there { (v ≤ length log.now.records) × (w ≤ length log.now.records) }
        ensures { IsTrue result ↔ MatchBool same (AreSame self.now.replay.models log.now v w)
            (AreSame self.now.replay.models log.now v w → ⊥) }
    {
        let is = self.are_same(log, v, w);
        if same {
            return is;
        }
        !is
    }
}

// A question without a version is asked of that of its moment.
fn asked(version: Option<u32>, n: u32) -> u32
    ensures { result ≡ asked_version version n }
{
    match version {
        Some(version) => version,
        None => n,
    }
}

// `head`
fn head_fits(command: &Command) -> bool
    ensures { IsTrue result ↔ (command.now ≡ Head) }
{
    match command {
        Command::Head => true,
        Command::Edit { .. } => false,
        Command::Forget(_) => false,
        Command::Ask { .. } => false,
        Command::Save { .. } => false,
        Command::Same(_, _) => false,
    }
}
