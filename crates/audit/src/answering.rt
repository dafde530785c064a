//! Whether an answer fits a command of a script, by what a replayed history tells.
ghost use Rattle.std.specs.Prelude.{◌≡◌, ◌≢◌, ◌<◌, ◌≤◌, ◌^◌, ◌↔◌, ℕ, List, length, IsTrue, true, None, Some, ◌⊎◌};
ghost use Rattle.std.specs.List.{Contains};
ghost use Rattle.history_model.specs.declared.acts.Act.TheVariants.{Undo, Redo};
ghost use Rattle.script.specs.Fitting.{CommandFits};
ghost use Rattle.script.specs.declared.commands.Command.TheVariants.{Head};
ghost use Rattle.transcript.specs.declared.answers.Answer.TheVariants as answers;
ghost use Rattle.conformance.specs.Answers.{IsReadable, IsUnforgotten, HasReadableTarget, Names, LooksUp, mark_of, target_at};
ghost use Rattle.audit.specs.Reruns.{IsRerun};
ghost use Rattle.audit.specs.Fitting.{EditIs, ForgetIs, FitsBy};

use crate::lines;
use crate::reruns::Rerun;
use history_model::{Act, History, Question};
use node_words::Plan;
use script::Command;
use std::sync::ledger::Ledger;
use transcript::Answer;

impl<L: Ledger> Rerun<L> {
    // `forgot v`
    pub(crate) fn forgot_fits(
        &self,
        log: &History,
        session: u16,
        line: u32,
        n: u32,
        command: &Command,
        v: u32,
    ) -> bool
        requires { IsRerun log.now self.now.replay self.now.ways.items self.now.table.items }
        ensures { IsTrue result ↔ ForgetIs command.now
            (λ u. (u ≡ v) × Contains log.now.marks (mark_of v n session line)) }
    {
        match command {
            Command::Forget(u) => *u == v && self.has_mark(log, v, n, session, line),
            Command::Edit { .. } => false,
            Command::Ask { .. } => false,
            Command::Save { .. } => false,
            Command::Same(_, _) => false,
            Command::Head => false,
        }
    }

    // `nothing to undo`
    pub(crate) fn no_undo_fits(&self, log: &History, n: u32, command: &Command) -> bool
        requires rerun { IsRerun log.now self.now.replay self.now.ways.items self.now.table.items }
        requires there { n ≤ length log.now.records }
        ensures { IsTrue result ↔ EditIs command.now
            (λ act once. (act ≡ Undo) × (target_at log.now.records n Undo ≡ None)) }
    {
        match command {
            Command::Edit { act: Act::Undo, .. } => self.target(log, n, Act::Undo).is_none(),
            Command::Edit { .. } => false,
            Command::Forget(_) => false,
            Command::Ask { .. } => false,
            Command::Save { .. } => false,
            Command::Same(_, _) => false,
            Command::Head => false,
        }
    }

    // `nothing to redo`
    pub(crate) fn no_redo_fits(&self, log: &History, n: u32, command: &Command) -> bool
        requires rerun { IsRerun log.now self.now.replay self.now.ways.items self.now.table.items }
        requires there { n ≤ length log.now.records }
        ensures { IsTrue result ↔ EditIs command.now
            (λ act once. (act ≡ Redo) × (target_at log.now.records n Redo ≡ None)) }
    {
        match command {
            Command::Edit { act: Act::Redo, .. } => self.target(log, n, Act::Redo).is_none(),
            Command::Edit { .. } => false,
            Command::Forget(_) => false,
            Command::Ask { .. } => false,
            Command::Save { .. } => false,
            Command::Same(_, _) => false,
            Command::Head => false,
        }
    }

    // `log full`
    pub(crate) fn log_full_fits(
        &self,
        log: &History,
        session: u16,
        line: u32,
        n: u32,
        command: &Command,
    ) -> bool
        requires rerun { IsRerun log.now self.now.replay self.now.ways.items self.now.table.items }
        requires there { n ≤ length log.now.records }
        ensures { IsTrue result ↔ EditIs command.now (λ act once. (n ≡ 65535)
            × HasReadableTarget
            (IsUnforgotten log.now.marks session line n) log.now.records n act) }
    {
        match command {
            Command::Edit { act, .. } => n == 65_535
                && self.has_readable_target(log, session, line, n, *act),
            Command::Forget(_) => false,
            Command::Ask { .. } => false,
            Command::Save { .. } => false,
            Command::Same(_, _) => false,
            Command::Head => false,
        }
    }

    // Whether an undo or a redo has a version to go to that can be read.
    fn has_readable_target(&self, log: &History, session: u16, line: u32, n: u32, act: Act) -> bool
        requires rerun { IsRerun log.now self.now.replay self.now.ways.items self.now.table.items }
        requires there { n ≤ length log.now.records }
        ensures { IsTrue result
            ↔ HasReadableTarget (IsUnforgotten log.now.marks session line n) log.now.records n act }
    {
        if lines::is_edit(act) {
            return true;
        }
        match self.target(log, n, act) {
            None => false,
            Some(to) => self.is_readable(log, session, line, n, to),
        }
    }

    // Whether the command names the version.
    pub(crate) fn names(
        &self,
        log: &History,
        session: u16,
        line: u32,
        n: u32,
        command: &Command,
        v: u32,
    ) -> bool
        requires { IsRerun log.now self.now.replay self.now.ways.items self.now.table.items }
        ensures { IsTrue result
            ↔ Names (IsUnforgotten log.now.marks session line n) n command.now v }
    {
        match command {
            Command::Forget(u) => *u == v,
            Command::Ask { version: None, .. } => false,
            Command::Ask {
                version: Some(u),
                ..
            } => *u == v,
            Command::Save { version: None, .. } => false,
            Command::Save {
                version: Some(u),
                ..
            } => *u == v,
            Command::Same(u, w) => self.names_one(log, session, line, n, *u, *w, v),
            Command::Edit { .. } => false,
            Command::Head => false,
        }
    }

    // Whether it is the first version, or the second one and the first can be read.

    fn names_one(
        &self,
        log: &History,
        session: u16,
        line: u32,
        n: u32,
        u: u32,
        w: u32,
        v: u32,
    ) -> bool
        requires { IsRerun log.now self.now.replay self.now.ways.items self.now.table.items }
        ensures { IsTrue result ↔ ((u ≡ v)
            ⊎ ((w ≡ v) × IsReadable (IsUnforgotten log.now.marks session line n) n u)) }
    {
        if u == v {
            return true;
        }
        w == v && self.is_readable(log, session, line, n, u)
    }

    // Whether the command names the version, or is an undo or a redo that goes to it.
    pub(crate) fn looks_up(
        &self,
        log: &History,
        session: u16,
        line: u32,
        n: u32,
        command: &Command,
        v: u32,
    ) -> bool
        requires rerun { IsRerun log.now self.now.replay self.now.ways.items self.now.table.items }
        requires there { n ≤ length log.now.records }
        ensures { IsTrue result
            ↔ LooksUp (IsUnforgotten log.now.marks session line n) log.now.records n command.now v }
    {
        match command {
            Command::Edit { act, .. } => self.target(log, n, *act) == Some(v),
            other => self.names(log, session, line, n, other, v),
        }
    }
}
