// A session takes the log's turn, and gives it back.
ghost use Rattle.std.specs.Prelude.{◌≡◌, ◌≤◌};
ghost use Rattle.node_words.specs.shapes.Weights.{number_of_trees};
ghost use Rattle.table_rule.specs.LogFacts.{number_seen, seen_has};
ghost use Rattle.version_log.specs.Coming.{MayFinish};
ghost use Rattle.version_log.specs.Roots.{GetsRoot, HoldsRootOf};
ghost use Rattle.session.specs.Attempts.{FinishEnds};
ghost use Rattle.session.specs.Resting.{ReturnsAtRest, HasLog, IsAtRest, LooksInTurn};
ghost use Rattle.session.specs.SessionWorlds.{session_view};

use crate::contexts::CallContext;
use crate::world::{Session, World};
use history_model::Act;
use node_table::{leave_log, log_length, log_mark, take_log};
use node_words::Share;
use std::sync::Wait;
use std::sync::ledger::Ledger;
use version_log::{Committed, Lookahead, SureRefused};

impl World {
    // Waits for the log's turn: no other session commits until it goes back.
    pub(crate) fn take<R: Wait>(&self, rt: &R, s: &mut Session)
        requires rest { IsAtRest self.now.table s.old }
        ensures looks { LooksInTurn self.now.table s.old s.new }
        ensures held { s.new.view.held ≡ s.old.view.held }
    {
        take_log(rt, &self.table, s);
    }

    // The turn goes back, at this length of the history.
    pub(crate) fn leave(&self, s: &mut Session) -> u32
        requires turn { HasLog self.now.table s.old }
        ensures back { ReturnsAtRest self.now.table s.old s.new }
        ensures seen { session_view s.new.view ≡ session_view s.old.view }
        ensures held { s.new.view.held ≡ s.old.view.held }
        ensures at { result ≡ number_seen s.new.view }
    {
        let at = log_length(&self.table, s);
        leave_log(&self.table, s);
        at
    }

    // Appends the act with this root, and the turn goes back. The share of the root of the version
    // that fell out then is handed over.
    pub(crate) fn finish(
        &self,
        s: &mut Session,
        ahead: Lookahead,
        line: u32,
        act: &Act,
        root: Option<Share>,
    ) -> Result<Committed, SureRefused>
        requires turn { HasLog self.now.table s.old }
        requires room { number_of_trees s.old.view.held ≤ 4095 }
        requires may { MayFinish self.now.table s.old.view ahead act.now root }
        ensures back { ReturnsAtRest self.now.table s.old s.new }
        ensures came { FinishEnds self.now.keep line act.now root result s.old.view s.new.view }
    {
        match version_log::finish(&self.table, s, ahead, line, act, root, self.keep) {
            Ok(committed) => Ok(committed),
            Err(refused) => Err(refused),
        }
    }

    // A share of the root of the newest version.
    pub(crate) fn keep_head<R: Wait, G, L: Ledger>(
        &self,
        s: &mut Session,
        call: &mut CallContext<'_, R, G, L>,
    ) -> Option<Share>
        requires turn { HasLog self.now.table s.old }
        requires room { number_of_trees s.old.view.held ≤ 4095 }
        ensures looks { LooksInTurn self.now.table s.old s.new }
        ensures root { HoldsRootOf s.new.view result
            (seen_has s.new.view (number_seen s.new.view)) }
        ensures gains { GetsRoot s.old.view.held result s.new.view.held }
    {
        let at = log_length(&self.table, s);
        let _mark = log_mark(&self.table, s, at);
        version_log::keep_version(call.rt, &self.table, s, at, &mut call.steps)
    }
}
