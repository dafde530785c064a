// The log's turn, for as many looks and shares as a call needs before it appends.
ghost use Rattle.std.specs.Prelude.{◌≡◌, ◌≤◌, ◌+◌, IfOk, IfSome};
ghost use Rattle.std.specs.Borrow.{sem};
ghost use Rattle.node_words.specs.shapes.Weights.{number_of_trees};
ghost use Rattle.table_rule.specs.LogFacts.{IsShownRoot, IsShownUnmarked, number_seen, seen_has};
ghost use Rattle.node_table.specs.LogTurns.{HasLogTurn, LearnsLog, LooksForMark};
ghost use Rattle.node_table.specs.LogTurns.{log_left};
ghost use Rattle.node_table.specs.TableStates.{BelongsTo};
ghost use Rattle.version_log.specs.Coming.{FinishCame, MayFinish};
ghost use Rattle.version_log.specs.Falling.{CommitsAlone};
ghost use Rattle.version_log.specs.Keeping.{OnlyKeeps};
ghost use Rattle.version_log.specs.Lending.{LendsItsPass};
ghost use Rattle.version_log.specs.Looking.{KeepsSure};
ghost use Rattle.version_log.specs.Roots.{GetsRoot, HoldsRootOf, turns_for};
ghost use Rattle.version_log.specs.Seeing.{StandsFree};
ghost use Rattle.version_log.specs.Targets.{KnowsNext, act_target};

use crate::answers::{Committed, SureRefused};
use crate::finishing::finish;
use crate::lookahead::{Lookahead, look_behind, version_of};
use crate::roots::keep_version;
use history_model::{Act, Mark};
use node_table::{NodeTable, Pass, leave_log, log_length, log_mark, log_root};
use node_words::{Name, Share, Steps};
use std::sync::Wait;
use std::sync::ledger::Ledger;

/// The log's turn, which its pass has while this lives: what is read stays as it is, and the next
/// record is its own. It must be spent. Where `target` found that an undo or a redo leads is kept
/// for `finish`.
pub struct Sure<'a> {
    pub(crate) table: &'a NodeTable,
    pub(crate) pass: &'a mut Pass,
    pub(crate) ahead: Lookahead,
}

impl<'a> Sure<'a> {
    /// How many records the log has.
    pub fn len(&mut self) -> u32
        requires { HasLogTurn self.old.table.now self.old.pass.now }
        ensures keeps { KeepsSure self.old self.new }
        ensures number { result ≡ number_seen self.old.pass.now.view }
        ensures few { result ≤ 65535 }
        ensures same { self.new.pass.now ≡ self.old.pass.now }
    {
        log_length(self.table, self.pass)
    }

    /// The mark of a version, where it has one.
    pub fn mark(&mut self, v: u32) -> Option<Mark>
        requires turn { HasLogTurn self.old.table.now self.old.pass.now }
        requires there { v ≤ number_seen self.old.pass.now.view }
        ensures keeps { KeepsSure self.old self.new }
        ensures looks { LooksForMark self.old.pass.now.view v result
            self.new.pass.now.view }
    {
        log_mark(self.table, self.pass, v)
    }

    /// The root of a version that has no mark.
    pub fn root(&mut self, v: u32) -> Option<Name>
        requires turn { HasLogTurn self.old.table.now self.old.pass.now }
        requires unmarked { IsShownUnmarked self.old.pass.now.view v }
        ensures keeps { KeepsSure self.old self.new }
        ensures learns { LearnsLog self.old.pass.now.view self.new.pass.now.view }
        ensures root { IsShownRoot self.new.pass.now.view v result }
    {
        log_root(self.table, self.pass, v)
    }

    /// The version that an undo or a redo goes to, where there is one. An edit goes to none.
    pub fn target(&mut self, act: &Act) -> Option<u32>
        requires { HasLogTurn self.old.table.now self.old.pass.now }
        ensures keeps { KeepsSure self.old self.new }
        ensures target { result ≡ act_target self.old.pass.now.view.log.seen.records act.now }
        ensures there { IfSome result (λ to. to ≤ number_seen self.old.pass.now.view) }
        ensures learns { LearnsLog self.old.pass.now.view self.new.pass.now.view }
        ensures known { KnowsNext self.new.pass.now.view.log.seen.records act.now
            self.new.ahead }
    {
        let behind = look_behind(self.table, self.pass, act);
        self.ahead = self.ahead.with_lookahead(act, behind);
        version_of(behind)
    }

    /// A share of the root of a version that has no mark, by one turn of its bucket. `None` where
    /// no cell of the version is set.
    pub fn keep<R: Wait, L: Ledger>(
        &mut self,
        rt: &R,
        v: u32,
        steps: &mut Steps<L>,
    ) -> Option<Share>
        requires turn { HasLogTurn self.old.table.now self.old.pass.now }
        requires unmarked { IsShownUnmarked self.old.pass.now.view v }
        requires room { number_of_trees self.old.pass.now.view.held ≤ 4095 }
        ensures keeps { KeepsSure self.old self.new }
        ensures only { OnlyKeeps self.old.pass.now.view self.new.pass.now.view }
        ensures root { HoldsRootOf self.new.pass.now.view result
            (seen_has self.old.pass.now.view v) }
        ensures gains { GetsRoot self.old.pass.now.view.held result
            self.new.pass.now.view.held }
        ensures steps { steps.new ≡ steps.old + turns_for result }
    {
        keep_version(rt, self.table, self.pass, v, steps)
    }

    /// Lends the pass, which has the log's turn.
    pub fn pass(&mut self) -> &mut Pass
        ensures* lends { sem 𝓛 (LendsItsPass self.entry result) }
        ensures value { result.now ≡ self.old.pass.now }
    {
        &mut *self.pass
    }

    /// Appends a record with this root. Where `keep` is 1 or more and at most its number n,
    /// version n - keep is forgotten for this line, unless it has a mark; with 0 all versions are
    /// kept. The turn is given back.
    pub fn finish(
        self,
        line: u32,
        act: &Act,
        root: Option<Share>,
        keep: u32,
    ) -> Result<Committed, SureRefused>
        requires turn { HasLogTurn self.table.now self.pass.now }
        requires room { number_of_trees self.pass.now.view.held ≤ 4095 }
        requires may { MayFinish self.table.now self.pass.now.view self.ahead act.now root }
        ensures free { StandsFree self.entry.table.now self.exit.1.0.now }
        ensures came { FinishCame keep line act.now root result self.entry.pass.now.view
            self.exit.1.0.now.view }
        ensures alone { IfOk result (λ c. keep ≡ 0 → CommitsAlone self.entry.pass.now.view line
            act.now root c self.exit.1.0.now.view) }
    {
        let Sure { table, pass, ahead } = self;
        finish(table, pass, ahead, line, act, root, keep)
    }

    /// Nothing but the turn changes: it is given back.
    pub fn leave(self)
        requires { HasLogTurn self.table.now self.pass.now }
        ensures of { BelongsTo self.entry.table.now self.exit.1.0.now }
        ensures view { self.exit.1.0.now.view ≡ log_left self.entry.pass.now.view }
    {
        let Sure {
            table,
            pass,
            ahead: _,
        } = self;
        leave_log(table, pass);
    }
}
