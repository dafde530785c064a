// The log's turn.
ghost use Rattle.std.specs.Prelude.{◌≡◌, ◌<◌, ◌≤◌, ◌+◌, ◌-◌, ℕ, Option, Some, None, [], ◌∷◌, IfSome};
ghost use Rattle.std.specs.Borrow.{sem};
ghost use Rattle.node_words.specs.shapes.Weights.{number_of_trees};
ghost use Rattle.table_rule.specs.LogFacts.{IsShownRoot, IsShownUnmarked, number_seen};
ghost use Rattle.node_table.specs.LogTurns.{AppendsInTurn, AppendsUnderTurn, AreWordsOf, ForAppended};
ghost use Rattle.node_table.specs.Guards.{KeepsTurn};
ghost use Rattle.node_table.specs.Lending.{LendsPass, TriesLog};
ghost use Rattle.node_table.specs.LogTurns.{ForgetsUnderTurn, HasLogTurn, HasNoTurn};
ghost use Rattle.node_table.specs.LogTurns.{IsWordOf, LearnsLog, LooksForMark, MayAppendWords};
ghost use Rattle.node_table.specs.LogTurns.{TakesLog};
ghost use Rattle.node_table.specs.LogTurns.{log_left, next_mark};
ghost use Rattle.node_table.specs.TableStates.{BelongsTo};

use crate::log_acts::{
    leave_log, log_append, log_append_on, log_forget, log_length, log_mark, log_root, log_word,
    log_words, take_log, try_take_log,
};
use crate::passes::Pass;
use crate::tables::NodeTable;
use history_model::Mark;
use node_words::{Name, Share};
use std::sync::Wait;

/// The log's turn, which its pass has while this lives. It must be spent.
///
/// While a pass has the log's turn, no other pass appends a record or forgets a version; others may
/// take turns of buckets.
pub struct LogTurn<'a> {
    pub(crate) table: &'a NodeTable,
    pub(crate) pass: &'a mut Pass,
}

impl NodeTable {
    /// Waits for the log's turn. All records of the log are seen then.
    pub fn log_turn<'a, R: Wait>(&'a self, rt: &R, pass: &'a mut Pass) -> LogTurn<'a>
        requires of { BelongsTo self.now pass.old }
        requires idle { HasNoTurn pass.old.view }
        ensures pass { result.pass.ghost_name ≡ pass.entry.ghost_name }
        ensures table { result.table.now ≡ self.now }
        ensures turn { HasLogTurn self.now result.pass.now }
        ensures same { result.pass.now.table ≡ pass.old.table }
        ensures view { TakesLog self.now.made pass.old.view result.pass.now.view }
    {
        take_log(rt, self, pass);
        LogTurn { table: self, pass }
    }
}

impl Pass {
    /// Tries once to take the log's turn; all records of the log are seen then. Where another
    /// session has it, its number is noted.
    pub fn try_log_turn<'a>(&'a mut self, table: &'a NodeTable) -> Option<LogTurn<'a>>
        requires of { BelongsTo table.now self.old }
        requires idle { HasNoTurn self.old.view }
        ensures* none { sem 𝓛 (TriesLog table.now self.entry result) }
        ensures pass { IfSome result (λ t. t.pass.ghost_name ≡ self.entry.ghost_name) }
        ensures table { IfSome result (λ t. t.table.now ≡ table.now) }
        ensures turn { IfSome result (λ t. HasLogTurn table.now t.pass.now) }
        ensures takes { IfSome result
            (λ t. TakesLog table.now.made self.old.view t.pass.now.view) }
        ensures at_once { IfSome result
            (λ t. t.pass.now.view.log.busy ≡ self.old.view.log.busy) }
    {
        if !try_take_log(table, self) {
            return None;
        }
        Some(LogTurn { table, pass: self })
    }
}

impl<'a> LogTurn<'a> {
    /// How many records the log has.
    pub fn len(&mut self) -> u32
        requires turn { HasLogTurn self.old.table.now self.old.pass.now }
        ensures number { result ≡ number_seen self.old.pass.now.view }
        ensures few { result ≤ 65535 }
        ensures pass { self.new.pass.ghost_name ≡ self.old.pass.ghost_name }
        ensures same { (self.new.table.now ≡ self.old.table.now)
            × (self.new.pass.now ≡ self.old.pass.now) }
    {
        log_length(self.table, self.pass)
    }

    /// The first five words of record n, counted from 1.
    pub fn words(&mut self, n: u32) -> [u64; 5]
        requires turn { HasLogTurn self.old.table.now self.old.pass.now }
        requires there { (1 ≤ n) × (n ≤ number_seen self.old.pass.now.view) }
        ensures keeps { KeepsTurn self.old.table.now self.new.table.now self.old.pass
            self.new.pass }
        ensures learns { LearnsLog self.old.pass.now.view self.new.pass.now.view }
        ensures words { AreWordsOf self.old.pass.now.view (n - 1) result }
        ensures few { number_seen self.old.pass.now.view ≤ 65535 }
    {
        log_words(self.table, self.pass, n)
    }

    /// Word i of these five alone.
    pub fn word(&mut self, n: u32, i: u8) -> u64
        requires turn { HasLogTurn self.old.table.now self.old.pass.now }
        requires there { (1 ≤ n) × (n ≤ number_seen self.old.pass.now.view) }
        requires few { i < 5 }
        ensures keeps { KeepsTurn self.old.table.now self.new.table.now self.old.pass
            self.new.pass }
        ensures learns { LearnsLog self.old.pass.now.view self.new.pass.now.view }
        ensures word { IsWordOf self.old.pass.now.view (n - 1) i result }
        ensures few { number_seen self.old.pass.now.view ≤ 65535 }
    {
        log_word(self.table, self.pass, n, i)
    }

    /// The mark of version v, if it has one. It is seen then; a version without one is noted.
    pub fn mark(&mut self, v: u32) -> Option<Mark>
        requires turn { HasLogTurn self.old.table.now self.old.pass.now }
        requires there { v ≤ number_seen self.old.pass.now.view }
        ensures keeps { KeepsTurn self.old.table.now self.new.table.now self.old.pass
            self.new.pass }
        ensures mark { LooksForMark self.old.pass.now.view v result self.new.pass.now.view }
    {
        log_mark(self.table, self.pass, v)
    }

    /// The root of a version that this turn has shown to have no mark.
    pub fn root(&mut self, v: u32) -> Option<Name>
        requires turn { HasLogTurn self.old.table.now self.old.pass.now }
        requires unmarked { IsShownUnmarked self.old.pass.now.view v }
        ensures keeps { KeepsTurn self.old.table.now self.new.table.now self.old.pass
            self.new.pass }
        ensures learns { LearnsLog self.old.pass.now.view self.new.pass.now.view }
        ensures root { IsShownRoot self.new.pass.now.view v result }
    {
        log_root(self.table, self.pass, v)
    }

    /// The pass, which has the turn: it may take turns of buckets meanwhile.
    pub fn pass(&mut self) -> &mut Pass
        ensures* lends { sem 𝓛 (LendsPass self.entry result) }
        ensures value { result.now ≡ self.old.pass.now }
    {
        self.pass
    }

    /// Appends the record of these words, whose root this is. The answer is its number; the turn is
    /// given back.
    pub fn append(self, words: [u64; 5], root: Option<Share>) -> u32
        requires turn { HasLogTurn self.table.now self.pass.now }
        requires may { MayAppendWords self.table.now.plan self.pass.now.view words root }
        ensures of { BelongsTo self.entry.table.now self.exit.1.0.now }
        ensures number { result ≡ number_seen self.entry.pass.now.view + 1 }
        ensures appended { ForAppended self.entry.table.now.plan self.entry.pass.now.view words
            root (λ r t. AppendsUnderTurn self.entry.pass.now.view r t self.exit.1.0.now.view) }
    {
        let LogTurn { table, pass } = self;
        log_append(table, pass, words, root)
    }

    /// As `append`, and the turn is kept: a `forget` or `leave` follows.
    pub fn append_on(&mut self, words: [u64; 5], root: Option<Share>) -> u32
        requires turn { HasLogTurn self.old.table.now self.old.pass.now }
        requires may { MayAppendWords self.old.table.now.plan self.old.pass.now.view words root }
        ensures keeps { KeepsTurn self.old.table.now self.new.table.now self.old.pass
            self.new.pass }
        ensures number { result ≡ number_seen self.old.pass.now.view + 1 }
        ensures appended { ForAppended self.old.table.now.plan self.old.pass.now.view words root
            (λ r t. AppendsInTurn self.old.pass.now.view r t self.new.pass.now.view) }
    {
        log_append_on(self.table, self.pass, words, root)
    }

    /// Forgets version v at this length, for this line; the share of its root comes. The turn is
    /// given back.
    pub fn forget(self, v: u32, line: u32) -> Option<Share>
        requires turn { HasLogTurn self.table.now self.pass.now }
        requires earlier { v < number_seen self.pass.now.view }
        requires unmarked { IsShownUnmarked self.pass.now.view v }
        requires room { number_of_trees self.pass.now.view.held ≤ 4095 }
        ensures of { BelongsTo self.entry.table.now self.exit.1.0.now }
        ensures forgot { (number : ℕ) → self.entry.pass.now.view.numbers ≡ number ∷ []
            → ForgetsUnderTurn self.entry.pass.now.view
            (next_mark self.entry.pass.now.view v number line) result self.exit.1.0.now.view }
    {
        let LogTurn { table, pass } = self;
        log_forget(table, pass, v, line)
    }

    /// Nothing but the turn changes: it is given back.
    pub fn leave(self)
        requires turn { HasLogTurn self.table.now self.pass.now }
        ensures of { BelongsTo self.entry.table.now self.exit.1.0.now }
        ensures view { self.exit.1.0.now.view ≡ log_left self.entry.pass.now.view }
    {
        let LogTurn { table, pass } = self;
        leave_log(table, pass);
    }
}
