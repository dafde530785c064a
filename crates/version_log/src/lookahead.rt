// Where an undo and a redo lead, as the log's words tell under its turn.
ghost use Rattle.std.specs.Prelude.{◌≡◌, ◌≤◌, IfSome};
ghost use Rattle.table_rule.specs.LogFacts.{number_seen};
ghost use Rattle.node_table.specs.LogTurns.{HasLogTurn, LearnsLog};
ghost use Rattle.undo.specs.Standings.{version_of};
ghost use Rattle.version_log.specs.InTurn.{LearnsInTurn};
ghost use Rattle.version_log.specs.Reading.{ReadsOn};
ghost use Rattle.version_log.specs.Targets.{FindsTarget, KnowsNext, act_target};
ghost use Rattle.version_log.specs.Targets.{with_lookahead, lookahead_for, no_lookahead};

use history_model::Act;
use node_table::{NodeTable, Pass, log_length, log_word, log_words};
use undo::{LogWords, UndoCursor, behind_redo, behind_undo};

/// Where the history would stand behind an undo and behind a redo, as far as it was looked up under
/// this turn.
#[derive(Clone, Copy)]
pub struct Lookahead {
    pub(crate) undo: Option<UndoCursor>,
    pub(crate) redo: Option<UndoCursor>,
}

/// Nothing was looked up.
pub fn no_lookahead() -> Lookahead
    ensures { result ≡ no_lookahead }
{
    Lookahead {
        undo: None,
        redo: None,
    }
}

impl Lookahead {
    // What is kept for this act.
    pub(crate) fn lookahead_for(self, act: &Act) -> Option<UndoCursor>
        ensures { result ≡ lookahead_for act.now self }
    {
        match act {
            Act::Undo => self.undo,
            Act::Redo => self.redo,
            _ => None,
        }
    }

    // This is kept for the act, and the same for the other.
    pub(crate) fn with_lookahead(self, act: &Act, behind: Option<UndoCursor>) -> Lookahead
        ensures { result ≡ with_lookahead act.now behind self }
    {
        match act {
            Act::Undo => Lookahead {
                undo: behind,
                redo: self.redo,
            },
            Act::Redo => Lookahead {
                undo: self.undo,
                redo: behind,
            },
            _ => self,
        }
    }
}

/// The log of a table, which is read by a pass that has its turn.
pub(crate) struct UnderTurn<'a> {
    pub(crate) table: &'a NodeTable,
    pub(crate) pass: &'a mut Pass,
}

impl LogWords for UnderTurn<'_> {
    ghost use Rattle.version_log.specs.Reading.{IsUnderTurn, ReadsOn, reads_itself, reads_on};
    ghost use Rattle.version_log.specs.Reading.{records_read};

    ghost records = { records_read };

    ghost readable = { IsUnderTurn };

    ghost rests = { ReadsOn };

    fn len(&mut self) -> u32 {
        log_length(self.table, self.pass)
    }

    fn words(&mut self, n: u32) -> [u64; 5] {
        self.pass.tell();
        log_words(self.table, self.pass, n)
    }

    fn first_word(&mut self, n: u32) -> u64 {
        self.pass.tell();
        log_word(self.table, self.pass, n, 0)
    }

    ghost rests_itself = { reads_itself };

    ghost rests_on = { reads_on };
}

impl<'a> UnderTurn<'a> {
    // Where the history would stand behind an undo or a redo, where that goes anywhere. An edit
    // goes nowhere.
    fn behind(&mut self, act: &Act) -> Option<UndoCursor>
        requires { HasLogTurn self.old.table.now self.old.pass.now }
        ensures turn { HasLogTurn self.new.table.now self.new.pass.now }
        ensures reads { ReadsOn self.old self.new }
        ensures finds { FindsTarget self.old.pass.now.view.log.seen.records act.now result }
    {
        self.pass.tell();
        match act {
            Act::Undo => behind_undo(self),
            Act::Redo => behind_redo(self),
            _ => None,
        }
    }
}

// The same by a pass that has the log's turn.
pub(crate) fn look_behind(table: &NodeTable, pass: &mut Pass, act: &Act) -> Option<UndoCursor>
    requires { HasLogTurn table.now pass.old }
    ensures learns { LearnsInTurn table.now pass.old.view pass.new }
    ensures finds { FindsTarget pass.old.view.log.seen.records act.now result }
{
    let mut log = UnderTurn { table, pass };
    let behind = log.behind(act);
    let UnderTurn { table: _, pass: _ } = log;
    behind
}

// The version that then stands.
pub(crate) fn version_of(behind: Option<UndoCursor>) -> Option<u32>
    ensures { result ≡ version_of behind }
{
    match behind {
        Some(standing) => Some(standing.now),
        None => None,
    }
}

/// The version that an undo or a redo goes to, where there is one, and what of that look is handed
/// to `finish`.
#[derive(Clone, Copy)]
pub struct FoundTarget {
    pub to: Option<u32>,
    pub ahead: Lookahead,
}

/// As `Sure::target`, by a pass that has the log's turn.
pub fn target(table: &NodeTable, pass: &mut Pass, act: &Act) -> FoundTarget
    requires turn { HasLogTurn table.now pass.old }
    ensures turn { HasLogTurn table.now pass.new }
    ensures target { result.to ≡ act_target pass.old.view.log.seen.records act.now }
    ensures there { IfSome result.to (λ to. to ≤ number_seen pass.old.view) }
    ensures learns { LearnsLog pass.old.view pass.new.view }
    ensures known { KnowsNext pass.new.view.log.seen.records act.now result.ahead }
{
    let behind = look_behind(table, pass, act);
    let ahead = no_lookahead().with_lookahead(act, behind);
    FoundTarget {
        to: version_of(behind),
        ahead,
    }
}
