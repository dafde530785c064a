// Shares of the roots of versions, under the log's turn.
ghost use Rattle.std.specs.Prelude.{◌≡◌, ◌≤◌, ◌+◌, Some, None, true};
ghost use Rattle.node_words.specs.shapes.Weights.{number_of_trees};
ghost use Rattle.table_rule.specs.LogFacts.{IsShownRoot, IsShownUnmarked, seen_has};
ghost use Rattle.node_table.specs.LogTurns.{HasLogTurn};
ghost use Rattle.version_log.specs.InTurn.{TakesRoot};
ghost use Rattle.version_log.specs.Keeping.{OnlyKeeps};
ghost use Rattle.version_log.specs.Roots.{GetsRoot, HoldsRootOf, turns_for};

use node_table::{NodeTable, Pass, log_root};
use node_words::{Name, Share, Steps};
use std::sync::Wait;
use std::sync::ledger::Ledger;

// A share of the root of version v, which the log's turn has shown, by one turn of its bucket.
fn keep_name<R: Wait, L: Ledger>(
    rt: &R,
    table: &NodeTable,
    pass: &mut Pass,
    v: u32,
    name: Name,
    steps: &mut Steps<L>,
) -> Share
    requires turn { HasLogTurn table.now pass.old }
    requires shown { IsShownRoot pass.old.view v (Some name) }
    requires room { number_of_trees pass.old.view.held ≤ 4095 }
    ensures turn { HasLogTurn table.now pass.new }
    ensures name { result ≡ name }
    ensures takes { TakesRoot pass.old.view (Some name) (seen_has pass.old.view v)
        pass.new.view }
    ensures steps { steps.new ≡ steps.old + 1 }
{
    pass.tell();
    let turn = table.turn(rt, pass, name.level, name.bucket, steps);
    let share = turn.raise(name.slot);
    pass.tell();
    share
}

// A share of the root of version v, where it has one.
fn keep_root<R: Wait, L: Ledger>(
    rt: &R,
    table: &NodeTable,
    pass: &mut Pass,
    v: u32,
    root: Option<Name>,
    steps: &mut Steps<L>,
) -> Option<Share>
    requires turn { HasLogTurn table.now pass.old }
    requires shown { IsShownRoot pass.old.view v root }
    requires room { number_of_trees pass.old.view.held ≤ 4095 }
    ensures turn { HasLogTurn table.now pass.new }
    ensures name { result ≡ root }
    ensures takes { TakesRoot pass.old.view root (seen_has pass.old.view v) pass.new.view }
    ensures steps { steps.new ≡ steps.old + turns_for root }
{
    match root {
        Some(name) => Some(keep_name(rt, table, pass, v, name, steps)),
        None => {
            pass.tell();
            let _plan = table.plan();
            None
        }
    }
}

/// As `Sure::keep`, by a pass that has the log's turn.
pub fn keep_version<R: Wait, L: Ledger>(
    rt: &R,
    table: &NodeTable,
    pass: &mut Pass,
    v: u32,
    steps: &mut Steps<L>,
) -> Option<Share>
    requires turn { HasLogTurn table.now pass.old }
    requires unmarked { IsShownUnmarked pass.old.view v }
    requires room { number_of_trees pass.old.view.held ≤ 4095 }
    ensures turn { HasLogTurn table.now pass.new }
    ensures only { OnlyKeeps pass.old.view pass.new.view }
    ensures root { HoldsRootOf pass.new.view result (seen_has pass.old.view v) }
    ensures gains { GetsRoot pass.old.view.held result pass.new.view.held }
    ensures steps { steps.new ≡ steps.old + turns_for result }
{
    let root = log_root(table, pass, v);
    keep_root(rt, table, pass, v, root, steps)
}
