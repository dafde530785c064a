// Records behind which the last versions alone are kept.
ghost use Rattle.std.specs.Prelude.{◌≡◌, ◌<◌, ◌≤◌, Some, IfSome};
ghost use Rattle.node_words.specs.shapes.Weights.{number_of_trees};
ghost use Rattle.table_rule.specs.LogFacts.{number_seen};
ghost use Rattle.node_table.specs.LogTurns.{HasLogTurn, log_left};
ghost use Rattle.retain.specs.Retained.{falls_out};
ghost use Rattle.version_log.specs.Coming.{MayFinish};
ghost use Rattle.version_log.specs.Falling.{CommitsNext, FallsOut};
ghost use Rattle.version_log.specs.InTurn.{GivesTurnBack, MayAppendAt};

use crate::answers::Committed;
use crate::finishing::append_next;
use crate::lookahead::Lookahead;
use history_model::Act;
use node_table::{NodeTable, Pass, leave_log, log_forget, log_mark};
use node_words::Share;

// The version that falls out of the last `keep` as record n comes.
fn falls_out(n: u32, keep: u32) -> Option<u32>
    ensures is { result ≡ falls_out n keep }
    ensures earlier { IfSome result (λ v. v < n) }
{
    if keep >= 1 && keep <= n {
        return Some(n - keep);
    }
    None
}

// Forgets a version, where it has no mark. The turn is given back.
fn forget_fallen(table: &NodeTable, pass: &mut Pass, v: u32, line: u32) -> Option<Share>
    requires turn { HasLogTurn table.now pass.old }
    requires earlier { v < number_seen pass.old.view }
    requires room { number_of_trees pass.old.view.held ≤ 4095 }
    ensures back { GivesTurnBack table.now pass.old.view pass.new }
    ensures falls { FallsOut (Some v) line (number_seen pass.old.view) result
        (log_left pass.old.view) pass.new.view }
{
    let number = pass.number();
    if let Some(_mark) = log_mark(table, pass, v) {
        leave_log(table, pass);
        return None;
    }
    let root = log_forget(table, pass, v, line);
    let _number = number;
    root
}

// Appends the next record, whatever its act, and marks the version that falls out of the last
// `keep`, where it has no mark. The turn is given back.
pub(crate) fn append_kept(
    table: &NodeTable,
    pass: &mut Pass,
    ahead: Lookahead,
    at: u32,
    line: u32,
    act: &Act,
    root: Option<Share>,
    keep: u32,
) -> Committed
    requires begins { MayAppendAt table.now pass.old at }
    requires held { number_of_trees pass.old.view.held ≤ 4095 }
    requires may { MayFinish table.now pass.old.view ahead act.now root }
    ensures back { GivesTurnBack table.now pass.old.view pass.new }
    ensures commits { CommitsNext pass.old.view keep line act.now root result pass.new.view }
{
    let n = append_next(table, pass, ahead, at, line, act, root);
    match falls_out(n, keep) {
        Some(v) => Committed {
            n,
            fallen: forget_fallen(table, pass, v, line),
        },
        None => {
            leave_log(table, pass);
            Committed { n, fallen: None }
        }
    }
}
