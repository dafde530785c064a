// Versions that are forgotten.
ghost use Rattle.std.specs.Prelude.{◌≡◌, ◌≤◌, IfOk, IfErr};
ghost use Rattle.node_words.specs.shapes.Weights.{number_of_trees};
ghost use Rattle.node_words.specs.Held.{most_before_call};
ghost use Rattle.version_log.specs.Forgets.{ForgetsVersion, RefusesForget};
ghost use Rattle.version_log.specs.Seeing.{StandsFree, OnlyReadsLog};

use crate::answers::Forgot;
use node_table::{NodeTable, Pass, leave_log, log_forget, log_length, log_mark, take_log};
use retain::ForgetRefused;
use std::sync::Wait;

/// Forgets an earlier version: it is marked, and the log's share of its root comes. It may
/// wait for the log's turn.
pub fn forget<R: Wait>(
    rt: &R,
    table: &NodeTable,
    pass: &mut Pass,
    v: u32,
    line: u32,
) -> Result<Forgot, ForgetRefused>
    requires free { StandsFree table.now pass.old }
    requires room { number_of_trees pass.old.view.held ≤ most_before_call }
    ensures free { StandsFree table.now pass.new }
    ensures forgets { IfOk result (λ f. ForgetsVersion pass.old.view v line f pass.new.view) }
    ensures refused { IfErr result (λ e. RefusesForget v e pass.new.view) }
    ensures looks { IfErr result (λ e. OnlyReadsLog pass.old.view pass.new.view) }
    ensures kept { IfErr result (λ e. pass.new.view.held ≡ pass.old.view.held) }
{
    let number = pass.number();
    take_log(rt, table, pass);
    let at = log_length(table, pass);
    if v > at {
        leave_log(table, pass);
        return Err(ForgetRefused::NoVersion { at });
    }
    if v == at {
        leave_log(table, pass);
        return Err(ForgetRefused::IsHead { at });
    }
    if let Some(mark) = log_mark(table, pass, v) {
        leave_log(table, pass);
        return Err(ForgetRefused::Forgotten { at, mark });
    }
    let root = log_forget(table, pass, v, line);
    let _number = number;
    Ok(Forgot { at, root })
}
