// Versions that are pinned.
ghost use Rattle.std.specs.Prelude.{◌≡◌, ◌≤◌, ◌+◌, IfOk, IfErr};
ghost use Rattle.node_words.specs.shapes.Weights.{number_of_trees};
ghost use Rattle.node_words.specs.Held.{most_before_call};
ghost use Rattle.version_log.specs.Pins.{PinsVersion, RefusesPin, version_asked};
ghost use Rattle.version_log.specs.Roots.{turns_for};
ghost use Rattle.version_log.specs.Seeing.{StandsFree, OnlyReadsLog};

use crate::answers::Pinned;
use crate::roots::keep_version;
use node_table::{NodeTable, Pass, leave_log, log_length, log_mark, take_log};
use node_words::Steps;
use retain::PinRefused;
use std::sync::Wait;
use std::sync::ledger::Ledger;

// The version that is asked for at this length.
fn version_asked(version: Option<u32>, at: u32) -> u32
    ensures { result ≡ version_asked version at }
{
    match version {
        Some(version) => version,
        None => at,
    }
}

/// Pins a version, or the head where none is named: it is kept as long as its share isn't
/// given back. It may wait for the log's turn, and takes one turn of the root's bucket, where there
/// is a root.
pub fn pin<R: Wait, L: Ledger>(
    rt: &R,
    table: &NodeTable,
    pass: &mut Pass,
    version: Option<u32>,
    steps: &mut Steps<L>,
) -> Result<Pinned, PinRefused>
    requires free { StandsFree table.now pass.old }
    requires room { number_of_trees pass.old.view.held ≤ most_before_call }
    ensures free { StandsFree table.now pass.new }
    ensures looks { OnlyReadsLog pass.old.view pass.new.view }
    ensures pinned { IfOk result (λ p. PinsVersion pass.old.view version p pass.new.view) }
    ensures refused { IfErr result (λ e. RefusesPin version e pass.new.view) }
    ensures kept { IfErr result (λ e. pass.new.view.held ≡ pass.old.view.held) }
    ensures steps { IfOk result (λ p. steps.new ≡ steps.old + turns_for p.root) }
    ensures no_step { IfErr result (λ e. steps.new ≡ steps.old) }
{
    take_log(rt, table, pass);
    let at = log_length(table, pass);
    let version = version_asked(version, at);
    if version > at {
        leave_log(table, pass);
        return Err(PinRefused::NoVersion { at });
    }
    if let Some(mark) = log_mark(table, pass, version) {
        leave_log(table, pass);
        return Err(PinRefused::Forgotten { at, mark });
    }
    let root = keep_version(rt, table, pass, version, steps);
    leave_log(table, pass);
    Ok(Pinned {
        version,
        moment: at,
        root,
    })
}
