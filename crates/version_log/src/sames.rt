// Versions that are compared, and the head of the log.
ghost use Rattle.std.specs.Prelude.{◌≡◌, ◌≢◌, ◌↔◌, ◌^◌, IsTrue, IfOk, IfErr};
ghost use Rattle.core_laws.specs.contents.Versions.{SameWorld};
ghost use Rattle.table_rule.specs.LogFacts.{IsShownUnmarked, number_seen, seen_has};
ghost use Rattle.node_table.specs.LogTurns.{HasLogTurn};
ghost use Rattle.version_log.specs.InTurn.{HasTurnAt, LearnsInTurn};
ghost use Rattle.version_log.specs.Sames.{AnswersSame, RefusesSame, RefusesVersion};
ghost use Rattle.version_log.specs.Sames.{IsShownOpen, StaysFound};
ghost use Rattle.version_log.specs.Seeing.{OnlyReadsLog, ReadsHolding, StandsFree};

use node_table::{NodeTable, Pass, leave_log, log_length, log_mark, log_root, take_log};
use node_words::Name;
use retain::{SameAt, SameRefused};
use std::sync::Wait;

// Looks whether the version is there without a mark.
fn look_at(table: &NodeTable, pass: &mut Pass, at: u32, v: u32) -> Result<(), SameRefused>
    requires begins { HasTurnAt table.now pass.old at }
    ensures turn { HasLogTurn table.now pass.new }
    ensures reads { ReadsHolding pass.old.view pass.new.view }
    ensures stays { StaysFound pass.old.view pass.new.view v at }
    ensures open { IfOk result (λ u. IsShownOpen pass.new.view v at) }
    ensures refused { IfErr result (λ e. RefusesVersion v e pass.new.view) }
{
    if v > at {
        return Err(SameRefused::NoVersion { at, version: v });
    }
    match log_mark(table, pass, v) {
        Some(mark) => Err(SameRefused::Forgotten { at, mark }),
        None => Ok(()),
    }
}

// Whether two versions without a mark have one root.
fn is_same_root(table: &NodeTable, pass: &mut Pass, v: u32, w: u32) -> bool
    requires turn { HasLogTurn table.now pass.old }
    requires first { IsShownUnmarked pass.old.view v }
    requires second { IsShownUnmarked pass.old.view w }
    ensures learns { LearnsInTurn table.now pass.old.view pass.new }
    ensures equal { IsTrue result ↔ SameWorld (2 ^ pass.old.view.plan.side)
        (seen_has pass.old.view v) (seen_has pass.old.view w) }
{
    let first = log_root(table, pass, v);
    let second = log_root(table, pass, w);
    pass.tell();
    is_one(first, second)
}

// Whether two roots are one, or both are none.
fn is_one(a: Option<Name>, b: Option<Name>) -> bool
    ensures { IsTrue result ↔ (a ≡ b) }
{
    match (a, b) {
        (None, None) => true,
        (Some(a), Some(b)) => a == b,
        _ => false,
    }
}

// Compares two versions under the log's turn.
fn compare(
    table: &NodeTable,
    pass: &mut Pass,
    at: u32,
    v: u32,
    w: u32,
) -> Result<SameAt, SameRefused>
    requires begins { HasTurnAt table.now pass.old at }
    ensures turn { HasLogTurn table.now pass.new }
    ensures reads { ReadsHolding pass.old.view pass.new.view }
    ensures same { IfOk result (λ s. AnswersSame v w s pass.new.view) }
    ensures refused { IfErr result (λ e. RefusesSame v w e pass.new.view) }
{
    if let Err(refused) = look_at(table, pass, at, v) {
        return Err(refused);
    }
    if w != v {
        return compare_with(table, pass, at, v, w);
    }
    Ok(SameAt { at, equal: true })
}

// Compares a version that was found without a mark with another one.
fn compare_with(
    table: &NodeTable,
    pass: &mut Pass,
    at: u32,
    v: u32,
    w: u32,
) -> Result<SameAt, SameRefused>
    requires begins { HasTurnAt table.now pass.old at }
    requires open { IsShownOpen pass.old.view v at }
    requires other { v ≢ w }
    ensures turn { HasLogTurn table.now pass.new }
    ensures reads { ReadsHolding pass.old.view pass.new.view }
    ensures same { IfOk result (λ s. AnswersSame v w s pass.new.view) }
    ensures refused { IfErr result (λ e. RefusesSame v w e pass.new.view) }
{
    if let Err(refused) = look_at(table, pass, at, w) {
        return Err(refused);
    }
    let equal = is_same_root(table, pass, v, w);
    Ok(SameAt { at, equal })
}

/// Whether two versions have the same cells: they have one root then. It may wait for the log's
/// turn.
pub fn same<R: Wait>(
    rt: &R,
    table: &NodeTable,
    pass: &mut Pass,
    v: u32,
    w: u32,
) -> Result<SameAt, SameRefused>
    requires free { StandsFree table.now pass.old }
    ensures free { StandsFree table.now pass.new }
    ensures looks { OnlyReadsLog pass.old.view pass.new.view }
    ensures held { pass.new.view.held ≡ pass.old.view.held }
    ensures same { IfOk result (λ s. AnswersSame v w s pass.new.view) }
    ensures refused { IfErr result (λ e. RefusesSame v w e pass.new.view) }
{
    take_log(rt, table, pass);
    let at = log_length(table, pass);
    let answer = compare(table, pass, at, v, w);
    leave_log(table, pass);
    answer
}

/// How many records the log has. It may wait for the log's turn.
pub fn head<R: Wait>(rt: &R, table: &NodeTable, pass: &mut Pass) -> u32
    requires free { StandsFree table.now pass.old }
    ensures free { StandsFree table.now pass.new }
    ensures looks { OnlyReadsLog pass.old.view pass.new.view }
    ensures held { pass.new.view.held ≡ pass.old.view.held }
    ensures number { result ≡ number_seen pass.new.view }
{
    take_log(rt, table, pass);
    let at = log_length(table, pass);
    leave_log(table, pass);
    at
}
