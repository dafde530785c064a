// Records that are appended under the log's turn, whatever their act.
ghost use Rattle.std.specs.Prelude.{◌≡◌, ◌≤◌, false, IfOk, IfSome};
ghost use Rattle.history_model.specs.Worlds.{is_edit};
ghost use Rattle.node_words.specs.shapes.Weights.{number_of_trees};
ghost use Rattle.table_rule.specs.LogChanges.{HasOpenTarget};
ghost use Rattle.node_table.specs.LogTurns.{HasLogTurn};
ghost use Rattle.version_log.specs.Coming.{FinishCame, MayFinish};
ghost use Rattle.version_log.specs.Falling.{CommitsAlone};
ghost use Rattle.version_log.specs.InTurn.{AppendsInTurn, FindsCursor, MayAppendAt};
ghost use Rattle.version_log.specs.Seeing.{StandsFree};
ghost use Rattle.version_log.specs.Targets.{KnowsNext, IsNextCursor};

use crate::answers::{Committed, SureRefused};
use crate::commits::MOST_RECORDS;
use crate::falling::append_kept;
use crate::lookahead::{Lookahead, look_behind};
use crate::words::{record_words, tell_numbers};
use history_model::Act;
use node_table::{NodeTable, Pass, leave_log, log_append_on, log_length};
use node_words::Share;
use undo::UndoCursor;

// Where the history stands behind an undo or a redo that has a target: it is kept, or looked up
// now.
fn cursor_behind(
    table: &NodeTable,
    pass: &mut Pass,
    kept: Option<UndoCursor>,
    act: &Act,
) -> UndoCursor
    requires turn { HasLogTurn table.now pass.old }
    requires other { is_edit act.now ≡ false }
    requires target { HasOpenTarget pass.old.view act.now }
    requires known { IfSome kept (IsNextCursor pass.old.view.log.seen.records act.now) }
    ensures finds { FindsCursor table.now pass.old.view act.now result pass.new }
{
    if let Some(standing) = kept {
        return standing;
    }
    match look_behind(table, pass, act) {
        Some(standing) => standing,
        None => unreachable!(),
    }
}

// Where the history stands behind the next record. For an edit nothing is looked up.
fn cursor_ahead(
    table: &NodeTable,
    pass: &mut Pass,
    ahead: Lookahead,
    act: &Act,
    at: u32,
) -> UndoCursor
    requires begins { MayAppendAt table.now pass.old at }
    requires target { HasOpenTarget pass.old.view act.now }
    requires known { KnowsNext pass.old.view.log.seen.records act.now ahead }
    ensures finds { FindsCursor table.now pass.old.view act.now result pass.new }
{
    match act {
        Act::Undo | Act::Redo => cursor_behind(table, pass, ahead.lookahead_for(act), act),
        _ => UndoCursor {
            now: at + 1,
            last: at + 1,
        },
    }
}

// Appends the next record, whatever its act. The turn is kept.
pub(crate) fn append_next(
    table: &NodeTable,
    pass: &mut Pass,
    ahead: Lookahead,
    at: u32,
    line: u32,
    act: &Act,
    root: Option<Share>,
) -> u32
    requires begins { MayAppendAt table.now pass.old at }
    requires may { MayFinish table.now pass.old.view ahead act.now root }
    ensures appends { AppendsInTurn table.now pass.old.view line act.now root result
        pass.new }
{
    pass.tell();
    tell_numbers(act);
    let number = pass.number();
    let UndoCursor { now, last } = cursor_ahead(table, pass, ahead, act, at);
    let words = record_words(act, now, last, number, line);
    log_append_on(table, pass, words, root)
}

/// As `Sure::finish`, by a pass that has the log's turn.
pub fn finish(
    table: &NodeTable,
    pass: &mut Pass,
    ahead: Lookahead,
    line: u32,
    act: &Act,
    root: Option<Share>,
    keep: u32,
) -> Result<Committed, SureRefused>
    requires turn { HasLogTurn table.now pass.old }
    requires room { number_of_trees pass.old.view.held ≤ 4095 }
    requires may { MayFinish table.now pass.old.view ahead act.now root }
    ensures free { StandsFree table.now pass.new }
    ensures came { FinishCame keep line act.now root result pass.old.view pass.new.view }
    ensures alone { IfOk result
        (λ c. keep ≡ 0 → CommitsAlone pass.old.view line act.now root c pass.new.view) }
{
    let at = log_length(table, pass);
    if at == MOST_RECORDS {
        leave_log(table, pass);
        return Err(SureRefused::LogFull { root });
    }
    Ok(append_kept(table, pass, ahead, at, line, act, root, keep))
}
