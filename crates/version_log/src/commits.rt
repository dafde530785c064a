// Edits that are committed over what was pinned.
ghost use Rattle.std.specs.Prelude.{◌≡◌, ◌≤◌, IfOk};
ghost use Rattle.node_words.specs.shapes.Weights.{number_of_trees};
ghost use Rattle.node_table.specs.LogTurns.{HasLogTurn};
ghost use Rattle.version_log.specs.Coming.{CommitCame, MayCommit, MayCommitHere};
ghost use Rattle.version_log.specs.Falling.{CommitsAlone};
ghost use Rattle.version_log.specs.InTurn.{GivesTurnBack};
ghost use Rattle.version_log.specs.Seeing.{StandsFree};

use crate::answers::{CommitRefused, Committed, Pinned};
use crate::falling::append_kept;
use crate::lookahead::no_lookahead;
use history_model::Act;
use node_table::{NodeTable, Pass, leave_log, log_length, take_log};
use node_words::Share;
use std::sync::Wait;

// How many records a log has room for.
pub(crate) const MOST_RECORDS: u32 = 65_535;

// Commits under the log's turn, which is given back.
pub(crate) fn commit_here(
    table: &NodeTable,
    pass: &mut Pass,
    base: &Pinned,
    line: u32,
    act: &Act,
    root: Option<Share>,
    keep: u32,
) -> Result<Committed, CommitRefused>
    requires turn { HasLogTurn table.now pass.old }
    requires room { number_of_trees pass.old.view.held ≤ 4095 }
    requires may { MayCommitHere table.now pass.old.view base.now act.now root }
    ensures back { GivesTurnBack table.now pass.old.view pass.new }
    ensures came { CommitCame base.now keep line act.now root result pass.old.view
        pass.new.view }
{
    let at = log_length(table, pass);
    if at == MOST_RECORDS {
        leave_log(table, pass);
        return Err(CommitRefused::LogFull { root });
    }
    if at > base.moment {
        leave_log(table, pass);
        return Err(CommitRefused::Stale { now: at, root });
    }
    Ok(append_kept(table, pass, no_lookahead(), at, line, act, root, keep))
}

/// Appends an edit that was made of the head which was pinned, where the log hasn't grown
/// since. Where `keep` is 1 or more and at most its number n, version n - keep is forgotten for
/// this line, unless it has a mark; with 0 all versions are kept. It may wait for the log's turn.
pub fn commit<R: Wait>(
    rt: &R,
    table: &NodeTable,
    pass: &mut Pass,
    base: &Pinned,
    line: u32,
    act: &Act,
    root: Option<Share>,
    keep: u32,
) -> Result<Committed, CommitRefused>
    requires free { StandsFree table.now pass.old }
    requires room { number_of_trees pass.old.view.held ≤ 4095 }
    requires may { MayCommit table.now pass.old.view base.now act.now root }
    ensures free { StandsFree table.now pass.new }
    ensures came { CommitCame base.now keep line act.now root result pass.old.view
        pass.new.view }
    ensures alone { IfOk result
        (λ c. keep ≡ 0 → CommitsAlone pass.old.view line act.now root c pass.new.view) }
{
    take_log(rt, table, pass);
    commit_here(table, pass, base, line, act, root, keep)
}
