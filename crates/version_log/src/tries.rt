// Edits that are committed where the log's turn comes at once.
ghost use Rattle.std.specs.Prelude.{◌≡◌, ◌≤◌, IfOk};
ghost use Rattle.node_words.specs.shapes.Weights.{number_of_trees};
ghost use Rattle.version_log.specs.Coming.{MayCommit, TryCame};
ghost use Rattle.version_log.specs.Falling.{CommitsAlone};
ghost use Rattle.version_log.specs.Seeing.{StandsFree};
ghost use Rattle.version_log.specs.Tries.{tried};

use crate::answers::{CommitRefused, Committed, Pinned, TryRefused};
use crate::commits::commit_here;
use history_model::Act;
use node_table::{NodeTable, Pass, try_take_log};
use node_words::Share;

// The same refusal, as one of a try.
fn tried(refused: CommitRefused) -> TryRefused
    ensures { result ≡ tried refused }
{
    match refused {
        CommitRefused::LogFull { root } => TryRefused::LogFull { root },
        CommitRefused::Stale { now, root } => TryRefused::Stale { now, root },
    }
}

/// As `commit`, without waiting: it is refused where another session has the log's turn.
pub fn try_commit(
    table: &NodeTable,
    pass: &mut Pass,
    base: &Pinned,
    line: u32,
    act: &Act,
    root: Option<Share>,
    keep: u32,
) -> Result<Committed, TryRefused>
    requires free { StandsFree table.now pass.old }
    requires room { number_of_trees pass.old.view.held ≤ 4095 }
    requires may { MayCommit table.now pass.old.view base.now act.now root }
    ensures free { StandsFree table.now pass.new }
    ensures came { TryCame table.now.made base.now keep line act.now root result pass.old.view
        pass.new.view }
    ensures alone { IfOk result
        (λ c. keep ≡ 0 → CommitsAlone pass.old.view line act.now root c pass.new.view) }
{
    if !try_take_log(table, pass) {
        return Err(TryRefused::Busy { root });
    }
    match commit_here(table, pass, base, line, act, root, keep) {
        Ok(committed) => Ok(committed),
        Err(refused) => Err(tried(refused)),
    }
}
