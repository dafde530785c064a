// The log's turn as a value.
ghost use Rattle.std.specs.Prelude.{◌≡◌};
ghost use Rattle.node_table.specs.LogTurns.{HasLogTurn, TakesLog};
ghost use Rattle.version_log.specs.Seeing.{StandsFree};
ghost use Rattle.version_log.specs.Targets.{no_lookahead};

use crate::lookahead::no_lookahead;
use crate::sures::Sure;
use node_table::{NodeTable, Pass, take_log};
use std::sync::Wait;

/// Waits for the log's turn.
pub fn sure<'a, R: Wait>(rt: &R, table: &'a NodeTable, pass: &'a mut Pass) -> Sure<'a>
    requires free { StandsFree table.now pass.old }
    ensures pass { result.pass.ghost_name ≡ pass.entry.ghost_name }
    ensures table { result.table.now ≡ table.now }
    ensures turn { HasLogTurn table.now result.pass.now }
    ensures takes { TakesLog table.now.made pass.old.view result.pass.now.view }
    ensures nothing { result.ahead ≡ no_lookahead }
{
    take_log(rt, table, pass);
    Sure {
        table,
        pass,
        ahead: no_lookahead(),
    }
}
