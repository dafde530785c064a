//! Edits over a head that was pinned, in a world of side 4.
ghost use Rattle.std.specs.Prelude.{◌≡◌, ◌≤◌, None, IfSome};
ghost use Rattle.node_words.specs.shapes.Weights.{number_of_trees};
ghost use Rattle.node_words.specs.Held.{SameHeld};
ghost use Rattle.node_table.specs.LogTurns.{HasNoTurn};
ghost use Rattle.node_table.specs.TableStates.{BelongsTo};
ghost use Rattle.tests_versions.specs.Holding.{HoldsUniform, PinsBlank};

use crate::calls::fallen_back;
use crate::uniform::{act_behind, name_of, root_back};
use node_table::{NodeTable, Pass};
use node_words::{Share, Steps};
use std::sync::Wait;
use std::sync::ledger::Ledger;
use version_log::{CommitRefused, Pinned, TryRefused, commit, pin, try_commit};

/// Pins the head where no cell of it is set, and else nothing.
pub fn pin_blank<R: Wait, L: Ledger>(
    rt: &R,
    table: &NodeTable,
    pass: &mut Pass,
    steps: &mut Steps<L>,
) -> Option<Pinned>
    requires of { BelongsTo table.now pass.old }
    requires idle { HasNoTurn pass.old.view }
    requires room { number_of_trees pass.old.view.held ≤ 3000 }
    ensures of { BelongsTo table.now pass.new }
    ensures idle { HasNoTurn pass.new.view }
    ensures held { SameHeld pass.old.view.held pass.new.view.held }
    ensures pinned { IfSome result (PinsBlank pass.new.view) }
{
    let Ok(base) = pin(rt, table, pass, None, steps) else {
        return None;
    };
    let Pinned {
        version,
        moment,
        root,
    } = base;
    match root {
        None => Some(Pinned {
            version,
            moment,
            root: None,
        }),
        Some(share) => {
            root_back(rt, table, pass, Some(share), steps);
            None
        }
    }
}

/// The same beside what the pass holds.
pub fn pin_beside<R: Wait, L: Ledger>(
    rt: &R,
    table: &NodeTable,
    pass: &mut Pass,
    root: &Option<Share>,
    steps: &mut Steps<L>,
) -> Option<Pinned>
    requires { HoldsUniform table.now pass.old root.now }
    ensures holds { HoldsUniform table.now pass.new root.now }
    ensures pinned { IfSome result (PinsBlank pass.new.view) }
{
    let _name = name_of(root);
    pin_blank(rt, table, pass, steps)
}

/// Spends a pin of no root.
pub fn let_go(base: Pinned)
    requires { base.root ≡ None }
{
    let Pinned {
        version: _,
        moment: _,
        root,
    } = base;
    match root {
        None => {}
        Some(_) => unreachable!(),
    }
}

/// What came of an edit.
#[derive(Clone, Copy, Debug, PartialEq, Eq)]
pub enum Came {
    Done(u32),
    NoRoom,
    Late(u32),
    Busy,
}

/// An edit over what was pinned, and the root that comes back.
pub fn commit_uniform<R: Wait, L: Ledger>(
    rt: &R,
    table: &NodeTable,
    pass: &mut Pass,
    base: &Pinned,
    line: u32,
    root: Option<Share>,
    keep: u32,
    steps: &mut Steps<L>,
) -> (Came, Option<Share>)
    requires holds { HoldsUniform table.now pass.old root }
    requires base { PinsBlank pass.old.view base.now }
    ensures { HoldsUniform table.now pass.new result.1 }
{
    let act = act_behind(name_of(&root));
    match commit(rt, table, pass, base, line, &act, root, keep) {
        Ok(committed) => {
            let kept = fallen_back(rt, table, pass, committed, steps);
            (Came::Done(kept.n), None)
        }
        Err(CommitRefused::LogFull { root }) => (Came::NoRoom, root),
        Err(CommitRefused::Stale { now, root }) => (Came::Late(now), root),
    }
}

/// The same without waiting for the log's turn.
pub fn try_uniform<R: Wait, L: Ledger>(
    rt: &R,
    table: &NodeTable,
    pass: &mut Pass,
    base: &Pinned,
    line: u32,
    root: Option<Share>,
    keep: u32,
    steps: &mut Steps<L>,
) -> (Came, Option<Share>)
    requires holds { HoldsUniform table.now pass.old root }
    requires base { PinsBlank pass.old.view base.now }
    ensures { HoldsUniform table.now pass.new result.1 }
{
    let act = act_behind(name_of(&root));
    match try_commit(table, pass, base, line, &act, root, keep) {
        Ok(committed) => {
            let kept = fallen_back(rt, table, pass, committed, steps);
            (Came::Done(kept.n), None)
        }
        Err(TryRefused::LogFull { root }) => (Came::NoRoom, root),
        Err(TryRefused::Stale { now, root }) => (Came::Late(now), root),
        Err(TryRefused::Busy { root }) => (Came::Busy, root),
    }
}
