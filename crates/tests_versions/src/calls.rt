//! Calls of one session in a world of side 4, each of which gives back what it held: each record
//! sets all cells, or none.
ghost use Rattle.std.specs.Prelude.{◌≡◌, ◌≤◌, false, Some};
ghost use Rattle.history_model.specs.Worlds.{is_edit};
ghost use Rattle.node_words.specs.shapes.Weights.{number_of_trees};
ghost use Rattle.node_words.specs.declared.shapes.names.Name.{Name};
ghost use Rattle.node_words.specs.Held.{HoldsName};
ghost use Rattle.edit_walk.specs.blocks.Blocks.{ReturnsShare};
ghost use Rattle.node_table.specs.Closing.{IsSpare};
ghost use Rattle.node_table.specs.LogTurns.{HasNoTurn};
ghost use Rattle.node_table.specs.TableStates.{BelongsTo};
ghost use Rattle.tests_versions.specs.Holding.{HoldsUniform};

use crate::uniform::{act_behind, all_back, name_of, root_back, uniform_root};
use history_model::{Act, Mark};
use node_table::{NodeTable, Pass, leave_log, log_mark, take_log};
use node_words::{Name, Share, Steps};
use std::sync::Wait;
use std::sync::ledger::Ledger;
use version_log::{
    Committed, ForgetRefused, Forgot, FoundTarget, PinRefused, Pinned, SureRefused, finish, forget,
    keep_version, no_lookahead, pin, target,
};

/// A version that was pinned, the length then, and its root, which went back.
#[derive(Clone, Copy, Debug, PartialEq, Eq)]
pub struct WasPinned {
    pub version: u32,
    pub moment: u32,
    pub root: Option<Name>,
}

/// Pins a version, or the head, and gives its root back.
pub fn pin_at<R: Wait, L: Ledger>(
    rt: &R,
    table: &NodeTable,
    pass: &mut Pass,
    version: Option<u32>,
    steps: &mut Steps<L>,
) -> Result<WasPinned, PinRefused>
    requires { IsSpare table.now pass.old }
    ensures { IsSpare table.now pass.new }
{
    match pin(rt, table, pass, version, steps) {
        Ok(
            Pinned {
                version,
                moment,
                root,
            },
        ) => {
            let name = name_of(&root);
            root_back(rt, table, pass, root, steps);
            Ok(WasPinned {
                version,
                moment,
                root: name,
            })
        }
        Err(refused) => Err(refused),
    }
}

/// A record, and the root of the version that fell out behind it.
#[derive(Clone, Copy)]
pub struct Kept {
    pub n: u32,
    pub fallen: Option<Name>,
}

/// Gives back the share of the version that fell out.
pub fn fallen_back<R: Wait, L: Ledger>(
    rt: &R,
    table: &NodeTable,
    pass: &mut Pass,
    committed: Committed,
    steps: &mut Steps<L>,
) -> Kept
    requires of { BelongsTo table.now pass.old }
    requires idle { HasNoTurn pass.old.view }
    requires held { (n : Name) → committed.fallen ≡ Some n → HoldsName pass.old.view.held n }
    requires room { number_of_trees pass.old.view.held ≤ 4000 }
    ensures of { BelongsTo table.now pass.new }
    ensures idle { HasNoTurn pass.new.view }
    ensures gone { ReturnsShare committed.fallen pass.old.view.held pass.new.view.held }
{
    let Committed { n, fallen } = committed;
    let name = name_of(&fallen);
    root_back(rt, table, pass, fallen, steps);
    Kept { n, fallen: name }
}

// Appends a record of this line under the log's turn, behind which this is the root. The answer is
// its number, or 0 and the root where there is no room.
fn finish_or_back<R: Wait, L: Ledger>(
    rt: &R,
    table: &NodeTable,
    pass: &mut Pass,
    line: u32,
    root: Option<Share>,
    steps: &mut Steps<L>,
) -> (u32, Option<Share>)
    requires { HoldsUniform table.now pass.old root }
    ensures { HoldsUniform table.now pass.new result.1 }
{
    let act = act_behind(name_of(&root));
    take_log(rt, table, pass);
    match finish(table, pass, no_lookahead(), line, &act, root, 0) {
        Ok(committed) => (fallen_back(rt, table, pass, committed, steps).n, None),
        Err(SureRefused::LogFull { root }) => (0, root),
    }
}

/// Appends a record of this line under the log's turn, behind which this is the root. The answer is
/// its number, or 0 where there is no room.
pub fn finish_uniform<R: Wait, L: Ledger>(
    rt: &R,
    table: &NodeTable,
    pass: &mut Pass,
    line: u32,
    root: Option<Share>,
    steps: &mut Steps<L>,
) -> u32
    requires { HoldsUniform table.now pass.old root }
    ensures { IsSpare table.now pass.new }
{
    let (n, root) = finish_or_back(rt, table, pass, line, root, steps);
    all_back(rt, table, pass, root, steps);
    n
}

/// The same with a root of its own.
pub fn edit_uniform<R: Wait, L: Ledger>(
    rt: &R,
    table: &NodeTable,
    pass: &mut Pass,
    line: u32,
    full: bool,
    steps: &mut Steps<L>,
) -> u32
    requires spare { IsSpare table.now pass.old }
    requires side { table.now.plan.side ≡ 2 }
    ensures { IsSpare table.now pass.new }
{
    let root = uniform_root(rt, table, pass, full, steps);
    finish_uniform(rt, table, pass, line, root, steps)
}

/// Forgets a version. The answer is the length then.
pub fn forget_at<R: Wait, L: Ledger>(
    rt: &R,
    table: &NodeTable,
    pass: &mut Pass,
    v: u32,
    line: u32,
    steps: &mut Steps<L>,
) -> Result<u32, ForgetRefused>
    requires { IsSpare table.now pass.old }
    ensures { IsSpare table.now pass.new }
{
    match forget(rt, table, pass, v, line) {
        Ok(Forgot { at, root }) => {
            root_back(rt, table, pass, root, steps);
            Ok(at)
        }
        Err(refused) => Err(refused),
    }
}

/// How an undo or a redo went.
#[derive(Clone, Copy, Debug, PartialEq, Eq)]
pub enum Went {
    To(u32, u32),
    Nowhere,
    Marked(Mark),
    NoRoom,
}

/// An undo or a redo under the log's turn: the record and the version that it goes to.
pub fn go<R: Wait, L: Ledger>(
    rt: &R,
    table: &NodeTable,
    pass: &mut Pass,
    line: u32,
    act: &Act,
    steps: &mut Steps<L>,
) -> Went
    requires spare { IsSpare table.now pass.old }
    requires act { is_edit act.now ≡ false }
    ensures { IsSpare table.now pass.new }
{
    let (went, _fallen) = go_keeping(rt, table, pass, line, act, 0, steps);
    went
}

/// The same where the last versions alone are kept, and the root of the one that fell out.
pub fn go_keeping<R: Wait, L: Ledger>(
    rt: &R,
    table: &NodeTable,
    pass: &mut Pass,
    line: u32,
    act: &Act,
    keep: u32,
    steps: &mut Steps<L>,
) -> (Went, Option<Name>)
    requires spare { IsSpare table.now pass.old }
    requires act { is_edit act.now ≡ false }
    ensures { IsSpare table.now pass.new }
{
    take_log(rt, table, pass);
    let FoundTarget { to, ahead } = target(table, pass, act);
    let Some(to) = to else {
        leave_log(table, pass);
        return (Went::Nowhere, None);
    };
    if let Some(found) = log_mark(table, pass, to) {
        leave_log(table, pass);
        return (Went::Marked(found), None);
    }
    let root = keep_version(rt, table, pass, to, steps);
    match finish(table, pass, ahead, line, act, root, keep) {
        Ok(committed) => {
            let Kept { n, fallen } = fallen_back(rt, table, pass, committed, steps);
            (Went::To(n, to), fallen)
        }
        Err(SureRefused::LogFull { root }) => {
            root_back(rt, table, pass, root, steps);
            (Went::NoRoom, None)
        }
    }
}
