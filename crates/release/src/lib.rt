//! Shares of nodes of a table: one more of a node that is held, and back, with all that only it
//! kept.
//!
//! It touches the table by its turns alone, one bucket at a time. What shares that go back leave is
//! in `specs/Returns.antt`.
#![tactic(auto)]

ghost use Rattle.std.specs.Prelude.{◌≡◌, ◌≤◌, ◌+◌, ◌-◌, ◌*◌, Some, None};
ghost use Rattle.node_words.specs.shapes.Tree.{Tree, root_of, shape_of};
ghost use Rattle.node_words.specs.shapes.Weights.{number_of_trees};
ghost use Rattle.node_words.specs.declared.shapes.names.Name.{Name};
ghost use Rattle.node_words.specs.Gathering.{MayHold};
ghost use Rattle.node_words.specs.Held.{
  AreBelow,
  ForChildren,
  ForHeld,
  ForReached,
  Gains,
  HoldsChildren,
  HoldsName,
  ReachesName,
  ReturnsWithin,
};
ghost use Rattle.node_words.specs.Held.{most_before_freeing, most_before_release};
ghost use Rattle.node_table.specs.Acts.{OnlySharesChange};
ghost use Rattle.node_table.specs.TableStates.{BelongsTo};
ghost use Rattle.release.specs.Returns.{GaveBack, GaveRowBack};

use node_table::Lowering;
pub use node_table::{NodeTable, Pass};
use node_words::{Name, Share, Steps, end_all, take_at};
use std::sync::Wait;
use std::sync::ledger::Ledger;

/// One more share of the same node.
pub fn more<R: Wait, L: Ledger>(
    rt: &R,
    table: &NodeTable,
    pass: &mut Pass,
    share: &Share,
    steps: &mut Steps<L>,
) -> Share
    requires of { BelongsTo table.now pass.old }
    requires idle { pass.old.view.turn ≡ None }
    requires held { HoldsName pass.old.view.held share.now }
    requires room { number_of_trees pass.old.view.held ≤ 4095 }
    ensures of { BelongsTo table.now pass.new }
    ensures name { result ≡ share.now }
    ensures held { ForHeld pass.old.view.held share.now
        (λ t. Gains pass.old.view.held t pass.new.view.held) }
    ensures only { OnlySharesChange pass.old.view pass.new.view }
    ensures turns { steps.new ≡ steps.old + 1 }
{
    keep_at(rt, table, pass, share.name(), steps)
}

/// A share of a node that stands below a held one.
pub fn keep_at<R: Wait, L: Ledger>(
    rt: &R,
    table: &NodeTable,
    pass: &mut Pass,
    n: Name,
    steps: &mut Steps<L>,
) -> Share
    requires of { BelongsTo table.now pass.old }
    requires idle { pass.old.view.turn ≡ None }
    requires reached { ReachesName pass.old.view.held n }
    requires room { number_of_trees pass.old.view.held ≤ 4095 }
    ensures of { BelongsTo table.now pass.new }
    ensures name { result ≡ n }
    ensures held { ForReached pass.old.view.held n
        (λ t. Gains pass.old.view.held t pass.new.view.held) }
    ensures only { OnlySharesChange pass.old.view pass.new.view }
    ensures turns { steps.new ≡ steps.old + 1 }
{
    pass.tell();
    let turn = table.turn(rt, pass, n.level, n.bucket, steps);
    let share = turn.raise(n.slot);
    pass.tell();
    share
}

/// The share is given back. A node whose last reference goes gives back its children in the same
/// way. Each step takes a turn, for which it may wait.
pub fn back<R: Wait, L: Ledger>(
    rt: &R,
    table: &NodeTable,
    pass: &mut Pass,
    share: Share,
    steps: &mut Steps<L>,
)
    requires of { BelongsTo table.now pass.old }
    requires idle { pass.old.view.turn ≡ None }
    requires held { HoldsName pass.old.view.held share }
    requires room { number_of_trees pass.old.view.held ≤ most_before_release }
    ensures of { BelongsTo table.now pass.new }
    ensures held { ForHeld pass.old.view.held share
        (λ t. Gains pass.new.view.held t pass.old.view.held) }
    ensures only { OnlySharesChange pass.old.view pass.new.view }
    ensures turns { ForHeld pass.old.view.held share
        (λ t. ReturnsWithin pass.new.view.held (shape_of t) steps.old steps.new) }
{
    let _plan = table.plan();
    pass.tell();
    release(rt, table, pass, share, steps);
}

// Gives a share back, and all that only it kept.
#[cycle(back)]
fn release<R: Wait, L: Ledger>(
    rt: &R,
    table: &NodeTable,
    pass: &mut Pass,
    share: Share,
    steps: &mut Steps<L>,
)
    requires of { BelongsTo table.now pass.old }
    requires idle { pass.old.view.turn ≡ None }
    requires held { HoldsName pass.old.view.held share }
    requires room { number_of_trees pass.old.view.held + 8 * share.level ≤ most_before_freeing }
    ensures of { BelongsTo table.now pass.new }
    ensures back { ForHeld pass.old.view.held share
        (λ t. GaveBack pass.old.view t pass.new.view steps.old steps.new) }
{
    let level = share.name().level;
    match table.lower_in_turn(rt, pass, share, steps) {
        Lowering::Left => {}
        Lowering::Freed(children) => release_row(rt, table, pass, level, children, steps),
    }
}

// Gives back the children of a node of this level.
#[cycle(back)]
fn release_row<R: Wait, L: Ledger>(
    rt: &R,
    table: &NodeTable,
    pass: &mut Pass,
    level: u8,
    children: [Option<Share>; 8],
    steps: &mut Steps<L>,
)
    requires of { BelongsTo table.now pass.old }
    requires idle { pass.old.view.turn ≡ None }
    requires below { AreBelow level children }
    requires held { HoldsChildren pass.old.view.held children }
    requires room { number_of_trees pass.old.view.held + 8 * (level - 1) ≤ most_before_freeing }
    ensures of { BelongsTo table.now pass.new }
    ensures back { ForChildren pass.old.view.held children
        (λ row. GaveRowBack pass.old.view row 8 pass.new.view steps.old steps.new) }
{
    let mut rest = children;
    for k in 0..8usize {
        let child = take_at(&mut rest, k);
        release_some(rt, table, pass, level, child, steps);
    }
    end_all(rest);
}

// Gives back a child of a node of this level, where there is one.
#[cycle(back)]
fn release_some<R: Wait, L: Ledger>(
    rt: &R,
    table: &NodeTable,
    pass: &mut Pass,
    level: u8,
    child: Option<Share>,
    steps: &mut Steps<L>,
)
    requires of { BelongsTo table.now pass.old }
    requires idle { pass.old.view.turn ≡ None }
    requires held { (n : Name) → child ≡ Some n → HoldsName pass.old.view.held n }
    requires below { (n : Name) → child ≡ Some n → n.level + 1 ≡ level }
    requires room { number_of_trees pass.old.view.held + 8 * (level - 1) ≤ most_before_freeing }
    ensures of { BelongsTo table.now pass.new }
    ensures back { (t : Tree) → root_of t ≡ child → MayHold pass.old.view.held t
        → GaveBack pass.old.view t pass.new.view steps.old steps.new }
{
    match child {
        Some(share) => release(rt, table, pass, share, steps),
        None => {}
    }
}
