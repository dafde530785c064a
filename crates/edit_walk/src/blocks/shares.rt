ghost use Rattle.std.specs.Prelude.{◌≡◌, ◌+◌, ◌≤◌, ℕ, List, Option, Some, None};
ghost use Rattle.node_words.specs.declared.shapes.names.Name.{Name};
ghost use Rattle.node_words.specs.shapes.Tree.{Tree, root_of, shape_of};
ghost use Rattle.node_words.specs.shapes.Weights.{number_of_trees};
ghost use Rattle.node_words.specs.Held.{OnlyHeldChanges, most_before_release};
ghost use Rattle.edit_walk.specs.blocks.Blocks.{HasTree, AgainBeside, MayGoBack, ReturnsShare, BackTurns};

use node_words::{Name, NodeStore, Share, Steps};
use std::sync::ledger::Ledger;

/// The name of what may be a share.
pub fn named(share: &Option<Share>) -> Option<Name>
    ensures { result ≡ share.now }
{
    match share {
        Some(s) => Some(s.name()),
        None => None,
    }
}

/// One more share of what may be a node that is reached.
pub fn again<N: NodeStore, L: Ledger>(
    store: &mut N,
    name: Option<Name>,
    steps: &mut Steps<L>,
) -> Option<Share>
    requires reached { HasTree (N.seen store.old).held name }
    requires room { number_of_trees (N.seen store.old).held ≤ 4095 }
    ensures came { AgainBeside name result (N.seen store.old) (N.seen store.new) }
    ensures only { OnlyHeldChanges (N.seen store.old) (N.seen store.new) }
    ensures rests { N.rests store.old store.new }
    ensures turns { steps.new ≤ steps.old + 1 }
{
    match name {
        Some(n) => Some(store.keep_at(n, steps)),
        None => None,
    }
}

/// Gives back what may be a share.
pub fn back_if<N: NodeStore, L: Ledger>(store: &mut N, share: Option<Share>, steps: &mut Steps<L>)
    requires held { MayGoBack (N.seen store.old).held share }
    requires room { number_of_trees (N.seen store.old).held ≤ most_before_release }
    ensures gone { ReturnsShare share (N.seen store.old).held (N.seen store.new).held }
    ensures only { OnlyHeldChanges (N.seen store.old) (N.seen store.new) }
    ensures rests { N.rests store.old store.new }
    ensures turns { BackTurns share (N.seen store.old).held
        (N.seen store.new).held steps.old steps.new }
    ensures none { share ≡ None → steps.new ≡ steps.old }
{
    match share {
        Some(s) => store.back(s, steps),
        None => {}
    }
}
