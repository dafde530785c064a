ghost use Rattle.std.specs.Prelude.{◌≡◌, ◌≢◌, ◌≤◌, None};
ghost use Rattle.node_words.specs.shapes.Weights.{number_of_trees};
ghost use Rattle.node_words.specs.Held.{HoldsName};
ghost use Rattle.one_store.specs.Known.{known_state, stored_root};

use node_words::{Full, Name, NodeRefused, NodeStore, Share, Steps, spend_all};
use one_store::OneStore;
use std::sync::ledger::Ledger;

/// The name of a leaf that was taken, and stays held.
pub fn kept<L: Ledger>(store: &mut OneStore, bits: u64, steps: &mut Steps<L>) -> Result<Name, Full>
    requires bits { bits ≢ 0 }
    requires room { number_of_trees (known_state store.old).held ≤ 4000 }
    ensures plan { store.new.words.plan ≡ store.old.words.plan }
{
    match store.leaf(bits, steps) {
        Ok(share) => Ok(share.spend()),
        Err(full) => Err(full),
    }
}

/// The name of a leaf that was taken, and was given back.
#[tactic(auto, using(node_words::proofs::HeldLaws::gains_holds, node_words::proofs::HeldLaws::gains_number))]
pub fn returned<L: Ledger>(
    store: &mut OneStore,
    bits: u64,
    steps: &mut Steps<L>,
) -> Result<Name, Full>
    requires bits { bits ≢ 0 }
    requires room { number_of_trees (known_state store.old).held ≤ 4000 }
    ensures plan { store.new.words.plan ≡ store.old.words.plan }
{
    match store.leaf(bits, steps) {
        Ok(share) => {
            let n = share.name();
            store.back(share, steps);
            Ok(n)
        }
        Err(full) => Err(full),
    }
}

/// The name of the node over one leaf, in octant 3, which was taken and stays held.
pub fn joined<L: Ledger>(
    store: &mut OneStore,
    bits: u64,
    steps: &mut Steps<L>,
) -> Result<Name, Full>
    requires bits { bits ≢ 0 }
    requires side { 3 ≤ store.old.words.plan.side }
    requires room { number_of_trees (known_state store.old).held ≤ 4000 }
    ensures plan { store.new.words.plan ≡ store.old.words.plan }
{
    match store.leaf(bits, steps) {
        Ok(leaf) => over(store, leaf, steps),
        Err(full) => Err(full),
    }
}

fn over<L: Ledger>(store: &mut OneStore, leaf: Share, steps: &mut Steps<L>) -> Result<Name, Full>
    requires leaf { HoldsName (known_state store.old).held leaf }
    requires level { leaf.level ≡ 0 }
    requires side { 3 ≤ store.old.words.plan.side }
    requires room { number_of_trees (known_state store.old).held ≤ 4001 }
    ensures plan { store.new.words.plan ≡ store.old.words.plan }
{
    let children = [None, None, None, Some(leaf), None, None, None, None];
    match store.node(1, children, steps) {
        Ok(share) => Ok(share.spend()),
        Err(refused) => {
            let NodeRefused { full, children } = refused;
            spend_all(children);
            Err(full)
        }
    }
}

/// The name of a leaf that was taken and is the root in a place now, in a world of one leaf.
pub fn rooted<L: Ledger>(
    store: &mut OneStore,
    bits: u64,
    place: u32,
    steps: &mut Steps<L>,
) -> Result<Name, Full>
    requires bits { bits ≢ 0 }
    requires side { store.old.words.plan.side ≤ 2 }
    requires room { number_of_trees (known_state store.old).held ≤ 4000 }
    requires place { place ≤ 65535 }
    requires empty { stored_root store.old.roots place ≡ None }
{
    match store.leaf(bits, steps) {
        Ok(share) => {
            let n = share.name();
            store.keep_root(place, Some(share));
            Ok(n)
        }
        Err(full) => Err(full),
    }
}
