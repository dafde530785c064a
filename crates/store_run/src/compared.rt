//! Where two versions differ.
ghost use Rattle.std.specs.Prelude.{◌≡◌, ◌<◌, ◌≤◌, option_copied};
ghost use Rattle.node_words.specs.shapes.Weights.{number_of_trees};
ghost use Rattle.core_laws.specs.contents.Versions.{HoldsVersion};
ghost use Rattle.one_store.specs.Known.{stored_root};
ghost use Rattle.store_run.specs.Kept.{log_of, AreStoredVersions, HoldsTree, HoldsSame};
ghost use Rattle.store_run.specs.Steps.{LeavesAll, StaysSeen};
ghost use Rattle.store_run.specs.TintChanges.{DifferInTints};
ghost use Rattle.store_run.specs.Worlds.{AreStoredAtRest};

use crate::stored_versions::Versions;
use crate::tint_changes::tint_changes;
use measure::changes;
use node_words::{Share, Steps};
use std::sync::ledger::{Blank, Ledger};
use vw_cell::Boxed;

/// The least box of all cells whose tints differ in two versions.
#[tactic(auto, using(crate::proofs::Comparing::shared_one, crate::proofs::Rebuilding::shared_tree, crate::proofs::Comparing::left_all, crate::proofs::Comparing::left_same, crate::proofs::Comparing::rests_again, crate::proofs::TintComparing::differ_still))]
pub(crate) fn changes_over<L: Ledger>(
    versions: &mut Versions,
    v: u32,
    w: u32,
    blank: Blank,
) -> Option<Boxed>
    requires rest { AreStoredAtRest versions.old }
    requires first { HoldsVersion (log_of versions.old) v }
    requires second { HoldsVersion (log_of versions.old) w }
    requires name { blank.name ≡ L.name }
    requires parts { blank.parts ≡ L.parts }
    requires some { 0 < L.parts }
    ensures rest { AreStoredAtRest versions.new }
    ensures leaves { LeavesAll versions.old versions.new }
    ensures differ { DifferInTints versions.old v w result }
{
    let mut steps: Steps<L> = Steps::start(blank);
    let before = versions.share(v);
    let found = changes_since(versions, v, before.as_ref(), w, &mut steps);
    versions.give_back(before, &mut steps);
    found
}

// The same, where the root of the first is held.
#[tactic(auto, using(crate::proofs::Rebuilding::shared_tree, crate::proofs::Rebuilding::shared_few, crate::proofs::Rebuilding::asked_all, crate::proofs::Rebuilding::asked_same, crate::proofs::Comparing::beside_tree, crate::proofs::Comparing::beside_root, crate::proofs::Comparing::still_tree, crate::proofs::TintComparing::differ_still))]
fn changes_since<L: Ledger>(
    versions: &mut Versions,
    v: u32,
    before: Option<&Share>,
    w: u32,
    steps: &mut Steps<L>,
) -> Option<Boxed>
    requires are { AreStoredVersions versions.old }
    requires few { number_of_trees versions.old.store.told.held ≤ 2048 }
    requires first { HoldsVersion (log_of versions.old) v }
    requires second { HoldsVersion (log_of versions.old) w }
    requires holds { HoldsTree versions.old.store (option_copied before) }
    requires is { option_copied before ≡ stored_root versions.old.store.roots v }
    ensures are { AreStoredVersions versions.new }
    ensures leaves { LeavesAll versions.old versions.new }
    ensures same { HoldsSame versions.old.store versions.new.store }
    ensures holds { HoldsTree versions.new.store (option_copied before.entry) }
    ensures differ { DifferInTints versions.old v w result }
{
    let after = versions.share(w);
    let found = changes_of_roots(versions, v, before, w, after.as_ref());
    versions.give_back(after, steps);
    found
}

// The same, where the roots of both are held.
#[tactic(auto, using(crate::proofs::Rebuilding::share_level, crate::proofs::Holding::holds_root, crate::proofs::Sparing::are_spared, crate::proofs::Rebuilding::seen_tree, crate::proofs::Rebuilding::stays_seen, crate::proofs::Rebuilding::large_tints, crate::proofs::TintComparing::tinted_differ, crate::proofs::TintComparing::plain_differ))]
fn changes_of_roots(
    versions: &mut Versions,
    v: u32,
    before: Option<&Share>,
    w: u32,
    after: Option<&Share>,
) -> Option<Boxed>
    requires are { AreStoredVersions versions.old }
    requires first { HoldsVersion (log_of versions.old) v }
    requires second { HoldsVersion (log_of versions.old) w }
    requires before { HoldsTree versions.old.store (option_copied before) }
    requires after { HoldsTree versions.old.store (option_copied after) }
    requires from { option_copied before ≡ stored_root versions.old.store.roots v }
    requires to { option_copied after ≡ stored_root versions.old.store.roots w }
    ensures are { AreStoredVersions versions.new }
    ensures stays { StaysSeen versions.old versions.new }
    ensures before { HoldsTree versions.new.store (option_copied before.entry) }
    ensures after { HoldsTree versions.new.store (option_copied after.entry) }
    ensures differ { DifferInTints versions.old v w result }
{
    let side = versions.side;
    if versions.models.tint() {
        return tint_changes(&mut versions.store, before, after, side);
    }
    changes(&mut versions.store, before, after, side)
}
