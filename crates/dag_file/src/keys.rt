ghost use Rattle.std.specs.Prelude.{◌≡◌, ℕ, ◌+◌, ◌-◌, ◌*◌, ◌^◌, ◌<◌, ◌≤◌, ◌/◌, ◌%◌, length, ◌++◌, IfOk, OnOk, Option, Some};
ghost use Rattle.std.specs.List.{Contains};
ghost use Rattle.std.specs.List.Sorted.{IsStrictlyIncreasing};
ghost use Rattle.node_words.specs.descent.Roots.{HasBlock};
ghost use Rattle.dag_file.specs.Trees.{entry_name, named_index};
ghost use Rattle.dag_file.specs.Writes.{AddsKeys, AreReached, IsChildKey, AreChildren, AreRootKeys, HasByteSlot, keys_of};

use node_words::{Blocks, Name, Share, octant_name};
use std::alloc::Global;
use vw_cell::Memory;

/// The key of a name on its level.
pub(crate) fn key_of(n: Name) -> u32
    ensures key { result ≡ named_index n }
    ensures below { result < 2 ^ 24 }
{
    256 * u32::from(n.bucket) + u32::from(n.slot)
}

/// The name of a key on a level.
pub(crate) fn name_at(level: u8, key: u32) -> Name
    requires { key < 2 ^ 24 }
    ensures { result ≡ entry_name level key }
{
    Name {
        bucket: (key / 256) as u16,
        level,
        slot: (key % 256) as u8,
    }
}

/// Each number once, by rising size.
pub(crate) fn sort_once(keys: &mut Vec<u32>)
    ensures rises { IsStrictlyIncreasing keys.new.items }
    ensures keeps { (x : ℕ) → Contains keys.old.items x → Contains keys.new.items x }
    ensures adds_none { (x : ℕ) → Contains keys.new.items x → Contains keys.old.items x }
{
    keys.sort_unstable();
    keys.dedup();
}

/// The keys of the roots, each once, by rising size.
#[tactic(auto, using(crate::proofs::KeyLaws::no_roots))]
pub(crate) fn root_keys(alloc: Global, roots: &[(u32, Option<Share>)]) -> Result<Vec<u32>, Memory>
    ensures roots { IfOk result (λ keys. AreRootKeys roots.now keys.items) }
    ensures few { IfOk result (λ keys. length keys.items ≤ 2 ^ 24) }
{
    let mut keys = Vec::new(alloc);
    for item in roots {
        push_key(root_name(item), &mut keys)?;
    }
    sort_once(&mut keys);
    Ok(keys)
}

/// The name of a version's root, where there is one.
pub(crate) fn root_name(item: &(u32, Option<Share>)) -> Option<Name>
    ensures { result ≡ item.now.1 }
{
    match &item.1 {
        Some(share) => Some(share.name()),
        None => None,
    }
}

/// The keys of what stands in the octants of some nodes of a level, each once, by rising size. The
/// memory that this takes is eight keys for each node.
#[tactic(auto, using(crate::proofs::KeyLaws::no_nodes))]
pub(crate) fn child_keys<B: Blocks>(
    alloc: Global,
    store: &mut B,
    level: u8,
    keys: &[u32],
) -> Result<Vec<u32>, Memory>
    requires level { 1 ≤ level }
    requires keys { AreReached (B.seen store.old).held level keys.now }
    ensures children { IfOk result
        (λ found. AreChildren (B.seen store.old).held level keys.now found.items) }
    ensures reached { IfOk result
        (λ found. AreReached (B.seen store.old).held (level - 1) found.items) }
    ensures few { IfOk result (λ found. length found.items ≤ 2 ^ 24) }
    ensures seen { B.seen store.new ≡ B.seen store.old }
    ensures rests { B.rests store.old store.new }
{
    let mut found = Vec::new(alloc);
    for key in keys {
        push_children(store, level, name_at(level, *key), &mut found)?;
    }
    sort_once(&mut found);
    Ok(found)
}

// Those of one node, in the order of its octants.
#[tactic(auto, using(crate::proofs::KeyLaws::no_octants))]
fn push_children<B: Blocks>(
    store: &mut B,
    level: u8,
    node: Name,
    found: &mut Vec<u32>,
) -> Result<(), Memory>
    requires level { 1 ≤ level }
    requires node { HasBlock (B.seen store.old).held level (Some node) }
    ensures adds { OnOk result (AddsKeys (IsChildKey (B.seen store.old).held level node 8)
        found.old.items found.new.items) }
    ensures seen { B.seen store.new ≡ B.seen store.old }
    ensures rests { B.rests store.old store.new }
{
    for octant in 0..8u8 {
        let child = octant_name(store, level, Some(node), octant);
        push_key(child, found)?;
    }
    Ok(())
}

// The key of a name, where there is one.
fn push_key(name: Option<Name>, found: &mut Vec<u32>) -> Result<(), Memory>
    ensures slot { HasByteSlot name }
    ensures pushed { OnOk result (found.new.items ≡ found.old.items ++ keys_of name) }
{
    if let Some(n) = name {
        found.push(key_of(n))?;
    }
    Ok(())
}
