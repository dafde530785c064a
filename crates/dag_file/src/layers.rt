ghost use Rattle.std.specs.Prelude.{◌≡◌, ℕ, ◌+◌, ◌-◌, ◌^◌, ◌<◌, ◌≤◌, length, slice_index, IfOk, OnOk};
ghost use Rattle.dag_file.specs.Layers.{AreLayers};
ghost use Rattle.dag_file.specs.Writes.{AreReached, AreChildren};

use crate::contents::{
    leaf_contents, leaf_indices, node_contents, node_indices, sort_leaves, sort_nodes,
};
use crate::keys::child_keys;
use node_words::Blocks;
use std::alloc::Global;
use vw_cell::Memory;

/// The different entries of a level and of those below it, each level's by rising order, and for
/// each name of the level, by its key, the index of its entry.
#[derive(Drop)]
pub(crate) struct Layers {
    pub keys: Vec<u32>,
    pub indices: Vec<u32>,
    pub counts: Vec<u32>,
    pub leaves: Vec<u64>,
    pub nodes: Vec<[u32; 8]>,
}

/// The layers up to a level, over the names of these keys. The memory that this takes is bounded by
/// the number of different nodes at and below these.
pub(crate) fn layers_of<B: Blocks>(
    alloc: Global,
    store: &mut B,
    level: u8,
    keys: Vec<u32>,
) -> Result<Layers, Memory>
    requires keys { AreReached (B.seen store.old).held level keys.items }
    requires few { length keys.items ≤ 2 ^ 24 }
    ensures layers { IfOk result (λ x. AreLayers (B.seen store.old).held level x.keys.items
        x.indices.items x.counts.items x.leaves.items x.nodes.items) }
    ensures keys { IfOk result (λ x. x.keys.items ≡ keys.items) }
    ensures seen { B.seen store.new ≡ B.seen store.old }
    ensures rests { B.rests store.old store.new }
{
    if level == 0 {
        return leaf_layer(alloc, store, keys);
    }
    let below = child_keys(alloc, store, level, &keys)?;
    let mut layers = layers_of(alloc, store, level - 1, below)?;
    add_layer(alloc, store, level, keys, &mut layers)?;
    Ok(layers)
}

// The layer of level 0.
fn leaf_layer<B: Blocks>(alloc: Global, store: &mut B, keys: Vec<u32>) -> Result<Layers, Memory>
    requires keys { AreReached (B.seen store.old).held 0 keys.items }
    requires few { length keys.items ≤ 2 ^ 24 }
    ensures layers { IfOk result (λ x. AreLayers (B.seen store.old).held 0 x.keys.items
        x.indices.items x.counts.items x.leaves.items x.nodes.items) }
    ensures keys { IfOk result (λ x. x.keys.items ≡ keys.items) }
    ensures seen { B.seen store.new ≡ B.seen store.old }
    ensures rests { B.rests store.old store.new }
{
    let bits = leaf_contents(alloc, store, &keys)?;
    let leaves = sort_leaves(alloc, &bits)?;
    let indices = leaf_indices(alloc, &bits, &leaves)?;
    let mut counts = Vec::new(alloc);
    counts.push(leaves.len() as u32)?;
    let nodes = Vec::new(alloc);
    Ok(Layers {
        keys,
        indices,
        counts,
        leaves,
        nodes,
    })
}

// The layer of a level above comes to those below it.
fn add_layer<B: Blocks>(
    alloc: Global,
    store: &mut B,
    level: u8,
    keys: Vec<u32>,
    layers: &mut Layers,
) -> Result<(), Memory>
    requires level { 1 ≤ level }
    requires keys { AreReached (B.seen store.old).held level keys.items }
    requires few { length keys.items ≤ 2 ^ 24 }
    requires children { AreChildren (B.seen store.old).held level keys.items
        layers.old.keys.items }
    requires layers { AreLayers (B.seen store.old).held (level - 1) layers.old.keys.items
        layers.old.indices.items layers.old.counts.items layers.old.leaves.items
        layers.old.nodes.items }
    ensures layers { OnOk result (AreLayers (B.seen store.old).held level layers.new.keys.items
        layers.new.indices.items layers.new.counts.items layers.new.leaves.items
        layers.new.nodes.items) }
    ensures keys { OnOk result (layers.new.keys.items ≡ keys.items) }
    ensures seen { B.seen store.new ≡ B.seen store.old }
    ensures rests { B.rests store.old store.new }
{
    let words = node_contents(alloc, store, level, &keys, &layers.keys, &layers.indices)?;
    let sorted = sort_nodes(alloc, &words)?;
    let indices = node_indices(alloc, &words, &sorted)?;
    layers.counts.push(sorted.len() as u32)?;
    layers.nodes.extend_from_slice(&sorted)?;
    layers.keys = keys;
    layers.indices = indices;
    Ok(())
}
