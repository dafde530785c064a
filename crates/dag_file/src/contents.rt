ghost use Rattle.std.specs.Prelude.{◌≡◌, ℕ, ◌+◌, ◌-◌, ◌^◌, ◌<◌, ◌≤◌, length, slice_index, slice_index_or, IfOk, Option, Some, List, []};
ghost use Rattle.std.specs.List.{Contains};
ghost use Rattle.std.specs.List.Sorted.{IsStrictlyIncreasing, IsStrictlySortedBy};
ghost use Rattle.std.specs.Cmp.Lexicographic.{slice_cmp};
ghost use Rattle.std.specs.Ordering.{nat_cmp};
ghost use Rattle.dag_file.specs.Writes.{AreReached, AreLeaves, AreNodeWords, IsWordOfName, AreOctantWords, HasByteSlot, AreIndices, AreNodeIndices};
ghost use Rattle.node_words.specs.descent.Roots.{HasBlock};

use crate::keys::{key_of, name_at};
use node_words::{Blocks, Name, leaf_bits, octant_name};
use std::alloc::Global;
use vw_cell::Memory;

/// The word of what stands in an octant: 0 for none, else 1 + its index.
pub(crate) fn word_of(keys: &[u32], indices: &[u32], child: Option<Name>) -> u32
    requires rises { IsStrictlyIncreasing keys.now }
    requires many { length indices.now ≡ length keys.now }
    requires few { (j : ℕ) → j < length keys.now → slice_index indices.now j < 2 ^ 24 }
    ensures slot { HasByteSlot child }
    ensures word { IsWordOfName keys.now indices.now child result }
{
    let Some(n) = child else {
        return 0;
    };
    let key = key_of(n);
    match keys.binary_search(&key) {
        Ok(j) => indices[j] + 1,
        Err(_) => 0,
    }
}

/// The bits of the leaves of some keys, in their order.
pub(crate) fn leaf_contents<B: Blocks>(
    alloc: Global,
    store: &mut B,
    keys: &[u32],
) -> Result<Vec<u64>, Memory>
    requires keys { AreReached (B.seen store.old).held 0 keys.now }
    ensures leaves { IfOk result
        (λ v. AreLeaves (B.seen store.old).held keys.now (length keys.now) v.items) }
    ensures seen { B.seen store.new ≡ B.seen store.old }
    ensures rests { B.rests store.old store.new }
{
    let mut leaves = Vec::new(alloc);
    for key in keys {
        let bits = leaf_bits(store, Some(name_at(0, *key)));
        leaves.push(bits)?;
    }
    Ok(leaves)
}

/// The words of the nodes of some keys of a level, in their order, where the level below has these
/// keys and their indices.
pub(crate) fn node_contents<B: Blocks>(
    alloc: Global,
    store: &mut B,
    level: u8,
    keys: &[u32],
    below: &[u32],
    indices: &[u32],
) -> Result<Vec<[u32; 8]>, Memory>
    requires level { 1 ≤ level }
    requires keys { AreReached (B.seen store.old).held level keys.now }
    requires rises { IsStrictlyIncreasing below.now }
    requires many { length indices.now ≡ length below.now }
    requires few { (j : ℕ) → j < length below.now → slice_index indices.now j < 2 ^ 24 }
    ensures nodes { IfOk result (λ v. AreNodeWords (B.seen store.old).held level keys.now below.now
        indices.now (length keys.now) v.items) }
    ensures seen { B.seen store.new ≡ B.seen store.old }
    ensures rests { B.rests store.old store.new }
{
    let mut nodes = Vec::new(alloc);
    for key in keys {
        let words = node_content(store, level, name_at(level, *key), below, indices);
        nodes.push(words)?;
    }
    Ok(nodes)
}

// Those of one node.
fn node_content<B: Blocks>(
    store: &mut B,
    level: u8,
    node: Name,
    keys: &[u32],
    indices: &[u32],
) -> [u32; 8]
    requires level { 1 ≤ level }
    requires node { HasBlock (B.seen store.old).held level (Some node) }
    requires rises { IsStrictlyIncreasing keys.now }
    requires many { length indices.now ≡ length keys.now }
    requires few { (j : ℕ) → j < length keys.now → slice_index indices.now j < 2 ^ 24 }
    ensures words { AreOctantWords
        (B.seen store.old).held level node keys.now indices.now 8 result }
    ensures eight { length result ≡ 8 }
    ensures seen { B.seen store.new ≡ B.seen store.old }
    ensures rests { B.rests store.old store.new }
{
    let mut words = [0; 8];
    for k in 0..8u8 {
        let child = octant_name(store, level, Some(node), k);
        words[usize::from(k)] = word_of(keys, indices, child);
    }
    words
}

/// Each once, by rising order.
pub(crate) fn sort_leaves(alloc: Global, leaves: &[u64]) -> Result<Vec<u64>, Memory>
    ensures rises { IfOk result (λ v. IsStrictlyIncreasing v.items) }
    ensures keeps { IfOk result
        (λ v. (x : ℕ) → Contains leaves.now x → Contains v.items x) }
    ensures adds_none { IfOk result
        (λ v. (x : ℕ) → Contains v.items x → Contains leaves.now x) }
    ensures few { IfOk result (λ v. length v.items ≤ length leaves.now) }
{
    let mut sorted = Vec::from_slice(alloc, leaves)?;
    sort_bits(&mut sorted);
    Ok(sorted)
}

// Each once, by rising size.
fn sort_bits(leaves: &mut Vec<u64>)
    ensures rises { IsStrictlyIncreasing leaves.new.items }
    ensures keeps { (x : ℕ) → Contains leaves.old.items x → Contains leaves.new.items x }
    ensures adds_none { (x : ℕ) → Contains leaves.new.items x → Contains leaves.old.items x }
    ensures few { length leaves.new.items ≤ length leaves.old.items }
{
    leaves.sort_unstable();
    leaves.dedup();
}

/// The same of nodes, by their lists of words.
pub(crate) fn sort_nodes(alloc: Global, nodes: &[[u32; 8]]) -> Result<Vec<[u32; 8]>, Memory>
    ensures rises { IfOk result (λ v. IsStrictlySortedBy (slice_cmp nat_cmp) v.items) }
    ensures keeps { IfOk result
        (λ v. (x : List ℕ) → Contains nodes.now x → Contains v.items x) }
    ensures adds_none { IfOk result
        (λ v. (x : List ℕ) → Contains v.items x → Contains nodes.now x) }
    ensures few { IfOk result (λ v. length v.items ≤ length nodes.now) }
{
    let mut sorted = Vec::from_slice(alloc, nodes)?;
    sort_words(&mut sorted);
    Ok(sorted)
}

// Each once, by rising order.
fn sort_words(nodes: &mut Vec<[u32; 8]>)
    ensures rises { IsStrictlySortedBy (slice_cmp nat_cmp) nodes.new.items }
    ensures keeps { (x : List ℕ) → Contains nodes.old.items x → Contains nodes.new.items x }
    ensures adds_none { (x : List ℕ) → Contains nodes.new.items x → Contains nodes.old.items x }
    ensures few { length nodes.new.items ≤ length nodes.old.items }
{
    nodes.sort_unstable();
    nodes.dedup();
}

/// The index of each among the sorted ones.
pub(crate) fn leaf_indices(
    alloc: Global,
    leaves: &[u64],
    sorted: &[u64],
) -> Result<Vec<u32>, Memory>
    requires rises { IsStrictlyIncreasing sorted.now }
    requires few { length sorted.now ≤ 2 ^ 24 }
    requires there { (x : ℕ) → Contains leaves.now x → Contains sorted.now x }
    ensures { IfOk result (λ v. AreIndices leaves.now sorted.now (length leaves.now) v.items) }
{
    let mut indices = Vec::new(alloc);
    for leaf in leaves {
        indices.push(leaf_index(sorted, *leaf))?;
    }
    Ok(indices)
}

// Where a leaf stands among the sorted ones.
fn leaf_index(sorted: &[u64], leaf: u64) -> u32
    requires rises { IsStrictlyIncreasing sorted.now }
    requires few { length sorted.now ≤ 2 ^ 24 }
    requires there { Contains sorted.now leaf }
    ensures below { result < length sorted.now }
    ensures is { slice_index sorted.now result ≡ leaf }
{
    match sorted.binary_search(&leaf) {
        Ok(i) => i as u32,
        Err(_) => 0,
    }
}

/// The same of nodes.
pub(crate) fn node_indices(
    alloc: Global,
    nodes: &[[u32; 8]],
    sorted: &[[u32; 8]],
) -> Result<Vec<u32>, Memory>
    requires rises { IsStrictlySortedBy (slice_cmp nat_cmp) sorted.now }
    requires few { length sorted.now ≤ 2 ^ 24 }
    requires there { (x : List ℕ) → Contains nodes.now x → Contains sorted.now x }
    ensures { IfOk result
        (λ v. AreNodeIndices nodes.now sorted.now (length nodes.now) v.items) }
{
    let mut indices = Vec::new(alloc);
    for node in nodes {
        indices.push(node_index(sorted, node))?;
    }
    Ok(indices)
}

fn node_index(sorted: &[[u32; 8]], node: &[u32; 8]) -> u32
    requires rises { IsStrictlySortedBy (slice_cmp nat_cmp) sorted.now }
    requires few { length sorted.now ≤ 2 ^ 24 }
    requires there { Contains sorted.now node.now }
    ensures below { result < length sorted.now }
    ensures is { slice_index_or sorted.now result [] ≡ node.now }
{
    match sorted.binary_search(node) {
        Ok(i) => i as u32,
        Err(_) => 0,
    }
}
