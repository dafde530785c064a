ghost use Rattle.std.specs.Prelude.{◌≡◌, ℕ, ◌-◌, ◌^◌, ◌<◌, ◌≤◌, length, slice_index, IfOk, OnOk, OnErr};
ghost use Rattle.std.specs.List.Sorted.{IsStrictlyIncreasing};
ghost use Rattle.dag_file.specs.Layers.{IsPairOf, AreVersionPairs};
ghost use Rattle.dag_file.specs.Lists.{HoldsList, ShowCanonical, DoNumbersRise, AreNumbersSmall, IsFileOfList, AppendsFile};
ghost use Rattle.dag_file.specs.Writes.{file_bytes};

use crate::contents::word_of;
use crate::keys::{root_keys, root_name};
use crate::layers::{Layers, layers_of};
use crate::putting::{put_header, put_leaves, put_nodes, put_pairs};
use node_words::{Blocks, Share};
use std::alloc::Global;
use vw_cell::{Memory, Side};

/// Appends the file of a list of versions: of their numbers, which rise and are at most 65,535,
/// each with its root in a store of this side, or with none. What was there stays where memory
/// lacks.
///
/// The memory that this takes is bounded by the number of different nodes at and below the roots.
pub fn write_dag<B: Blocks>(
    alloc: Global,
    store: &mut B,
    side: Side,
    roots: &[(u32, Option<Share>)],
    into: &mut Vec<u8>,
) -> Result<(), Memory>
    requires roots { HoldsList (B.seen store.old).held (side - 1) roots.now }
    requires canonical { ShowCanonical (B.seen store.old).held (side - 1) roots.now }
    requires rise { DoNumbersRise roots.now }
    requires small { AreNumbersSmall roots.now }
    ensures file { OnOk result (AppendsFile (B.seen store.old).held (side - 1) roots.now
        into.old.items into.new.items) }
    ensures memory { OnErr result (into.new.items ≡ into.old.items) }
    ensures seen { B.seen store.new ≡ B.seen store.old }
    ensures rests { B.rests store.old store.new }
{
    let file = file_of(alloc, store, side, roots)?;
    into.extend_from_slice(&file)?;
    Ok(())
}

// The file alone.
fn file_of<B: Blocks>(
    alloc: Global,
    store: &mut B,
    side: Side,
    roots: &[(u32, Option<Share>)],
) -> Result<Vec<u8>, Memory>
    requires roots { HoldsList (B.seen store.old).held (side - 1) roots.now }
    requires canonical { ShowCanonical (B.seen store.old).held (side - 1) roots.now }
    requires rise { DoNumbersRise roots.now }
    requires small { AreNumbersSmall roots.now }
    ensures file { IfOk result
        (λ v. IsFileOfList (B.seen store.old).held (side - 1) roots.now v.items) }
    ensures seen { B.seen store.new ≡ B.seen store.old }
    ensures rests { B.rests store.old store.new }
{
    let keys = root_keys(alloc, roots)?;
    let layers = layers_of(alloc, store, side.exponent() - 2, keys)?;
    let pairs = pairs_of(alloc, roots, &layers.keys, &layers.indices)?;
    let file = put_file(alloc, side, &layers, &pairs)?;
    Ok(file)
}

// The versions, each by its number and the word of its root.
fn pairs_of(
    alloc: Global,
    roots: &[(u32, Option<Share>)],
    keys: &[u32],
    indices: &[u32],
) -> Result<Vec<[u32; 2]>, Memory>
    requires rises { IsStrictlyIncreasing keys.now }
    requires many { length indices.now ≡ length keys.now }
    requires few { (j : ℕ) → j < length keys.now → slice_index indices.now j < 2 ^ 24 }
    ensures { IfOk result
        (λ v. AreVersionPairs roots.now keys.now indices.now (length roots.now) v.items) }
{
    let mut pairs = Vec::new(alloc);
    for item in roots {
        pairs.push(pair_of(item, keys, indices))?;
    }
    Ok(pairs)
}

fn pair_of(item: &(u32, Option<Share>), keys: &[u32], indices: &[u32]) -> [u32; 2]
    requires rises { IsStrictlyIncreasing keys.now }
    requires many { length indices.now ≡ length keys.now }
    requires few { (j : ℕ) → j < length keys.now → slice_index indices.now j < 2 ^ 24 }
    ensures { IsPairOf keys.now indices.now item.now result }
{
    let word = word_of(keys, indices, root_name(item));
    [item.0, word]
}

// The bytes of the file of such layers and versions.
fn put_file(
    alloc: Global,
    side: Side,
    layers: &Layers,
    pairs: &[[u32; 2]],
) -> Result<Vec<u8>, Memory>
    requires few { length pairs.now ≤ 65536 }
    ensures { IfOk result (λ v. v.items ≡ file_bytes (2 ^ side) layers.now.counts.items
        layers.now.leaves.items layers.now.nodes.items pairs.now) }
{
    let mut file = Vec::new(alloc);
    put_header(side.cells(), pairs.len() as u32, &layers.counts, &mut file)?;
    put_leaves(&layers.leaves, &mut file)?;
    put_nodes(&layers.nodes, &mut file)?;
    put_pairs(pairs, &mut file)?;
    Ok(file)
}
