ghost use Rattle.std.specs.Prelude.{◌≡◌, ℕ, ◌+◌, ◌<◌, ◌≤◌, ◌^◌, ◌++◌, length, OnOk, OnErr, option_copied};
ghost use Rattle.vw_cell.specs.Places.{FitsAt, block_side};
ghost use Rattle.node_words.specs.descent.Roots.{HasBlock, HoldsRoot, ForBlock, ForWorld, cells_of};
ghost use Rattle.node_words.specs.descent.Parts.{EndsBy};
ghost use Rattle.extract.specs.Listing.{voxels_of_box};
ghost use Rattle.extract.specs.Layers.{IsSmallLayer, HasRoom, AppendsVoxels};

use crate::leaves::gather;
use crate::rows::{layers_in, run_length};
use measure::count;
use node_words::{Blocks, Name, Share, name_of};
use vox_read::Voxel;
use vw_cell::{Boxed, Memory, Side};

/// Appends the set cells of a box of the root's world, told from the box's corner and with colour
/// 1, by rising z, then y, then x. `into` grows once, and is as it was where there is no memory for
/// that.
pub fn cells_in<B: Blocks>(
    store: &mut B,
    root: Option<&Share>,
    side: Side,
    b: Boxed,
    into: &mut Vec<Voxel>,
) -> Result<(), Memory>
    requires root { HoldsRoot (B.seen store.old).held side (option_copied root) }
    requires inside { FitsAt b.at b.size (2 ^ side) }
    requires small { (b.size.x ≤ 256) × (b.size.y ≤ 256) × (b.size.z ≤ 256) }
    ensures voxels { OnOk result
        (ForWorld (B.seen store.old).held side (option_copied root.entry)
        (λ cells. into.new.items ≡ into.old.items ++ voxels_of_box b cells)) }
    ensures memory { OnErr result (into.new.items ≡ into.old.items) }
    ensures seen { B.seen store.new ≡ B.seen store.old }
    ensures rests { B.rests store.old store.new }
{
    let number = count(store, root, side, b);
    into.reserve(number as usize)?;
    box_in(store, side.root_level(), name_of(root), b, into);
    Ok(())
}

// The same of a block, in the room that there is.
fn box_in<B: Blocks>(store: &mut B, level: u8, block: Option<Name>, b: Boxed, into: &mut Vec<Voxel>)
    requires level { level ≤ 10 }
    requires block { HasBlock (B.seen store.old).held level block }
    requires b { IsSmallLayer b }
    requires ends { EndsBy (block_side level) b }
    requires room { ForBlock (B.seen store.old).held level block
        (λ s. HasRoom into.old (length (voxels_of_box b (cells_of level s)))) }
    ensures appended { ForBlock (B.seen store.old).held level block
        (λ s. AppendsVoxels (voxels_of_box b (cells_of level s)) into.old into.new) }
    ensures seen { B.seen store.new ≡ B.seen store.old }
    ensures rests { B.rests store.old store.new }
{
    let mut z = 0;
    while z < b.size.z {
        let n = run_length(b.at.z + z, b.size.z - z);
        let leaves = gather(store, level, block, b, z);
        layers_in(&leaves, b, z, n, into);
        z += n;
    }
}
