ghost use Rattle.std.specs.Prelude.{◌≡◌, ◌≤◌, ◌^◌, IfOk, option_copied};
ghost use Rattle.vw_cell.specs.Places.{FitsAt};
ghost use Rattle.node_words.specs.descent.Roots.{HoldsRoot, ForWorld};
ghost use Rattle.extract.specs.Saved.{file_of_box};

use crate::boxes::cells_in;
use node_words::{Blocks, Share};
use std::alloc::Global;
use vox_write::write_model;
use vw_cell::{Boxed, Memory, Side};

/// The VOX file, of version 150, whose one model has the set cells of a box of the root's world, in
/// the order of [`cells_in`].
#[tactic(auto, using(crate::proofs::SavedLaws::is_size, crate::proofs::SavedLaws::told_inside, crate::proofs::SavedLaws::told_few, crate::proofs::SavedLaws::told_file))]
pub fn box_file<B: Blocks>(
    alloc: Global,
    store: &mut B,
    root: Option<&Share>,
    side: Side,
    b: Boxed,
) -> Result<Vec<u8>, Memory>
    requires root { HoldsRoot (B.seen store.old).held side (option_copied root) }
    requires inside { FitsAt b.at b.size (2 ^ side) }
    requires small { (b.size.x ≤ 256) × (b.size.y ≤ 256) × (b.size.z ≤ 256) }
    ensures file { IfOk result
        (λ file. ForWorld (B.seen store.old).held side (option_copied root.entry)
        (λ cells. file.items ≡ file_of_box b cells)) }
    ensures seen { B.seen store.new ≡ B.seen store.old }
    ensures rests { B.rests store.old store.new }
{
    let mut voxels = Vec::new(alloc);
    cells_in(store, root, side, b, &mut voxels)?;
    let mut file = Vec::new(alloc);
    write_model(b.size, voxels.as_slice(), &mut file)?;
    Ok(file)
}
