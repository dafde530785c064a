ghost use Rattle.std.specs.Prelude.{◌≡◌, ◌+◌, ◌-◌, ◌*◌, ◌<◌, ◌≤◌, ◌^◌, OnOk, OnErr, option_copied};
ghost use Rattle.vw_cell.specs.Places.{FitsAt, IsInBox};
ghost use Rattle.node_words.specs.descent.Roots.{HoldsRoot, ForWorld};
ghost use Rattle.flood.specs.Regions.{AppendsRegion};
ghost use Rattle.extract.specs.Layers.{IsSmallLayer};

use crate::bit_regions::region_of;
use crate::listing::list;
use crate::reading::clear_words;
use node_words::{Blocks, Share, name_of};
use vox_read::Voxel;
use vw_cell::{Boxed, Cell, Memory, Side};

/// Appends the cells of a box that ways through its clear cells join with one of its cells, told
/// from the box's corner and with colour 1, by rising z, then y, then x: none where that cell is
/// set. `into` is as it was where there is no memory for that.
pub fn flood<B: Blocks>(
    store: &mut B,
    root: Option<&Share>,
    side: Side,
    within: Boxed,
    from: Cell,
    into: &mut Vec<Voxel>,
) -> Result<(), Memory>
    requires root { HoldsRoot (B.seen store.old).held side (option_copied root) }
    requires inside { FitsAt within.at within.size (2 ^ side) }
    requires small { (within.size.x ≤ 256) × (within.size.y ≤ 256) × (within.size.z ≤ 256) }
    requires from { IsInBox within from }
    ensures region { OnOk result
        (ForWorld (B.seen store.old).held side (option_copied root.entry)
        (AppendsRegion within from into.old.items into.new.items)) }
    ensures memory { OnErr result (into.new.items ≡ into.old.items) }
    ensures seen { B.seen store.new ≡ B.seen store.old }
    ensures rests { B.rests store.old store.new }
{
    let alloc = *into.allocator();
    let clear = clear_words(alloc, store, side.root_level(), name_of(root), within)?;
    let region = region_of(alloc, &clear, bit_in(within, from))?;
    list(&region, within, into)
}

// The bit of a cell of a box.
fn bit_in(b: Boxed, c: Cell) -> usize
    requires { IsInBox b c }
    ensures { result ≡ (c.x - b.at.x) + 256 * (c.y - b.at.y) + 65536 * (c.z - b.at.z) }
{
    let x = usize::from(c.x - b.at.x);
    let y = usize::from(c.y - b.at.y);
    let z = usize::from(c.z - b.at.z);
    x + 256 * y + 65536 * z
}
