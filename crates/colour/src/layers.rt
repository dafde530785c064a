ghost use Rattle.std.specs.Prelude.{◌≡◌, ◌+◌, ◌-◌, ◌/◌, ◌^◌, ◌<◌, ◌≤◌, ℕ, option_copied};
ghost use Rattle.vw_cell.specs.Counts.{cell_at};
ghost use Rattle.vw_cell.specs.Places.{FitsAt};
ghost use Rattle.node_words.specs.shapes.Tree.{Tree};
ghost use Rattle.node_words.specs.descent.Roots.{HoldsRoot};
ghost use Rattle.node_words.specs.contents.CellShapes.{bits_below};
ghost use Rattle.extract.specs.Layers.{HoldsLayer, IsSmallLayer, leaves_in};
ghost use Rattle.colour.specs.Layers.{ForRoot, HoldsBits, IsRead, bit_cells};

use crate::reading::with_bit;
use extract::{gather, row_start};
use node_words::{Blocks, Share, leaf_has, name_of, octant_name};
use vw_cell::{Boxed, Cell, Side};

/// No layer of a box.
pub(crate) const NO_LAYER: u16 = 65535;

// The leaves of the layer of a box that has its z-th layer of cells, in the plane of a bit.
fn bit_leaves<B: Blocks>(
    store: &mut B,
    root: Option<&Share>,
    side: Side,
    bit: u8,
    b: Boxed,
    z: u16,
) -> [u64; 4225]
    requires root { HoldsRoot (B.seen store.old).held side (option_copied root) }
    requires large { 4 ≤ side }
    requires bit { bit < 8 }
    requires inside { FitsAt b.at b.size (2 ^ (side - 2)) }
    requires small { (b.size.x ≤ 256) × (b.size.y ≤ 256) × (b.size.z ≤ 256) }
    requires z { z < b.size.z }
    ensures leaves { ForRoot (B.seen store.old).held side (option_copied root.entry)
        (λ t. HoldsLayer result b ((b.at.z + z) / 4) (leaves_in b) (bit_cells side t bit)) }
    ensures seen { B.seen store.new ≡ B.seen store.old }
    ensures rests { B.rests store.old store.new }
{
    let level = side.root_level();
    let half = octant_name(store, level, name_of(root), 1);
    let block = octant_name(store, level - 1, half, bit);
    gather(store, level - 2, block, b, z)
}

// The same of all bits.
fn all_leaves<B: Blocks>(
    store: &mut B,
    root: Option<&Share>,
    side: Side,
    b: Boxed,
    z: u16,
    rows: &mut [[u64; 4225]; 8],
)
    requires root { HoldsRoot (B.seen store.old).held side (option_copied root) }
    requires large { 4 ≤ side }
    requires inside { FitsAt b.at b.size (2 ^ (side - 2)) }
    requires small { (b.size.x ≤ 256) × (b.size.y ≤ 256) × (b.size.z ≤ 256) }
    requires z { z < b.size.z }
    ensures rows { ForRoot (B.seen store.old).held side (option_copied root.entry)
        (λ t. HoldsBits rows.new b ((b.at.z + z) / 4) side t 8) }
    ensures seen { B.seen store.new ≡ B.seen store.old }
    ensures rests { B.rests store.old store.new }
{
    for bit in 0..8u8 {
        let leaves = bit_leaves(store, root, side, bit, b, z);
        rows[usize::from(bit)] = leaves;
    }
}

/// The leaves of all bits in the layer of a box that has its z-th layer of cells, unless they were
/// those of the layer already.
pub(crate) fn turn_to<B: Blocks>(
    store: &mut B,
    root: Option<&Share>,
    side: Side,
    b: Boxed,
    z: u16,
    layer: &mut u16,
    rows: &mut [[u64; 4225]; 8],
)
    requires root { HoldsRoot (B.seen store.old).held side (option_copied root) }
    requires large { 4 ≤ side }
    requires inside { FitsAt b.at b.size (2 ^ (side - 2)) }
    requires small { (b.size.x ≤ 256) × (b.size.y ≤ 256) × (b.size.z ≤ 256) }
    requires z { z < b.size.z }
    requires rows { ForRoot (B.seen store.old).held side (option_copied root)
        (λ t. IsRead layer.old rows.old b side t) }
    ensures layer { layer.new ≡ (b.at.z + z) / 4 }
    ensures rows { ForRoot (B.seen store.old).held side (option_copied root.entry)
        (λ t. HoldsBits rows.new b ((b.at.z + z) / 4) side t 8) }
    ensures seen { B.seen store.new ≡ B.seen store.old }
    ensures rests { B.rests store.old store.new }
{
    let wanted = (b.at.z + z) / 4;
    if *layer == wanted {
        return;
    }
    all_leaves(store, root, side, b, z, rows);
    *layer = wanted;
}

/// The tint of a cell of a box, told from the box's corner, by the leaves of its layer.
pub(crate) fn tint_of(rows: &[[u64; 4225]; 8], b: Boxed, c: Cell) -> u8
    requires b { IsSmallLayer b }
    requires c { (c.x < b.size.x) × (c.y < b.size.y) × (c.z < b.size.z) }
    ensures { (side : ℕ) (t : Tree) → HoldsBits rows.now b ((b.at.z + c.z) / 4) side t 8
        → result ≡ bits_below (λ bit. bit_cells side t bit
        (cell_at (b.at.x + c.x) (b.at.y + c.y) (b.at.z + c.z))) 8 }
{
    let start = row_start(b, c.y);
    let right = usize::from((b.at.x + c.x) / 4 - b.at.x / 4);
    let m = start + right;
    let at = Cell {
        x: (b.at.x + c.x) % 4,
        y: (b.at.y + c.y) % 4,
        z: (b.at.z + c.z) % 4,
    };
    let mut tint = 0;
    for bit in 0..8u8 {
        let row = &rows[usize::from(bit)];
        let bits = row[m];
        let set = leaf_has(bits, at);
        tint = with_bit(tint, bit, set);
    }
    tint
}
