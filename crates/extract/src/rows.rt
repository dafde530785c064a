ghost use Rattle.std.specs.Prelude.{◌≡◌, ℕ, ◌+◌, ◌<◌, ◌≤◌, ◌*◌, ◌/◌, ◌-◌, Bool, length};
ghost use Rattle.vw_cell.specs.declared.cells.Cell.{Cell};
ghost use Rattle.vw_cell.specs.Counts.{cell_at};
ghost use Rattle.extract.specs.Listing.{voxel_if, row_voxels, box_row, box_layer, voxels_joined};
ghost use Rattle.extract.specs.Layers.{HoldsLayer, IsRow, IsSmallLayer, HasRoom, AppendsVoxels, bits_show, leaves_in, leaves_along};

use node_words::leaf_has;
use vox_read::Voxel;
use vw_cell::{Boxed, Cell};

/// Appends some layers of a box, which lie in one layer of leaves.
pub(crate) fn layers_in(leaves: &[u64; 4225], b: Boxed, z: u16, n: u16, into: &mut Vec<Voxel>)
    requires b { IsSmallLayer b }
    requires z { z + n ≤ b.size.z }
    requires layer { (k : ℕ) → k < n → (b.at.z + (z + k)) / 4 ≡ (b.at.z + z) / 4 }
    requires room { (cells : Cell → Bool)
        × HoldsLayer leaves.now b ((b.at.z + z) / 4) (leaves_in b) cells
        × HasRoom into.old (length (voxels_joined n (λ k. box_layer cells b (z + k)))) }
    ensures appended { (cells : Cell → Bool)
        → HoldsLayer leaves.now b ((b.at.z + z) / 4) (leaves_in b) cells
        → AppendsVoxels (voxels_joined n (λ k. box_layer cells b (z + k))) into.old into.new }
{
    for k in 0..n {
        layer_in(leaves, b, z + k, into);
    }
}

// Appends one layer of a box.
fn layer_in(leaves: &[u64; 4225], b: Boxed, z: u16, into: &mut Vec<Voxel>)
    requires b { IsSmallLayer b }
    requires z { z < b.size.z }
    requires room { (cells : Cell → Bool)
        × HoldsLayer leaves.now b ((b.at.z + z) / 4) (leaves_in b) cells
        × HasRoom into.old (length (box_layer cells b z)) }
    ensures appended { (cells : Cell → Bool)
        → HoldsLayer leaves.now b ((b.at.z + z) / 4) (leaves_in b) cells
        → AppendsVoxels (box_layer cells b z) into.old into.new }
{
    for y in 0..b.size.y {
        row_in(leaves, b, z, y, into);
    }
}

// Appends one row of a box, leaf by leaf.
fn row_in(leaves: &[u64; 4225], b: Boxed, z: u16, y: u16, into: &mut Vec<Voxel>)
    requires b { IsSmallLayer b }
    requires z { z < b.size.z }
    requires y { y < b.size.y }
    requires room { (cells : Cell → Bool)
        × HoldsLayer leaves.now b ((b.at.z + z) / 4) (leaves_in b) cells
        × HasRoom into.old (length (box_row cells b z y b.size.x)) }
    ensures appended { (cells : Cell → Bool)
        → HoldsLayer leaves.now b ((b.at.z + z) / 4) (leaves_in b) cells
        → AppendsVoxels (box_row cells b z y b.size.x) into.old into.new }
{
    let row = row_start(b, y);
    let at_y = (b.at.y + y) % 4;
    let at_z = (b.at.z + z) % 4;
    let mut p = 0;
    while p < b.size.x {
        let x = b.at.x + p;
        let bits = leaves[row + usize::from(x / 4 - b.at.x / 4)];
        let n = run_length(x, b.size.x - p);
        let at = Cell {
            x: x % 4,
            y: at_y,
            z: at_z,
        };
        run_in(bits, at, n, Cell { x: p, y, z }, into);
        p += n;
    }
}

/// Where the leaves of a row begin in its layer.
pub fn row_start(b: Boxed, y: u16) -> usize
    requires b { IsSmallLayer b }
    requires y { y < b.size.y }
    ensures start { result ≡ ((b.at.y + y) / 4 - b.at.y / 4) * leaves_along b }
    ensures inside { result + leaves_along b ≤ leaves_in b }
    ensures few { leaves_in b ≤ 4225 }
{
    let along = (b.at.x + b.size.x + 3) / 4 - b.at.x / 4;
    let down = (b.at.y + y) / 4 - b.at.y / 4;
    usize::from(down) * usize::from(along)
}

/// How many of the next cells lie in one leaf.
pub fn run_length(place: u16, left: u16) -> u16
    requires left { 1 ≤ left }
    ensures some { 1 ≤ result }
    ensures within { result ≤ left }
    ensures leaf { place % 4 + result ≤ 4 }
{
    (4 - place % 4).min(left)
}

// Appends the set cells of a row of a leaf.
fn run_in(bits: u64, at: Cell, n: u16, to: Cell, into: &mut Vec<Voxel>)
    requires row { IsRow 4 at n }
    requires to { (to.x + n ≤ 256) × (to.y < 256) × (to.z < 256) }
    requires room { HasRoom into.old (length (row_voxels (bits_show bits) at n to)) }
    ensures { AppendsVoxels (row_voxels (bits_show bits) at n to) into.old into.new }
{
    if bits == 0 {
        return;
    }
    for p in 0..n {
        let c = Cell { x: at.x + p, ..at };
        let set = leaf_has(bits, c);
        push_if(set, Cell { x: to.x + p, ..to }, into);
    }
}

/// Appends a voxel where the cell is set.
pub fn push_if(set: bool, c: Cell, into: &mut Vec<Voxel>)
    requires c { (c.x < 256) × (c.y < 256) × (c.z < 256) }
    requires room { HasRoom into.old (length (voxel_if set c.x c.y c.z)) }
    ensures { AppendsVoxels (voxel_if set c.x c.y c.z) into.old into.new }
{
    if !set {
        return;
    }
    into.push_reserved(Voxel {
        x: c.x as u8,
        y: c.y as u8,
        z: c.z as u8,
        colour: 1,
    });
}

ghost use Rattle.std.specs.Prelude.{◌%◌};
