ghost use Rattle.std.specs.Prelude.{◌≡◌, ℕ, ◌+◌, ◌-◌, ◌*◌, ◌/◌, ◌<◌, ◌≤◌, ◌^◌, ◌++◌, take, length, Bool, OnOk, OnErr, option_copied, slice_index};
ghost use Rattle.vw_cell.specs.declared.cells.Cell.{Cell};
ghost use Rattle.vw_cell.specs.Places.{FitsAt, block_side};
ghost use Rattle.node_words.specs.descent.Parts.{EndsBy};
ghost use Rattle.node_words.specs.descent.Roots.{HasBlock, HoldsRoot, ForBlock, ForWorld, cells_of};
ghost use Rattle.extract.specs.Listing.{voxels_joined};
ghost use Rattle.extract.specs.Layers.{IsRow, IsSmallLayer, HasRoom, AppendsVoxels, leaves_along, leaves_in};
ghost use Rattle.extract.specs.Sides.{AreFound};
ghost use Rattle.extract.specs.Surface.{bare_sides_of, layer_of_sides, row_of_sides, surface_of_box, voxel_of_sides};
ghost use Rattle.extract.specs.BareLayers.{HoldsSlab, IsAny, IsRowUnset, leaf_at, part_of_row, run_of_sides, run_told};

use crate::alike::Found;
use crate::bare_layers::{BareLeaf, Slab, gather_slab, leaf_of};
use crate::bare_rows::{row_sides, sides_in};
use crate::rows::{row_start, run_length};
use node_words::{Blocks, Name, Share, name_of};
use vox_read::Voxel;
use vw_cell::{Boxed, Cell, Memory, Side};

/// Appends the set cells of a box of the root's world at whose side an unset cell or the world's
/// outside is, told from the box's corner, by rising z, then y, then x. Each has its bare sides in
/// the place of its colour: bits 0 to 5 are those of -x, +x, -y, +y, -z and +z. `into` is as it was
/// where there is no memory for that.
pub fn surface_in<B: Blocks>(
    store: &mut B,
    root: Option<&Share>,
    side: Side,
    b: Boxed,
    into: &mut Vec<Voxel>,
) -> Result<(), Memory>
    requires root { HoldsRoot (B.seen store.old).held side (option_copied root) }
    requires inside { FitsAt b.at b.size (2 ^ side) }
    requires small { (b.size.x ≤ 256) × (b.size.y ≤ 256) × (b.size.z ≤ 256) }
    ensures voxels { OnOk result
        (ForWorld (B.seen store.old).held side (option_copied root.entry)
        (λ cells. into.new.items ≡ into.old.items ++ surface_of_box (2 ^ side) cells b)) }
    ensures memory { OnErr result (into.new.items ≡ into.old.items) }
    ensures seen { B.seen store.new ≡ B.seen store.old }
    ensures rests { B.rests store.old store.new }
{
    let before = into.len();
    if slabs_in(store, side.root_level(), name_of(root), b, into) {
        return Ok(());
    }
    into.truncate(before);
    Err(Memory)
}

// The same of a block. Where it answers no, the room wasn't there, and more may have been appended.
fn slabs_in<B: Blocks>(
    store: &mut B,
    level: u8,
    block: Option<Name>,
    b: Boxed,
    into: &mut Vec<Voxel>,
) -> bool
    requires level { level ≤ 10 }
    requires block { HasBlock (B.seen store.old).held level block }
    requires b { IsSmallLayer b }
    requires ends { EndsBy (block_side level) b }
    ensures voxels { IsTrue result → ForBlock (B.seen store.old).held level block
        (λ s. into.new.items ≡ into.old.items
        ++ surface_of_box (block_side level) (cells_of level s) b) }
    ensures begins { take (length into.old.items) into.new.items ≡ into.old.items }
    ensures seen { B.seen store.new ≡ B.seen store.old }
    ensures rests { B.rests store.old store.new }
{
    let mut found = Found::new();
    let mut slab = Slab::new();
    let mut z = 0;
    while z < b.size.z {
        let n = run_length(b.at.z + z, b.size.z - z);
        if !slab_in(store, &mut found, level, block, b, z, n, &mut slab, into) {
            return false;
        }
        z += n;
    }
    true
}

// The same of some layers of the box, which lie in one layer of leaves. Where there is no room
// nothing is appended.
fn slab_in<B: Blocks>(
    store: &mut B,
    found: &mut Found,
    level: u8,
    block: Option<Name>,
    b: Boxed,
    z: u16,
    n: u16,
    slab: &mut Slab,
    into: &mut Vec<Voxel>,
) -> bool
    requires level { level ≤ 10 }
    requires block { HasBlock (B.seen store.old).held level block }
    requires b { IsSmallLayer b }
    requires ends { EndsBy (block_side level) b }
    requires some { 1 ≤ n }
    requires z { z + n ≤ b.size.z }
    requires layer { (k : ℕ) → k < n → (b.at.z + (z + k)) / 4 ≡ (b.at.z + z) / 4 }
    requires found { AreFound (B.seen store.old).held found.old }
    ensures voxels { IsTrue result → ForBlock (B.seen store.old).held level block
        (λ s. into.new.items ≡ into.old.items ++ voxels_joined n
        (λ k. layer_of_sides (bare_sides_of (block_side level) (cells_of level s)) b (z + k))) }
    ensures none { IsFalse result → into.new.items ≡ into.old.items }
    ensures block { HasBlock (B.seen store.new).held level block }
    ensures found { AreFound (B.seen store.old).held found.new }
    ensures seen { B.seen store.new ≡ B.seen store.old }
    ensures rests { B.rests store.old store.new }
{
    let most = most_cells(n, b.size);
    if into.reserve(most).is_err() {
        return false;
    }
    gather_slab(store, found, level, block, b, z, slab);
    layers_in_room(slab, b, z, n, into);
    true
}

ghost use Rattle.std.specs.Prelude.{IsTrue, IsFalse};

// How many cells so many layers of this size have.
#[tactic(auto, using(crate::proofs::SurfaceLaws::few_cells))]
fn most_cells(n: u16, size: Cell) -> usize
    requires n { n ≤ 256 }
    requires x { size.x ≤ 256 }
    requires y { size.y ≤ 256 }
    ensures { result ≡ n * (size.y * size.x) }
{
    let layer = usize::from(size.y) * usize::from(size.x);
    usize::from(n) * layer
}

// Appends some layers of a box, which lie in one layer of leaves.
fn layers_in_room(slab: &Slab, b: Boxed, z: u16, n: u16, into: &mut Vec<Voxel>)
    requires b { IsSmallLayer b }
    requires z { z + n ≤ b.size.z }
    requires layer { (k : ℕ) → k < n → (b.at.z + (z + k)) / 4 ≡ (b.at.z + z) / 4 }
    requires room { (side : ℕ) × (cells : Cell → Bool)
        × HoldsSlab slab.now b ((b.at.z + z) / 4) side cells
        × HasRoom into.old
        (length (voxels_joined n (λ k. layer_of_sides (bare_sides_of side cells) b (z + k)))) }
    ensures appended { (side : ℕ) (cells : Cell → Bool)
        → HoldsSlab slab.now b ((b.at.z + z) / 4) side cells
        → AppendsVoxels
        (voxels_joined n (λ k. layer_of_sides (bare_sides_of side cells) b (z + k)))
        into.old into.new }
{
    for k in 0..n {
        layer_in_room(slab, b, z + k, into);
    }
}

// Appends one layer of a box.
fn layer_in_room(slab: &Slab, b: Boxed, z: u16, into: &mut Vec<Voxel>)
    requires b { IsSmallLayer b }
    requires z { z < b.size.z }
    requires room { (side : ℕ) × (cells : Cell → Bool)
        × HoldsSlab slab.now b ((b.at.z + z) / 4) side cells
        × HasRoom into.old (length (layer_of_sides (bare_sides_of side cells) b z)) }
    ensures appended { (side : ℕ) (cells : Cell → Bool)
        → HoldsSlab slab.now b ((b.at.z + z) / 4) side cells
        → AppendsVoxels (layer_of_sides (bare_sides_of side cells) b z) into.old into.new }
{
    for y in 0..b.size.y {
        row_in_room(slab, b, z, y, into);
    }
}

// Appends one row of a box, leaf by leaf.
fn row_in_room(slab: &Slab, b: Boxed, z: u16, y: u16, into: &mut Vec<Voxel>)
    requires b { IsSmallLayer b }
    requires z { z < b.size.z }
    requires y { y < b.size.y }
    requires room { (side : ℕ) × (cells : Cell → Bool)
        × HoldsSlab slab.now b ((b.at.z + z) / 4) side cells
        × HasRoom into.old (length (row_of_sides (bare_sides_of side cells) b z y b.size.x)) }
    ensures appended { (side : ℕ) (cells : Cell → Bool)
        → HoldsSlab slab.now b ((b.at.z + z) / 4) side cells
        → AppendsVoxels (row_of_sides (bare_sides_of side cells) b z y b.size.x)
        into.old into.new }
{
    let row = row_start(b, y);
    let mut p = 0;
    while p < b.size.x {
        p += step_in_room(slab, b, z, y, row, p, into);
    }
}

// Appends those of the next cells of a row that lie in one leaf, or passes over leaves without a
// bare side. It answers how many cells these are.
fn step_in_room(
    slab: &Slab,
    b: Boxed,
    z: u16,
    y: u16,
    row: usize,
    p: u16,
    into: &mut Vec<Voxel>,
) -> u16
    requires b { IsSmallLayer b }
    requires z { z < b.size.z }
    requires y { y < b.size.y }
    requires p { p < b.size.x }
    requires row { row ≡ ((b.at.y + y) / 4 - b.at.y / 4) * leaves_along b }
    requires inside { row + leaves_along b ≤ leaves_in b }
    requires few { leaves_in b ≤ 4225 }
    requires room { (side : ℕ) × (cells : Cell → Bool)
        × HoldsSlab slab.now b ((b.at.z + z) / 4) side cells
        × HasRoom into.old
        (length (part_of_row (bare_sides_of side cells) b z y p (b.size.x - p))) }
    ensures some { 1 ≤ result }
    ensures within { p + result ≤ b.size.x }
    ensures appended { (side : ℕ) (cells : Cell → Bool)
        → HoldsSlab slab.now b ((b.at.z + z) / 4) side cells
        → AppendsVoxels (part_of_row (bare_sides_of side cells) b z y p result)
        into.old into.new }
{
    let x = b.at.x + p;
    let m = row + usize::from(x / 4 - b.at.x / 4);
    let left = b.size.x - p;
    let blank = slab.blanks[m];
    if blank > 0 {
        return blank_cells(blank, x % 4, left);
    }
    let n = run_length(x, left);
    let at = Cell {
        x: x % 4,
        y: (b.at.y + y) % 4,
        z: (b.at.z + z) % 4,
    };
    run_in_room(slab, m, at, n, Cell { x: p, y, z }, into);
    n
}

// How many of the next cells lie in so many leaves, of the first of which the cells from one on are
// left.
fn blank_cells(blank: u8, from: u16, left: u16) -> u16
    requires blank { 1 ≤ blank }
    requires from { from < 4 }
    requires left { 1 ≤ left }
    ensures some { 1 ≤ result }
    ensures within { result ≤ left }
    ensures leaves { from + result ≤ 4 * blank }
{
    (4 * u16::from(blank) - from).min(left)
}

// Appends the cells of a row of the m-th leaf that have bare sides. Where none has, the leaf isn't
// read.
fn run_in_room(slab: &Slab, m: usize, at: Cell, n: u16, to: Cell, into: &mut Vec<Voxel>)
    requires m { m < 4225 }
    requires any { IsAny (leaf_at slab.now.words m) (slice_index slab.now.anys m) }
    requires row { IsRow 4 at n }
    requires to { (to.x + n ≤ 256) × (to.y < 256) × (to.z < 256) }
    requires room { HasRoom into.old (length (run_of_sides (leaf_at slab.now.words m) at n to)) }
    ensures { AppendsVoxels (run_of_sides (leaf_at slab.now.words m) at n to) into.old into.new }
{
    let any = slab.anys[m];
    if is_row_blank(any, at) {
        return;
    }
    cells_in_room(leaf_of(&slab.words, m), at, n, to, into);
}

// Whether no cell of the row of a leaf that has this cell is among these.
#[inline(always)]
#[tactic(auto, using(crate::proofs::SurfaceLaws::row_unset))]
fn is_row_blank(any: u64, at: Cell) -> bool
    requires { (at.y < 4) × (at.z < 4) }
    ensures { IsTrue result → IsRowUnset any at.y at.z }
{
    let row = 4 * at.y + 16 * at.z;
    any >> row & 15 == 0
}

// Appends those cells of a row of a leaf that have bare sides.
fn cells_in_room(leaf: BareLeaf, at: Cell, n: u16, to: Cell, into: &mut Vec<Voxel>)
    requires row { IsRow 4 at n }
    requires to { (to.x + n ≤ 256) × (to.y < 256) × (to.z < 256) }
    requires room { HasRoom into.old (length (run_of_sides leaf at n to)) }
    ensures { AppendsVoxels (run_of_sides leaf at n to) into.old into.new }
{
    let row = row_sides(leaf, at.y, at.z);
    if n == 4 {
        sides_in_room(row, 0, 4, to, into);
        return;
    }
    sides_in_room(row, at.x, n, to, into);
}

// The same by the sides of the row's four cells, from the x-th on. Where both numbers are constants
// the compiler takes the loop apart.
#[inline(always)]
fn sides_in_room(row: u64, x: u16, n: u16, to: Cell, into: &mut Vec<Voxel>)
    requires x { x + n ≤ 4 }
    requires to { (to.x + n ≤ 256) × (to.y < 256) × (to.z < 256) }
    requires room { HasRoom into.old (length (run_told row x n to)) }
    ensures { AppendsVoxels (run_told row x n to) into.old into.new }
{
    for p in 0..n {
        let sides = sides_in(row, x + p);
        push_sides(sides, Cell { x: to.x + p, ..to }, into);
    }
}

// Appends a voxel where a side is bare.
#[inline(always)]
fn push_sides(sides: u8, c: Cell, into: &mut Vec<Voxel>)
    requires c { (c.x < 256) × (c.y < 256) × (c.z < 256) }
    requires room { HasRoom into.old (length (voxel_of_sides sides c.x c.y c.z)) }
    ensures { AppendsVoxels (voxel_of_sides sides c.x c.y c.z) into.old into.new }
{
    if sides == 0 {
        return;
    }
    into.push_reserved(Voxel {
        x: c.x as u8,
        y: c.y as u8,
        z: c.z as u8,
        colour: sides,
    });
}
