ghost use Rattle.std.specs.Prelude.{◌≡◌, ℕ, ◌+◌, ◌*◌, ◌/◌, ◌<◌, ◌≤◌, length, slice_index, slice_set};
ghost use Rattle.vw_cell.specs.Places.{block_side};
ghost use Rattle.vw_cell.specs.declared.directions.Direction.{Direction};
ghost use Rattle.node_words.specs.descent.Parts.{EndsBy};
ghost use Rattle.node_words.specs.descent.Roots.{HasBlock, ForBlock, cells_of};
ghost use Rattle.extract.specs.Layers.{IsSmallLayer, leaves_in};
ghost use Rattle.extract.specs.Sides.{AreFound, leaf_towards, words_towards};
ghost use Rattle.extract.specs.BareLayers.{HoldsBare, HoldsSlab, CountsBlank, HaveAny, IsAny, IsBlank, leaf_at};

use crate::alike::Found;
use crate::leaves::{clear, leaves_of};
use crate::side_walks::fill_sides;
use crate::surrounded::Surrounded;
use node_words::{Blocks, Name};
use vw_cell::{Block, Boxed, Cell};

/// The leaves of a layer of a box, row by row, by the cells that are bare towards each direction.
#[derive(Drop)]
pub(crate) struct BareLayer {
    low_x: [u64; 4225],
    high_x: [u64; 4225],
    low_y: [u64; 4225],
    high_y: [u64; 4225],
    low_z: [u64; 4225],
    high_z: [u64; 4225],
}

/// One of these leaves.
#[derive(Clone, Copy)]
pub(crate) struct BareLeaf {
    pub(crate) low_x: u64,
    pub(crate) high_x: u64,
    pub(crate) low_y: u64,
    pub(crate) high_y: u64,
    pub(crate) low_z: u64,
    pub(crate) high_z: u64,
}

/// The leaves of a layer, which cells of each have a bare side, and how many leaves from each on
/// have none.
#[derive(Drop)]
pub(crate) struct Slab {
    pub(crate) words: BareLayer,
    pub(crate) anys: [u64; 4225],
    pub(crate) blanks: [u8; 4225],
}

impl Slab {
    /// Words that tell nothing yet.
    pub(crate) fn new() -> Slab {
        Slab {
            words: BareLayer {
                low_x: [0; 4225],
                high_x: [0; 4225],
                low_y: [0; 4225],
                high_y: [0; 4225],
                low_z: [0; 4225],
                high_z: [0; 4225],
            },
            anys: [0; 4225],
            blanks: [0; 4225],
        }
    }
}

/// Reads the layer of a box that has its z-th layer of cells.
pub(crate) fn gather_slab<B: Blocks>(
    store: &mut B,
    found: &mut Found,
    level: u8,
    block: Option<Name>,
    b: Boxed,
    z: u16,
    slab: &mut Slab,
)
    requires level { level ≤ 10 }
    requires block { HasBlock (B.seen store.old).held level block }
    requires b { IsSmallLayer b }
    requires ends { EndsBy (block_side level) b }
    requires z { z < b.size.z }
    requires found { AreFound (B.seen store.old).held found.old }
    ensures layer { ForBlock (B.seen store.old).held level block
        (λ s. HoldsSlab slab.new b ((b.at.z + z) / 4) (block_side level) (cells_of level s)) }
    ensures block { HasBlock (B.seen store.new).held level block }
    ensures found { AreFound (B.seen store.old).held found.new }
    ensures seen { B.seen store.new ≡ B.seen store.old }
    ensures rests { B.rests store.old store.new }
{
    gather_sides(store, found, level, block, b, z, &mut slab.words);
    count_blanks(&slab.words, leaves_of(b), &mut slab.anys, &mut slab.blanks);
}

// Notes for each of the first leaves which of its cells have a bare side, and how many leaves from
// it on have none.
fn count_blanks(words: &BareLayer, n: usize, anys: &mut [u64; 4225], blanks: &mut [u8; 4225])
    requires { n ≤ 4225 }
    ensures any { HaveAny words.now anys.new n }
    ensures blank { CountsBlank words.now blanks.new n }
{
    let mut run = 0;
    let mut m = n;
    while m > 0 {
        m -= 1;
        let any = any_of(leaf_of(words, m));
        run = blank_run(any, run);
        anys[m] = any;
        blanks[m] = run;
    }
}

// How many leaves from one on are blank, where these of its cells have a bare side and so many
// leaves behind it are blank.
fn blank_run(any: u64, behind: u8) -> u8
    ensures within { result ≤ behind + 1 }
    ensures blank { 1 ≤ result → any ≡ 0 }
{
    if any == 0 {
        behind.saturating_add(1)
    } else {
        0
    }
}

// Reads the words of the layer of a box that has its z-th layer of cells.
fn gather_sides<B: Blocks>(
    store: &mut B,
    found: &mut Found,
    level: u8,
    block: Option<Name>,
    b: Boxed,
    z: u16,
    words: &mut BareLayer,
)
    requires level { level ≤ 10 }
    requires block { HasBlock (B.seen store.old).held level block }
    requires b { IsSmallLayer b }
    requires ends { EndsBy (block_side level) b }
    requires z { z < b.size.z }
    requires found { AreFound (B.seen store.old).held found.old }
    ensures layer { ForBlock (B.seen store.old).held level block
        (λ s. HoldsBare words.new b ((b.at.z + z) / 4) (block_side level) (cells_of level s)) }
    ensures block { HasBlock (B.seen store.new).held level block }
    ensures found { AreFound (B.seen store.old).held found.new }
    ensures seen { B.seen store.new ≡ B.seen store.old }
    ensures rests { B.rests store.old store.new }
{
    clear_words(words, b);
    let at = Cell { x: 0, y: 0, z: 0 };
    let place = Block { level, at };
    let subject = Surrounded::world(block);
    fill_sides(store, found, &subject, place, b, (b.at.z + z) / 4, words);
}

// Makes the words of a layer of the box 0.
fn clear_words(words: &mut BareLayer, b: Boxed)
    requires b { IsSmallLayer b }
    ensures zeros { (d : Direction) (m : ℕ) → m < leaves_in b
        → slice_index (words_towards words.new d) m ≡ 0 }
{
    clear(&mut words.low_x, b);
    clear(&mut words.high_x, b);
    clear(&mut words.low_y, b);
    clear(&mut words.high_y, b);
    clear(&mut words.low_z, b);
    clear(&mut words.high_z, b);
}

impl BareLayer {
    /// Puts the words of a leaf in their places.
    #[inline(always)]
    pub(crate) fn put(&mut self, m: usize, leaf: BareLeaf)
        requires { m < 4225 }
        ensures put { (d : Direction) → words_towards self.new d
            ≡ slice_set (words_towards self.old d) m (leaf_towards leaf d) }
        ensures places { (d : Direction) → m < length (words_towards self.old d) }
    {
        self.low_x[m] = leaf.low_x;
        self.high_x[m] = leaf.high_x;
        self.low_y[m] = leaf.low_y;
        self.high_y[m] = leaf.high_y;
        self.low_z[m] = leaf.low_z;
        self.high_z[m] = leaf.high_z;
    }
}

/// The words of one leaf.
#[inline(always)]
pub(crate) fn leaf_of(words: &BareLayer, m: usize) -> BareLeaf
    requires { m < 4225 }
    ensures { result ≡ leaf_at words.now m }
{
    BareLeaf {
        low_x: words.low_x[m],
        high_x: words.high_x[m],
        low_y: words.low_y[m],
        high_y: words.high_y[m],
        low_z: words.low_z[m],
        high_z: words.high_z[m],
    }
}

/// The cells of the leaf that have a bare side.
#[inline(always)]
#[tactic(auto, using(crate::proofs::SurfaceLaws::any_is))]
pub(crate) fn any_of(leaf: BareLeaf) -> u64
    ensures any { IsAny leaf result }
    ensures blank { result ≡ 0 → IsBlank leaf }
{
    let x = leaf.low_x | leaf.high_x;
    let y = leaf.low_y | leaf.high_y;
    let z = leaf.low_z | leaf.high_z;
    x | y | z
}
