ghost use Rattle.std.specs.Prelude.{◌≡◌, ℕ, ◌+◌, ◌*◌, ◌<◌, ◌≤◌, ◌/◌, ◌↔◌, IsTrue, Bool, slice_index};
ghost use Rattle.vw_cell.specs.declared.cells.Cell.{Cell};
ghost use Rattle.vw_cell.specs.Places.{block_side, IsInBlock, LiesIn, octant_of};
ghost use Rattle.node_words.specs.descent.Roots.{HasBlock, ForBlock, cells_of};
ghost use Rattle.node_words.specs.descent.Parts.{EndsBy};
ghost use Rattle.node_words.specs.descent.Answers.{AreRight};
ghost use Rattle.measure.specs.Tallies.{IsWholeTally};
ghost use Rattle.measure.specs.Widening.{ForCounted};
ghost use Rattle.extract.specs.Layers.{HoldsLayer, IsLeafCorner, IsSmallLayer, leaf_corner, leaves_in};
ghost use Rattle.extract.specs.Filling.{Fills, MeetsLayer};

use measure::{SetCells, Subject, WholeBlock, passes_none};
use node_words::{Answers, Blocks, Name};
use vw_cell::{Block, Boxed, Cell};

/// The leaves of the layer of a box that has its z-th layer of cells, row by row.
pub fn gather<B: Blocks>(
    store: &mut B,
    level: u8,
    block: Option<Name>,
    b: Boxed,
    z: u16,
) -> [u64; 4225]
    requires level { level ≤ 10 }
    requires block { HasBlock (B.seen store.old).held level block }
    requires b { IsSmallLayer b }
    requires ends { EndsBy (block_side level) b }
    requires z { z < b.size.z }
    ensures layer { ForBlock (B.seen store.old).held level block
        (λ s. HoldsLayer result b ((b.at.z + z) / 4) (leaves_in b) (cells_of level s)) }
    ensures seen { B.seen store.new ≡ B.seen store.old }
    ensures rests { B.rests store.old store.new }
{
    let mut leaves = [0; 4225];
    let mut wholes = Answers::new();
    let at = Cell { x: 0, y: 0, z: 0 };
    let place = Block { level, at };
    let subject = SetCells { block };
    fill(
        store,
        &mut wholes,
        subject,
        place,
        b,
        (b.at.z + z) / 4,
        &mut leaves,
    );
    leaves
}

/// Makes the words of a layer of the box 0.
pub(crate) fn clear(leaves: &mut [u64; 4225], b: Boxed)
    requires b { IsSmallLayer b }
    ensures zeros { (m : ℕ) → m < leaves_in b → slice_index leaves.new m ≡ 0 }
{
    for m in 0..leaves_of(b) {
        leaves[m] = 0;
    }
}

/// How many leaves a layer of the box has.
pub(crate) fn leaves_of(b: Boxed) -> usize
    requires b { IsSmallLayer b }
    ensures number { result ≡ leaves_in b }
    ensures few { result ≤ 4225 }
{
    let along = (b.at.x + b.size.x + 3) / 4 - b.at.x / 4;
    let down = (b.at.y + b.size.y + 3) / 4 - b.at.y / 4;
    leaves_number(down, along)
}

// As many rows of as many leaves, of no more than the greatest layer has.
#[tactic(auto, using(crate::proofs::FillLaws::few_leaves))]
fn leaves_number(down: u16, along: u16) -> usize
    requires down { down ≤ 65 }
    requires along { along ≤ 65 }
    ensures number { result ≡ down * along }
    ensures few { result ≤ 4225 }
{
    usize::from(down) * usize::from(along)
}

// Reads the leaves of a layer of the box that lie in a block, of the cells that count. The words of
// others stay; those of leaves in which none counts must be 0 already.
#[cycle(fill)]
fn fill<S: Subject, B: Blocks>(
    store: &mut B,
    wholes: &mut Answers<WholeBlock<S>>,
    subject: S,
    place: Block,
    b: Boxed,
    layer: u16,
    leaves: &mut [u64; 4225],
)
    requires level { place.level ≤ 10 }
    requires block { (test : Cell → Bool)
        × S.counts (B.seen store.old).held place.level subject test }
    requires inside { LiesIn 4096 place }
    requires corner { IsLeafCorner place.at }
    requires b { IsSmallLayer b }
    requires layer { layer < 1024 }
    requires meets { MeetsLayer place b layer }
    requires wholes { AreRight (IsWholeTally S.counts) (B.seen store.old).held wholes.old.places }
    ensures fills { ForCounted S.counts (B.seen store.old).held subject place (λ cells. Fills
        (λ m. IsInBlock place (leaf_corner b layer m)) b layer cells leaves.old leaves.new) }
    ensures wholes { AreRight (IsWholeTally S.counts) (B.seen store.old).held wholes.new.places }
    ensures seen { B.seen store.new ≡ B.seen store.old }
    ensures rests { B.rests store.old store.new }
{
    if subject.is_nothing() {
        return;
    }
    if place.level == 0 {
        let bits = subject.leaf(store);
        let m = number_at(place, b, layer);
        leaves[m] = bits;
        return;
    }
    if passes_none(store, wholes, subject, place.level) {
        return;
    }
    fill_octants(store, wholes, subject, place, b, layer, leaves);
}

// The same, octant by octant.
#[cycle(fill)]
fn fill_octants<S: Subject, B: Blocks>(
    store: &mut B,
    wholes: &mut Answers<WholeBlock<S>>,
    subject: S,
    place: Block,
    b: Boxed,
    layer: u16,
    leaves: &mut [u64; 4225],
)
    requires level { (1 ≤ place.level) × (place.level ≤ 10) }
    requires block { (test : Cell → Bool)
        × S.counts (B.seen store.old).held place.level subject test }
    requires inside { LiesIn 4096 place }
    requires corner { IsLeafCorner place.at }
    requires b { IsSmallLayer b }
    requires layer { layer < 1024 }
    requires wholes { AreRight (IsWholeTally S.counts) (B.seen store.old).held wholes.old.places }
    ensures fills { ForCounted S.counts (B.seen store.old).held subject place (λ cells. Fills
        (λ m. IsInBlock place (leaf_corner b layer m)) b layer cells leaves.old leaves.new) }
    ensures wholes { AreRight (IsWholeTally S.counts) (B.seen store.old).held wholes.new.places }
    ensures seen { B.seen store.new ≡ B.seen store.old }
    ensures rests { B.rests store.old store.new }
{
    for octant in 0..8u8 {
        fill_octant(store, wholes, subject, place, octant, b, layer, leaves);
    }
}

// The same of an octant, unless it has no leaf of the layer.
#[cycle(fill)]
fn fill_octant<S: Subject, B: Blocks>(
    store: &mut B,
    wholes: &mut Answers<WholeBlock<S>>,
    subject: S,
    place: Block,
    octant: u8,
    b: Boxed,
    layer: u16,
    leaves: &mut [u64; 4225],
)
    requires level { (1 ≤ place.level) × (place.level ≤ 10) }
    requires block { (test : Cell → Bool)
        × S.counts (B.seen store.old).held place.level subject test }
    requires inside { LiesIn 4096 place }
    requires corner { IsLeafCorner place.at }
    requires octant { octant < 8 }
    requires b { IsSmallLayer b }
    requires layer { layer < 1024 }
    requires wholes { AreRight (IsWholeTally S.counts) (B.seen store.old).held wholes.old.places }
    ensures fills { ForCounted S.counts (B.seen store.old).held subject place (λ cells. Fills
        (λ m. IsInBlock (octant_of place octant) (leaf_corner b layer m)) b layer cells
        leaves.old leaves.new) }
    ensures block { (test : Cell → Bool)
        × S.counts (B.seen store.new).held place.level subject test }
    ensures wholes { AreRight (IsWholeTally S.counts) (B.seen store.old).held wholes.new.places }
    ensures seen { B.seen store.new ≡ B.seen store.old }
    ensures rests { B.rests store.old store.new }
{
    let inner = place.child(octant);
    if !meets(inner, b, layer) {
        return;
    }
    let child = subject.octant(store, place.level, octant);
    fill(store, wholes, child, inner, b, layer, leaves);
}

/// Whether a block has a leaf of a layer of the box.
#[tactic(auto, using(node_words::proofs::OfDescent::LookLaws::whole_side))]
pub(crate) fn meets(place: Block, b: Boxed, layer: u16) -> bool
    requires level { place.level ≤ 10 }
    requires inside { LiesIn 4096 place }
    requires b { IsSmallLayer b }
    requires layer { layer < 1024 }
    ensures { IsTrue result ↔ MeetsLayer place b layer }
{
    let side = 4u16 << place.level;
    place.at.x < b.at.x + b.size.x
        && b.at.x < place.at.x + side
        && place.at.y < b.at.y + b.size.y
        && b.at.y < place.at.y + side
        && place.at.z <= 4 * layer
        && 4 * layer < place.at.z + side
}

/// The number of a leaf in its layer, row by row.
pub(crate) fn number_at(place: Block, b: Boxed, layer: u16) -> usize
    requires level { place.level ≡ 0 }
    requires corner { IsLeafCorner place.at }
    requires b { IsSmallLayer b }
    requires meets { MeetsLayer place b layer }
    ensures below { result < leaves_in b }
    ensures few { result < 4225 }
    ensures corner { leaf_corner b layer result ≡ place.at }
{
    let along = (b.at.x + b.size.x + 3) / 4 - b.at.x / 4;
    let down = place.at.y / 4 - b.at.y / 4;
    let right = place.at.x / 4 - b.at.x / 4;
    usize::from(down) * usize::from(along) + usize::from(right)
}
