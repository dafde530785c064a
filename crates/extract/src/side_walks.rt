ghost use Rattle.std.specs.Prelude.{◌≡◌, ◌<◌, ◌≤◌, ℕ, List};
ghost use Rattle.vw_cell.specs.declared.directions.Direction.{Direction};
ghost use Rattle.vw_cell.specs.Places.{IsInBlock, LiesIn, octant_of};
ghost use Rattle.node_words.specs.shapes.Tree.{Tree};
ghost use Rattle.measure.specs.Faces.{passes_exposed};
ghost use Rattle.measure.specs.Widening.{ForCounted};
ghost use Rattle.extract.specs.Layers.{IsLeafCorner, IsSmallLayer, leaf_corner};
ghost use Rattle.extract.specs.Filling.{Fills, MeetsLayer};
ghost use Rattle.extract.specs.declared.surrounded.Surrounded.{Surrounded};
ghost use Rattle.extract.specs.Sides.{AreFound, AreNear, AreNearLeaves, HasSides, sided, words_towards};

use crate::alike::Found;
use crate::bare_layers::BareLayer;
use crate::leaves::{meets, number_at};
use crate::near_leaves::NearLeaves;
use crate::nearby::Nearby;
use crate::surrounded::Surrounded;
use node_words::Blocks;
use vw_cell::{Block, Boxed};

/// Reads the leaves of a layer of the box that lie in a block, by the cells that are bare towards
/// each direction. The words of others stay; those of leaves with no bare cell must be 0 already.
#[cycle(fill_sides)]
pub(crate) fn fill_sides<B: Blocks>(
    store: &mut B,
    found: &mut Found,
    subject: &Surrounded,
    place: Block,
    b: Boxed,
    layer: u16,
    words: &mut BareLayer,
)
    requires level { place.level ≤ 10 }
    requires block { HasSides (B.seen store.old).held place.level subject.now }
    requires inside { LiesIn 4096 place }
    requires corner { IsLeafCorner place.at }
    requires b { IsSmallLayer b }
    requires layer { layer < 1024 }
    requires meets { MeetsLayer place b layer }
    requires found { AreFound (B.seen store.old).held found.old }
    ensures fills { (d : Direction) → ForCounted passes_exposed (B.seen store.old).held
        (sided subject.now d) place (λ cells. Fills
        (λ m. IsInBlock place (leaf_corner b layer m)) b layer cells
        (words_towards words.old d) (words_towards words.new d)) }
    ensures found { AreFound (B.seen store.old).held found.new }
    ensures seen { B.seen store.new ≡ B.seen store.old }
    ensures rests { B.rests store.old store.new }
{
    if subject.block.is_none() {
        return;
    }
    if place.level == 0 {
        let leaf = subject.leaf(store);
        let m = number_at(place, b, layer);
        words.put(m, leaf);
        return;
    }
    if subject.is_hidden(store, found, place.level) {
        return;
    }
    if place.level == 1 {
        fill_side_leaves(store, subject, place, b, layer, words);
        return;
    }
    fill_side_octants(store, found, subject, place, b, layer, words);
}

// The same of a block of eight leaves.
fn fill_side_leaves<B: Blocks>(
    store: &mut B,
    subject: &Surrounded,
    place: Block,
    b: Boxed,
    layer: u16,
    words: &mut BareLayer,
)
    requires level { place.level ≡ 1 }
    requires block { HasSides (B.seen store.old).held place.level subject.now }
    requires inside { LiesIn 4096 place }
    requires corner { IsLeafCorner place.at }
    requires b { IsSmallLayer b }
    requires layer { layer < 1024 }
    ensures fills { (d : Direction) → ForCounted passes_exposed (B.seen store.old).held
        (sided subject.now d) place (λ cells. Fills
        (λ m. IsInBlock place (leaf_corner b layer m)) b layer cells
        (words_towards words.old d) (words_towards words.new d)) }
    ensures seen { B.seen store.new ≡ B.seen store.old }
    ensures rests { B.rests store.old store.new }
{
    let near = NearLeaves::of(store, subject);
    put_side_leaf(&near, place, 0, b, layer, words);
    put_side_leaf(&near, place, 1, b, layer, words);
    put_side_leaf(&near, place, 2, b, layer, words);
    put_side_leaf(&near, place, 3, b, layer, words);
    put_side_leaf(&near, place, 4, b, layer, words);
    put_side_leaf(&near, place, 5, b, layer, words);
    put_side_leaf(&near, place, 6, b, layer, words);
    put_side_leaf(&near, place, 7, b, layer, words);
}

// Puts the words of the leaf in an octant, if it is one of the layer.
#[inline(always)]
fn put_side_leaf(
    near: &NearLeaves,
    place: Block,
    octant: u8,
    b: Boxed,
    layer: u16,
    words: &mut BareLayer,
)
    requires level { place.level ≡ 1 }
    requires inside { LiesIn 4096 place }
    requires corner { IsLeafCorner place.at }
    requires octant { octant < 8 }
    requires b { IsSmallLayer b }
    requires layer { layer < 1024 }
    ensures fills { (held : List Tree) (s : Surrounded) → AreNearLeaves held s near.now
        → (d : Direction) → ForCounted passes_exposed held (sided s d) place (λ cells. Fills
        (λ m. IsInBlock (octant_of place octant) (leaf_corner b layer m)) b layer cells
        (words_towards words.old d) (words_towards words.new d)) }
{
    let inner = place.child(octant);
    if !meets(inner, b, layer) {
        return;
    }
    let leaf = near.leaf(octant);
    let m = number_at(inner, b, layer);
    words.put(m, leaf);
}

// The same, octant by octant.
#[cycle(fill_sides)]
fn fill_side_octants<B: Blocks>(
    store: &mut B,
    found: &mut Found,
    subject: &Surrounded,
    place: Block,
    b: Boxed,
    layer: u16,
    words: &mut BareLayer,
)
    requires level { (1 ≤ place.level) × (place.level ≤ 10) }
    requires block { HasSides (B.seen store.old).held place.level subject.now }
    requires inside { LiesIn 4096 place }
    requires corner { IsLeafCorner place.at }
    requires b { IsSmallLayer b }
    requires layer { layer < 1024 }
    requires found { AreFound (B.seen store.old).held found.old }
    ensures fills { (d : Direction) → ForCounted passes_exposed (B.seen store.old).held
        (sided subject.now d) place (λ cells. Fills
        (λ m. IsInBlock place (leaf_corner b layer m)) b layer cells
        (words_towards words.old d) (words_towards words.new d)) }
    ensures found { AreFound (B.seen store.old).held found.new }
    ensures seen { B.seen store.new ≡ B.seen store.old }
    ensures rests { B.rests store.old store.new }
{
    let near = Nearby::of(store, place.level, subject);
    fill_side_octant(store, found, subject, &near, place, 0, b, layer, words);
    fill_side_octant(store, found, subject, &near, place, 1, b, layer, words);
    fill_side_octant(store, found, subject, &near, place, 2, b, layer, words);
    fill_side_octant(store, found, subject, &near, place, 3, b, layer, words);
    fill_side_octant(store, found, subject, &near, place, 4, b, layer, words);
    fill_side_octant(store, found, subject, &near, place, 5, b, layer, words);
    fill_side_octant(store, found, subject, &near, place, 6, b, layer, words);
    fill_side_octant(store, found, subject, &near, place, 7, b, layer, words);
}

// The same of an octant, unless it has no leaf of the layer, or nothing stands in it.
#[inline(always)]
#[cycle(fill_sides)]
fn fill_side_octant<B: Blocks>(
    store: &mut B,
    found: &mut Found,
    subject: &Surrounded,
    near: &Nearby,
    place: Block,
    octant: u8,
    b: Boxed,
    layer: u16,
    words: &mut BareLayer,
)
    requires level { (1 ≤ place.level) × (place.level ≤ 10) }
    requires block { HasSides (B.seen store.old).held place.level subject.now }
    requires near { AreNear (B.seen store.old).held place.level subject.now near.now }
    requires inside { LiesIn 4096 place }
    requires corner { IsLeafCorner place.at }
    requires octant { octant < 8 }
    requires b { IsSmallLayer b }
    requires layer { layer < 1024 }
    requires found { AreFound (B.seen store.old).held found.old }
    ensures fills { (d : Direction) → ForCounted passes_exposed (B.seen store.old).held
        (sided subject.now d) place (λ cells. Fills
        (λ m. IsInBlock (octant_of place octant) (leaf_corner b layer m)) b layer cells
        (words_towards words.old d) (words_towards words.new d)) }
    ensures block { HasSides (B.seen store.new).held place.level subject.now }
    ensures near { AreNear (B.seen store.new).held place.level subject.now near.now }
    ensures found { AreFound (B.seen store.new).held found.new }
    ensures seen { B.seen store.new ≡ B.seen store.old }
    ensures rests { B.rests store.old store.new }
{
    let inner = place.child(octant);
    if !meets(inner, b, layer) {
        return;
    }
    let child = near.octant(octant);
    if child.block.is_none() {
        return;
    }
    fill_sides(store, found, &child, inner, b, layer, words);
}
