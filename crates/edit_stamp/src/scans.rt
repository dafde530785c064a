ghost use Rattle.std.specs.Prelude.{◌≡◌, ◌+◌, ◌-◌, ◌*◌, ◌/◌, ◌^◌, ◌<◌, ◌≤◌, ℕ, IsTrue, slice_index, min};
ghost use Rattle.edit_stamp.specs.Drawings.{leaves_of, leaf_number, first_leaf, last_leaf, AllWords, IsPart, SameInside, IsSameLeaf, IsSameWord};

use node_words::box_bits;
use vw_cell::{Block, Boxed, Cell};

// The leaves of a model on each axis, from the first on and before the last.
#[derive(Clone, Copy)]
pub(crate) struct Leaves {
    pub(crate) from: Cell,
    pub(crate) to: Cell,
}

// The leaves of a model of this size at this place that a cube touches.
pub(crate) fn touched(size: Cell, place: Cell, at: Cell, side: u32) -> Leaves
    requires side { side ≤ 4096 }
    requires size { (size.x ≤ 256) × (size.y ≤ 256) × (size.z ≤ 256) }
    ensures x { (result.from.x ≡ first_leaf place.x at.x)
        × (result.to.x ≡ last_leaf place.x size.x at.x side) }
    ensures y { (result.from.y ≡ first_leaf place.y at.y)
        × (result.to.y ≡ last_leaf place.y size.y at.y side) }
    ensures z { (result.from.z ≡ first_leaf place.z at.z)
        × (result.to.z ≡ last_leaf place.z size.z at.z side) }
{
    Leaves {
        from: Cell {
            x: first(place.x, at.x),
            y: first(place.y, at.y),
            z: first(place.z, at.z),
        },
        to: Cell {
            x: last(place.x, size.x, at.x, side),
            y: last(place.y, size.y, at.y, side),
            z: last(place.z, size.z, at.z, side),
        },
    }
}

fn first(low: u16, at: u16) -> u16
    ensures { result ≡ first_leaf low at }
{
    at.saturating_sub(low) / 4
}

fn last(low: u16, size: u16, at: u16, side: u32) -> u16
    requires side { side ≤ 4096 }
    requires size { size ≤ 256 }
    ensures { result ≡ last_leaf low size at side }
{
    let end = ((u32::from(at) + side).saturating_sub(u32::from(low)) + 3) / 4;
    end.min(u32::from((size + 3) / 4)) as u16
}

// Whether the words of these leaves are all the same.
pub(crate) fn are_all(size: Cell, words: &[u64], leaves: Leaves, want: u64) -> bool
    requires { (size.x ≤ 256) × (size.y ≤ 256) × (size.z ≤ 256) }
    ensures { IsTrue result → AllWords size words.now leaves.from leaves.to want }
{
    for z in leaves.from.z..leaves.to.z {
        if !is_layer(size, words, leaves, z, want) {
            return false;
        }
    }
    true
}

fn is_layer(size: Cell, words: &[u64], leaves: Leaves, z: u16, want: u64) -> bool
    requires { (size.x ≤ 256) × (size.y ≤ 256) × (size.z ≤ 256) }
    ensures { IsTrue result → (x y : ℕ) → leaves.from.x ≤ x → x < leaves.to.x → leaves.from.y ≤ y
        → y < leaves.to.y → slice_index words.now (leaf_number size x y z) ≡ want }
{
    for y in leaves.from.y..leaves.to.y {
        if !is_row(size, words, leaves, y, z, want) {
            return false;
        }
    }
    true
}

fn is_row(size: Cell, words: &[u64], leaves: Leaves, y: u16, z: u16, want: u64) -> bool
    requires { (size.x ≤ 256) × (size.y ≤ 256) × (size.z ≤ 256) }
    ensures { IsTrue result → (x : ℕ) → leaves.from.x ≤ x → x < leaves.to.x
        → slice_index words.now (leaf_number size x y z) ≡ want }
{
    for x in leaves.from.x..leaves.to.x {
        if !is_word(size, words, x, y, z, want) {
            return false;
        }
    }
    true
}

fn is_word(size: Cell, words: &[u64], x: u16, y: u16, z: u16, want: u64) -> bool
    requires { (size.x ≤ 256) × (size.y ≤ 256) × (size.z ≤ 256) }
    ensures { IsTrue result → slice_index words.now (leaf_number size x y z) ≡ want }
{
    let wide = usize::from((size.x + 3) / 4);
    let deep = usize::from((size.y + 3) / 4);
    let number = (usize::from(z) * deep + usize::from(y)) * wide + usize::from(x);
    if number < words.len() {
        words[number] == want
    } else {
        false
    }
}

// The places of a cube as a box counted from a model's least corner.
pub(crate) fn part_of(place: Cell, at: Cell, side: u32) -> Boxed
    requires { side ≤ 4096 }
    ensures { IsPart place at side result }
{
    Boxed {
        at: Cell {
            x: at.x.saturating_sub(place.x),
            y: at.y.saturating_sub(place.y),
            z: at.z.saturating_sub(place.z),
        },
        size: Cell {
            x: stretch(place.x, at.x, side),
            y: stretch(place.y, at.y, side),
            z: stretch(place.z, at.z, side),
        },
    }
}

// How many of `side` places from `at` on are at `low` or behind it.
fn stretch(low: u16, at: u16, side: u32) -> u16
    requires { side ≤ 4096 }
    ensures { result ≡ (at + side - low) - (at - low) }
{
    let end = (u32::from(at) + side).saturating_sub(u32::from(low));
    (end - u32::from(at.saturating_sub(low))) as u16
}

// Whether these leaves have the same bits of the box in both.
pub(crate) fn are_same(
    size: Cell,
    left: &[u64],
    right: &[u64],
    leaves: Leaves,
    inside: Boxed,
) -> bool
    requires size { (size.x ≤ 256) × (size.y ≤ 256) × (size.z ≤ 256) }
    requires leaves { (leaves.to.x ≤ 64) × (leaves.to.y ≤ 64) × (leaves.to.z ≤ 64) }
    ensures { IsTrue result → SameInside size left.now right.now leaves.from leaves.to inside }
{
    for z in leaves.from.z..leaves.to.z {
        if !is_same_layer(size, left, right, leaves, z, inside) {
            return false;
        }
    }
    true
}

fn is_same_layer(
    size: Cell,
    left: &[u64],
    right: &[u64],
    leaves: Leaves,
    z: u16,
    inside: Boxed,
) -> bool
    requires size { (size.x ≤ 256) × (size.y ≤ 256) × (size.z ≤ 256) }
    requires leaves { (leaves.to.x ≤ 64) × (leaves.to.y ≤ 64) × (z ≤ 64) }
    ensures { IsTrue result → (x y : ℕ) → leaves.from.x ≤ x → x < leaves.to.x → leaves.from.y ≤ y
        → y < leaves.to.y → IsSameLeaf size left.now right.now inside x y z }
{
    for y in leaves.from.y..leaves.to.y {
        if !is_same_row(size, left, right, leaves, y, z, inside) {
            return false;
        }
    }
    true
}

fn is_same_row(
    size: Cell,
    left: &[u64],
    right: &[u64],
    leaves: Leaves,
    y: u16,
    z: u16,
    inside: Boxed,
) -> bool
    requires size { (size.x ≤ 256) × (size.y ≤ 256) × (size.z ≤ 256) }
    requires leaves { (leaves.to.x ≤ 64) × (y ≤ 64) × (z ≤ 64) }
    ensures { IsTrue result → (x : ℕ) → leaves.from.x ≤ x → x < leaves.to.x
        → IsSameLeaf size left.now right.now inside x y z }
{
    for x in leaves.from.x..leaves.to.x {
        if !is_same_leaf(size, left, right, Cell { x, y, z }, inside) {
            return false;
        }
    }
    true
}

fn is_same_leaf(size: Cell, left: &[u64], right: &[u64], leaf: Cell, inside: Boxed) -> bool
    requires size { (size.x ≤ 256) × (size.y ≤ 256) × (size.z ≤ 256) }
    requires leaf { (leaf.x ≤ 64) × (leaf.y ≤ 64) × (leaf.z ≤ 64) }
    ensures { IsTrue result → IsSameLeaf size left.now right.now inside leaf.x leaf.y leaf.z }
{
    let wide = usize::from((size.x + 3) / 4);
    let deep = usize::from((size.y + 3) / 4);
    let number = (usize::from(leaf.z) * deep + usize::from(leaf.y)) * wide + usize::from(leaf.x);
    if number < left.len() && number < right.len() {
        let one = left[number];
        let other = right[number];
        is_same_word(one, other, leaf, inside)
    } else {
        false
    }
}

// Whether two words of a leaf have the same bits of the box.
#[tactic(auto, using(crate::proofs::StampLaws::whole_word))]
fn is_same_word(left: u64, right: u64, leaf: Cell, inside: Boxed) -> bool
    requires { (leaf.x ≤ 64) × (leaf.y ≤ 64) × (leaf.z ≤ 64) }
    ensures { IsTrue result → IsSameWord inside leaf.x leaf.y leaf.z left right }
{
    if left == right {
        return true;
    }
    let at = Cell {
        x: 4 * leaf.x,
        y: 4 * leaf.y,
        z: 4 * leaf.z,
    };
    let seen = box_bits(inside, Block { level: 0, at });
    left & seen == right & seen
}
