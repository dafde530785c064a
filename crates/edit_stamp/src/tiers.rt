ghost use Rattle.std.specs.Prelude.{◌≡◌, ◌+◌, ◌*◌, ◌/◌, ◌^◌, ◌<◌, ◌≤◌, ℕ, IfOk, IsTrue};
ghost use Rattle.vox_read.specs.Contents.{IsSize};
ghost use Rattle.edit_stamp.specs.Drawings.{leaves_of, leaf_number, AllWords};
ghost use Rattle.edit_stamp.specs.Tiers.{TellsTier, half_of, IsWordOver};

use crate::scans::{Leaves, are_all};
use std::alloc::{AllocError, Global};
use vw_cell::Cell;

// The word of a cube of leaves whose words differ.
const MIXED: u64 = 1;

/// A word for each cube of 2 x 2 x 2 words below: theirs, where all of them are the same.
#[derive(Drop)]
pub(crate) struct Tier {
    size: Cell,
    words: Vec<u64>,
}

impl std::marker::Model for Tier {
    ghost use Rattle.edit_stamp.specs.Drawings.{Drawn, HasLeaves};

    ghost Value = { Drawn };

    ghost view = { λ s. record { size = s.size; words = s.words.items } };

    ghost invariant = { λ s. HasLeaves s.size s.words.items };
}

impl Tier {
    // Of the leaves of a model, or of the words of a tier as if they were leaves of a model.
    pub(crate) fn over(alloc: Global, size: Cell, words: &[u64]) -> Result<Tier, AllocError>
        requires size { IsSize size }
        ensures { IfOk result (λ t. TellsTier (record { size = size; words = words.now }) 1 t) }
    {
        let half = half_of(size);
        let number = leaf_count(half);
        let mut over: Vec<u64> = vec![in alloc; MIXED; number]?;
        for n in 0..number {
            let at = place_of(half, n);
            let word = word_over(size, words, at);
            over[n] = word;
        }
        Ok(Tier {
            size: half,
            words: over,
        })
    }

    // The tier over this one.
    pub(crate) fn next(&self, alloc: Global) -> Result<Tier, AllocError>
        ensures { IfOk result (λ t. TellsTier self.now 1 t) }
    {
        Tier::over(alloc, self.size, &self.words)
    }

    // The word of the cube at this place, or another one where there is none.
    pub(crate) fn word(&self, x: u16, y: u16, z: u16) -> u64
        requires { (x < 16384) × (y < 16384) × (z < 16384) }
    {
        word_at(self.size, &self.words, x, y, z)
    }

    // Whether the words of these cubes are all the same.
    pub(crate) fn are_all(&self, cubes: Leaves, want: u64) -> bool
        ensures { IsTrue result
            → AllWords self.now.size self.now.words cubes.from cubes.to want }
    {
        are_all(self.size, &self.words, cubes, want)
    }
}

// Half of a size on each axis, upward.
fn half_of(size: Cell) -> Cell
    requires { IsSize size }
    ensures value { result ≡ half_of size }
    ensures size { IsSize result }
{
    Cell {
        x: (size.x + 1) / 2,
        y: (size.y + 1) / 2,
        z: (size.z + 1) / 2,
    }
}

// How many leaves there are in a size.
pub(crate) fn leaf_count(size: Cell) -> usize
    requires { IsSize size }
    ensures value { result ≡ leaves_of size.z * leaves_of size.y * leaves_of size.x }
    ensures bound { result ≤ 262144 }
{
    let x = usize::from((size.x + 3) / 4);
    let y = usize::from((size.y + 3) / 4);
    let z = usize::from((size.z + 3) / 4);
    z * y * x
}

// The leaf of this number.
fn place_of(size: Cell, n: usize) -> Cell
    requires size { IsSize size }
    requires below { n < leaves_of size.z * leaves_of size.y * leaves_of size.x }
    ensures number { leaf_number size result.x result.y result.z ≡ n }
    ensures below { (result.x < leaves_of size.x) × (result.y < leaves_of size.y)
        × (result.z < leaves_of size.z) }
{
    let wide = usize::from((size.x + 3) / 4);
    let deep = usize::from((size.y + 3) / 4);
    Cell {
        x: (n % wide) as u16,
        y: (n / wide % deep) as u16,
        z: (n / wide / deep) as u16,
    }
}

// The word over the cube at this place.
fn word_over(size: Cell, words: &[u64], at: Cell) -> u64
    requires size { IsSize size }
    requires at { (at.x ≤ 64) × (at.y ≤ 64) × (at.z ≤ 64) }
    ensures { IsWordOver (record { size = size; words = words.now }) at.x at.y at.z result }
{
    let from = Cell {
        x: 2 * at.x,
        y: 2 * at.y,
        z: 2 * at.z,
    };
    let to = Cell {
        x: (2 * at.x + 2).min((size.x + 3) / 4),
        y: (2 * at.y + 2).min((size.y + 3) / 4),
        z: (2 * at.z + 2).min((size.z + 3) / 4),
    };
    let first = word_at(size, words, from.x, from.y, from.z);
    if are_all(size, words, Leaves { from, to }, first) {
        first
    } else {
        MIXED
    }
}

// The word of a leaf, or another one where there is none.
pub(crate) fn word_at(size: Cell, words: &[u64], x: u16, y: u16, z: u16) -> u64
    requires size { IsSize size }
    requires at { (x < 16384) × (y < 16384) × (z < 16384) }
{
    let wide = usize::from((size.x + 3) / 4);
    let deep = usize::from((size.y + 3) / 4);
    let number = (usize::from(z) * deep + usize::from(y)) * wide + usize::from(x);
    if number < words.len() {
        words[number]
    } else {
        MIXED
    }
}

// The cubes of 2 ^ up leaves a side in which these leaves stand.
pub(crate) fn cubes_over(leaves: Leaves, up: u8) -> Leaves
    requires { up ≤ 6 }
    ensures x { (i : ℕ) → leaves.from.x ≤ i → i < leaves.to.x
        → (result.from.x ≤ i / 2 ^ up) × (i / 2 ^ up < result.to.x) }
    ensures y { (i : ℕ) → leaves.from.y ≤ i → i < leaves.to.y
        → (result.from.y ≤ i / 2 ^ up) × (i / 2 ^ up < result.to.y) }
    ensures z { (i : ℕ) → leaves.from.z ≤ i → i < leaves.to.z
        → (result.from.z ≤ i / 2 ^ up) × (i / 2 ^ up < result.to.z) }
{
    Leaves {
        from: Cell {
            x: first_over(leaves.from.x, up),
            y: first_over(leaves.from.y, up),
            z: first_over(leaves.from.z, up),
        },
        to: Cell {
            x: end_over(leaves.to.x, up),
            y: end_over(leaves.to.y, up),
            z: end_over(leaves.to.z, up),
        },
    }
}

#[tactic(auto, using(crate::proofs::TierLaws::halves_keep_order))]
fn first_over(from: u16, up: u8) -> u16
    requires { up ≤ 6 }
    ensures { (i : ℕ) → from ≤ i → result ≤ i / 2 ^ up }
{
    from >> up
}

#[tactic(auto, using(crate::proofs::TierLaws::halves_keep_order))]
fn end_over(to: u16, up: u8) -> u16
    requires { up ≤ 6 }
    ensures { (i : ℕ) → i < to → i / 2 ^ up < result }
{
    (to.saturating_sub(1) >> up) + 1
}
