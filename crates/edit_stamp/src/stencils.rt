ghost use Rattle.std.specs.Prelude.{IsTrue, All, true, false};
ghost use Rattle.std.specs.Prelude.{◌≡◌, ◌+◌, ◌-◌, ◌*◌, ◌/◌, ◌%◌, ◌^◌, ◌<◌, ◌≤◌, ◌≢◌, ℕ, slice_index, bit_and};
ghost use Rattle.std.specs.Prelude.{IfOk, ◌==◌, ◌&&◌, ◌||◌};
ghost use Rattle.std.specs.Int.{bit_at};
ghost use Rattle.node_words.specs.shapes.Shape.{bit_number};
ghost use Rattle.vox_read.specs.Contents.{IsModel, IsSize, IsInsideModel};
ghost use Rattle.vw_cell.specs.declared.blocks.Block.{Block};
ghost use Rattle.node_words.specs.kernels.Leaves.{LeafShows};
ghost use Rattle.vw_cell.specs.Places.{block_side};
ghost use Rattle.edit_stamp.specs.Drawings.{IsWord, Draws, DrawsBit, AllDrawn, Agree, AllWords, HasLeaves, leaves_of, leaf_number};
ghost use Rattle.edit_stamp.specs.Tiers.{TellsTier};
ghost use Rattle.edit_stamp.specs.Stamps.{is_stamped};
ghost use Rattle.edit_stamp.specs.declared.stencils.StencilCover.{StencilCover};

use crate::planes::bit_model;
use crate::scans::{Leaves, are_all, are_same, part_of, touched};
use crate::tiers::{Tier, cubes_over, leaf_count, word_at};
use edit_walk::side_of;
use node_words::{box_bits, window_bits};
use std::alloc::Global;
use vox_read::{Model, Voxel, cells};
use vw_cell::{Block, Boxed, Cell, Memory};

/// What a stencil shows of the model's places in a block of the world.
#[derive(Clone, Copy)]
pub enum StencilCover {
    /// None of them is set.
    Unset,
    /// Each of them is set.
    Set,
    /// Some may be set, and some unset.
    Either,
}

/// The cells of a model as the bits of leaves. Contracts see the model's size and its cells.
#[derive(Drop)]
pub struct Stencil {
    size: Cell,
    words: Vec<u64>,
    // Words over cubes of 2, 4, 8, 16, 32 and 64 leaves a side.
    first: Tier,
    second: Tier,
    third: Tier,
    fourth: Tier,
    fifth: Tier,
    sixth: Tier,
}

impl std::marker::Model for Stencil {
    ghost use Rattle.edit_stamp.specs.Drawings.{Drawn, HasLeaves};
    ghost use Rattle.edit_stamp.specs.Tiers.{HasTiers};

    ghost Value = { Drawn };

    ghost view = { λ s. record { size = s.size; words = s.words.items } };

    ghost invariant = { λ s. HasLeaves s.size s.words.items
        × HasTiers (record { size = s.size; words = s.words.items })
        s.first s.second s.third s.fourth s.fifth s.sixth };
}

impl Stencil {
    /// Draws the cells of the model, once for all of its stamps.
    pub fn new(alloc: Global, model: &Model) -> Result<Stencil, Memory>
        requires { IsModel model.now }
        ensures { IfOk result (λ s. Draws model.now s) }
    {
        let cells = cells(alloc, model)?;
        let size = model.size;
        let mut words: Vec<u64> = vec![in alloc; 0; leaf_count(size)]?;
        for voxel in &cells {
            let leaf = leaf_of(size, *voxel);
            let word = words[leaf];
            words[leaf] = with_cell(word, *voxel);
        }
        with_tiers(alloc, size, words)
    }

    /// Draws the places where this bit of the model's colour is 1.
    pub fn of_bit(alloc: Global, model: &Model, bit: u8) -> Result<Stencil, Memory>
        requires model { IsModel model.now }
        requires bit { bit < 8 }
        ensures draws { IfOk result (λ s. DrawsBit model.now bit s) }
        ensures small { IfOk result (λ s. All (λ v. v.colour < 2 ^ 8) model.now.voxels) }
    {
        let plane = bit_model(alloc, model, bit)?;
        Stencil::new(alloc, &plane)
    }

    /// The model's size.
    pub fn size(&self) -> Cell
        ensures value { result ≡ self.now.size }
        ensures bounds { (result.x ≤ 256) × (result.y ≤ 256) × (result.z ≤ 256) }
    {
        self.size
    }

    /// Whether the model's places in a block of the world are all set, or all unset. It may miss
    /// some that are. It looks at 27 words at most: those over the cubes of the model, half as wide
    /// as the block, that the block touches. Most blocks are told by the first of them.
    #[inline(always)]
    pub fn is_all(&self, place: Cell, at: Cell, level: u8, set: bool) -> bool
        requires level { level ≤ 10 }
        ensures { IsTrue result → AllDrawn self.now place at (block_side level) set }
    {
        if self.first_word(place, at, level) != all_bits(set) {
            return false;
        }
        self.is_all_through(place, at, level, set)
    }

    /// Both at once: whether a block's places are all unset or all set, by the same words.
    #[inline(always)]
    pub fn coverage(&self, place: Cell, at: Cell, level: u8) -> StencilCover
        requires level { level ≤ 10 }
        ensures unset { result ≡ StencilCover.Unset
            → AllDrawn self.now place at (block_side level) false }
        ensures set { result ≡ StencilCover.Set
            → AllDrawn self.now place at (block_side level) true }
    {
        let word = self.first_word(place, at, level);
        if word == 0 {
            if self.is_all_through(place, at, level, false) {
                return StencilCover::Unset;
            }
            return StencilCover::Either;
        }
        if word == u64::MAX {
            if self.is_all_through(place, at, level, true) {
                return StencilCover::Set;
            }
        }
        StencilCover::Either
    }

    // Whether they are, by a look at all these words.
    #[inline(never)]
    fn is_all_through(&self, place: Cell, at: Cell, level: u8, set: bool) -> bool
        requires level { level ≤ 10 }
        ensures { IsTrue result → AllDrawn self.now place at (block_side level) set }
    {
        let size = self.size();
        let want = all_bits(set);
        let leaves = touched(size, place, at, side_of(level));
        if level <= 1 {
            return are_all(size, &self.words, leaves, want);
        }
        self.are_all_over((level - 1).min(6), leaves, want)
    }

    /// Whether two stencils of one size have the same of their models' places in a block of the
    /// world. It looks at the words of the leaves that the block touches, up to the first two that
    /// differ in a place of the block.
    pub fn agrees(&self, other: &Stencil, place: Cell, at: Cell, level: u8) -> bool
        requires level { level ≤ 10 }
        ensures { IsTrue result → Agree self.now other.now place at (block_side level) }
    {
        let size = self.size();
        if size != other.size() {
            return false;
        }
        let side = side_of(level);
        let leaves = touched(size, place, at, side);
        let inside = part_of(place, at, side);
        are_same(size, &self.words, &other.words, leaves, inside)
    }

    // The first of the words that are looked at for a block.
    #[inline(always)]
    fn first_word(&self, place: Cell, at: Cell, level: u8) -> u64
        requires { level ≤ 10 }
    {
        let x = at.x.saturating_sub(place.x) / 4;
        let y = at.y.saturating_sub(place.y) / 4;
        let z = at.z.saturating_sub(place.z) / 4;
        if level <= 1 {
            return word_at(self.size, &self.words, x, y, z);
        }
        let up = (level - 1).min(6);
        self.tier(up).word(x >> up, y >> up, z >> up)
    }

    // Whether the words of these leaves are all the same, by those over cubes of 2 ^ up leaves a
    // side.
    fn are_all_over(&self, up: u8, leaves: Leaves, want: u64) -> bool
        requires up { (1 ≤ up) × (up ≤ 6) }
        requires want { want ≢ 1 }
        requires leaves { (leaves.to.x ≤ leaves_of self.now.size.x)
            × (leaves.to.y ≤ leaves_of self.now.size.y)
            × (leaves.to.z ≤ leaves_of self.now.size.z) }
        ensures { IsTrue result
            → AllWords self.now.size self.now.words leaves.from leaves.to want }
    {
        let tier = self.tier(up);
        let cubes = cubes_over(leaves, up);
        tier.are_all(cubes, want)
    }

    // The words over cubes of 2 ^ up leaves a side.
    fn tier(&self, up: u8) -> &Tier
        requires { (1 ≤ up) × (up ≤ 6) }
        ensures { TellsTier self.now up result.now }
    {
        match up {
            1 => &self.first,
            2 => &self.second,
            3 => &self.third,
            4 => &self.fourth,
            5 => &self.fifth,
            _ => &self.sixth,
        }
    }

    // The bits of a leaf, counted from 1,024 leaves before the model's least corner, where there is
    // one.
    fn word(&self, x: u16, y: u16, z: u16) -> u64
        ensures { IsWord self.now x y z result }
    {
        let i = usize::from(x.saturating_sub(1024));
        let j = usize::from(y.saturating_sub(1024));
        let k = usize::from(z.saturating_sub(1024));
        let wide = usize::from((self.size.x + 3) / 4);
        let deep = usize::from((self.size.y + 3) / 4);
        let number = (k * deep + j) * wide + i;
        if number < self.words.len() {
            self.words[number]
        } else {
            0
        }
    }

    /// Which cells of the leaf's block the model sets, with its least corner at this place.
    pub fn leaf_bits(&self, place: Cell, block: Block) -> u64
        requires level { block.level ≡ 0 }
        requires block { (block.at.x + 4 ≤ 4096) × (block.at.y + 4 ≤ 4096)
            × (block.at.z + 4 ≤ 4096) }
        requires place { (place.x ≤ 4096) × (place.y ≤ 4096) × (place.z ≤ 4096) }
        ensures bits { LeafShows result block (is_stamped self.now place) }
        ensures bound { result < 2 ^ 64 }
    {
        let x = block.at.x + 4096 - place.x;
        let y = block.at.y + 4096 - place.y;
        let z = block.at.z + 4096 - place.z;
        let mut leaves: [u64; 8] = [0; 8];
        for j in 0..8usize {
            let word = self.word(
                x / 4 + (j % 2) as u16,
                y / 4 + (j / 2 % 2) as u16,
                z / 4 + (j / 4 % 2) as u16,
            );
            leaves[j] = word;
        }
        let moved = window_bits(&leaves, (x % 4) as u8, (y % 4) as u8, (z % 4) as u8);
        let size = self.size();
        let inside = box_bits(Boxed { at: place, size }, block);
        moved & inside
    }
}

// A stencil of these leaves.
fn with_tiers(alloc: Global, size: Cell, words: Vec<u64>) -> Result<Stencil, Memory>
    requires { HasLeaves size words.items }
    ensures { IfOk result (λ s. s ≡ record { size = size; words = words.items }) }
{
    let first = Tier::over(alloc, size, &words)?;
    let second = first.next(alloc)?;
    let third = second.next(alloc)?;
    let fourth = third.next(alloc)?;
    let fifth = fourth.next(alloc)?;
    let sixth = fifth.next(alloc)?;
    Ok(Stencil {
        size,
        words,
        first,
        second,
        third,
        fourth,
        fifth,
        sixth,
    })
}

// The number of the leaf that the voxel stands in.
fn leaf_of(size: Cell, v: Voxel) -> usize
    requires size { IsSize size }
    requires inside { IsInsideModel size v }
    ensures value { result ≡ leaf_number size (v.x / 4) (v.y / 4) (v.z / 4) }
    ensures bound { result < leaves_of size.z * leaves_of size.y * leaves_of size.x }
{
    let wide = usize::from((size.x + 3) / 4);
    let deep = usize::from((size.y + 3) / 4);
    (usize::from(v.z / 4) * deep + usize::from(v.y / 4)) * wide + usize::from(v.x / 4)
}

// The word with the bit of the voxel's place set.
fn with_cell(word: u64, v: Voxel) -> u64
    ensures { (m : ℕ) → m < 64
        → (bit_at result m == 1) ≡
        ((m == bit_number (v.x % 4) (v.y % 4) (v.z % 4)) || (bit_at word m == 1)) }
{
    let bit = u32::from(v.x % 4 + 4 * (v.y % 4) + 16 * (v.z % 4));
    word | 1 << bit
}

fn all_bits(set: bool) -> u64
    ensures bits { (b : ℕ) → b < 64 → (bit_at result b == 1) ≡ set }
    ensures whole { result ≢ 1 }
{
    if set { u64::MAX } else { 0 }
}
