ghost use Rattle.std.specs.Prelude.{◌≡◌, ℕ, ◌+◌, ◌^◌, ◌<◌, ◌≤◌};
ghost use Rattle.node_words.specs.Places.{is_in_box, is_within};
ghost use Rattle.node_words.specs.kernels.Leaves.{LeafShows};
ghost use Rattle.node_words.specs.kernels.Parts.{AxisShows, is_from_below, x_of, y_of, z_of};

use crate::shapes::{Block, Boxed};

/// Which cells of the leaf's block are in the box: bit x + 4y + 16z for the cell at (x, y, z).
#[tactic(auto, using(crate::proofs::OfKernels::BoxBits::box_shows))]
pub fn box_bits(b: Boxed, block: Block) -> u64
    requires level { block.level ≡ 0 }
    ensures bits { LeafShows result block (is_in_box b) }
    ensures bound { result < 2 ^ 64 }
{
    let x = places_within(b.at.x, b.size.x, block.at.x);
    let y = places_within(b.at.y, b.size.y, block.at.y);
    let z = places_within(b.at.z, b.size.z, block.at.z);
    x_bits(x) & y_bits(y) & z_bits(z)
}

// Of four places those from `from` on and below `to`.
#[derive(Clone, Copy)]
pub(crate) struct Run {
    pub(crate) from: u32,
    pub(crate) to: u32,
}

// Which of the four places from `at` on are in the stretch of `size` from `low`.
#[inline]
#[tactic(auto, using(crate::proofs::OfKernels::BoxBits::run_within))]
fn places_within(low: u16, size: u16, at: u16) -> Run
    ensures ends { (result.from ≤ result.to) × (result.to ≤ 4) }
    ensures places { (i : ℕ) → i < 4
        → is_within low size (at + i) ≡ is_from_below result.from result.to i }
{
    let at = u32::from(at);
    let to = (u32::from(low) + u32::from(size)).saturating_sub(at).min(4);
    let from = u32::from(low).saturating_sub(at).min(to);
    Run { from, to }
}

// The first place of each row of four, and the first row of each of the four layers.
const ROWS: u64 = 0x1111_1111_1111_1111;

const LAYERS: u64 = 0x0001_0001_0001_0001;

// Each cell whose x is in the run.
#[inline]
#[tactic(auto, using(crate::proofs::OfKernels::BoxBits::x_shows, crate::proofs::OfKernels::BoxBits::rows_fit, crate::proofs::OfKernels::BoxBits::run_ordered))]
pub(crate) fn x_bits(run: Run) -> u64
    requires { (run.from ≤ run.to) × (run.to ≤ 4) }
    ensures { AxisShows result x_of run.from run.to }
{
    ((1 << run.to) - (1 << run.from)) * ROWS
}

// Each cell whose y is in the run.
#[inline]
#[tactic(auto, using(crate::proofs::OfKernels::BoxBits::y_shows, crate::proofs::OfKernels::BoxBits::layers_fit, crate::proofs::OfKernels::BoxBits::run_ordered))]
pub(crate) fn y_bits(run: Run) -> u64
    requires { (run.from ≤ run.to) × (run.to ≤ 4) }
    ensures { AxisShows result y_of run.from run.to }
{
    ((1 << (4 * run.to)) - (1 << (4 * run.from))) * LAYERS
}

// Each cell whose z is in the run.
#[inline]
#[tactic(auto, using(crate::proofs::OfKernels::BoxBits::z_shows, crate::proofs::OfKernels::BoxBits::none_shows))]
pub(crate) fn z_bits(run: Run) -> u64
    requires { (run.from ≤ run.to) × (run.to ≤ 4) }
    ensures { AxisShows result z_of run.from run.to }
{
    if run.from < run.to {
        u64::MAX >> (64 - 16 * (run.to - run.from)) << (16 * run.from)
    } else {
        0
    }
}
