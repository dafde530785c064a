ghost use Rattle.std.specs.Prelude.{◌≡◌, ℕ, ◌+◌, ◌*◌, ◌^◌, ◌<◌, ◌≤◌, ◌==◌};
ghost use Rattle.std.specs.Int.{bit_at, abs_diff};
ghost use Rattle.node_words.specs.Places.{is_in_ball, square};
ghost use Rattle.node_words.specs.kernels.Leaves.{LeafShows};
ghost use Rattle.node_words.specs.kernels.Parts.{AreSmall, SquaresFrom, SumsShow, LayerShows, RowShows, FourBeside, Beside};

use crate::kernels::near_balls::{is_near, near_bits};
use crate::shapes::{Ball, Block};
use std::simd::prelude::*;

/// Which cells of the leaf's block are in the ball: bit x + 4y + 16z for the cell at (x, y, z).
#[tactic(auto, using(crate::proofs::OfKernels::BallBits::ball_shows, crate::proofs::OfKernels::BallBits::all_inside, crate::proofs::OfKernels::BallBits::all_outside))]
pub fn ball_bits(ball: Ball, block: Block) -> u64
    requires level { block.level ≡ 0 }
    ensures bits { LeafShows result block (is_in_ball ball) }
    ensures bound { result < 2 ^ 64 }
{
    if is_near(ball, block) {
        return near_bits(ball, block);
    }
    let reach = squared(u32::from(ball.radius));
    let x = nearest(ball.centre.x, block.at.x);
    let y = nearest(ball.centre.y, block.at.y);
    let z = nearest(ball.centre.z, block.at.z);
    if reach < x + y + z {
        return 0;
    }
    let x = farthest(ball.centre.x, block.at.x);
    let y = farthest(ball.centre.y, block.at.y);
    let z = farthest(ball.centre.z, block.at.z);
    if x + y + z <= reach {
        return u64::MAX;
    }
    let x = squares(ball.centre.x, block.at.x);
    let y = squares(ball.centre.y, block.at.y);
    let z = squares(ball.centre.z, block.at.z);
    edge_bits(x, y, z, reach)
}

// The greatest square of a distance on one axis.
const FAR: u64 = 65538 * 65538;

#[inline]
#[tactic(auto, using(crate::proofs::OfKernels::BallBits::square_bound))]
fn squared(n: u32) -> u64
    requires { n ≤ 65538 }
    ensures value { result ≡ square n }
    ensures bound { result ≤ FAR }
{
    u64::from(n) * u64::from(n)
}

// No more than the square of any distance of the centre from the four places from `at` on.
#[inline]
#[tactic(auto, using(crate::proofs::OfKernels::BallBits::near_below))]
fn nearest(centre: u16, at: u16) -> u64
    ensures below { (i : ℕ) → i < 4 → result ≤ square (abs_diff centre (at + i)) }
    ensures bound { result ≤ FAR }
{
    let centre = u32::from(centre);
    let at = u32::from(at);
    squared(at.saturating_sub(centre).max(centre.saturating_sub(at + 3)))
}

// No less than the square of any distance of the centre from the four places from `at` on.
#[inline]
#[tactic(auto, using(crate::proofs::OfKernels::BallBits::far_above))]
fn farthest(centre: u16, at: u16) -> u64
    ensures above { (i : ℕ) → i < 4 → square (abs_diff centre (at + i)) ≤ result }
    ensures bound { result ≤ FAR }
{
    let centre = u32::from(centre);
    let at = u32::from(at);
    squared(centre.abs_diff(at).max(centre.abs_diff(at + 3)))
}

// The squares of the distances of the centre from the four places from `at` on.
#[inline]
#[tactic(auto, using(crate::proofs::OfKernels::BallBits::squares_from))]
fn squares(centre: u16, at: u16) -> [u64; 4]
    ensures { SquaresFrom result centre at }
{
    let centre = u32::from(centre);
    let at = u32::from(at);
    [
        squared(centre.abs_diff(at)),
        squared(centre.abs_diff(at + 1)),
        squared(centre.abs_diff(at + 2)),
        squared(centre.abs_diff(at + 3)),
    ]
}

// The cells whose three squares come to no more than the reach.
#[inline]
#[tactic(auto, using(crate::proofs::OfKernels::BallBits::sums_show))]
fn edge_bits(x: [u64; 4], y: [u64; 4], z: [u64; 4], reach: u64) -> u64
    requires x { AreSmall x }
    requires y { AreSmall y }
    requires z { AreSmall z }
    ensures { SumsShow result x y z reach }
{
    let a = layer(x, y, z[0], reach);
    let b = layer(x, y, z[1], reach);
    let c = layer(x, y, z[2], reach);
    let d = layer(x, y, z[3], reach);
    four(a, b, c, d, 16)
}

// Those of one layer, of this square on the third axis.
#[inline]
#[tactic(auto, using(crate::proofs::OfKernels::BallBits::layer_shows))]
fn layer(x: [u64; 4], y: [u64; 4], rest: u64, reach: u64) -> u64
    requires x { AreSmall x }
    requires y { AreSmall y }
    requires rest { rest ≤ FAR }
    ensures bits { LayerShows result x y rest reach }
    ensures bound { result < 2 ^ 16 }
{
    let a = row(x, y[0] + rest, reach);
    let b = row(x, y[1] + rest, reach);
    let c = row(x, y[2] + rest, reach);
    let d = row(x, y[3] + rest, reach);
    four(a, b, c, d, 4)
}

// Those of one row, of these squares on the other axes: four tests at once.
#[inline]
#[tactic(auto, using(crate::proofs::OfKernels::BallBits::no_row))]
fn row(x: [u64; 4], rest: u64, reach: u64) -> u64
    requires x { AreSmall x }
    requires rest { rest ≤ 2 * FAR }
    ensures bits { RowShows result x rest reach }
    ensures bound { result < 2 ^ 4 }
{
    if reach < rest {
        return 0;
    }
    u64x4::from_array(x)
        .simd_le(u64x4::splat(reach - rest))
        .to_bitmask()
}

// Four numbers of so many bits, side by side.
#[inline]
#[tactic(auto, using(crate::proofs::OfKernels::BallBits::four_beside, crate::proofs::OfKernels::BallBits::four_fit))]
pub(crate) fn four(a: u64, b: u64, c: u64, d: u64, width: u32) -> u64
    requires width { (1 ≤ width) × (width ≤ 16) }
    requires a { a < 2 ^ width }
    requires b { b < 2 ^ width }
    requires c { c < 2 ^ width }
    requires d { d < 2 ^ width }
    ensures bits { FourBeside result a b c d width }
    ensures bound { result < 2 ^ (4 * width) }
{
    beside(beside(a, b, width), beside(c, d, width), 2 * width)
}

#[inline]
#[tactic(auto, using(crate::proofs::OfKernels::BallBits::are_beside, crate::proofs::OfKernels::BallBits::beside_fits))]
fn beside(low: u64, high: u64, width: u32) -> u64
    requires width { (1 ≤ width) × (width ≤ 32) }
    requires low { low < 2 ^ width }
    requires high { high < 2 ^ width }
    ensures bits { Beside result low high width }
    ensures bound { result < 2 ^ (2 * width) }
{
    low | high << width
}
