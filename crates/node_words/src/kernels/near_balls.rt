ghost use Rattle.std.specs.Prelude.{◌≡◌, ℕ, ◌+◌, ◌*◌, ◌^◌, ◌<◌, ◌≤◌, IsTrue};
ghost use Rattle.node_words.specs.Places.{is_in_ball, square};
ghost use Rattle.node_words.specs.kernels.Leaves.{LeafShows};
ghost use Rattle.node_words.specs.kernels.Parts.{IsNear, IsNearBall, AreLanes, AreSums, LanesShow};

use crate::kernels::balls::four;
use crate::shapes::{Ball, Block};
use std::simd::prelude::*;

// What each axis is moved up by, so that no number here is below 0.
const UP: u32 = 2048;

// Whether the block's corner is so near to the centre that sums of a layer fit 16 bits.
#[inline(always)]
pub(crate) fn is_near(ball: Ball, block: Block) -> bool
    ensures { IsTrue result → IsNearBall ball block }
{
    is_close(ball.centre.x, block.at.x)
        && is_close(ball.centre.y, block.at.y)
        && is_close(ball.centre.z, block.at.z)
}

#[inline(always)]
fn is_close(centre: u16, at: u16) -> bool
    ensures { IsTrue result → IsNear centre at }
{
    let centre = u32::from(centre);
    let at = u32::from(at) + UP;
    at.wrapping_sub(centre) < 2 * UP
}

// Which cells of the leaf's block are in a ball that is near.
//
// With x, y, z as `moved` has them, a cell's squared distance is that of the block's corner and as
// much more as its place on each axis makes, which is linear in x, y and z.
#[inline(always)]
#[tactic(auto, using(crate::proofs::OfKernels::NearBits::near_shows))]
pub(crate) fn near_bits(ball: Ball, block: Block) -> u64
    requires near { IsNearBall ball block }
    requires level { block.level ≡ 0 }
    ensures bits { LeafShows result block (is_in_ball ball) }
    ensures bound { result < 2 ^ 64 }
{
    let x = moved(ball.centre.x, block.at.x);
    let y = moved(ball.centre.y, block.at.y);
    let z = moved(ball.centre.z, block.at.z);
    let most = squared(u32::from(ball.radius)) + u64::from(24577 + 2 * UP * (x + y + z));
    let less = squared(x) + squared(y) + squared(z) + 3 * squared(UP);
    let lanes = sums(x, y);
    let z = 2 * u64::from(z);
    let a = layer(lanes, less, most);
    let b = layer(lanes, less + z + 1, most + 4096);
    let c = layer(lanes, less + 2 * z + 4, most + 8192);
    let d = layer(lanes, less + 3 * z + 9, most + 12288);
    four(a, b, c, d, 16)
}

#[inline(always)]
#[tactic(auto, using(crate::proofs::OfKernels::NearBits::square_fits))]
fn squared(n: u32) -> u64
    requires { n ≤ 65535 }
    ensures value { result ≡ square n }
    ensures bound { result ≤ 65535 * 65535 }
{
    u64::from(n) * u64::from(n)
}

// How far the corner is above the centre on one axis, moved up.
#[inline(always)]
fn moved(centre: u16, at: u16) -> u32
    requires near { IsNear centre at }
    ensures value { result + centre ≡ at + 2048 }
    ensures bound { result < 4096 }
{
    u32::from(at) + UP - u32::from(centre)
}

// Twice a cell's place in its layer on each axis.
const ALONG_X: [u16; 16] = [0, 2, 4, 6, 0, 2, 4, 6, 0, 2, 4, 6, 0, 2, 4, 6];

const ALONG_Y: [u16; 16] = [0, 0, 0, 0, 2, 2, 2, 2, 4, 4, 4, 4, 6, 6, 6, 6];

// For the cell at (i, j): 24577 + i * i + j * j - 4096 * (i + j).
const MOVES: [u16; 16] = [
    24577, 20482, 16389, 12298, 20482, 16387, 12294, 8203, 16389, 12294, 8201, 4110, 12298, 8203,
    4110, 19,
];

// What the squared distance of each cell of a layer has more than that of the layer's corner, moved
// up.
#[inline(always)]
#[tactic(auto, using(crate::proofs::OfKernels::NearBits::sums_are))]
fn sums(x: u32, y: u32) -> u16x16
    requires x { x < 4096 }
    requires y { y < 4096 }
    ensures { AreSums result x y }
{
    let along_x = u16x16::splat(x as u16) * u16x16::from_array(ALONG_X);
    let along_y = u16x16::splat(y as u16) * u16x16::from_array(ALONG_Y);
    along_x + along_y + u16x16::from_array(MOVES)
}

// The cells of one layer whose sums come with `less` to no more than `most`: sixteen tests at once.
#[inline(always)]
fn layer(lanes: u16x16, less: u64, most: u64) -> u64
    requires lanes { AreLanes lanes }
    ensures bits { LanesShow result lanes less most }
    ensures bound { result < 2 ^ 16 }
{
    let left = most.saturating_sub(less).min(65535);
    lanes.simd_le(u16x16::splat(left as u16)).to_bitmask()
}
