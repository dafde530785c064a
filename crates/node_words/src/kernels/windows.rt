ghost use Rattle.std.specs.Prelude.{◌^◌, ◌<◌};
ghost use Rattle.node_words.specs.kernels.Leaves.{LiesAcross};
ghost use Rattle.node_words.specs.kernels.Parts.{SlidesX, SlidesY, SlidesZ, Mixes};

use crate::kernels::boxes::{Run, x_bits, y_bits, z_bits};

/// The leaf at this offset in the 8 x 8 x 8 cells of eight leaves, which are in octant order.
#[tactic(auto, using(crate::proofs::OfKernels::WindowBits::lies_across))]
pub fn window_bits(leaves: &[u64; 8], dx: u8, dy: u8, dz: u8) -> u64
    requires dx { dx < 4 }
    requires dy { dy < 4 }
    requires dz { dz < 4 }
    ensures bits { LiesAcross leaves.now dx dy dz result }
    ensures bound { result < 2 ^ 64 }
{
    let a = slid_x(leaves[0], leaves[1], u32::from(dx));
    let b = slid_x(leaves[2], leaves[3], u32::from(dx));
    let c = slid_x(leaves[4], leaves[5], u32::from(dx));
    let d = slid_x(leaves[6], leaves[7], u32::from(dx));
    let near = slid_y(a, b, u32::from(dy));
    let far = slid_y(c, d, u32::from(dy));
    slid_z(near, far, u32::from(dz))
}

// The cells that are `by` further along x, of two leaves side by side.
#[inline]
#[tactic(auto, using(crate::proofs::OfKernels::WindowBits::slides_x, crate::proofs::OfKernels::WindowBits::stays_x))]
fn slid_x(low: u64, high: u64, by: u32) -> u64
    requires { by < 4 }
    ensures { SlidesX result low high by }
{
    if by == 0 {
        return low;
    }
    let rest = 4 - by;
    mixed(low, high, x_bits(Run { from: 0, to: rest }), by, rest)
}

// The same along y.
#[inline]
#[tactic(auto, using(crate::proofs::OfKernels::WindowBits::slides_y, crate::proofs::OfKernels::WindowBits::stays_y))]
fn slid_y(low: u64, high: u64, by: u32) -> u64
    requires { by < 4 }
    ensures { SlidesY result low high by }
{
    if by == 0 {
        return low;
    }
    let rest = 4 - by;
    mixed(
        low,
        high,
        y_bits(Run { from: 0, to: rest }),
        4 * by,
        4 * rest,
    )
}

// The same along z.
#[inline]
#[tactic(auto, using(crate::proofs::OfKernels::WindowBits::slides_z, crate::proofs::OfKernels::WindowBits::stays_z))]
fn slid_z(low: u64, high: u64, by: u32) -> u64
    requires { by < 4 }
    ensures { SlidesZ result low high by }
{
    if by == 0 {
        return low;
    }
    let rest = 4 - by;
    mixed(
        low,
        high,
        z_bits(Run { from: 0, to: rest }),
        16 * by,
        16 * rest,
    )
}

// The bits of `low` moved down where the mask has a one, and those of `high` moved up elsewhere.
#[inline]
#[tactic(auto, using(crate::proofs::OfKernels::WindowBits::mixes))]
fn mixed(low: u64, high: u64, mask: u64, down: u32, up: u32) -> u64
    requires down { down < 64 }
    requires up { up < 64 }
    ensures { Mixes result low high mask down up }
{
    low >> down & mask | high << up & !mask
}
