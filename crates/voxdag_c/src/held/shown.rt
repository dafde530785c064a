//! Cells that can be seen, as C gets them.
ghost use Rattle.std.specs.Prelude.{◌≡◌, ◌≤◌, ◌++◌, ℕ, length, drop, map};
ghost use Rattle.vox_read.specs.declared.voxels.Voxel.{Voxel};
ghost use Rattle.voxdag_c.specs.held.Places.{shown_by};

use vox_read::Voxel;

/// A cell that can be seen: its place from a box's corner on, its tint, and which sides are bare,
/// bits 0 to 5 for -x, +x, -y, +y, -z and +z.
#[repr(C)]
#[derive(Clone, Copy)]
pub struct CShown {
    pub x: u8,
    pub y: u8,
    pub z: u8,
    pub tint: u8,
    pub sides: u8,
}

impl CShown {
    fn of(voxel: Voxel, tint: u8) -> CShown
        ensures { result ≡ shown_by (λ v. tint) voxel }
    {
        CShown {
            x: voxel.x,
            y: voxel.y,
            z: voxel.z,
            tint,
            sides: voxel.colour,
        }
    }
}

/// Puts the cells over the first ones, each with tint 1.
pub(crate) fn copy_shown(out: &mut [CShown], voxels: &[Voxel])
    requires { length voxels.now ≤ length out.old }
    ensures { out.new ≡ map (shown_by (λ v. 1)) voxels.now ++ drop (length voxels.now) out.old }
{
    for i in 0..voxels.len() {
        out[i] = CShown::of(voxels[i], 1);
    }
}

/// Puts the cells over the first ones, each with the tint that is listed in its place.
pub(crate) fn copy_tinted(out: &mut [CShown], voxels: &[Voxel], tints: &[u8])
    requires room { length voxels.now ≤ length out.old }
    requires long { length tints.now ≡ length voxels.now }
    ensures room { length out.new ≡ length out.old }
    ensures puts { (f : Voxel → ℕ) → tints.now ≡ map f voxels.now
        → out.new ≡ map (shown_by f) voxels.now ++ drop (length voxels.now) out.old }
{
    for i in 0..voxels.len() {
        out[i] = CShown::of(voxels[i], tints[i]);
    }
}
