ghost use Rattle.std.specs.Prelude.{◌≡◌, ℕ, ◌+◌, ◌*◌, ◌^◌, ◌<◌, ◌≤◌, [], ◌∷◌, true, None, Some, length, take, drop, MatchResult, IfOk, IfErr};
ghost use Rattle.vox_chunk.specs.Frames.{number_at};
ghost use Rattle.vox_read.specs.Fields.{is_extent, size_in, size_fault, voxels_of, voxels_in, voxels_fault, holds_its_voxels, is_voxel_in};
ghost use Rattle.std.specs.List.{list_all};
ghost use Rattle.vox_read.specs.Refusals.{SaysBroken, SaysOutside};

use crate::models::Model;
use crate::voxels::Voxel;
use byteorder::{ByteOrder, LittleEndian};
use std::alloc::Global;
use vox_chunk::{Chunk, VoxFault};
use vw_cell::Cell;

// The size that a SIZE gives.
pub(crate) fn read_size(chunk: &Chunk<'_>) -> Result<Cell, VoxFault>
    ensures { MatchResult result
        (λ size. (size_fault chunk.now.at chunk.now.content.now ≡ None)
        × (size ≡ size_in chunk.now.content.now))
        (λ fault. size_fault chunk.now.at chunk.now.content.now ≡ Some fault) }
{
    let content = chunk.content;
    if content.len() < 12 {
        return Err(VoxFault::ShortSize(chunk.at));
    }
    let x = number(content, 0);
    let y = number(content, 4);
    let z = number(content, 8);
    if !is_extent(x) || !is_extent(y) || !is_extent(z) {
        return Err(VoxFault::SizeRange(chunk.at));
    }
    Ok(Cell {
        x: x as u16,
        y: y as u16,
        z: z as u16,
    })
}

// Whether a model can have this size on one axis.
fn is_extent(n: u32) -> bool
    ensures { result ≡ is_extent n }
{
    n >= 1 && n <= 256
}

// The model that an XYZI gives, of the size that waits.
pub(crate) fn read_model(alloc: Global, size: Cell, chunk: &Chunk<'_>) -> Result<Model, VoxFault>
    requires { length chunk.now.content.now ≤ 2 ^ 28 }
    ensures read { IfOk result
        (λ m. (voxels_fault chunk.now.at size chunk.now.content.now ≡ None)
        × (m ≡ record { size = size; voxels = voxels_in chunk.now.content.now })) }
    ensures refused { IfErr result
        (λ fault. SaysBroken fault (voxels_fault chunk.now.at size chunk.now.content.now)) }
{
    let content = chunk.content;
    if content.len() < 4 {
        return Err(VoxFault::ShortXyzi(chunk.at));
    }
    let n = number(content, 0) as usize;
    if content.len() < 4 + 4 * n {
        return Err(VoxFault::ShortXyzi(chunk.at));
    }
    let voxels = read_voxels(alloc, size, &content[4..4 + 4 * n], chunk.at)?;
    Ok(Model { size, voxels })
}

// The voxels of these bytes, where each stands inside the size.
#[tactic(auto, using(crate::proofs::Grouping::read_none, crate::proofs::Grouping::read_more, crate::proofs::Grouping::more_outside, crate::proofs::Grouping::read_all))]
fn read_voxels(alloc: Global, size: Cell, bytes: &[u8], at: u32) -> Result<Vec<Voxel>, VoxFault>
    ensures read { IfOk result
        (λ voxels. (list_all (is_voxel_in size) (voxels_of bytes.now) ≡ true)
        × (voxels.items ≡ voxels_of bytes.now)) }
    ensures refused { IfErr result
        (λ fault. SaysOutside fault at (list_all (is_voxel_in size) (voxels_of bytes.now))) }
{
    let mut voxels = Vec::with_capacity(alloc, bytes.len() / 4)?;
    let mut rest = bytes;
    while rest.len() >= 4 {
        let (front, more) = rest.split_at(4);
        let voxel = voxel_of(front);
        if !is_voxel_in(size, voxel) {
            return Err(VoxFault::VoxelOutside(at));
        }
        voxels.push(voxel)?;
        rest = more;
    }
    Ok(voxels)
}

#[tactic(auto, using(crate::proofs::Grouping::one_voxel))]
fn voxel_of(bytes: &[u8]) -> Voxel
    requires { length bytes.now ≡ 4 }
    ensures { voxels_of bytes.now ≡ result ∷ [] }
{
    Voxel {
        x: bytes[0],
        y: bytes[1],
        z: bytes[2],
        colour: bytes[3],
    }
}

fn is_voxel_in(size: Cell, v: Voxel) -> bool
    ensures { result ≡ is_voxel_in size v }
{
    u16::from(v.x) < size.x && u16::from(v.y) < size.y && u16::from(v.z) < size.z
}

fn number(bytes: &[u8], at: usize) -> u32
    requires { at + 4 ≤ length bytes.now }
    ensures { result ≡ number_at bytes.now at }
{
    LittleEndian::read_u32(&bytes[at..])
}
