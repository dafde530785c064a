//! Worlds and models for tests, and edits of them.

use edit_stamp::Stencil;
use history_model::{Act, Question};
use node_words::{Full, Plan};
use std::alloc::Global;
use testkit::{Drawing, Found, Refusal, StoredWorld};
use vw_cell::{Boxed, Cell, Side};

/// The stencil of a model of these voxels.
pub fn stencil_of(alloc: Global, size: [u8; 3], voxels: &[[u8; 4]]) -> Option<Stencil> {
    match Vec::from_slice(alloc, voxels) {
        Ok(voxels) => Drawing { size, voxels }.stencil(alloc),
        Err(_) => None,
    }
}

/// An empty world in a store with so many buckets a level, each for so many nodes.
pub fn world_of(alloc: Global, side: u32, buckets: u16, cap: u16) -> Option<StoredWorld> {
    let Some(side) = Side::new(side) else {
        return None;
    };
    match Plan::even(side, buckets, cap) {
        Some(plan) => StoredWorld::empty(alloc, &plan).ok(),
        None => None,
    }
}

/// A model of this size on each axis, whose floor is set.
pub fn floor(alloc: Global, side: u8) -> Option<Drawing> {
    let mut voxels: Vec<[u8; 4]> = Vec::new(alloc);
    if lay_floor(side, &mut voxels) {
        let size = [side, side, side];
        Some(Drawing { size, voxels })
    } else {
        None
    }
}

// Appends the voxels of a floor. Says whether there was memory.
fn lay_floor(side: u8, voxels: &mut Vec<[u8; 4]>) -> bool {
    for x in 0..side {
        for y in 0..side {
            if voxels.push([x, y, 0, 1]).is_err() {
                return false;
            }
        }
    }
    true
}

/// Does the acts one after another, up to the first that meets a full bucket, which is told then.
pub fn acts_done(world: &mut StoredWorld, acts: &[Act], stencil: &Stencil) -> Option<Full> {
    for act in acts {
        match world.edit(act, stencil) {
            Ok(()) => {}
            Err(Refusal::Full(full)) => return Some(full),
            Err(Refusal::Unfit) => {
                return Some(Full {
                    level: 255,
                    bucket: 0,
                });
            }
        }
    }
    None
}

/// The number of set cells.
pub fn number_of_cells(world: &mut StoredWorld) -> Option<u64> {
    let side = world.side().cells() as u16;
    let at = Cell { x: 0, y: 0, z: 0 };
    let size = Cell {
        x: side,
        y: side,
        z: side,
    };
    match world.ask(&Question::Count(Boxed { at, size })) {
        Some(Found::Number(number)) => Some(number),
        _ => None,
    }
}
