//! Which world holds all instances.
ghost use Rattle.std.specs.Prelude.{MatchOption, ◌≡◌, ◌≤◌, ◌^◌, ◌↔◌, pos, ◌+ℤ◌, ◌≤ℤ◌, List, map, IsTrue};
ghost use Rattle.vox_scene.specs.Placing.{IsLeastSide, instance_at, EndsWithin, AllEndWithin, extent_at, rotated_size};
ghost use Rattle.vox_scene.specs.Rotations.{entry_on};

use crate::model_instances::{ModelInstance, extent_at, rotated_size};
use crate::rotations::{Axis, Vector};
use vox_read::Models;
use vw_cell::Cell;

// Whether all instances end in the world of this side.
pub(crate) fn all_end_within(
    models: &Models,
    least: &Vector,
    side: u32,
    instanced: &[ModelInstance],
) -> bool
    ensures { IsTrue result
        ↔ AllEndWithin least.now (map (instance_at models.now) instanced.now) side }
{
    for one in instanced {
        if !ends_within(models, least, side, one) {
            return false;
        }
    }
    true
}

// Whether an instance ends in the world of this side.
fn ends_within(models: &Models, least: &Vector, side: u32, one: &ModelInstance) -> bool
    ensures { IsTrue result ↔ EndsWithin least.now side (instance_at models.now one.now) }
{
    let size = size_of(models, one);
    let x = ends_by(Axis::X, &one.corner, size, least, side);
    let y = ends_by(Axis::Y, &one.corner, size, least, side);
    let z = ends_by(Axis::Z, &one.corner, size, least, side);
    all_three(x, y, z)
}

fn all_three(x: bool, y: bool, z: bool) -> bool
    ensures { IsTrue result ↔ (IsTrue x × IsTrue y × IsTrue z) }
{
    x && y && z
}

// The size of an instance's turned model.
fn size_of(models: &Models, one: &ModelInstance) -> Cell
    ensures { result ≡ rotated_size one.now.axis_map (instance_at models.now one.now).model.size }
{
    match models.list.get(one.model as usize) {
        Some(model) => rotated_size(&one.axis_map, model.size),
        None => rotated_size(&one.axis_map, Cell { x: 0, y: 0, z: 0 }),
    }
}

// The same on an axis.
fn ends_by(axis: Axis, corner: &Vector, size: Cell, least: &Vector, side: u32) -> bool
    ensures { IsTrue result ↔ ((entry_on axis corner.now +ℤ pos (extent_at axis size))
        ≤ℤ (entry_on axis least.now +ℤ pos side)) }
{
    let end = further(corner.entry(axis), u32::from(extent_at(axis, size)));
    let limit = further(least.entry(axis), side);
    end <= limit
}

fn further(place: i32, by: u32) -> i64
    ensures { result ≡ place +ℤ pos by }
{
    i64::from(place) + i64::from(by)
}

// The exponent of the least side that holds all instances, where one does.
pub(crate) fn least_side(models: &Models, least: &Vector, instanced: &[ModelInstance]) -> Option<u8>
    ensures { MatchOption result
        (AllEndWithin least.now (map (instance_at models.now) instanced.now) 4096 → ⊥)
        (λ exponent. IsLeastSide least.now (map (instance_at models.now) instanced.now) exponent) }
{
    let mut exponent: u8 = 2;
    while exponent <= 12 {
        if all_end_within(models, least, cells_of(exponent), instanced) {
            return Some(exponent);
        }
        exponent += 1;
    }
    None
}

// The cells of a side with this exponent.
pub(crate) fn cells_of(exponent: u8) -> u32
    requires { exponent ≤ 12 }
    ensures { result ≡ 2 ^ exponent }
{
    1u32 << exponent
}
