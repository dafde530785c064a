ghost use Rattle.std.specs.Prelude.{◌≡◌, ◌≤◌, ◌<◌, ◌+◌, ◌*◌, ◌/◌, ◌^◌, ◌↔◌, ℕ, pos, ◌≤ℤ◌, ◌-ℤ◌, neg_ℤ, [], List, length, map, Option, Some, None, Ok, Err, Result, All, IfOk, IfErr, MatchResult, slice_index_or, IsTrue};
ghost use Rattle.vox_read.specs.Contents.{Content, AreModels, IsSize};
ghost use Rattle.vox_scene.specs.declared.nodes.Node.{Node};
ghost use Rattle.vox_scene.specs.Reading.{FindsNodes};
ghost use Rattle.vox_scene.specs.Rotations.{IsNearOrigin, identity_pose, entry_on};
ghost use Rattle.vox_scene.specs.Walking.{all_visits, walked, AnswersWalk};
ghost use Rattle.vox_scene.specs.Placing.{extent_at, rotated_size, instance_corner, instance_with, instance_of, instance_at, instances_of, GivesInstances, IsLeast, IsLesser, IsLeastCorner, EndsWithin, AllEndWithin, IsLeastSide, no_model};

use crate::faults::SceneFault;
use crate::reading::Nodes;
use crate::rotations::{Axis, Pose, Rotation, Vector, identity_pose, no_rotation};
use crate::walking::{Placed, Walk, visit};
use std::alloc::Global;
use std::marker::Model;
use vox_read::Models;
use vw_cell::{Cell, Memory};

/// A model by its number, how it is turned, and where its least corner stands. Contracts see all.
#[derive(Clone, Copy, Debug, PartialEq, Eq)]
pub struct ModelInstance {
    pub(crate) model: u32,
    pub(crate) axis_map: Rotation,
    pub(crate) corner: Vector,
}

impl Model for ModelInstance {
    ghost use Rattle.vox_scene.specs.Rotations.{IsNearOrigin};
    ghost use Rattle.vox_scene.specs.Placing.{IndexedInstance};

    ghost Value = { IndexedInstance };

    ghost view = { λ s. record { model = s.model; axis_map = s.axis_map; corner = s.corner } };

    ghost invariant = { λ s. IsNearOrigin 64032768 s.corner };

    ghost inverse = { λ s. record { model = s.model; axis_map = s.axis_map; corner = s.corner } };
}

impl ModelInstance {
    // Whether both show one model, turned alike.
    pub(crate) fn is_alike(&self, other: &ModelInstance) -> bool
        ensures { IsTrue result
            → (self.now.model ≡ other.now.model) × (self.now.axis_map ≡ other.now.axis_map) }
    {
        self.model == other.model && self.axis_map.is_same(&other.axis_map)
    }
}

// What stands where in the scene of these nodes: each model by itself where there are none.
pub(crate) fn place_models(
    alloc: Global,
    models: &Models,
    nodes: &Nodes<'_>,
) -> Result<Vec<ModelInstance>, SceneFault>
    requires { AreModels models.now }
    ensures { (list : List Node) → FindsNodes list nodes.now → MatchResult result
        (λ instanced. GivesInstances models.now (instances_of models.now list) (Ok instanced.items))
        (λ fault. GivesInstances models.now (instances_of models.now list) (Err fault)) }
{
    if !nodes.is_any {
        return alone(alloc, models);
    }
    let mut walk = Walk {
        visited: 0,
        placed: Vec::new(alloc),
    };
    let number = models.list.len() as u32;
    if let Err(fault) = visit(nodes, number, 64, &identity_pose(), 0, &mut walk) {
        return Err(fault);
    }
    let Walk { placed, .. } = walk;
    match place_all(alloc, models, placed.as_slice()) {
        Ok(instanced) => Ok(instanced),
        Err(_) => Err(SceneFault::Memory),
    }
}

// Each model at the corner, unturned.
fn alone(alloc: Global, models: &Models) -> Result<Vec<ModelInstance>, SceneFault>
    requires { AreModels models.now }
    ensures { MatchResult result
        (λ instanced. GivesInstances models.now (instances_of models.now []) (Ok instanced.items))
        (λ fault. GivesInstances models.now (instances_of models.now []) (Err fault)) }
{
    let mut instanced = Vec::new(alloc);
    for model in 0..models.list.len() {
        instanced.push(ModelInstance {
            model: model as u32,
            axis_map: no_rotation(),
            corner: Vector { x: 0, y: 0, z: 0 },
        })?;
    }
    Ok(instanced)
}

// Where each of these placed models stands.
fn place_all(
    alloc: Global,
    models: &Models,
    placed: &[Placed],
) -> Result<Vec<ModelInstance>, Memory>
    ensures { IfOk result (λ instanced. map (instance_at models.now) instanced.items
        ≡ map (instance_of models.now) placed.now) }
{
    let mut instanced = Vec::with_capacity(alloc, placed.len())?;
    for one in placed {
        instanced.push(place_one(models, one))?;
    }
    Ok(instanced)
}

fn place_one(models: &Models, placed: &Placed) -> ModelInstance
    ensures { instance_at models.now result ≡ instance_of models.now placed.now }
{
    let size = match models.list.get(placed.model as usize) {
        Some(model) => model.size,
        None => Cell { x: 0, y: 0, z: 0 },
    };
    ModelInstance {
        model: placed.model,
        axis_map: placed.pose.axis_map,
        corner: corner_of(&placed.pose.at, rotated_size(&placed.pose.axis_map, size)),
    }
}

// The size of a turned model.
pub(crate) fn rotated_size(axis_map: &Rotation, size: Cell) -> Cell
    ensures { result ≡ rotated_size axis_map.now size }
{
    Cell {
        x: extent_at(axis_map.x.column, size),
        y: extent_at(axis_map.y.column, size),
        z: extent_at(axis_map.z.column, size),
    }
}

pub(crate) fn extent_at(axis: Axis, size: Cell) -> u16
    ensures { result ≡ extent_at axis size }
{
    match axis {
        Axis::X => size.x,
        Axis::Y => size.y,
        Axis::Z => size.z,
    }
}

fn corner_of(at: &Vector, size: Cell) -> Vector
    requires { IsNearOrigin 64000000 at.now }
    ensures value { result ≡ instance_corner at.now size }
    ensures within { IsNearOrigin 64032768 result }
{
    Vector {
        x: back(at.x, size.x),
        y: back(at.y, size.y),
        z: back(at.z, size.z),
    }
}

// Half of a size back, rounded down.
fn back(at: i32, size: u16) -> i32
    requires low { neg_ℤ (pos 64000000) ≤ℤ at }
    requires high { at ≤ℤ pos 64000000 }
    ensures value { result ≡ at -ℤ pos (size / 2) }
    ensures low { neg_ℤ (pos 64032768) ≤ℤ result }
    ensures high { result ≤ℤ pos 64032768 }
{
    at - i32::from(size / 2)
}

// The least corner of all instances; nothing is told where there are none.
pub(crate) fn least_corner(instanced: &[ModelInstance]) -> Vector
    ensures { (models : List Content)
        → IsLeastCorner (map (instance_at models) instanced.now) result }
{
    Vector {
        x: least_entry(instanced, Axis::X),
        y: least_entry(instanced, Axis::Y),
        z: least_entry(instanced, Axis::Z),
    }
}

// The least entry of all corners on an axis.
fn least_entry(instanced: &[ModelInstance], axis: Axis) -> i32
    ensures { (models : List Content) → IsLeast (λ s. entry_on axis s.corner)
        (map (instance_at models) instanced.now) result }
{
    let mut least: i32 = 0;
    let mut any = false;
    for one in instanced {
        let entry = one.corner.entry(axis);
        least = lesser(any, least, entry);
        any = true;
    }
    least
}

// The lesser one of the least so far, where there is any, and an entry.
fn lesser(any: bool, least: i32, entry: i32) -> i32
    ensures { IsLesser any least entry result }
{
    if !any {
        return entry;
    }
    if entry < least {
        return entry;
    }
    least
}
