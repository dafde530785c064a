//! The scene of a file.
ghost use Rattle.std.specs.Prelude.{◌≡◌, ◌≤◌, ◌<◌, ◌+◌, ◌++◌, ◌^◌, pos, ◌+ℤ◌, ◌≤ℤ◌, List, length, map, take, All, IfOk, IfErr, IfSome, IsTrue, OnOk, OnErr, MatchOption, Ok};
ghost use Rattle.std.specs.List.{AllZip};
ghost use Rattle.vox_read.specs.Contents.{Content, AreModels};
ghost use Rattle.vox_read.specs.Files.{HasModels};
ghost use Rattle.vox_scene.specs.Placing.{instance_at, IsRotated, AreRotated, IsPlaced};
ghost use Rattle.vox_write.specs.Written.{chunks_length, models_file};
ghost use Rattle.vox_scene.specs.Scenes.{HasInstances, HasScene, IsSceneOf, HasLarge, RefusesScene};
ghost use Rattle.vox_scene.specs.Sound.{IsSound, IsInstanceWithin};

use crate::faults::SceneFault;
use crate::model_instances::{ModelInstance, least_corner, place_models};
use crate::painting::turned;
use crate::reading::read_nodes;
use crate::rotations::Vector;
use crate::sides::{cells_of, least_side};
use crate::sizes::scene_length;
use std::alloc::Global;
use std::marker::Model;
use vox_read::{Models, read_models};
use vox_write::write_models;
use vw_cell::{Cell, Memory, Side};

/// A scene: the least world that holds it, the turned models, and where each stands.
#[derive(Drop)]
pub struct Scene {
    pub side: Side,
    pub models: Models,
    pub places: Vec<Cell>,
}

impl Model for Scene {
    ghost use Rattle.vox_scene.specs.Scenes.{SceneState};

    ghost Value = { SceneState };

    ghost view = { λ s. record { side = s.side; models = s.models; places = s.places.items } };
}

/// Appends the VOX file of a scene's models, one for each place, with their voxels in order. `into`
/// is as it was where there is no memory for that.
pub fn scene_bytes(scene: &Scene, into: &mut Vec<u8>) -> Result<(), Memory>
    requires short { 20 + chunks_length scene.now.models ≤ 2 ^ 28 }
    ensures written { OnOk result
        (into.new.items ≡ into.old.items ++ models_file scene.now.models) }
    ensures refused { OnErr result (into.new.items ≡ into.old.items) }
{
    write_models(scene.models.list.as_slice(), into)
}

/// The most bytes of a file.
const BYTES: u64 = 268_435_456;

/// Reads the scene of a file whose models can be read, or tells its first fault.
///
/// Want of memory may come in place of any answer.
pub fn read_scene(alloc: Global, bytes: &[u8]) -> Result<Scene, SceneFault>
    requires short { length bytes.now ≤ 2 ^ 28 }
    requires accepted { (models : List Content) × HasModels bytes.now models }
    ensures read { IfOk result (λ scene. HasScene bytes.now scene) }
    ensures models { IfOk result (λ scene. AreModels scene.models) }
    ensures short { IfOk result (λ scene. 20 + chunks_length scene.models ≤ 2 ^ 28) }
    ensures refused { IfErr result (λ fault. RefusesScene fault bytes.now) }
{
    // what can be read is refused for want of memory alone
    let Ok(models) = read_models(alloc, bytes) else {
        return Err(SceneFault::Memory);
    };
    let instanced = match file_stands(alloc, bytes, &models) {
        Ok(instanced) => instanced,
        Err(fault) => return Err(fault),
    };
    match scene_of(alloc, &models, instanced.as_slice()) {
        Ok(Some(scene)) => Ok(scene),
        Ok(None) => Err(SceneFault::TooLarge),
        Err(_) => Err(SceneFault::Memory),
    }
}

// What stands where by the nodes of a file with these models.
fn file_stands(
    alloc: Global,
    bytes: &[u8],
    models: &Models,
) -> Result<Vec<ModelInstance>, SceneFault>
    requires short { length bytes.now ≤ 2 ^ 28 }
    requires models { AreModels models.now }
    requires has { HasModels bytes.now models.now }
    ensures stand { IfOk result
        (λ instanced. HasInstances bytes.now (Ok (map (instance_at models.now) instanced.items))) }
    ensures few { IfOk result (λ instanced. length instanced.items ≤ 1024) }
    ensures sound { IfOk result
        (λ instanced. All IsSound (map (instance_at models.now) instanced.items)) }
    ensures refused { IfErr result (λ fault. RefusesScene fault bytes.now) }
{
    let nodes = match read_nodes(alloc, bytes) {
        Ok(nodes) => nodes,
        Err(fault) => return Err(fault),
    };
    match place_models(alloc, models, &nodes) {
        Ok(instanced) => Ok(instanced),
        Err(fault) => Err(fault),
    }
}

// The scene of these instances; none where it is too large.
fn scene_of(
    alloc: Global,
    models: &Models,
    instanced: &[ModelInstance],
) -> Result<Option<Scene>, Memory>
    requires models { AreModels models.now }
    requires few { length instanced.now ≤ 1024 }
    requires sound { All IsSound (map (instance_at models.now) instanced.now) }
    ensures scene { IfOk result (λ found. MatchOption found
        (HasLarge (map (instance_at models.now) instanced.now))
        (λ scene. IsSceneOf (map (instance_at models.now) instanced.now) scene)) }
    ensures models { IfOk result (λ found. IfSome found (λ scene. AreModels scene.models)) }
    ensures short { IfOk result
        (λ found. IfSome found (λ scene. 20 + chunks_length scene.models ≤ 2 ^ 28)) }
{
    let least = least_corner(instanced);
    let Some(exponent) = least_side(models, &least, instanced) else {
        return Ok(None);
    };
    if scene_length(alloc, models, instanced)? > BYTES {
        return Ok(None);
    }
    let side = side_of(exponent);
    let list = rotated_models(alloc, models, instanced)?;
    // the length was counted by cells; were this one greater, it would be told as want of memory
    if !is_short(list.as_slice()) {
        return Err(Memory);
    }
    let places = places_of(alloc, models, &least, instanced)?;
    Ok(Some(Scene {
        side,
        models: Models { list },
        places,
    }))
}

// Whether the file of these models has at most 2^28 bytes.
fn is_short(models: &[vox_read::Model]) -> bool
    ensures { IsTrue result → 20 + chunks_length models.now ≤ 2 ^ 28 }
{
    let mut length: usize = 20;
    for model in models {
        let voxels = model.voxels.len();
        if voxels > 1 << 26 {
            return false;
        }
        length += 40 + 4 * voxels;
        if length > 1 << 28 {
            return false;
        }
    }
    true
}

// The side of this exponent.
fn side_of(exponent: u8) -> Side
    requires low { 2 ≤ exponent }
    requires high { exponent ≤ 12 }
    ensures { result ≡ exponent }
{
    match Side::new(cells_of(exponent)) {
        Some(side) => side,
        None => unreachable!(),
    }
}

// The turned models.
fn rotated_models(
    alloc: Global,
    models: &Models,
    instanced: &[ModelInstance],
) -> Result<Vec<vox_read::Model>, Memory>
    requires sound { All IsSound (map (instance_at models.now) instanced.now) }
    ensures { IfOk result
        (λ list. AreRotated (map (instance_at models.now) instanced.now) list.items) }
{
    let mut list = Vec::new(alloc);
    for one in instanced {
        let model = rotated_model(alloc, models, instanced, list.as_slice(), one)?;
        list.push(model)?;
    }
    Ok(list)
}

// The turned model of an instance, where those of the first instances are known: what stands alike
// is turned once.
fn rotated_model(
    alloc: Global,
    models: &Models,
    instanced: &[ModelInstance],
    known: &[vox_read::Model],
    one: &ModelInstance,
) -> Result<vox_read::Model, Memory>
    requires sound { IsSound (instance_at models.now one.now) }
    requires known { AreRotated
        (map (instance_at models.now) (take (length known.now) instanced.now)) known.now }
    ensures { IfOk result
        (λ m. IsRotated (instance_at models.now one.now).model one.now.axis_map m) }
{
    if let Some(model) = known_rotated(instanced, known, one) {
        return copied(alloc, model);
    }
    let Some(model) = models.list.get(one.model as usize) else {
        unreachable!()
    };
    turned(alloc, model, &one.axis_map)
}

// The turned model of the first of some instances that shows the same model turned alike.
fn known_rotated<'a>(
    instanced: &[ModelInstance],
    known: &'a [vox_read::Model],
    one: &ModelInstance,
) -> Option<&'a vox_read::Model>
    ensures { (models : List Content)
        → AreRotated (map (instance_at models) (take (length known.now) instanced.now)) known.now
        → IfSome result
        (λ m. IsRotated (instance_at models one.now).model one.now.axis_map m.now) }
{
    match (instanced, known) {
        ([first, others @ ..], [model, more @ ..]) => {
            if first.is_alike(one) {
                return Some(model);
            }
            known_rotated(others, more, one)
        }
        _ => None,
    }
}

fn copied(alloc: Global, model: &vox_read::Model) -> Result<vox_read::Model, Memory>
    ensures { IfOk result (λ m. m ≡ model.now) }
{
    let voxels = Vec::from_slice(alloc, model.voxels.as_slice())?;
    Ok(vox_read::Model {
        size: model.size,
        voxels,
    })
}

// Where all instances stand, told from the least corner.
fn places_of(
    alloc: Global,
    models: &Models,
    least: &Vector,
    instanced: &[ModelInstance],
) -> Result<Vec<Cell>, Memory>
    requires { All (IsInstanceWithin least.now) (map (instance_at models.now) instanced.now) }
    ensures { IfOk result (λ places. AllZip (IsPlaced least.now)
        (map (instance_at models.now) instanced.now) places.items) }
{
    let mut places = Vec::new(alloc);
    for one in instanced {
        places.push(place_of(models, least, one))?;
    }
    Ok(places)
}

fn place_of(models: &Models, least: &Vector, one: &ModelInstance) -> Cell
    requires { IsInstanceWithin least.now (instance_at models.now one.now) }
    ensures { IsPlaced least.now (instance_at models.now one.now) result }
{
    Cell {
        x: past(least.x, one.corner.x),
        y: past(least.y, one.corner.y),
        z: past(least.z, one.corner.z),
    }
}

// How far an entry is past the least one.
fn past(least: i32, entry: i32) -> u16
    requires low { least ≤ℤ entry }
    requires high { entry ≤ℤ (least +ℤ pos 4096) }
    ensures { (least +ℤ pos result) ≡ entry }
{
    (i64::from(entry) - i64::from(least)) as u16
}
