//! The world that stands behind a VOX file's scene: its turned models are stamped where they stand.
ghost use Rattle.std.specs.Prelude.{◌≡◌, ◌↔◌, ◌^◌, ◌≤◌, ◌<◌, List, length, IfOk, IfErr, IsTrue, OnOk};
ghost use Rattle.vox_read.specs.Contents.{Content, AreModels};
ghost use Rattle.vox_read.specs.Files.{HasModels};
ghost use Rattle.vox_scene.specs.Scenes.{HasScene};
ghost use Rattle.store_run.specs.Kept.{IsLargeStore};
ghost use Rattle.voxdag_c.specs.held.Calls.{AreSideAndCap};
ghost use Rattle.voxdag_c.specs.held.Scenes.{IsBehindScene, IsSceneAsked, IsSceneOpen, IsStoreOf, PutsSceneFault, RefusesSceneIn, RefusesStamps, RefusesToOpen, RefusesVox, fault_told, side_asked, stamp_record, stamps_from, stamps_status, stands_told};

use crate::held::openings::is_cap_asked;
use crate::held::statuses as status;
use crate::held::worlds::{CWorld, MOST_BYTES, act_of_kind, boxed, plan_of, status_of_file};
use dag_answers::{HistoryRefused, world_of_history};
use history_model::{Act, History, Record};
use node_words::Plan;
use std::alloc::Global;
use vox_read::read_models;
use vox_scene::{Scene, SceneFault, read_scene};
use vw_cell::{Cell, Memory};

/// What C is told of a scene: how many models stand in it; or the number of what is wrong with it,
/// and where.
#[repr(C)]
#[derive(Clone, Copy)]
pub struct CScene {
    pub placements: u32,
    pub kind: u32,
    pub at: u32,
}

impl CWorld {
    /// The world of a file's scene, of this side, 0 for the least that holds it, with tints or
    /// without, with this number of slots of a bucket, 0 for the usual one, and from now on with so
    /// many of its last versions kept, 0 for all. What stands there is told, or the scene's first
    /// fault. The box is made last.
    pub fn from_scene(
        alloc: Global,
        side: u32,
        cap: u16,
        keep: u32,
        tint: bool,
        file: &[u8],
        told: &mut CScene,
    ) -> Result<Box<CWorld, Global>, u32>
        ensures opened { IfOk result (λ b. IsSceneOpen tint side cap keep file.now b.value) }
        ensures told { IfOk result (λ b. told.new ≡ stands_told b.value) }
        ensures refused { IfErr result (RefusesToOpen tint side cap file.now told.old told.new) }
    {
        if !is_scene_asked(side, cap, tint) {
            return Err(status::BAD_PLAN);
        }
        let scene = match scene_of_file(alloc, file, told) {
            Ok(scene) => scene,
            Err(status) => return Err(status),
        };
        let plan = match plan_of(cells_asked(side, &scene), cap, tint) {
            Some(plan) => plan,
            None => return Err(status::OUTSIDE),
        };
        match behind_scene(alloc, &plan, keep, tint, scene) {
            Ok(world) => boxed_and_told(alloc, world, told),
            Err(status) => Err(status),
        }
    }
}

// Whether a world can have this side, where it isn't 0, and its buckets so many slots.
fn is_scene_asked(side: u32, cap: u16, tint: bool) -> bool
    ensures { IsTrue result ↔ IsSceneAsked tint side cap }
{
    if side == 0 {
        return is_cap_asked(cap);
    }
    is_planned(side, cap, tint)
}

fn is_planned(side: u32, cap: u16, tint: bool) -> bool
    ensures { IsTrue result ↔ AreSideAndCap tint side cap }
{
    match plan_of(side, cap, tint) {
        Some(_) => true,
        None => false,
    }
}

// The side that is asked for, in cells: 0 asks for the least that holds the scene.
#[tactic(auto, using(crate::proofs::OfHeld::Scenes::least_asked, crate::proofs::OfHeld::Scenes::given_asked))]
fn cells_asked(side: u32, scene: &Scene) -> u32
    ensures { result ≡ side_asked side scene.now.side }
{
    if side == 0 {
        return scene.side.cells();
    }
    side
}

// The scene of a file that has one; else its first fault is told.
fn scene_of_file(alloc: Global, file: &[u8], told: &mut CScene) -> Result<Scene, u32>
    ensures scene { IfOk result (λ scene. HasScene file.now scene) }
    ensures models { IfOk result (λ scene. AreModels scene.models) }
    ensures few { IfOk result (λ scene. length scene.places ≤ 1024) }
    ensures same { IfOk result (λ _. told.new ≡ told.old) }
    ensures refused { IfErr result (RefusesSceneIn file.now told.old told.new) }
{
    if let Err(status) = find_models(alloc, file) {
        return Err(status);
    }
    match read_scene(alloc, file) {
        Ok(scene) => Ok(scene),
        Err(fault) => Err(put_scene_fault(fault, told)),
    }
}

// Whether the bytes have models, and else why not.
fn find_models(alloc: Global, file: &[u8]) -> Result<(), u32>
    ensures short { OnOk result (length file.now ≤ 2 ^ 28) }
    ensures has { OnOk result ((models : List Content) × HasModels file.now models) }
    ensures refused { IfErr result (RefusesVox file.now) }
{
    if file.len() > MOST_BYTES {
        return Err(status::BAD_FILE);
    }
    match read_models(alloc, file) {
        Ok(_models) => Ok(()),
        Err(fault) => Err(status_of_file(fault)),
    }
}

// Tells a scene's first fault.
fn put_scene_fault(fault: SceneFault, told: &mut CScene) -> u32
    ensures { PutsSceneFault fault told.old told.new result }
{
    match fault {
        SceneFault::Memory => status::NO_MEMORY,
        other => {
            *told = told_fault(other);
            status::BAD_SCENE
        }
    }
}

fn told_fault(fault: SceneFault) -> CScene
    ensures { result ≡ fault_told fault }
{
    let kind = u32::from(fault.kind());
    let at = fault.at();
    CScene {
        placements: 0,
        kind,
        at,
    }
}

// The world in whose store of this plan the models of a scene were stamped.
fn behind_scene(
    alloc: Global,
    plan: &Plan,
    keep: u32,
    tint: bool,
    scene: Scene,
) -> Result<CWorld, u32>
    requires models { AreModels scene.models }
    requires few { length scene.places ≤ 1024 }
    requires large { IsLargeStore tint plan.now.side }
    ensures behind { IfOk result (IsBehindScene tint plan.now keep scene) }
    ensures refused { IfErr result (RefusesStamps tint plan.now scene) }
{
    let records = match stamps_of(alloc, tint, scene.places.as_slice()) {
        Ok(records) => records,
        Err(_) => return Err(status::NO_MEMORY),
    };
    let line = scene.places.len() as u32 + 1;
    let history = History {
        side: plan.side(),
        coloured: tint,
        records,
        marks: Vec::new(alloc),
    };
    match world_of_history(alloc, &history, scene.models, plan) {
        Ok(open) => Ok(CWorld { open, keep, line }),
        Err(why) => Err(status_of_stamps(why)),
    }
}

// The stamps of the models, each where it stands.
#[tactic(auto, using(crate::proofs::OfHeld::Scenes::stamps_taken))]
fn stamps_of(alloc: Global, tint: bool, places: &[Cell]) -> Result<Vec<Record>, Memory>
    requires few { length places.now ≤ 1024 }
    ensures { IfOk result (λ stamps. stamps.items ≡ stamps_from tint 0 places.now) }
{
    let mut stamps = Vec::new(alloc);
    for i in 0..places.len() {
        stamps.push(stamp_record(tint, i, places[i]))?;
    }
    Ok(stamps)
}

fn stamp_record(tint: bool, number: usize, at: Cell) -> Record
    requires few { number < 1024 }
    ensures { result ≡ stamp_record tint number at }
{
    let act = act_of_kind(tint, Act::Stamp(number as u16, at));
    Record {
        session: 0,
        line: number as u32 + 1,
        act,
    }
}

fn status_of_stamps(why: HistoryRefused) -> u32
    ensures { result ≡ stamps_status why }
{
    match why {
        HistoryRefused::Illegal(_) => status::OUTSIDE,
        HistoryRefused::Full(_) => status::STORE_FULL,
        HistoryRefused::Memory => status::NO_MEMORY,
    }
}

// Boxes the world, and tells how many models stand in it.
fn boxed_and_told(
    alloc: Global,
    world: CWorld,
    told: &mut CScene,
) -> Result<Box<CWorld, Global>, u32>
    ensures value { IfOk result (λ b. b.value ≡ world) }
    ensures told { IfOk result (λ b. told.new ≡ stands_told b.value) }
    ensures refused { IfErr result (λ status. (status ≡ 2) × (told.new ≡ told.old)) }
{
    let placements = world.open.moment();
    match boxed(alloc, world) {
        Ok(world) => {
            *told = CScene {
                placements,
                kind: 0,
                at: 0,
            };
            Ok(world)
        }
        Err(status) => Err(status),
    }
}
