ghost use Rattle.std.specs.Prelude.{◌≡◌, ◌≤◌, ◌+◌, ◌^◌, length, IfOk, IfErr};
ghost use Rattle.vox_write.specs.Written.{chunks_length};
ghost use Rattle.commands.specs.Scenes.{TellsScene, PlacesText, RefusesPlacing, scene_means};
ghost use Rattle.commands.specs.Meanings.{file_in};
ghost use Rattle.commands.specs.Outcomes.{Outcome};

use crate::inputs::VOX_LIMIT;
use crate::puts::put_out;
use crate::refusals::{CommandRefused, TextRefused};
use requests::SceneOrder;
use std::alloc::Global;
use vox_read::read_models;
use vox_scene::{Scene, read_scene, scene_bytes, stamp_text};
use vw_cell::Memory;
use vw_io::{Input, Output, Shelf, Text, read_all};

/// How many cells the side of the least world has that holds a scene, and how many models stand in
/// it.
#[derive(Clone, Copy, Debug, PartialEq, Eq)]
pub struct SceneTally {
    pub side: u32,
    pub placements: u64,
}

/// What is told and written of a scene.
#[derive(Drop)]
struct Placement {
    tally: SceneTally,
    models: Vec<u8>,
    script: Vec<u8>,
}

/// Reads the scene of a VOX file, of at most 256 MiB, and writes its turned models as a VOX file
/// and the script of their stamps.
#[tactic(auto, using(crate::proofs::Accepting::file_within, crate::proofs::Placing::not_placed, crate::proofs::Placing::scene_written))]
pub fn scene_file<'w, S: Shelf>(
    alloc: Global,
    order: &SceneOrder<'w>,
    shelf: &mut S,
) -> Result<SceneTally, CommandRefused<'w>>
    ensures outcome { Outcome (scene_means order.now) result (S.state shelf.old)
        (S.state shelf.new) }
{
    let inputs = [Input {
        name: order.file,
        limit: VOX_LIMIT,
    }];
    let texts = match read_all(alloc, &inputs, shelf) {
        Ok(texts) => texts,
        Err(refused) => return Err(CommandRefused::Input(refused)),
    };
    let placed = match scene_of_text(alloc, texts) {
        Ok(placed) => placed,
        Err(refused) => return Err(CommandRefused::Text(refused)),
    };
    let outputs = [
        Output {
            name: order.out,
            bytes: placed.models.as_slice(),
        },
        Output {
            name: order.script,
            bytes: placed.script.as_slice(),
        },
    ];
    match put_out(alloc, &outputs, shelf) {
        Ok(()) => Ok(placed.tally),
        Err(refused) => Err(CommandRefused::Output(refused)),
    }
}

// The scene by the one text.
fn scene_of_text(alloc: Global, texts: Vec<Text>) -> Result<Placement, TextRefused>
    requires one { length texts.items ≡ 1 }
    requires within { length (file_in texts.items) ≤ 2 ^ 28 }
    ensures placed { IfOk result
        (λ p. PlacesText (file_in texts.items) p.tally p.models.items p.script.items) }
    ensures refused { IfErr result (RefusesPlacing (file_in texts.items)) }
{
    let mut texts = texts;
    match texts.pop() {
        Some(file) => scene_of_file(alloc, file),
        None => unreachable!(),
    }
}

// The scene by a file. Its bytes are given back before the outputs are made.
#[tactic(auto, using(crate::proofs::Placing::vox_refused_at, crate::proofs::Placing::scene_refused, crate::proofs::Placing::scene_told))]
fn scene_of_file(alloc: Global, file: Text) -> Result<Placement, TextRefused>
    requires within { length file ≤ 2 ^ 28 }
    ensures placed { IfOk result (λ p. PlacesText file p.tally p.models.items p.script.items) }
    ensures refused { IfErr result (RefusesPlacing file) }
{
    if let Err(fault) = read_models(alloc, file.as_slice()) {
        return Err(TextRefused::from(fault));
    }
    let scene = match read_scene(alloc, file.as_slice()) {
        Ok(scene) => scene,
        Err(fault) => return Err(TextRefused::from(fault)),
    };
    drop(file);
    match placement_of(alloc, &scene) {
        Ok(placed) => Ok(placed),
        Err(_) => Err(TextRefused::Memory),
    }
}

// What is told and written of this scene.
fn placement_of(alloc: Global, scene: &Scene) -> Result<Placement, Memory>
    requires short { 20 + chunks_length scene.now.models ≤ 2 ^ 28 }
    ensures { IfOk result (λ p. TellsScene scene.now p.tally p.models.items p.script.items) }
{
    let mut models = Vec::new(alloc);
    scene_bytes(scene, &mut models)?;
    let script = stamp_text(alloc, scene.places.as_slice())?;
    let tally = SceneTally {
        side: scene.side.cells(),
        placements: scene.places.len() as u64,
    };
    Ok(Placement {
        tally,
        models,
        script,
    })
}
