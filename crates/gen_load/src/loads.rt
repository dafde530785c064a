ghost use Rattle.std.specs.Prelude.{◌≡◌, ◌^◌, ◌∷◌, [], Ok, IfOk, map};
ghost use Rattle.vox_read.specs.Files.{ReadsModels};
ghost use Rattle.vox_write.specs.Written.{model_file};
ghost use Rattle.gen_load.specs.Loads.{load_model, load_scripts, scripts_from};
ghost use Rattle.gen_load.specs.RegionLaws.{EditsLieInRegions};

use crate::generator::Generator;
use crate::inputs::Load;
use crate::scripts::next_script;
use crate::voxels::{SIZE, next_voxels};
use std::alloc::Global;
use vox_write::write_model;
use vw_cell::{Memory, Side};

/// How many voxels the model has.
const VOXELS: u16 = 4000;

/// How many regions the world is cut into along x, each of 64 cells.
const REGIONS: u16 = 4;

/// The load of this number: a world of side 256, a file of one model of 4,000 voxels, and four
/// scripts of 200 edits and a count, one for each quarter of the world along x.
pub fn load(alloc: Global, n: u32) -> Result<Load, Memory>
    ensures side { IfOk result (λ l. 2 ^ l.side ≡ 256) }
    ensures vox { IfOk result (λ l. l.vox ≡ model_file (load_model n)) }
    ensures scripts { IfOk result (λ l. l.scripts ≡ load_scripts n) }
    ensures reads { IfOk result (λ l. ReadsModels l.vox (Ok (load_model n ∷ []))) }
{
    let mut numbers = Generator::new(n);
    let voxels = next_voxels(alloc, &mut numbers, VOXELS)?;
    let mut vox = Vec::new(alloc);
    write_model(SIZE, &voxels, &mut vox)?;
    let scripts = next_scripts(alloc, &mut numbers)?;
    Ok(Load {
        side: side(),
        vox,
        scripts,
    })
}

/// A law: every edit of a load lies in its region of the world, with all the cells that it can
/// change.
#[tactic(auto, using(crate::specs::RegionLaws::edits_lie_in_regions))]
pub fn edits_keep_to_their_regions()
    ensures { EditsLieInRegions }
{}

// The next script of each region.
fn next_scripts(alloc: Global, numbers: &mut Generator) -> Result<Vec<Vec<u8>>, Memory>
    ensures { IfOk result
        (λ scripts. map (λ s. s.items) scripts.items ≡ scripts_from numbers.old 4) }
{
    let mut scripts = Vec::with_capacity(alloc, usize::from(REGIONS))?;
    for region in 0..REGIONS {
        scripts.push(next_script(alloc, numbers, 64 * region)?)?;
    }
    Ok(scripts)
}

// The side of the load's world.
fn side() -> Side
    ensures { 2 ^ result ≡ 256 }
{
    match Side::new(256) {
        Some(side) => side,
        None => unreachable!(),
    }
}
