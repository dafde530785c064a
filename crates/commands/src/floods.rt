ghost use Rattle.std.specs.Prelude.{◌≡◌, ◌≤◌, ◌^◌, length, IfOk, IfErr, MatchOption};
ghost use Rattle.vox_read.specs.Contents.{AreModels};
ghost use Rattle.flood.specs.Models.{FloodsModel};
ghost use Rattle.commands.specs.Floods.{flood_start, IsFar, FloodsText, RefusesFlooding, RefusesStart, flood_means};
ghost use Rattle.commands.specs.Meanings.{file_in};
ghost use Rattle.commands.specs.Outcomes.{Outcome};

use crate::inputs::VOX_LIMIT;
use crate::puts::put_out;
use crate::refusals::{CommandRefused, TextRefused};
use flood::{RegionFile, model_region};
use requests::FloodOrder;
use std::alloc::Global;
use vox_read::{Models, read_models};
use vw_cell::Cell;
use vw_io::{Input, Output, Shelf, Text, read_all};

/// Floods a model of a VOX file, of at most 256 MiB, from a place, and writes the region's file.
#[tactic(auto, using(crate::proofs::Accepting::file_within, crate::proofs::Flooding::not_flooded, crate::proofs::Flooding::flooded))]
pub fn flood_file<'w, S: Shelf>(
    alloc: Global,
    order: &FloodOrder<'w>,
    shelf: &mut S,
) -> Result<u64, CommandRefused<'w>>
    ensures outcome { Outcome (flood_means order.now) result (S.state shelf.old)
        (S.state shelf.new) }
{
    let inputs = [Input {
        name: order.file,
        limit: VOX_LIMIT,
    }];
    let texts = match read_all(alloc, &inputs, shelf) {
        Ok(texts) => texts,
        Err(refused) => return Err(CommandRefused::Input(refused)),
    };
    let region = match region_of_text(alloc, order, texts) {
        Ok(region) => region,
        Err(refused) => return Err(CommandRefused::Text(refused)),
    };
    let outputs = [Output {
        name: order.out,
        bytes: region.file.as_slice(),
    }];
    match put_out(alloc, &outputs, shelf) {
        Ok(()) => Ok(u64::from(region.cells)),
        Err(refused) => Err(CommandRefused::Output(refused)),
    }
}

// The region by the one text.
fn region_of_text(
    alloc: Global,
    order: &FloodOrder<'_>,
    texts: Vec<Text>,
) -> Result<RegionFile, TextRefused>
    requires one { length texts.items ≡ 1 }
    requires within { length (file_in texts.items) ≤ 2 ^ 28 }
    ensures region { IfOk result
        (λ r. FloodsText order.now (file_in texts.items) r.cells r.file.items) }
    ensures refused { IfErr result (RefusesFlooding order.now (file_in texts.items)) }
{
    let mut texts = texts;
    match texts.pop() {
        Some(file) => region_of_file(alloc, order, file),
        None => unreachable!(),
    }
}

// The region by a file. Its bytes are given back before the model is stamped.
#[tactic(auto, using(crate::proofs::Flooding::file_refused, crate::proofs::Flooding::models_refused))]
fn region_of_file(
    alloc: Global,
    order: &FloodOrder<'_>,
    file: Text,
) -> Result<RegionFile, TextRefused>
    requires within { length file ≤ 2 ^ 28 }
    ensures region { IfOk result (λ r. FloodsText order.now file r.cells r.file.items) }
    ensures refused { IfErr result (RefusesFlooding order.now file) }
{
    let models = match read_models(alloc, file.as_slice()) {
        Ok(models) => models,
        Err(fault) => return Err(TextRefused::from(fault)),
    };
    drop(file);
    match region_in(alloc, order, &models) {
        Ok(region) => Ok(region),
        Err(refused) => Err(refused),
    }
}

// The region in one of these models.
#[tactic(auto, using(crate::proofs::Flooding::far_place, crate::proofs::Flooding::flood_refused))]
fn region_in(
    alloc: Global,
    order: &FloodOrder<'_>,
    models: &Models,
) -> Result<RegionFile, TextRefused>
    requires models { AreModels models.now }
    ensures region { IfOk result
        (λ r. FloodsModel models.now order.now.model (flood_start order.now)
        r.cells r.file.items) }
    ensures refused { IfErr result (RefusesStart order.now models.now) }
{
    let Some(from) = start(order) else {
        return Err(TextRefused::NoPlace);
    };
    match model_region(alloc, models, order.model, from) {
        Ok(Some(region)) => Ok(region),
        Ok(None) => Err(TextRefused::NoPlace),
        Err(refused) => Err(TextRefused::from(refused)),
    }
}

// The place from which is flooded, where a model can have it.
fn start(order: &FloodOrder<'_>) -> Option<Cell>
    ensures { MatchOption result (IsFar order.now) (λ c. c ≡ flood_start order.now) }
{
    if order.x > 255 || order.y > 255 || order.z > 255 {
        return None;
    }
    Some(Cell {
        x: order.x as u16,
        y: order.y as u16,
        z: order.z as u16,
    })
}
