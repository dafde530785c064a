ghost use Rattle.std.specs.Prelude.{◌≡◌, ◌≤◌, ◌^◌, length, IfOk, IfErr};
ghost use Rattle.vox_read.specs.Contents.{AreModels, cells_of_all};
ghost use Rattle.vox_read.specs.Files.{RefusesFile};
ghost use Rattle.commands.specs.Counts.{count_means, CountsFile};
ghost use Rattle.commands.specs.Meanings.{file_in};
ghost use Rattle.commands.specs.Outcomes.{Outcome};

use crate::inputs::VOX_LIMIT;
use crate::refusals::{CommandRefused, TextRefused};
use requests::FileName;
use std::alloc::Global;
use vox_read::{Models, VoxFault, cell_count, read_models};
use vw_cell::Memory;
use vw_io::{Input, Shelf, Text, read_all};

/// Counts the cells of all models of a VOX file, of at most 256 MiB. It writes nothing.
#[tactic(auto, using(crate::proofs::Accepting::file_within, crate::proofs::Counting::counted, crate::proofs::Counting::not_counted, crate::proofs::Refusing::vox_refused))]
pub fn count_file<'w, S: Shelf>(
    alloc: Global,
    file: FileName<'w>,
    shelf: &mut S,
) -> Result<u64, CommandRefused<'w>>
    ensures { Outcome (count_means file.entry) result (S.state shelf.old) (S.state shelf.new) }
{
    let inputs = [Input {
        name: file.text,
        limit: VOX_LIMIT,
    }];
    match read_all(alloc, &inputs, shelf) {
        Ok(texts) => match count_first(alloc, texts) {
            Ok(cells) => Ok(cells),
            Err(fault) => Err(CommandRefused::Text(TextRefused::from(fault))),
        },
        Err(refused) => Err(CommandRefused::Input(refused)),
    }
}

// The number of cells of the one text's models.
fn count_first(alloc: Global, texts: Vec<Text>) -> Result<u64, VoxFault>
    requires one { length texts.items ≡ 1 }
    requires within { length (file_in texts.items) ≤ 2 ^ 28 }
    ensures counted { IfOk result (CountsFile (file_in texts.items)) }
    ensures refused { IfErr result (λ fault. RefusesFile fault (file_in texts.items)) }
{
    let mut texts = texts;
    match texts.pop() {
        Some(file) => count_cells(alloc, file),
        None => unreachable!(),
    }
}

// The number of cells of a file's models. The text is given back before the cells are counted.
fn count_cells(alloc: Global, file: Text) -> Result<u64, VoxFault>
    requires { length file ≤ 2 ^ 28 }
    ensures counted { IfOk result (CountsFile file) }
    ensures refused { IfErr result (λ fault. RefusesFile fault file) }
{
    let models = read_models(alloc, file.as_slice())?;
    drop(file);
    total(alloc, &models).map_err(|_| VoxFault::Memory)
}

// The number of cells of all models, each counted by itself.
fn total(alloc: Global, models: &Models) -> Result<u64, Memory>
    requires { AreModels models.now }
    ensures { IfOk result (λ n. n ≡ cells_of_all models.now) }
{
    let mut cells: u64 = 0;
    for model in &models.list {
        cells += u64::from(cell_count(alloc, model)?);
    }
    Ok(cells)
}
