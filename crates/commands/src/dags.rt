ghost use Rattle.std.specs.Prelude.{◌≡◌, ◌+◌, ◌≤◌, ◌^◌, length, IfOk, IfErr};
ghost use Rattle.commands.specs.Dags.{MakesDag, RefusesDagging, dag_means, journal_in};
ghost use Rattle.commands.specs.Meanings.{file_in};
ghost use Rattle.commands.specs.Outcomes.{Outcome};

use crate::inputs::{SCRIPT_LIMIT, VOX_LIMIT};
use crate::journals::read_journal_history;
use crate::puts::put_out;
use crate::refusals::{CommandRefused, TextRefused};
use dag_answers::{HistoryRefused, file_of_history};
use requests::DagOrder;
use std::alloc::Global;
use vox_read::read_models;
use vw_io::{Input, Output, Shelf, Text, read_all};

/// Replays a journal of at most 8 MiB over the models of a VOX file of at most 256 MiB, and writes
/// the versions without a mark as one file.
#[tactic(auto, using(crate::proofs::Accepting::file_within, crate::proofs::Dagging::no_dag, crate::proofs::Dagging::dag_written))]
pub fn dag_file<'w, S: Shelf>(
    alloc: Global,
    order: &DagOrder<'w>,
    shelf: &mut S,
) -> Result<(), CommandRefused<'w>>
    ensures outcome { Outcome (dag_means order.now) result (S.state shelf.old)
        (S.state shelf.new) }
{
    let inputs = [
        Input {
            name: order.file,
            limit: VOX_LIMIT,
        },
        Input {
            name: order.journal,
            limit: SCRIPT_LIMIT,
        },
    ];
    let texts = match read_all(alloc, &inputs, shelf) {
        Ok(texts) => texts,
        Err(refused) => return Err(CommandRefused::Input(refused)),
    };
    let dag = match dag_of_texts(alloc, texts) {
        Ok(dag) => dag,
        Err(refused) => return Err(CommandRefused::Text(refused)),
    };
    let outputs = [Output {
        name: order.out,
        bytes: dag.as_slice(),
    }];
    match put_out(alloc, &outputs, shelf) {
        Ok(()) => Ok(()),
        Err(refused) => Err(CommandRefused::Output(refused)),
    }
}

// The file by the two texts.
fn dag_of_texts(alloc: Global, texts: Vec<Text>) -> Result<Vec<u8>, TextRefused>
    requires two { length texts.items ≡ 2 }
    requires within { length (file_in texts.items) ≤ 2 ^ 28 }
    ensures makes { IfOk result
        (λ dag. MakesDag (file_in texts.items) (journal_in texts.items) dag.items) }
    ensures refused { IfErr result
        (RefusesDagging (file_in texts.items) (journal_in texts.items)) }
{
    let mut texts = texts;
    let file = texts.remove(0);
    let journal = texts.remove(0);
    dag_of(alloc, file, journal)
}

// The file by a VOX file and a journal. Each text is given back once it is read.
#[tactic(auto, using(dag_answers::proofs::ToldLaws::told_marks, dag_answers::proofs::LegalLaws::legal_whole, crate::proofs::Dagging::line_refused, crate::proofs::Dagging::file_refused, crate::proofs::Dagging::illegal_refused, crate::proofs::Dagging::full_refused, crate::proofs::Dagging::makes_dag))]
fn dag_of(alloc: Global, file: Text, journal: Text) -> Result<Vec<u8>, TextRefused>
    requires within { length file ≤ 2 ^ 28 }
    ensures makes { IfOk result (λ dag. MakesDag file journal dag.items) }
    ensures refused { IfErr result (RefusesDagging file journal) }
{
    let models = match read_models(alloc, file.as_slice()) {
        Ok(models) => models,
        Err(fault) => return Err(TextRefused::from(fault)),
    };
    drop(file);
    let history = match read_journal_history(alloc, journal.as_slice()) {
        Ok(history) => history,
        Err(fault) => return Err(TextRefused::from(fault)),
    };
    drop(journal);
    match file_of_history(alloc, &history, models) {
        Ok(dag) => Ok(dag),
        // a record's line comes behind the two first ones
        Err(HistoryRefused::Illegal(number)) => Err(TextRefused::Journal(number + 2)),
        Err(HistoryRefused::Full(full)) => Err(TextRefused::StoreFull(full)),
        Err(HistoryRefused::Memory) => Err(TextRefused::Memory),
    }
}
