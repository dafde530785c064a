//! What a run writes, one output after the other. Saved files are made one at a time.
ghost use Rattle.std.specs.Prelude.{◌≡◌, ◌≤◌, ◌<◌, ◌++◌, All, length, map, take, drop, string_bytes, IfOk, OnOk};
ghost use Rattle.std.specs.Option.{option_map};
ghost use Rattle.transcript.specs.Lines.{transcript_of};
ghost use Rattle.world_run.specs.Open.{file_of_save, RunState};
ghost use Rattle.script_files.specs.Requests.{named_texts, saved_output, wanted_output};
ghost use Rattle.commands.specs.Inputs.{transcript_name};
ghost use Rattle.commands.specs.Putting.{Writes};
ghost use Rattle.script_files.specs.Stages.{TellsClosedRun, WritesClosed, WritesHistory, WritesRun};

use crate::tallies::RunWritten;
use crate::texts::{Lines, Texts, history_texts, transcript_texts};
use commands::{NamedOutputRefused, put_out};
use conformance::Transcript;
use requests::Order;
use std::alloc::Global;
use std::sync::Wait;
use vw_cell::Memory;
use vw_io::{Output, Shelf};
use world_run::{OpenRun, ScriptsRun, WorldRan};

/// Writes the transcripts under these names, then the saved files, and then the journal and the
/// report where they are asked for. What is saved is held until its files are written; then the
/// world is closed.
pub(crate) fn write_run<S: Shelf, R: Wait>(
    rt: &R,
    alloc: Global,
    order: &Order<'_>,
    names: &[String],
    run: ScriptsRun,
    shelf: &mut S,
) -> Result<RunWritten, NamedOutputRefused>
    requires named { map string_bytes names.now ≡ map transcript_name order.now.scripts }
    ensures writes { WritesRun order.now run result (S.state shelf.old)
        (S.state shelf.new) }
{
    let ScriptsRun { run, transcripts } = run;
    let mut run = run;
    if let Err(refused) = write_transcripts(alloc, names, transcripts, shelf) {
        run.give_up(rt);
        return Err(refused);
    }
    if let Err(refused) = write_saves(alloc, &mut run, shelf) {
        run.give_up(rt);
        return Err(refused);
    }
    write_history(rt, alloc, order, run, shelf)
}

// Writes the text of each transcript under its name.
#[tactic(auto, using(commands::proofs::Putting::at_once))]
fn write_transcripts<S: Shelf>(
    alloc: Global,
    names: &[String],
    transcripts: Vec<Transcript>,
    shelf: &mut S,
) -> Result<(), NamedOutputRefused>
    ensures writes { Writes result
        (named_texts (map string_bytes names.now) (map transcript_of transcripts.items))
        (S.state shelf.old) (S.state shelf.new) }
{
    let Ok(texts) = transcript_texts(alloc, transcripts.as_slice()) else {
        return Err(NamedOutputRefused::Memory);
    };
    drop(transcripts);
    let mut outputs = Vec::new(alloc);
    if let Err(_) = add_transcripts(names, texts.as_slice(), &mut outputs) {
        return Err(NamedOutputRefused::Memory);
    }
    put_out(alloc, outputs.as_slice(), shelf)
}

// Makes and writes the file of each accepted save, one after the other.
fn write_saves<S: Shelf>(
    alloc: Global,
    run: &mut OpenRun,
    shelf: &mut S,
) -> Result<(), NamedOutputRefused>
    ensures writes { Writes result
        (map (saved_output (file_of_save run.old.tint run.old.models)) run.old.kept)
        (S.state shelf.old) (S.state shelf.new) }
    ensures same { run.new ≡ run.old }
{
    for k in 0..run.saves() {
        if let Err(refused) = write_save(alloc, run, k, shelf) {
            return Err(refused);
        }
    }
    Ok(())
}

// Makes and writes the file of the save of this number.
#[tactic(auto, using(commands::proofs::Putting::at_once))]
fn write_save<S: Shelf>(
    alloc: Global,
    run: &mut OpenRun,
    k: usize,
    shelf: &mut S,
) -> Result<(), NamedOutputRefused>
    requires { k < length run.old.kept }
    ensures writes { Writes result
        (take 1 (drop k
        (map (saved_output (file_of_save run.old.tint run.old.models)) run.old.kept)))
        (S.state shelf.old) (S.state shelf.new) }
    ensures same { run.new ≡ run.old }
{
    let save = run.save(k);
    let Ok(file) = run.file(alloc, k) else {
        return Err(NamedOutputRefused::Memory);
    };
    let outputs = [Output {
        name: save.name.as_str(),
        bytes: file.as_slice(),
    }];
    put_out(alloc, &outputs, shelf)
}

// Closes the world, and writes the journal and the report where they are asked for.
fn write_history<S: Shelf, R: Wait>(
    rt: &R,
    alloc: Global,
    order: &Order<'_>,
    run: OpenRun,
    shelf: &mut S,
) -> Result<RunWritten, NamedOutputRefused>
    ensures writes { WritesHistory order.now run result (S.state shelf.old)
        (S.state shelf.new) }
{
    let Ok(ran) = run.close(rt, alloc) else {
        return Err(NamedOutputRefused::Memory);
    };
    write_closed(alloc, order, ran, shelf)
}

// Writes the journal and the report of a closed world, where they are asked for.
fn write_closed<S: Shelf>(
    alloc: Global,
    order: &Order<'_>,
    ran: WorldRan,
    shelf: &mut S,
) -> Result<RunWritten, NamedOutputRefused>
    requires levels { length ran.numbers.items ≤ 11 }
    ensures writes { (r : RunState) → TellsClosedRun r ran → WritesClosed order.now r result
        (S.state shelf.old) (S.state shelf.new) }
{
    let Ok(texts) = history_texts(alloc, order, &ran) else {
        return Err(NamedOutputRefused::Memory);
    };
    let Ok(outputs) = last_outputs(alloc, order, &texts) else {
        return Err(NamedOutputRefused::Memory);
    };
    match put_out(alloc, outputs.as_slice(), shelf) {
        Ok(()) => {
            let WorldRan { ended, .. } = ran;
            Ok(RunWritten {
                tally: texts.tally,
                ended,
            })
        }
        Err(refused) => Err(refused),
    }
}

// The journal and the report, where they are asked for.
fn last_outputs<'w, 't>(
    alloc: Global,
    order: &Order<'w>,
    texts: &'t Texts,
) -> Result<Vec<Output<'w, 't>>, Memory>
    ensures { IfOk result (λ outputs. outputs.items
        ≡ wanted_output order.now.journal texts.now.journal
        ++ wanted_output order.now.report texts.now.report) }
{
    let mut outputs = Vec::new(alloc);
    add_wanted(order.journal, texts.journal.as_slice(), &mut outputs)?;
    add_wanted(order.report, texts.report.as_slice(), &mut outputs)?;
    Ok(outputs)
}

// Adds the text of what is wanted under its name.
fn add_wanted<'w, 't>(
    name: Option<&'w str>,
    text: &'t [u8],
    outputs: &mut Vec<Output<'w, 't>>,
) -> Result<(), Memory>
    ensures { OnOk result (outputs.new.items ≡ outputs.old.items
        ++ wanted_output (option_map (λ n. n.now) name.entry) text.now) }
{
    if let Some(name) = name {
        outputs.push(Output { name, bytes: text })?;
    }
    Ok(())
}

// Adds each transcript's text under its name.
fn add_transcripts<'w, 't>(
    names: &'w [String],
    texts: &'t [Lines],
    outputs: &mut Vec<Output<'w, 't>>,
) -> Result<(), Memory>
    ensures { OnOk result (outputs.new.items
        ≡ outputs.old.items ++ named_texts (map string_bytes names.now) texts.now) }
{
    match names {
        [] => Ok(()),
        [name, names @ ..] => match texts {
            [] => Ok(()),
            [text, texts @ ..] => {
                outputs.push(Output {
                    name: name.as_str(),
                    bytes: text.bytes.as_slice(),
                })?;
                add_transcripts(names, texts, outputs)
            }
        },
    }
}
