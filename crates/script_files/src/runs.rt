ghost use Rattle.std.specs.Prelude.{◌≡◌, ◌≤◌, length, map, string_bytes, IfOk};
ghost use Rattle.script_files.specs.Requests.{run_inputs};
ghost use Rattle.commands.specs.Inputs.{transcript_name};
ghost use Rattle.script_files.specs.Runs.{run_means};
ghost use Rattle.commands.specs.Outcomes.{Outcome};

use crate::outputs::write_run;
use crate::scripts::{Read, read_texts};
use crate::tallies::RunWritten;
use commands::{CommandRefused, SCRIPT_LIMIT, TextRefused, VOX_LIMIT};
use gate_run::Gate;
use requests::Order;
use std::alloc::Global;
use std::sync::Wait;
use std::thread::Threads;
use vw_cell::Memory;
use vw_io::{Input, Shelf, read_all};
use world_run::{Settings, run_scripts};

/// Runs scripts from files to files, and gives the numbers of the run and its closed world.
///
/// It reads the VOX file, of at most 256 MiB, and the scripts, each of at most 8 MiB. Where the VOX
/// file is accepted, no script has a fault and no output takes an input's name or another output's,
/// it runs the scripts, each as the session of its place, at the same time where the system gives
/// threads; the sessions pass the gate. Where the last versions alone are held, each is forgotten
/// as it falls out. Then it writes the transcripts under their names, which are those of the
/// scripts with `.out` behind them, and the files that were saved, each made when it is its turn;
/// it closes the world, and writes the journal and the report where they are asked for.
#[tactic(auto, using(commands::proofs::Accepting::file_within, crate::proofs::Ending::run_refused, crate::proofs::Ending::run_written, crate::proofs::Ending::run_stopped))]
pub fn run_files<'w, S: Shelf, R: Threads + Wait + Sync, G: Gate + Sync>(
    rt: &R,
    gate: &G,
    alloc: Global,
    order: &Order<'w>,
    transcripts: &[String],
    shelf: &mut S,
) -> Result<RunWritten, CommandRefused<'w>>
    requires few { length order.now.scripts ≤ 64 }
    requires named { map string_bytes transcripts.now ≡ map transcript_name order.now.scripts }
    ensures outcome { Outcome (run_means order.now) result (S.state shelf.old)
        (S.state shelf.new) }
{
    let Ok(inputs) = run_inputs(alloc, order) else {
        return Err(CommandRefused::Text(TextRefused::Memory));
    };
    let texts = match read_all(alloc, inputs.as_slice(), shelf) {
        Ok(texts) => texts,
        Err(refused) => return Err(CommandRefused::Input(refused)),
    };
    let read = match read_texts(alloc, order, transcripts, inputs.as_slice(), texts) {
        Ok(read) => read,
        Err(refused) => return Err(CommandRefused::Text(refused)),
    };
    let Read { models, scripts } = read;
    let Ok(run) = run_scripts(
        rt,
        gate,
        alloc,
        &order.plan,
        models,
        scripts.as_slice(),
        Settings {
            tint: order.tint,
            keep: order.keep,
        },
    ) else {
        return Err(CommandRefused::Text(TextRefused::Memory));
    };
    match write_run(rt, alloc, order, transcripts, run, shelf) {
        Ok(written) => Ok(written),
        Err(refused) => Err(CommandRefused::Output(refused)),
    }
}

// The names of the transcripts: each is its script's with `.out` behind it.
pub(crate) fn transcript_names(alloc: Global, scripts: &[&str]) -> Result<Vec<String>, Memory>
    ensures { IfOk result (λ names. map string_bytes names.items
        ≡ map transcript_name (map (λ name. name.now) scripts.now)) }
{
    let mut names = Vec::with_capacity(alloc, scripts.len())?;
    for script in scripts {
        names.push(format!(in alloc; "{script}.out")?)?;
    }
    Ok(names)
}

// What a run reads, in order.
fn run_inputs<'w>(alloc: Global, order: &Order<'w>) -> Result<Vec<Input<'w>>, Memory>
    ensures { IfOk result (λ inputs. inputs.items ≡ run_inputs order.now) }
{
    let mut inputs = Vec::new(alloc);
    inputs.push(Input {
        name: order.file,
        limit: VOX_LIMIT,
    })?;
    let scripts = order.scripts;
    for script in scripts {
        inputs.push(Input {
            name: *script,
            limit: SCRIPT_LIMIT,
        })?;
    }
    Ok(inputs)
}
