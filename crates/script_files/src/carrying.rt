ghost use Rattle.std.specs.Prelude.{◌≡◌, ◌≤◌, length, map, string_bytes, IfOk};
ghost use Rattle.script_files.specs.Commands.{alone, run_told, load_told, meaning_of};
ghost use Rattle.requests.specs.ScriptNames.{scripts_asked};
ghost use Rattle.commands.specs.Outcomes.{Outcome};
ghost use Rattle.commands.specs.Inputs.{transcript_name};

use crate::demos::{demo_order, run_demo};
use crate::runs::{run_files, transcript_names};
use crate::tallies::{Completed, Done, LoadWritten, RunWritten};
use commands::{
    CommandRefused, audit_files, count_file, dag_file, flood_file, look_file, names_read,
    scene_file,
};
use gate_run::Gate;
use requests::{FileName, Request};
use std::alloc::Global;
use std::sync::Wait;
use std::thread::Threads;
use vw_cell::Memory;
use vw_io::Shelf;

/// Does what is asked for, from files to files: a row for each command. The transcripts' names are
/// those of the scripts with `.out` behind them.
pub fn carry_out<'w, S: Shelf, R: Threads + Wait + Sync, G: Gate + Sync>(
    rt: &R,
    gate: &G,
    alloc: Global,
    asked: &Request<'w>,
    transcripts: &'w [String],
    shelf: &mut S,
) -> Result<Completed, CommandRefused<'w>>
    requires few { length (scripts_asked asked.now) ≤ 64 }
    requires named { map string_bytes transcripts.now
        ≡ map transcript_name (scripts_asked asked.now) }
    ensures outcome { Outcome (meaning_of asked.now) result (S.state shelf.old)
        (S.state shelf.new) }
{
    match asked {
        Request::Count(file) => {
            match count_file(alloc, FileName { text: file.text }, shelf) {
                Ok(cells) => Ok(alone(Done::Counted(cells))),
                Err(refused) => Err(refused),
            }
        }
        Request::Run(order) => match run_files(rt, gate, alloc, order, transcripts, shelf) {
            Ok(written) => Ok(run_told(written)),
            Err(refused) => Err(refused),
        },
        Request::Demo(n) => match run_demo(rt, gate, alloc, *n, transcripts, shelf) {
            Ok(written) => Ok(load_told(written)),
            Err(refused) => Err(refused),
        },
        Request::Flood(order) => match flood_file(alloc, order, shelf) {
            Ok(cells) => Ok(alone(Done::Counted(cells))),
            Err(refused) => Err(refused),
        },
        Request::Scene(order) => match scene_file(alloc, order, shelf) {
            Ok(tally) => Ok(alone(Done::Placed(tally))),
            Err(refused) => Err(refused),
        },
        Request::Dag(order) => match dag_file(alloc, order, shelf) {
            Ok(()) => Ok(alone(Done::Written)),
            Err(refused) => Err(refused),
        },
        Request::Look(order) => match look_file(alloc, order, shelf) {
            Ok(answer) => Ok(alone(Done::Looked(answer))),
            Err(refused) => Err(refused),
        },
        Request::Audit(order) => match audit_files(alloc, order, transcripts, shelf) {
            Ok(answer) => Ok(alone(Done::Answered(answer))),
            Err(refused) => Err(refused),
        },
    }
}

// What is told where no scripts ran.
fn alone(done: Done) -> Completed
    ensures { result ≡ alone done }
{
    Completed { done, ended: None }
}

// What is told of a run.
fn run_told(written: RunWritten) -> Completed
    ensures { result ≡ run_told written }
{
    Completed {
        done: Done::Ran(written.tally),
        ended: Some(written.ended),
    }
}

// What is told of a load's run.
fn load_told(written: LoadWritten) -> Completed
    ensures { result ≡ load_told written }
{
    Completed {
        done: Done::Shown(written.tally),
        ended: Some(written.ended),
    }
}

/// The names of the transcripts that a command writes or reads: none but those of a run's scripts,
/// of a load's, or of an audit's.
pub fn names_written(alloc: Global, asked: &Request<'_>) -> Result<Vec<String>, Memory>
    ensures { IfOk result (λ names. map string_bytes names.items
        ≡ map transcript_name (scripts_asked asked.now)) }
{
    match asked {
        Request::Run(order) => transcript_names(alloc, order.scripts),
        Request::Demo(_) => transcript_names(alloc, demo_order().scripts),
        Request::Audit(order) => names_read(alloc, order.scripts),
        _ => Ok(Vec::new(alloc)),
    }
}
