ghost use Rattle.std.specs.Prelude.{◌≡◌, ◌≤◌, false, length, map, string_bytes, IfOk};
ghost use Rattle.vox_read.specs.Contents.{AreModels};
ghost use Rattle.commands.specs.Inputs.{transcript_name};
ghost use Rattle.text_laws.specs.regions.LastCounts.{count_in_answer, last_count, region_counts};
ghost use Rattle.requests.specs.ScriptNames.{demo_asked};
ghost use Rattle.script_files.specs.Demos.{demo_means};
ghost use Rattle.commands.specs.Outcomes.{Outcome};
ghost use Rattle.commands.specs.Scripts.{AreFitScripts};
ghost use Rattle.script_files.specs.Stages.{IsLoadRead};

use crate::outputs::write_run;
use crate::scripts::Read;
use crate::tallies::{LoadTally, LoadWritten};
use commands::{CommandRefused, TextRefused, VOX_LIMIT, read_scripts};
use conformance::Transcript;
use gate_run::Gate;
use gen_load::load;
use node_words::Plan;
use requests::Order;
use std::alloc::Global;
use std::sync::Wait;
use std::thread::Threads;
use text_laws::loads_are_counted;
use transcript::Answer;
use vox_read::read_models;
use vw_cell::{Memory, Side};
use vw_io::Shelf;
use world_run::{Settings, run_scripts};

static SCRIPTS: [&str; 4] = ["demo.0", "demo.1", "demo.2", "demo.3"];

/// How the store of a load's run is laid out, that all versions are held, and what the outputs are
/// named after.
pub(crate) fn demo_order<'w>() -> Order<'w>
    ensures { result ≡ demo_asked }
{
    Order {
        plan: Plan::usual(side()),
        tint: false,
        keep: 0,
        journal: Some("demo.journal"),
        report: None,
        file: "",
        scripts: SCRIPTS.as_slice(),
    }
}

// The side of a load's world.
#[tactic(auto, using(crate::proofs::Loading::eight_of_256))]
fn side() -> Side
    ensures { result ≡ 8 }
{
    match Side::new(256) {
        Some(side) => side,
        None => unreachable!(),
    }
}

/// Runs the load of this number, and writes its transcripts under their names and then its journal.
/// It reads nothing.
#[tactic(auto, using(crate::proofs::Loading::demo_written, crate::proofs::Loading::demo_stopped))]
pub fn run_demo<'w, S: Shelf, R: Threads + Wait + Sync, G: Gate + Sync>(
    rt: &R,
    gate: &G,
    alloc: Global,
    n: u32,
    transcripts: &[String],
    shelf: &mut S,
) -> Result<LoadWritten, CommandRefused<'w>>
    requires { map string_bytes transcripts.now ≡ map transcript_name demo_asked.scripts }
    ensures outcome { Outcome (demo_means n) result (S.state shelf.old) (S.state shelf.new) }
{
    loads_are_counted();
    let order = demo_order();
    let Ok(read) = made_load(alloc, n) else {
        return Err(CommandRefused::Text(TextRefused::Memory));
    };
    let Read { models, scripts } = read;
    let Ok(run) = run_scripts(
        rt,
        gate,
        alloc,
        &order.plan,
        models,
        scripts.as_slice(),
        Settings {
            tint: order.tint,
            keep: order.keep,
        },
    ) else {
        return Err(CommandRefused::Text(TextRefused::Memory));
    };
    let counts = region_counts(run.transcripts.as_slice());
    match write_run(rt, alloc, &order, transcripts, run, shelf) {
        Ok(written) => Ok(LoadWritten {
            tally: LoadTally {
                number: n,
                records: written.tally.records,
                counts,
            },
            ended: written.ended,
        }),
        Err(refused) => Err(CommandRefused::Output(refused)),
    }
}

// The number that each of four transcripts ends with.
fn region_counts(transcripts: &[Transcript]) -> [u64; 4]
    ensures { result ≡ region_counts transcripts.now }
{
    match transcripts {
        [a, b, c, d] => [last_count(a), last_count(b), last_count(c), last_count(d)],
        _ => [0, 0, 0, 0],
    }
}

fn last_count(transcript: &Transcript) -> u64
    ensures { result ≡ last_count transcript.now }
{
    match transcript.lines.last() {
        None => 0,
        Some(line) => count_in_answer(line.answer),
    }
}

fn count_in_answer(answer: Answer) -> u64
    ensures { result ≡ count_in_answer answer }
{
    match answer {
        Answer::Count(cells) => cells,
        _ => 0,
    }
}

// The model and the commands of the load. That a run takes each load is a law of loads; a load that
// it did not take would be told as want of memory.
fn made_load(alloc: Global, n: u32) -> Result<Read, Memory>
    ensures read { IfOk result (IsLoadRead n) }
    ensures models { IfOk result (λ read. AreModels read.models) }
    ensures fit { IfOk result (λ read. AreFitScripts false 8 read.models read.scripts.items) }
    ensures number { IfOk result (λ read. length read.scripts.items ≤ 64) }
{
    let load = load(alloc, n)?;
    if load.vox.len() as u64 > VOX_LIMIT {
        return Err(Memory);
    }
    let Ok(models) = read_models(alloc, load.vox.as_slice()) else {
        return Err(Memory);
    };
    let Ok(scripts) = read_scripts(alloc, load.scripts.as_slice(), side(), &models, false) else {
        return Err(Memory);
    };
    Ok(Read { models, scripts })
}
