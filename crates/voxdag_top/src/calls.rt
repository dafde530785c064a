ghost use Rattle.std.specs.Prelude.{◌≡◌, ◌≤◌, Some, IfSome, length, map, string_bytes};
ghost use Rattle.vw_io.specs.Outside.{outside};
ghost use Rattle.commands.specs.Inputs.{transcript_name};
ghost use Rattle.requests.specs.ScriptNames.{scripts_asked};
ghost use Rattle.requests.specs.command_line.Texts.{texts};
ghost use Rattle.requests.specs.Words.{request_of, run_line_texts};
ghost use Rattle.voxdag_top.specs.Endings.{CommandEnds};
ghost use Rattle.voxdag_top.specs.Finishing.{Runs};
ghost use Rattle.voxdag_top.specs.Promises.{Promises, Promised};

use crate::endings::{Ending, Gated};
use crate::lines::finish;
use commands::{CommandRefused, TextRefused};
use gate_run::{Gate, NoGate};
use requests::{Line, Request, request, words_of_a_run};
use script_files::{carry_out, names_written};
use std::alloc::Global;
use std::sync::Wait;
use std::thread::Threads;
use vw_io::{Shelf, Sink};

/// The program: does what the words after the program's name ask for, and puts one line on `out`.
///
/// `count FILE` puts the number of cells of the file's models. `run FILE SCRIPT ..` runs 1 to 64
/// scripts over one world with the models of the file, at the same time where the system gives
/// threads; it writes each transcript as `SCRIPT.out` and each file that a script saves, and puts
/// the numbers of scripts, records, marks and live nodes. Among these words, in any order and each
/// at most once, may stand options, as `--side s` or `--side=s`: the world has the side `s`, 4 to
/// 4,096 and 256 without this option; its store has `--buckets b` of `--cap c` slots on each level,
/// 1 to 4,096 and 1 to 256; with `--keep k` the last k versions alone are held, 1 to 65,535;
/// `--journal J` and `--report P` are written too; with `--colours` each cell has a tint from 0 to
/// 255, and the world a side of 1,024 at most. A VOX file has at most 256 MiB, a script 8 MiB.
/// `demo N` runs the load that the number N of 1 to 6 digits makes, writes `demo.0.out` to
/// `demo.3.out` and `demo.journal`, and puts N, the number of records, and how many cells each
/// region had when its script counted them.
///
/// `flood FILE m x y z OUT` writes the empty region of model m that is connected with the cell
/// (x, y, z) as the VOX file OUT, and puts its number of cells; numbers have 1 to 6 digits.
/// `scene FILE OUT SCRIPT` writes the turned models of the scene of a VOX file as the VOX file OUT,
/// and a script that stamps each where the scene places it; it puts the side of the least world
/// that holds them, and their number. `dag FILE JOURNAL OUT` replays a journal over the models of a
/// VOX file, and writes its versions without a mark as the one file OUT; it puts nothing.
/// `look DAG v Q` asks version v of a file of many versions, of at most 256 MiB: Q is `get x y z`,
/// `count x y z a b c`, `bounds`, `faces x y z a b c` or `ray x y z dx dy dz`, each number of 1 to
/// 9 digits; it puts the answer as a transcript has it. `audit FILE JOURNAL SCRIPT ..` puts `yes`
/// where JOURNAL and the transcripts `SCRIPT.out` are those of one run of the scripts over the
/// models of FILE, and `no` where they are not; before FILE may stand `--buckets b` and `--keep k`,
/// as the run had them.
///
/// The answer is the status with which the process ends: 0 done, 1 words outside the grammar or
/// names that collide, 2 an input that is not there, 3 a fault of the shelf at an input, 4 a VOX
/// file that is refused, 5 a script that is refused, 6 a fault of the shelf at an output, 7 a fault
/// of `out`, 8 want of memory, 9 an input over its limit, 10 no such model or version, or no such
/// place of it, 11 a scene that is refused, 12 a journal that is refused, 13 a full bucket of a
/// command's own store, 14 a file of many versions that is refused, 15 a transcript that is
/// refused. Where a line cannot be put, 7 or 8 comes in place of its status.
pub fn voxdag<S: Shelf, O: Sink, R: Threads + Wait + Sync>(
    rt: &R,
    alloc: Global,
    words: &[String],
    shelf: &mut S,
    out: &mut O,
) -> u8
    ensures { Promised (texts words.now) (outside (S.state shelf.old) (O.state out.old))
        (outside (S.state shelf.new) (O.state out.new)) result }
{
    voxdag_gated(rt, alloc, words, shelf, out, &NoGate).status
}

/// The same, and what the closed world left: where scripts ran and the status is 0. The sessions of
/// the scripts pass the gate.
pub fn voxdag_gated<S: Shelf, O: Sink, R: Threads + Wait + Sync, G: Gate + Sync>(
    rt: &R,
    alloc: Global,
    words: &[String],
    shelf: &mut S,
    out: &mut O,
    gate: &G,
) -> Gated
    ensures { Promises (texts words.now) result.ended
        (outside (S.state shelf.old) (O.state out.old))
        (outside (S.state shelf.new) (O.state out.new)) result.status }
{
    let lacking = Ending::Refused(CommandRefused::Text(TextRefused::Memory));
    match words_of_a_run(alloc, words) {
        Ok(line) => with_line(rt, gate, alloc, words, &line, shelf, out),
        Err(_) => finish(alloc, lacking, out),
    }
}

// The same, where the words of a run were split.
fn with_line<S: Shelf, O: Sink, R: Threads + Wait + Sync, G: Gate + Sync>(
    rt: &R,
    gate: &G,
    alloc: Global,
    words: &[String],
    line: &Option<Line<'_>>,
    shelf: &mut S,
    out: &mut O,
) -> Gated
    requires line { line.now ≡ run_line_texts (texts words.now) }
    requires few { IfSome line.now (λ l. length l.operands ≤ 65) }
    ensures { Runs (request_of (texts words.now))
        (outside (S.state shelf.old) (O.state out.old))
        (outside (S.state shelf.new) (O.state out.new)) result.status result.ended }
{
    match request(words, line) {
        Some(asked) => command(rt, gate, alloc, &asked, shelf, out),
        None => finish(alloc, Ending::Usage, out),
    }
}

// Does what is asked for, once there are the transcripts' names.
fn command<S: Shelf, O: Sink, R: Threads + Wait + Sync, G: Gate + Sync>(
    rt: &R,
    gate: &G,
    alloc: Global,
    asked: &Request<'_>,
    shelf: &mut S,
    out: &mut O,
) -> Gated
    requires few { length (scripts_asked asked.now) ≤ 64 }
    ensures { Runs (Some asked.now)
        (outside (S.state shelf.old) (O.state out.old))
        (outside (S.state shelf.new) (O.state out.new)) result.status result.ended }
{
    let Ok(names) = names_written(alloc, asked) else {
        let lacking = Ending::Refused(CommandRefused::Text(TextRefused::Memory));
        return finish(alloc, lacking, out);
    };
    named(rt, gate, alloc, asked, names.as_slice(), shelf, out)
}

fn named<S: Shelf, O: Sink, R: Threads + Wait + Sync, G: Gate + Sync>(
    rt: &R,
    gate: &G,
    alloc: Global,
    asked: &Request<'_>,
    transcripts: &[String],
    shelf: &mut S,
    out: &mut O,
) -> Gated
    requires few { length (scripts_asked asked.now) ≤ 64 }
    requires named { map string_bytes transcripts.now
        ≡ map transcript_name (scripts_asked asked.now) }
    ensures { Runs (Some asked.now)
        (outside (S.state shelf.old) (O.state out.old))
        (outside (S.state shelf.new) (O.state out.new)) result.status result.ended }
{
    let ending = ended(rt, gate, alloc, asked, transcripts, shelf);
    finish(alloc, ending, out)
}

fn ended<'w, S: Shelf, R: Threads + Wait + Sync, G: Gate + Sync>(
    rt: &R,
    gate: &G,
    alloc: Global,
    asked: &Request<'w>,
    transcripts: &'w [String],
    shelf: &mut S,
) -> Ending<'w>
    requires few { length (scripts_asked asked.now) ≤ 64 }
    requires named { map string_bytes transcripts.now
        ≡ map transcript_name (scripts_asked asked.now) }
    ensures { CommandEnds result asked.now (S.state shelf.old) (S.state shelf.new) }
{
    match carry_out(rt, gate, alloc, asked, transcripts, shelf) {
        Ok(done) => Ending::Completed(done),
        Err(refused) => Ending::Refused(refused),
    }
}
