ghost use Rattle.std.specs.Prelude.{◌≡◌, ◌<◌, ◌^◌, ◌+◌, ◌∷◌, ◌++◌, [], OnOk, length, IfOk, MatchOption, string_bytes};
ghost use Rattle.script.specs.Faults.{number_of_kind};
ghost use Rattle.voxdag_top.specs.Lines.{done_line, run_line, demo_lines, placed_line, looked_line, answer_line, region_lines, script_line, input_line};
ghost use Rattle.voxdag_top.specs.Numbers.{status_number};
ghost use Rattle.voxdag_top.specs.Endings.{ended_with, ending_line, refused_line, text_line, status_of, refused_status, HoldsOwnLine, MayLackLine, RefusalMayLackLine};
ghost use Rattle.voxdag_top.specs.Finishing.{PutEnds, Finishes};

use crate::endings::{Ending, Gated};
use commands::{CommandRefused, NamedOutputRefused, NumberedFault, SceneTally, TextRefused};
use script_files::{Done, Ended, LoadTally, Tally};
use std::alloc::{AllocError, Global};
use transcript::Answer;
use vw_io::{InputRefused, PutRefused, ReadRefused, Sink};

// Puts the ending's line, and gives the status and the closed world.
pub(crate) fn finish<O: Sink>(alloc: Global, ending: Ending<'_>, out: &mut O) -> Gated
    ensures line { Finishes ending.entry (O.state out.old) (O.state out.new) result.status }
    ensures ended { result.ended ≡ ended_with ending.entry result.status }
{
    let status = put_ending(alloc, &ending, out);
    let ended = ended_with(ending, status);
    Gated { status, ended }
}

// The closed world of a command that came to its end and whose line was put.
fn ended_with(ending: Ending<'_>, status: u8) -> Option<Ended>
    ensures { result ≡ ended_with ending.entry status }
{
    match ending {
        Ending::Completed(completed) => match status {
            0 => completed.ended,
            _ => None,
        },
        _ => None,
    }
}

#[tactic(auto, using(crate::proofs::Holding::held_finishes))]
fn put_ending<O: Sink>(alloc: Global, ending: &Ending<'_>, out: &mut O) -> u8
    ensures { Finishes ending.now (O.state out.old) (O.state out.new) result }
{
    match held_line(ending) {
        Some(line) => put_line(line.as_bytes(), 6, out),
        None => put_made(alloc, ending, out),
    }
}

// The line that the ending holds, where it is a fault at an output.
fn held_line<'a>(ending: &'a Ending<'_>) -> Option<&'a str>
    ensures { MatchOption result (MayLackLine ending.now)
        (λ line. HoldsOwnLine ending.now line.now) }
{
    match ending {
        Ending::Completed(_) => None,
        Ending::Usage => None,
        Ending::Refused(refused) => match refused {
            CommandRefused::Input(_) => None,
            CommandRefused::Text(_) => None,
            CommandRefused::Output(output) => match output {
                NamedOutputRefused::Failed(line) => Some(line.as_str()),
                NamedOutputRefused::Memory => None,
            },
        },
    }
}

// The same of an ending whose line is made now.
fn put_made<O: Sink>(alloc: Global, ending: &Ending<'_>, out: &mut O) -> u8
    requires { MayLackLine ending.now }
    ensures { Finishes ending.now (O.state out.old) (O.state out.new) result }
{
    match line(alloc, ending) {
        Ok(text) => put_line(text.as_bytes(), status(ending), out),
        Err(_) => put_line(b"voxdag: memory\n", 8, out),
    }
}

fn put_line<O: Sink>(line: &[u8], status: u8, out: &mut O) -> u8
    ensures { PutEnds line.now status (O.state out.old) (O.state out.new) result }
{
    match out.put(line) {
        Ok(()) => status,
        Err(PutRefused::Failed) => 7,
        Err(PutRefused::Memory) => 8,
    }
}

fn status(ending: &Ending<'_>) -> u8
    ensures { result ≡ status_number (status_of ending.now) }
{
    match ending {
        Ending::Completed(_) => 0,
        Ending::Usage => 1,
        Ending::Refused(refused) => refused_status(refused),
    }
}

fn refused_status(refused: &CommandRefused<'_>) -> u8
    ensures { result ≡ status_number (refused_status refused.now) }
{
    match refused {
        CommandRefused::Input(input) => match input.why {
            ReadRefused::Missing => 2,
            ReadRefused::Failed => 3,
            ReadRefused::Memory => 8,
            ReadRefused::TooLong => 9,
        },
        CommandRefused::Text(text) => match text {
            TextRefused::Collides => 1,
            TextRefused::NoPlace => 10,
            TextRefused::NoScene(_) => 11,
            TextRefused::Journal(_) => 12,
            TextRefused::StoreFull(_) => 13,
            TextRefused::NoDag(_) => 14,
            TextRefused::Transcript(_) => 15,
            TextRefused::Vox(_) => 4,
            TextRefused::Script(_) => 5,
            TextRefused::Memory => 8,
        },
        CommandRefused::Output(output) => match output {
            NamedOutputRefused::Failed(_) => 6,
            NamedOutputRefused::Memory => 8,
        },
    }
}

fn line(alloc: Global, ending: &Ending<'_>) -> Result<String, AllocError>
    requires { MayLackLine ending.now }
    ensures { IfOk result (λ text. string_bytes text ≡ ending_line ending.now) }
{
    match ending {
        Ending::Completed(completed) => done_line(alloc, completed.done),
        Ending::Usage => format!(in alloc; "voxdag: usage\n"),
        Ending::Refused(refused) => refused_line(alloc, refused),
    }
}

fn done_line(alloc: Global, done: Done) -> Result<String, AllocError>
    ensures { IfOk result (λ text. string_bytes text ≡ done_line done) }
{
    match done {
        Done::Counted(cells) => format!(in alloc; "{cells}\n"),
        Done::Ran(tally) => run_line(alloc, tally),
        Done::Shown(told) => demo_lines(alloc, told),
        Done::Placed(told) => placed_line(alloc, told),
        Done::Looked(answer) => looked_line(alloc, answer),
        Done::Written => Ok(String::new(alloc)),
        Done::Answered(answer) => answer_line(alloc, answer),
    }
}

fn run_line(alloc: Global, tally: Tally) -> Result<String, AllocError>
    ensures { IfOk result (λ text. string_bytes text ≡ run_line tally) }
{
    let scripts = tally.scripts;
    let records = tally.records;
    let marks = tally.marks;
    let nodes = tally.nodes;
    format!(in alloc; "scripts {scripts} records {records} marks {marks} nodes {nodes}\n")
}

fn placed_line(alloc: Global, told: SceneTally) -> Result<String, AllocError>
    ensures { IfOk result (λ text. string_bytes text ≡ placed_line told) }
{
    let side = told.side;
    let placements = told.placements;
    format!(in alloc; "side {side} placements {placements}\n")
}

fn looked_line(alloc: Global, answer: Answer) -> Result<String, AllocError>
    ensures { IfOk result (λ text. string_bytes text ≡ looked_line answer) }
{
    format!(in alloc; "{answer}\n")
}

fn demo_lines(alloc: Global, told: LoadTally) -> Result<String, AllocError>
    ensures { IfOk result (λ text. string_bytes text ≡ demo_lines told) }
{
    let number = told.number;
    let records = told.records;
    let mut text = format!(in alloc; "demo {number}\nrecords {records}\n")?;
    put_regions(0, told.counts.as_slice(), &mut text)?;
    Ok(text)
}

fn put_regions(region: u32, counts: &[u64], text: &mut String) -> Result<(), AllocError>
    requires { region + length counts.now < 2 ^ 32 }
    ensures { OnOk result (string_bytes text.new
        ≡ string_bytes text.old ++ region_lines region counts.now) }
{
    match counts {
        [] => Ok(()),
        [cells, others @ ..] => {
            put_region(region, *cells, text)?;
            put_regions(region + 1, others, text)
        }
    }
}

fn put_region(region: u32, cells: u64, text: &mut String) -> Result<(), AllocError>
    ensures { OnOk result (string_bytes text.new
        ≡ string_bytes text.old ++ region_lines region (cells ∷ [])) }
{
    write!(text, "region {region} count {cells}\n")
}

fn answer_line(alloc: Global, answer: bool) -> Result<String, AllocError>
    ensures { IfOk result (λ text. string_bytes text ≡ answer_line answer) }
{
    if answer {
        format!(in alloc; "yes\n")
    } else {
        format!(in alloc; "no\n")
    }
}

fn refused_line(alloc: Global, refused: &CommandRefused<'_>) -> Result<String, AllocError>
    requires { RefusalMayLackLine refused.now }
    ensures { IfOk result (λ text. string_bytes text ≡ refused_line refused.now) }
{
    match refused {
        CommandRefused::Input(input) => input_line(alloc, input),
        CommandRefused::Text(text) => text_line(alloc, text),
        CommandRefused::Output(output) => match output {
            NamedOutputRefused::Failed(_) => unreachable!(),
            NamedOutputRefused::Memory => format!(in alloc; "voxdag: memory\n"),
        },
    }
}

fn input_line(alloc: Global, input: &InputRefused<'_>) -> Result<String, AllocError>
    ensures { IfOk result
        (λ text. string_bytes text ≡ input_line input.now.why input.now.name.now) }
{
    let name = input.name;
    match input.why {
        ReadRefused::Missing => format!(in alloc; "voxdag: missing {name}\n"),
        ReadRefused::TooLong => format!(in alloc; "voxdag: too long {name}\n"),
        ReadRefused::Failed => format!(in alloc; "voxdag: read fault {name}\n"),
        ReadRefused::Memory => format!(in alloc; "voxdag: memory\n"),
    }
}

fn text_line(alloc: Global, text: &TextRefused) -> Result<String, AllocError>
    ensures { IfOk result (λ line. string_bytes line ≡ text_line text.now) }
{
    match text {
        TextRefused::Vox(fault) => {
            let kind = fault.kind();
            let at = fault.at();
            format!(in alloc; "voxdag: vox {kind} {at}\n")
        }
        TextRefused::Script(at) => script_line(alloc, at),
        TextRefused::Collides => format!(in alloc; "voxdag: usage\n"),
        TextRefused::NoScene(fault) => {
            let kind = fault.kind();
            let at = fault.at();
            format!(in alloc; "voxdag: scene {kind} {at}\n")
        }
        TextRefused::NoPlace => format!(in alloc; "voxdag: no place\n"),
        TextRefused::StoreFull(full) => {
            let level = full.level;
            let bucket = full.bucket;
            format!(in alloc; "voxdag: full {level} {bucket}\n")
        }
        TextRefused::Journal(line) => format!(in alloc; "voxdag: journal {line}\n"),
        TextRefused::Transcript(at) => {
            let script = at.script;
            let line = at.line;
            format!(in alloc; "voxdag: transcript {script} {line}\n")
        }
        TextRefused::NoDag(place) => format!(in alloc; "voxdag: dag {place}\n"),
        TextRefused::Memory => format!(in alloc; "voxdag: memory\n"),
    }
}

fn script_line(alloc: Global, at: &NumberedFault) -> Result<String, AllocError>
    ensures { IfOk result (λ text. string_bytes text
        ≡ script_line at.now.script at.now.fault.line (number_of_kind at.now.fault.kind)) }
{
    let script = at.script;
    let line = at.fault.line;
    let kind = at.fault.kind.number();
    format!(in alloc; "voxdag: script {script} {line} {kind}\n")
}
