use conformance::Transcript;
use gate_run::Gate;
use node_words::Plan;
use script::read_script;
use std::alloc::Global;
use std::sync::Wait;
use std::test::Fail;
use std::thread::Threads;
use testkit::GatePoint::{After, Before};
use testkit::Meeting;
use transcript::{Answer, LineAnswer};
use vox_read::Models;
use vw_cell::Side;
use world_run::{ScriptsRun, Settings, WorldRan, run_scripts};

// What two scripts give.
#[derive(Drop)]
struct Gave {
    transcripts: Vec<Transcript>,
    file: Vec<u8>,
    ran: WorldRan,
}

fn run<R: Threads + Wait + Sync, G: Gate + Sync>(
    rt: &R,
    gate: &G,
    alloc: Global,
    first: &[u8],
    second: &[u8],
) -> Result<Gave, Fail> {
    let side = Side::new(8).ok_or("a side")?;
    let plan = Plan::usual(side);
    let models = Models {
        list: Vec::new(alloc),
    };
    let one = read_script(alloc, first, side, &models, false).map_err(|_| "a script")?;
    let two = read_script(alloc, second, side, &models, false).map_err(|_| "a script")?;
    let settings = Settings {
        tint: false,
        keep: 0,
    };
    let run = run_scripts(rt, gate, alloc, &plan, models, &[one, two], settings).map_err(
        |_| "no memory",
    )?;
    let ScriptsRun {
        mut run,
        transcripts,
    } = run;
    let file = if run.saves() == 0 {
        Ok(Vec::new(alloc))
    } else {
        run.file(alloc, 0)
    };
    let ran = run.close(rt, alloc).map_err(|_| "no memory")?;
    let file = file.map_err(|_| "no memory")?;
    Ok(Gave {
        transcripts,
        file,
        ran,
    })
}

fn answers(gave: &Gave, k: usize) -> &[LineAnswer] {
    match gave.transcripts.get(k) {
        Some(transcript) => transcript.lines.as_slice(),
        None => &[],
    }
}

fn answered(line: u32, at: u32, answer: Answer) -> LineAnswer {
    LineAnswer { line, at, answer }
}

// The VOX file of a box of one cell, which is set.
const ONE: [u8; 64] =
    *b"VOX \x96\0\0\0MAIN\0\0\0\0\x2c\0\0\0SIZE\x0c\0\0\0\0\0\0\0\x01\0\0\0\x01\0\0\0\x01\0\0\0\
     XYZI\x08\0\0\0\0\0\0\0\x01\0\0\0\0\0\0\x01";

// The second session sees what the first one did, and the saved version is that of its moment.
#[test]
fn a_session_sees_what_the_other_did(rt: HostRuntime) -> Result<(), Fail> {
    let gate = Meeting::new(&[((1, 1, Before), (0, 2, After))]);
    let first = b"fill 3 3 3 1 1 1\nsave a.vox 3 3 3 1 1 1";
    let second = b"count 0 0 0 8 8 8\nerase 3 3 3 1 1 1\nat 1 count 0 0 0 8 8 8\nhead";
    let gave = run(&rt, &gate, rt.alloc(), first, second)?;
    assert!(rt; !gate.is_given_up());
    let want = [
        answered(1, 1, Answer::Done),
        answered(2, 1, Answer::Saved(1)),
    ];
    assert_eq!(rt; answers(&gave, 0), want.as_slice());
    let want = [
        answered(1, 1, Answer::Count(1)),
        answered(2, 2, Answer::Done),
        answered(3, 2, Answer::Count(1)),
        answered(4, 2, Answer::Head),
    ];
    assert_eq!(rt; answers(&gave, 1), want.as_slice());
    assert_eq!(rt; gave.file.as_slice(), ONE.as_slice());
    assert_eq!(rt; gave.ran.ended.closed().history.records.len(), 2);
    Ok(())
}
