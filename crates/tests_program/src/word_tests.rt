//! The words that the program takes, and those that it refuses.

use crate::calls::{ANSWERS, GOOD, TWO, ends, has, is_refused, shelf_with};
use std::alloc::Global;
use std::sync::Wait;
use std::test::Fail;
use std::thread::Threads;

const USAGE: &str = "voxdag: usage\n";

// A script of one change in the last cell of side 256 and a question, its transcript, and the line.
const WHOLE: &str = "fill 255 255 255 1 1 1\ncount 0 0 0 256 256 256\n";

const COUNTED: &str = "1 @1 ok\n2 @1 count 1\n";

const DEEP: &str = "scripts 1 records 1 marks 0 nodes 7\n";

// Words that are taken at side 8, with the script of two changes.
const AT_8: &[&str] = &[
    "run --side 8 one.vox s",
    "run --side 008 one.vox s",
    "run one.vox --side 8 s",
    "run one.vox s --side 8",
    "run --side=8 one.vox s",
    "run one.vox --side=8 s",
    "run one.vox s --side=8",
    "run --side 8 --report p one.vox s",
    "run --report p --side 8 one.vox s",
    "run --journal j --side 8 one.vox s",
    "run one.vox --report p s --journal=j --side=000008",
    "run --side 8 --buckets 1 --cap 256 one.vox s",
    "run --cap=256 one.vox --buckets 1 s --side 8",
    "run --side 8 --buckets 4096 one.vox s",
    "run --side 8 --cap 1 one.vox s",
    "run --side 8 --keep 65535 one.vox s",
    "run one.vox s --keep=000003 --side 8",
    "run --side 8 --journal=-j one.vox s",
    "run --side 8 --journal=--side=4 one.vox s",
    "run --side 8 --journal == one.vox s",
    "run --side 8 --journal=a=b one.vox s",
    "run --side 8 --journal side one.vox s",
];

// Words that are taken at side 256, with the script of the last cell.
const AT_256: &[&str] = &[
    "run --side 256 one.vox s",
    "run one.vox s",
    "run --journal j one.vox s",
    "run --report p one.vox s",
    "run --journal j --report p one.vox s",
    "run --report p one.vox s --journal j",
    "run one.vox --cap 128 s",
];

// Words that are taken at side 8 with tints, with the script of two changes.
const WITH_TINTS: &[&str] = &[
    "run --colours --side 8 one.vox s",
    "run --side 8 --colours one.vox s",
    "run one.vox --colours s --side 8",
    "run one.vox s --side=8 --colours",
    "run --colours one.vox --report p s --journal=j --side=000008",
];

// Two versions have cells in the plane of all cells and in that of bit 0 of the tint.
const TINTED: &str = "scripts 1 records 2 marks 0 nodes 8\n";

// Words, their script, and what the program then puts and answers.
const SIDES: &[(&str, &str, &str, &str)] = &[
    (
        "run --side 4 one.vox s",
        "",
        "scripts 1 records 0 marks 0 nodes 0\n",
        "",
    ),
    (
        "run --side 512 one.vox s",
        GOOD,
        "scripts 1 records 2 marks 0 nodes 16\n",
        ANSWERS,
    ),
    (
        "run --side 4 --colours one.vox s",
        "",
        "scripts 1 records 0 marks 0 nodes 0\n",
        "",
    ),
    (
        "run --colours --side 1024 one.vox s",
        "get 1023 1023 1023\n",
        "scripts 1 records 0 marks 0 nodes 0\n",
        "1 @0 clear\n",
    ),
];

fn is_taken<R: Threads + Wait + Sync>(
    rt: &R,
    alloc: Global,
    line: &str,
    script: &str,
    printed: &str,
    transcript: &str,
) -> Result<(), Fail> {
    let mut shelf = shelf_with(alloc, script.as_bytes())?;
    ends(rt, alloc, line, &mut shelf, 0, printed)?;
    has(&shelf, "s.out", transcript)
}

#[test]
fn options_stand_anywhere(rt: HostRuntime) -> Result<(), Fail> {
    for &line in AT_8 {
        is_taken(&rt, rt.alloc(), line, GOOD, TWO, ANSWERS)?;
    }
    Ok(())
}

#[test]
fn the_flag_stands_anywhere(rt: HostRuntime) -> Result<(), Fail> {
    for &line in WITH_TINTS {
        is_taken(&rt, rt.alloc(), line, GOOD, TINTED, ANSWERS)?;
    }
    Ok(())
}

#[test]
fn the_side_is_256_where_it_is_left_out(rt: HostRuntime) -> Result<(), Fail> {
    for &line in AT_256 {
        is_taken(&rt, rt.alloc(), line, WHOLE, DEEP, COUNTED)?;
    }
    Ok(())
}

#[test]
fn other_sides_are_taken(rt: HostRuntime) -> Result<(), Fail> {
    for &(line, script, printed, transcript) in SIDES {
        is_taken(&rt, rt.alloc(), line, script, printed, transcript)?;
    }
    Ok(())
}

// Words, and the name of the journal that they leave.
const VALUES: &[(&str, &str)] = &[
    ("run --journal=-j one.vox s", "-j"),
    ("run one.vox --journal=--side=4 s", "--side=4"),
    ("run --journal == one.vox s", "=="),
    ("run --journal=== one.vox s", "=="),
    ("run --journal=a=b one.vox s", "a=b"),
    ("run --journal side one.vox s", "side"),
    ("run one.vox --journal run s", "run"),
    ("run --journal=--colours one.vox s", "--colours"),
];

// The line of the two changes at side 256, and their journal.
const WIDE: &str = "scripts 1 records 2 marks 0 nodes 14\n";

const WIDE_JOURNAL: &str =
    "voxdag journal 1\nside 256\n1 0 1 fill 0 0 0 2 1 1\n2 0 2 erase 1 0 0 1 1 1\nend\n";

fn leaves<R: Threads + Wait + Sync>(
    rt: &R,
    alloc: Global,
    line: &str,
    name: &str,
) -> Result<(), Fail> {
    let mut shelf = shelf_with(alloc, GOOD.as_bytes())?;
    ends(rt, alloc, line, &mut shelf, 0, WIDE)?;
    has(&shelf, name, WIDE_JOURNAL)
}

#[test]
fn values_are_the_texts_that_stand_there(rt: HostRuntime) -> Result<(), Fail> {
    for &(line, name) in VALUES {
        leaves(&rt, rt.alloc(), line, name)?;
    }
    Ok(())
}

// Words outside the grammar.
const NO_WORDS: &[&str] = &[
    "run",
    "run one.vox",
    "run one.vox s s",
    "run --side 8",
    "run --side 8 one.vox",
    "run --side one.vox s",
    // numbers out of their ranges, or none
    "run --buckets 0 one.vox s",
    "run --buckets 4097 one.vox s",
    "run --cap 0 one.vox s",
    "run --cap 257 one.vox s",
    "run --cap x one.vox s",
    "run --cap=+1 one.vox s",
    "run --keep 0 one.vox s",
    "run --keep 65536 one.vox s",
    "run --keep 0000002 one.vox s",
    "run --keep x one.vox s",
    "run --keep=-1 one.vox s",
    "run --side 2 one.vox s",
    "run --side 5 one.vox s",
    "run --side 8192 one.vox s",
    "run --side 0000008 one.vox s",
    "run --side=8.0 one.vox s",
    "run --side=-8 one.vox s",
    // an option twice
    "run --side 8 --side 8 one.vox s",
    "run --side=8 --side 8 one.vox s",
    "run --side 8 one.vox s --side=8",
    "run --journal j --journal k one.vox s",
    "run --report p one.vox --report q s",
    "run --keep 2 one.vox s --keep=2",
    // the flag twice, with a value, where an option's value is missing, or for a side over 1,024
    "run --colours --side 8 --colours one.vox s",
    "run --colours=x --side 8 one.vox s",
    "run --colours= --side 8 one.vox s",
    "run --colours=true one.vox s",
    "run --side --colours one.vox s",
    "run one.vox s --journal --colours",
    "run --colours one.vox",
    "run --side 2048 --colours one.vox s",
    "run --colours --side=4096 one.vox s",
    "run --side 2 --colours one.vox s",
    "run --colour one.vox s",
    "run --Colours one.vox s",
    // a value that is missing, empty or an option
    "run one.vox s --side",
    "run one.vox s --keep",
    "run --keep= one.vox s",
    "run --side= one.vox s",
    "run --journal= one.vox s",
    "run --report  one.vox s",
    "run --report -p one.vox s",
    "run --journal --side 8 one.vox s",
    "run --journal --side=8 one.vox s",
    // options that there are not, and misspelt ones
    "run -- one.vox s",
    "run one.vox -- s",
    "run one.vox s --",
    "run - s",
    "run one.vox s -",
    "run --sid 8 one.vox s",
    "run --sides 8 one.vox s",
    "run --reports=p one.vox s",
    "run --Side 8 one.vox s",
    "run --keeps 2 one.vox s",
    "run -side 8 one.vox s",
    "run -s 8 one.vox s",
    "run ---side 8 one.vox s",
    "run --side8 one.vox s",
    "run --side:8 one.vox s",
    "run --=8 one.vox s",
    "run --help",
    "run -h one.vox s",
    "run --version one.vox s",
    // an empty word
    "run  one.vox s",
    "run one.vox s ",
    " run one.vox s",
    // other commands, and their words
    "",
    "runs one.vox s",
    "Run one.vox s",
    "help",
    "--help",
    "--side 8 run one.vox s",
    "count",
    "count one.vox s",
    "count -- one.vox",
    "count --side 8 one.vox",
    "count one.vox --side=8",
];

#[test]
fn other_words_are_usage(rt: HostRuntime) -> Result<(), Fail> {
    for &line in NO_WORDS {
        is_refused(&rt, rt.alloc(), line, 1, USAGE)?;
    }
    Ok(())
}

// Words that are not meant so, and are names all the same.
const NAMES: &[(&str, &str)] = &[
    ("run side=8 one.vox s", "voxdag: missing side=8\n"),
    ("run one.vox s side 8", "voxdag: missing side\n"),
    ("run one.vox s =", "voxdag: missing =\n"),
    ("run run run", "voxdag: missing run\n"),
    ("count count", "voxdag: missing count\n"),
];

#[test]
fn words_without_hyphens_are_names(rt: HostRuntime) -> Result<(), Fail> {
    for &(line, printed) in NAMES {
        is_refused(&rt, rt.alloc(), line, 2, printed)?;
    }
    Ok(())
}

// A run of so many scripts, whose file isn't there, is refused so.
fn is_run_of<R: Threads + Wait + Sync>(
    rt: &R,
    alloc: Global,
    scripts: u32,
    status: u8,
    printed: &str,
) -> Result<(), Fail> {
    let mut line = String::from_str(alloc, "run no.vox")?;
    for _ in 0..scripts {
        line.push_str(" t")?;
    }
    line.push_str(" --side 8")?;
    is_refused(rt, alloc, line.as_str(), status, printed)
}

#[test]
fn runs_have_64_scripts(rt: HostRuntime) -> Result<(), Fail> {
    is_run_of(&rt, rt.alloc(), 64, 2, "voxdag: missing no.vox\n")?;
    is_run_of(&rt, rt.alloc(), 65, 1, USAGE)
}
