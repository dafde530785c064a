use crate::acts::{boxed, cell};
use std::alloc::Global;
use std::test::Fail;
use transcript::{
    Answer, LineAnswer, TranscriptFault, moments_never_fall, read_transcript, transcript_text,
};
use vw_cell::{Boxed, Cell};

const FAR: Cell = Cell {
    x: 1,
    y: 10,
    z: 65535,
};

const PART: Boxed = Boxed {
    at: Cell { x: 0, y: 1, z: 2 },
    size: Cell {
        x: 4,
        y: 5,
        z: 65535,
    },
};

// Each answer, and its text.
const ROWS: &[(Answer, &str)] = &[
    (Answer::Done, "ok"),
    (Answer::Forgot(0), "forgot 0"),
    (Answer::Forgot(4_294_967_295), "forgot 4294967295"),
    (Answer::Is(true), "set"),
    (Answer::Is(false), "clear"),
    (Answer::Colour(0), "colour 0"),
    (Answer::Colour(5), "colour 5"),
    (Answer::Colour(255), "colour 255"),
    (Answer::Count(0), "count 0"),
    (Answer::Count(68_719_476_736), "count 68719476736"),
    (
        Answer::Count(18_446_744_073_709_551_615),
        "count 18446744073709551615",
    ),
    (Answer::Faces(384), "faces 384"),
    (
        Answer::Faces(18_446_744_073_709_551_615),
        "faces 18446744073709551615",
    ),
    (Answer::Extent(Some(PART)), "bounds 0 1 2 4 5 65535"),
    (Answer::Extent(None), "bounds none"),
    (Answer::Hit(Some(FAR)), "hit 1 10 65535"),
    (Answer::Hit(None), "miss"),
    (Answer::Same(true), "same"),
    (Answer::Same(false), "different"),
    (Answer::Head, "head"),
    (Answer::Saved(31752), "saved 31752"),
    (
        Answer::Saved(18_446_744_073_709_551_615),
        "saved 18446744073709551615",
    ),
    (
        Answer::Full {
            level: 0,
            bucket: 0,
        },
        "full 0 0",
    ),
    (
        Answer::Full {
            level: 255,
            bucket: 65535,
        },
        "full 255 65535",
    ),
    (Answer::NoVersion(9), "no version 9"),
    (Answer::Forgotten(1), "forgotten 1"),
    (Answer::Forgotten(4_294_967_295), "forgotten 4294967295"),
    (Answer::IsHead, "is head"),
    (Answer::NothingToUndo, "nothing to undo"),
    (Answer::NothingToRedo, "nothing to redo"),
    (Answer::LogFull, "log full"),
    (Answer::Stale(0), "stale 0"),
    (Answer::Stale(65534), "stale 65534"),
];

fn full(level: u8, bucket: u16) -> Answer {
    Answer::Full { level, bucket }
}

// Whether the text of an answer at line 17 and moment 6 is this, and is read as that answer.
fn is_told(alloc: Global, answer: Answer, text: &[u8]) -> Result<bool, Fail> {
    let told = LineAnswer {
        line: 17,
        at: 6,
        answer,
    };
    let written = transcript_text(alloc, &[told]).map_err(|_| "out of memory")?;
    if written.as_slice() != text {
        return Ok(false);
    }
    let read = read_transcript(alloc, text).map_err(|_| "a fault")?;
    Ok(read.as_slice() == [told].as_slice())
}

#[test]
fn every_answer_has_its_words(rt: HostRuntime) -> Result<(), Fail> {
    for &(answer, words) in ROWS {
        let mut text = String::new(rt.alloc());
        write!(text, "17 @6 {words}\n")?;
        assert!(rt; is_told(rt.alloc(), answer, text.as_bytes())?, "at {words}");
    }
    Ok(())
}

// Texts whose first line that doesn't fit is their last.
const BROKEN: &[(&str, u64)] = &[
    ("1 @0 ok", 1),
    ("1 @0 ok\n2 @0 head", 2),
    ("\n", 1),
    ("1 @0 ok\n\n", 2),
    ("1 @0 ok\r\n", 1),
    ("1 @0 ok\n2 @0 ok\n3\t@0 ok\n", 3),
    (" 1 @0 ok\n", 1),
    ("1 @0 ok \n", 1),
    ("1  @0 ok\n", 1),
    ("1 @0  ok\n", 1),
    ("1\n", 1),
    ("1 @0\n", 1),
    ("1 0 ok\n", 1),
    ("1 @ ok\n", 1),
    ("1 @@0 ok\n", 1),
    ("@1 @0 ok\n", 1),
    ("01 @0 ok\n", 1),
    ("1 @00 ok\n", 1),
    ("-1 @0 ok\n", 1),
    ("4294967295 @4294967295 ok\n4294967296 @0 ok\n", 2),
    ("1 @4294967296 ok\n", 1),
    ("1 @0 OK\n", 1),
    ("1 @0 okay\n", 1),
    ("1 @0 ok ok\n", 1),
    ("1 @0 set 1\n", 1),
    ("1 @0 clear 0 0 0\n", 1),
    ("1 @0 miss 0\n", 1),
    ("1 @0 same 0 1\n", 1),
    ("1 @0 different 1\n", 1),
    ("1 @0 head 0\n", 1),
    ("1 @0 colour\n", 1),
    ("1 @0 colour 05\n", 1),
    ("1 @0 colour 256\n", 1),
    ("1 @0 colour 1 2\n", 1),
    ("1 @0 count\n", 1),
    ("1 @0 count 01\n", 1),
    ("1 @0 count 1 2\n", 1),
    ("1 @0 count 18446744073709551616\n", 1),
    ("1 @0 count 99999999999999999999\n", 1),
    ("1 @0 faces x\n", 1),
    ("1 @0 saved -1\n", 1),
    ("1 @0 forgot\n", 1),
    ("1 @0 forgot 4294967296\n", 1),
    ("1 @0 forgotten 1 @2\n", 1),
    ("1 @0 stale 00\n", 1),
    ("1 @0 no version\n", 1),
    ("1 @0 no versions 1\n", 1),
    ("1 @0 no 1\n", 1),
    ("1 @0 no version 4294967296\n", 1),
    ("1 @0 bounds\n", 1),
    ("1 @0 bounds none 0\n", 1),
    ("1 @0 bounds 0 0 0 1 1\n", 1),
    ("1 @0 bounds 0 0 0 1 1 1 1\n", 1),
    ("1 @0 bounds 0 0 0 1 1 65536\n", 1),
    ("1 @0 hit 1 1\n", 1),
    ("1 @0 hit 1 1 65536\n", 1),
    ("1 @0 full 0\n", 1),
    ("1 @0 full 256 0\n", 1),
    ("1 @0 full 0 65536\n", 1),
    ("1 @0 is\n", 1),
    ("1 @0 is full\n", 1),
    ("1 @0 log\n", 1),
    ("1 @0 log head\n", 1),
    ("1 @0 nothing to do\n", 1),
    ("1 @0 nothing undo\n", 1),
    ("1 @0 nothing to undo 1\n", 1),
];

#[test]
fn the_first_line_that_is_no_answer_is_told(rt: HostRuntime) -> Result<(), Fail> {
    for &(text, line) in BROKEN {
        let fault = read_transcript(rt.alloc(), text.as_bytes())
            .err()
            .ok_or("a fault")?;
        assert!(rt; fault == TranscriptFault::Line(line), "at {text}");
    }
    Ok(())
}

fn answer_at(line: u32, at: u32, answer: Answer) -> LineAnswer {
    LineAnswer { line, at, answer }
}

// Undos and redos of a script, and what was answered.
#[test]
fn a_whole_transcript_is_told(rt: HostRuntime) -> Result<(), Fail> {
    let answers = [
        answer_at(1, 0, Answer::NothingToUndo),
        answer_at(2, 1, Answer::Done),
        answer_at(3, 2, Answer::Done),
        answer_at(4, 3, Answer::Done),
        answer_at(5, 3, Answer::NothingToRedo),
        answer_at(6, 4, Answer::Done),
        answer_at(7, 4, Answer::Count(0)),
        answer_at(8, 4, Answer::Colour(5)),
    ];
    let want = "1 @0 nothing to undo\n\
        2 @1 ok\n\
        3 @2 ok\n\
        4 @3 ok\n\
        5 @3 nothing to redo\n\
        6 @4 ok\n\
        7 @4 count 0\n\
        8 @4 colour 5\n";
    let text = transcript_text(rt.alloc(), &answers).map_err(|_| "out of memory")?;
    assert!(rt; text.as_slice() == want.as_bytes());
    let read = read_transcript(rt.alloc(), want.as_bytes()).map_err(|_| "a fault")?;
    assert!(rt; read.as_slice() == answers.as_slice());
    Ok(())
}

#[test]
fn a_moment_that_falls_is_told(rt: HostRuntime) -> Result<(), Fail> {
    for &(text, never) in &[
        ("", true),
        ("7 @65535 ok\n", true),
        ("9 @0 ok\n1 @0 head\n2 @3 ok\n3 @3 head\n", true),
        ("1 @1 ok\n2 @0 head\n", false),
        (
            "1 @0 ok\n2 @65535 head\n3 @65534 head\n4 @65535 head\n",
            false,
        ),
    ] {
        let read = read_transcript(rt.alloc(), text.as_bytes()).map_err(|_| "a fault")?;
        assert!(rt; moments_never_fall(&read) == never, "at {text}");
    }
    Ok(())
}

// The next of a row of numbers that look random.
fn drawn(seed: &mut u64) -> u64 {
    *seed = seed
        .wrapping_mul(6364136223846793005)
        .wrapping_add(1442695040888963407);
    *seed >> 16
}

// The row of this number with numbers of its own.
fn varied(answer: Answer, seed: &mut u64) -> Answer {
    let n = drawn(seed);
    let c = cell((n % 65536) as u16, (n % 100) as u16, (n % 7) as u16);
    match answer {
        Answer::Forgot(_) => Answer::Forgot((n % 4_294_967_296) as u32),
        Answer::Colour(_) => Answer::Colour((n % 256) as u8),
        Answer::Count(_) => Answer::Count(n.wrapping_mul(65537)),
        Answer::Faces(_) => Answer::Faces(n),
        Answer::Extent(Some(_)) => Answer::Extent(Some(boxed(c, c))),
        Answer::Hit(Some(_)) => Answer::Hit(Some(c)),
        Answer::Saved(_) => Answer::Saved(n % 1000),
        Answer::Full { .. } => full((n % 256) as u8, (n % 65536) as u16),
        Answer::NoVersion(_) => Answer::NoVersion((n % 100_000) as u32),
        Answer::Forgotten(_) => Answer::Forgotten((n % 4_294_967_296) as u32),
        Answer::Stale(_) => Answer::Stale((n % 65535) as u32),
        other => other,
    }
}

// A transcript of so many rounds of all rows.
fn generated(alloc: Global, rounds: u32) -> Result<Vec<LineAnswer>, Fail> {
    let mut seed: u64 = 5;
    let mut answers = Vec::new(alloc);
    for _ in 0..rounds {
        for &(row, _) in ROWS {
            let line = (drawn(&mut seed) % 4_294_967_296) as u32;
            let at = (drawn(&mut seed) % 100_000) as u32;
            answers.push(answer_at(line, at, varied(row, &mut seed)))?;
        }
    }
    Ok(answers)
}

#[test]
fn generated_transcripts_are_read_back(rt: HostRuntime) -> Result<(), Fail> {
    let answers = generated(rt.alloc(), 200)?;
    let text = transcript_text(rt.alloc(), &answers).map_err(|_| "out of memory")?;
    let read = read_transcript(rt.alloc(), &text).map_err(|_| "a fault")?;
    assert!(rt; read.as_slice() == answers.as_slice());
    assert_eq!(rt; read.len(), 6600);
    Ok(())
}
