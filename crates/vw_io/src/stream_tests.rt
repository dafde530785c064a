//! Readers and writers that answer their first calls as they are told to.
ghost use Rattle.std.specs.Prelude.{◌≤◌, IfOk};

use crate::readers::read_whole;
use crate::writers::write_whole;
use crate::{PutRefused, ReadRefused, Sink, StdSink};
use std::cell::RefCell;
use std::fmt::Display;
use std::io;
use std::io::{Error, ErrorKind, Print, Read, Write};
use std::test::Fail;

/// What one call answers.
#[derive(Clone, Copy)]
enum Call {
    /// It moves at most so many bytes.
    Moves(usize),
    /// It fails so.
    Fails(ErrorKind),
}

use Call::{Fails, Moves};

const CUT: Call = Fails(ErrorKind::Interrupted);

const NO_MEMORY: Call = Fails(ErrorKind::OutOfMemory);

const BROKEN: Call = Fails(ErrorKind::BrokenPipe);

/// Answers its first calls so, and moves all that it can at each later one.
#[derive(Drop)]
struct Calls<'c> {
    calls: &'c [Call],
}

impl Calls<'_> {
    // How many bytes of this number the next call moves.
    fn next(&mut self, all: usize) -> io::Result<usize>
        ensures { IfOk result (λ moved. moved ≤ all) }
    {
        let Some((first, others)) = self.calls.split_first() else {
            return Ok(all);
        };
        self.calls = others;
        match *first {
            Moves(most) => Ok(most.min(all)),
            Fails(kind) => Err(Error::from(kind)),
        }
    }
}

/// A reader of these bytes.
#[derive(Drop)]
struct Source<'c> {
    calls: Calls<'c>,
    left: &'c [u8],
}

impl Read for Source<'_> {
    fn read(&mut self, buf: &mut [u8]) -> io::Result<usize> {
        let most = self.calls.next(buf.len())?;
        self.left.read(&mut buf[..most])
    }
}

/// A writer that holds what it took.
#[derive(Drop)]
struct Target<'c> {
    calls: Calls<'c>,
    held: Vec<u8>,
}

impl Write for Target<'_> {
    fn write(&mut self, buf: &[u8]) -> io::Result<usize> {
        let moved = self.calls.next(buf.len())?;
        self.held.extend_from_slice(&buf[..moved])?;
        Ok(moved)
    }

    fn flush(&mut self) -> io::Result<()> {
        Ok(())
    }
}

/// What the first calls of a reader answer, the most bytes, the room for them at first, and the
/// answer.
type Reading = (&'static [Call], usize, usize, Result<(), ReadRefused>);

const READINGS: &[Reading] = &[
    (&[Moves(9), Moves(9), Moves(9), Moves(9)], 5, 5, Ok(())),
    (&[CUT, CUT, CUT, Moves(1)], 5, 0, Ok(())),
    (&[Moves(1), Moves(1), Moves(1), CUT], 9, 2, Ok(())),
    (
        &[Moves(1), CUT, Moves(2), CUT],
        4,
        4,
        Err(ReadRefused::TooLong),
    ),
    (
        &[Moves(1), CUT, BROKEN, Moves(9)],
        5,
        5,
        Err(ReadRefused::Failed),
    ),
    (
        &[BROKEN, Moves(9), Moves(9), Moves(9)],
        5,
        0,
        Err(ReadRefused::Failed),
    ),
    (
        &[Moves(1), NO_MEMORY, Moves(9), Moves(9)],
        5,
        5,
        Err(ReadRefused::Memory),
    ),
];

#[test]
fn readers_are_read_to_their_end(rt: HostRuntime) -> Result<(), Fail> {
    for &(calls, limit, room, want) in READINGS {
        let mut from = Source {
            calls: Calls { calls },
            left: b"bytes",
        };
        let mut into = Vec::from_slice(rt.alloc(), b"older bytes")?;
        let answer = read_whole(&mut from, room, limit, &mut into);
        assert_eq!(rt; answer, want, "limit {limit}, room {room}");
        if want.is_ok() {
            assert_eq!(rt; into.as_slice(), b"bytes".as_slice());
        }
    }
    Ok(())
}

/// What the first calls of a writer answer, the answer, and what the writer holds.
type Writing = (&'static [Call], Result<(), PutRefused>, &'static str);

const WRITINGS: &[Writing] = &[
    (&[Moves(9), Moves(9), Moves(9), Moves(9)], Ok(()), "bytes"),
    (&[CUT, CUT, CUT, Moves(1)], Ok(()), "bytes"),
    (&[Moves(1), Moves(1), Moves(1), CUT], Ok(()), "bytes"),
    (
        &[Moves(0), Moves(9), Moves(9), Moves(9)],
        Err(PutRefused::Failed),
        "",
    ),
    (
        &[Moves(1), CUT, Moves(0), Moves(9)],
        Err(PutRefused::Failed),
        "b",
    ),
    (
        &[BROKEN, Moves(9), Moves(9), Moves(9)],
        Err(PutRefused::Failed),
        "",
    ),
    (
        &[Moves(2), BROKEN, Moves(9), Moves(9)],
        Err(PutRefused::Failed),
        "by",
    ),
    (
        &[NO_MEMORY, Moves(9), Moves(9), Moves(9)],
        Err(PutRefused::Memory),
        "",
    ),
    (
        &[Moves(2), NO_MEMORY, Moves(9), Moves(9)],
        Err(PutRefused::Failed),
        "by",
    ),
];

#[test]
fn writers_get_all_bytes(rt: HostRuntime) -> Result<(), Fail> {
    for &(calls, want, held) in WRITINGS {
        let mut to = Target {
            calls: Calls { calls },
            held: Vec::new(rt.alloc()),
        };
        assert_eq!(rt; write_whole(&mut to, b"bytes"), want, "at {held}");
        assert_eq!(rt; to.held.as_slice(), held.as_bytes());
    }
    Ok(())
}

/// Keeps what is printed on it, or takes nothing once it is full.
#[derive(Drop)]
struct Screen {
    shown: RefCell<Vec<u8>>,
    is_full: bool,
}

impl Print for Screen {
    fn print<D: Display + Drop>(&self, _value: D) -> io::Result<()> {
        Err(Error::from(ErrorKind::Unsupported))
    }

    fn println<D: Display + Drop>(&self, _value: D) -> io::Result<()> {
        Err(Error::from(ErrorKind::Unsupported))
    }

    fn write_all(&self, bytes: &[u8]) -> io::Result<()> {
        if self.is_full {
            return Err(Error::from(ErrorKind::StorageFull));
        }
        match self.shown.try_borrow_mut() {
            Ok(mut shown) => Ok(shown.extend_from_slice(bytes)?),
            Err(_) => Err(Error::from(ErrorKind::ResourceBusy)),
        }
    }
}

#[test]
fn standard_output_gets_all_bytes(rt: HostRuntime) -> Result<(), Fail> {
    for (is_full, want, text, faults) in [
        (false, Ok(()), "one line\nanother\n", 0),
        (true, Err(PutRefused::Failed), "", 2),
    ] {
        let screen = Screen {
            shown: RefCell::new(Vec::new(rt.alloc())),
            is_full,
        };
        let mut out = StdSink::new(&screen);
        assert_eq!(rt; out.put(b"one line\n"), want);
        assert_eq!(rt; out.put(b"another\n"), want);
        assert_eq!(rt; out.faults(), faults);
        let shown = screen.shown.into_inner();
        assert_eq!(rt; shown.as_slice(), text.as_bytes());
    }
    Ok(())
}
