use std::alloc::Global;
use std::test::Fail;
use vw_io::{
    FaultyShelf, FaultySink, Input, InputRefused, MemoryShelf, MemorySink, Output, PutRefused,
    ReadRefused, Shelf, Sink, WriteRefused, collide, read_all, write_all,
};

/// What a read with at most so many bytes answers, and the file of that name.
type Look = (
    &'static str,
    u64,
    Result<(), ReadRefused>,
    Option<&'static [u8]>,
);

const LOOKS: &[Look] = &[
    ("a", 7, Ok(()), Some(b"seven b")),
    ("a", 6, Err(ReadRefused::TooLong), Some(b"seven b")),
    ("b", 0, Ok(()), Some(b"")),
    ("c", 9, Err(ReadRefused::Missing), None),
];

fn looks_as(shelf: &mut MemoryShelf, look: &Look, into: &mut Vec<u8>) -> bool {
    let &(name, limit, answer, file) = look;
    if shelf.read(name, limit, into) != answer || shelf.file(name) != file {
        return false;
    }
    match (answer, file) {
        (Ok(()), Some(bytes)) => into.as_slice() == bytes,
        _ => into.is_empty(),
    }
}

#[test]
fn memory_shelf(rt: HostRuntime) -> Result<(), Fail> {
    let mut shelf = MemoryShelf::new(rt.alloc());
    shelf.write("a", b"first")?;
    shelf.write("b", b"")?;
    shelf.write("a", b"seven b")?;
    let mut into = Vec::new(rt.alloc());
    for look in LOOKS {
        assert!(rt;
            looks_as(&mut shelf, look, &mut into),
            "{} {}",
            look.0,
            look.1
        );
    }
    Ok(())
}

#[test]
fn memory_sink(rt: HostRuntime) -> Result<(), Fail> {
    let mut sink = MemorySink::new(rt.alloc());
    sink.put(b"one ")?;
    sink.put(b"two")?;
    assert_eq!(rt; sink.bytes(), b"one two".as_slice());
    Ok(())
}

/// A call of a shelf and its answer, or what a file has then.
enum Call {
    Read(&'static str, u64, Result<(), ReadRefused>),
    Write(&'static str, &'static [u8], Result<(), WriteRefused>),
    Has(&'static str, &'static [u8]),
}

/// Of a shelf with `a`, whose second call fails, whose third does after 4 bytes, and whose fifth
/// does after 9.
const FAULTY: &[Call] = &[
    Call::Read("a", 9, Ok(())),
    Call::Read("a", 9, Err(ReadRefused::Failed)),
    Call::Write("a", b"second", Err(WriteRefused::Failed)),
    Call::Has("a", b"seco"),
    Call::Write("a", b"third", Ok(())),
    Call::Write("b", b"fourth", Err(WriteRefused::Failed)),
    Call::Has("b", b"fourth"),
    Call::Read("a", 4, Err(ReadRefused::TooLong)),
];

fn faulty(alloc: Global) -> Result<FaultyShelf, Fail> {
    let mut files = MemoryShelf::new(alloc);
    files.write("a", b"first")?;
    let fails = Vec::from_slice(alloc, &[(2u32, 9u32), (3, 4), (5, 9)])?;
    Ok(FaultyShelf::new(files, fails))
}

// The call of this number is answered as its row says.
fn is_answered(
    shelf: &mut FaultyShelf,
    number: usize,
    call: &Call,
    into: &mut Vec<u8>,
) -> Result<(), Fail> {
    match *call {
        Call::Read(name, limit, want) => {
            let answer = shelf.read(name, limit, into);
            if answer == want && (answer.is_ok() || into.is_empty()) {
                return Ok(());
            }
            let bytes = into.len();
            Err(Fail::new(format_args!(
                "call {number}: {answer:?} with {bytes} bytes, wanted is {want:?}"
            )))
        }
        Call::Write(name, bytes, want) => {
            let answer = shelf.write(name, bytes);
            if answer == want {
                return Ok(());
            }
            Err(Fail::new(format_args!("call {number}: {answer:?}, wanted is {want:?}")))
        }
        Call::Has(name, bytes) => {
            let found = shelf.files().file(name);
            if found == Some(bytes) {
                return Ok(());
            }
            Err(Fail::new(format_args!("row {number}: {found:?}, wanted is {bytes:?}")))
        }
    }
}

#[test]
fn faulty_shelf(rt: HostRuntime) -> Result<(), Fail> {
    let mut shelf = faulty(rt.alloc())?;
    let mut into = Vec::new(rt.alloc());
    for (number, call) in FAULTY.iter().enumerate() {
        is_answered(&mut shelf, number, call, &mut into)?;
    }
    Ok(())
}

#[test]
fn faulty_sink(rt: HostRuntime) -> Result<(), Fail> {
    let fails = Vec::from_slice(rt.alloc(), &[(2u32, 1u32)])?;
    let mut sink = FaultySink::new(rt.alloc(), fails);
    assert_eq!(rt; sink.put(b"one "), Ok(()));
    assert_eq!(rt; sink.put(b"two "), Err(PutRefused::Failed));
    assert_eq!(rt; sink.put(b"hree"), Ok(()));
    assert_eq!(rt; sink.bytes(), b"one three".as_slice());
    Ok(())
}

// The bytes of both files of the shelf, one behind the other.
fn joined(alloc: Global, shelf: &mut MemoryShelf) -> Result<Vec<u8>, Fail> {
    let inputs = [
        Input {
            name: "a",
            limit: 5,
        },
        Input {
            name: "b",
            limit: 1,
        },
    ];
    let mut all = Vec::new(alloc);
    let Ok(texts) = read_all(alloc, &inputs, shelf) else {
        return Err(Fail::from("the inputs"));
    };
    for text in &texts {
        all.extend_from_slice(text.as_slice())?;
    }
    Ok(all)
}

#[test]
fn lists_of_files(rt: HostRuntime) -> Result<(), Fail> {
    let mut shelf = MemoryShelf::new(rt.alloc());
    let a = Output {
        name: "a",
        bytes: b"first",
    };
    let b = Output {
        name: "b",
        bytes: b"2",
    };
    assert_eq!(rt; write_all(&[a, b], &mut shelf), Ok(()));
    let all = joined(rt.alloc(), &mut shelf)?;
    assert_eq!(rt; all.as_slice(), b"first2".as_slice());
    Ok(())
}

/// Names of two outputs, and whether they collide with each other or with an input of name `a` or
/// `b`.
const NAMES: &[([&str; 2], bool)] = &[
    (["c", "d"], false),
    (["a", "d"], true),
    (["c", "b"], true),
    (["c", "c"], true),
];

#[test]
fn names_collide(rt: HostRuntime) -> Result<(), Fail> {
    let inputs = [
        Input {
            name: "a",
            limit: 5,
        },
        Input {
            name: "b",
            limit: 1,
        },
    ];
    for (names, want) in NAMES {
        assert_eq!(rt; collide(names, &inputs), *want);
    }
    Ok(())
}

// Whether the first input that isn't taken is this one, where `a` may have at most so many bytes.
fn stops_at(alloc: Global, shelf: &mut MemoryShelf, limit: u64, want: InputRefused) -> bool {
    let inputs = [
        Input { name: "a", limit },
        Input {
            name: "no",
            limit: 9,
        },
    ];
    match read_all(alloc, &inputs, shelf) {
        Ok(_) => false,
        Err(refused) => refused == want,
    }
}

#[test]
fn lists_stop_at_the_first_refusal(rt: HostRuntime) -> Result<(), Fail> {
    let mut shelf = MemoryShelf::new(rt.alloc());
    shelf.write("a", b"first")?;
    for (limit, name, why) in [
        (4, "a", ReadRefused::TooLong),
        (5, "no", ReadRefused::Missing),
    ] {
        let want = InputRefused { name, why };
        assert!(rt; stops_at(rt.alloc(), &mut shelf, limit, want), "at {name}");
    }
    Ok(())
}
