use gen_load::load;
use std::test::Fail;
use vw_cell::Side;

// Whether the bytes are so many, begin with the one and end with the other.
fn reaches(bytes: &[u8], length: usize, first: &[u8], last: &[u8]) -> bool {
    bytes.len() == length && bytes.starts_with(first) && bytes.ends_with(last)
}

// The numbers are those of a program in Python that was written from the rules of loads alone.
const FIRST: [u8; 68] = *b"VOX \x96\0\0\0MAIN\0\0\0\0\xa8\x3e\0\0\
    SIZE\x0c\0\0\0\0\0\0\0\x20\0\0\0\x20\0\0\0\x20\0\0\0\
    XYZI\x84\x3e\0\0\0\0\0\0\xa0\x0f\0\0\x1e\x1f\x11\xf9\x09\x03\x08\xaf";

const LAST: [u8; 8] = *b"\x06\x10\x15\x5c\x0b\x14\x10\x2f";

// The number of a script, its length, and its first and last lines.
const SCRIPTS: [(usize, usize, &'static str, &'static str); 3] = [
    (
        0,
        4122,
        "stamp 0 15 118 42\nerase 40 82 84 8 2 8\nball 23 132 203 2\n",
        "\nerase 6 149 90 15 12 1\ncount 0 0 0 64 256 256\n",
    ),
    (
        1,
        4162,
        "fill 73 212 148 11 16 6\nstamp 0 84 7 17\n",
        "\nstamp 0 92 9 7\ncount 64 0 0 64 256 256\n",
    ),
    (
        3,
        4192,
        "erase 217 108 138 7 11 15\nball 221 118 30 1\n",
        "\nfill 225 182 55 9 2 11\ncount 192 0 0 64 256 256\n",
    ),
];

#[test]
fn the_load_of_7_is_made(rt: HostRuntime) -> Result<(), Fail> {
    let made = load(rt.alloc(), 7).map_err(|_| "out of memory")?;
    assert_eq!(rt; (Some(made.side), made.scripts.len()), (Side::new(256), 4));
    assert!(rt; reaches(&made.vox, 16060, &FIRST, &LAST), "the model");
    for (number, length, first, last) in SCRIPTS {
        let script = made.scripts.get(number).ok_or("a script")?;
        assert!(rt;
            reaches(script, length, first.as_bytes(), last.as_bytes()),
            "script {number}"
        );
    }
    Ok(())
}

// Worked out by hand: behind the first draw the state is 1442695040888963407, and without its 33
// lowest bits 167951807, which is 31 modulo 32.
#[test]
fn the_first_draw_of_0_is_31(rt: HostRuntime) -> Result<(), Fail> {
    let made = load(rt.alloc(), 0).map_err(|_| "out of memory")?;
    assert_eq!(rt; made.vox.get(60).copied(), Some(31));
    Ok(())
}
