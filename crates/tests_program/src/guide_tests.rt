//! The examples of `docs/SCRIPTS.md`, in their order, with the answers that it gives.

use crate::calls::{ends, has, shelf_with};
use std::test::Fail;

const EXAMPLES: &str =
    "fill 0 0 0 4 1 1\nerase 1 0 0 1 1 1\ncopy 0 0 0 2 1 1 to 0 2 0\nball 7 7 7 1\n\
     carve 7 7 7 0\nstamp 0 5 0 0\nundo\nredo\nforget 1\nget 0 0 0\nget 1 0 0\n\
     count 0 0 0 8 8 8\nfaces 2 0 0 2 1 1\nbounds\nray 7 0 0 -1 0 0\nray 1 1 1 0 0 1\n\
     at 2 count 0 0 0 8 8 8\nat 1 get 0 0 0\nsame 6 8\nsame 6 7\nhead\n\
     save world.vox 0 0 0 8 8 8\nat 2 save two.vox 0 0 0 4 1 1\n";

const TRANSCRIPT: &str =
    "1 @1 ok\n2 @2 ok\n3 @3 ok\n4 @4 ok\n5 @5 ok\n6 @6 ok\n7 @7 ok\n8 @8 ok\n9 @8 forgot 1\n\
     10 @8 set\n11 @8 clear\n12 @8 count 8\n13 @8 faces 10\n14 @8 bounds 0 0 0 8 8 8\n\
     15 @8 hit 5 0 0\n16 @8 miss\n17 @8 count 3\n18 @8 forgotten 1\n19 @8 same\n\
     20 @8 different\n21 @8 head\n22 @8 saved 8\n23 @8 saved 3\n";

#[test]
fn examples_have_their_answers(rt: HostRuntime) -> Result<(), Fail> {
    let mut shelf = shelf_with(rt.alloc(), EXAMPLES.as_bytes())?;
    let printed = "scripts 1 records 8 marks 1 nodes 10\n";
    let line = "run --side 8 one.vox s";
    ends(&rt, rt.alloc(), line, &mut shelf, 0, printed)?;
    has(&shelf, "s.out", TRANSCRIPT)
}
