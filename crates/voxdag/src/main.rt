//! The program `voxdag` over real files and standard output. What it does with a line of words is
//! the top call's, in `voxdag_top`.
#![tactic(auto)]

use std::io::ErrorKind;
use std::process::ExitCode;
use std::rt::Env;
use std::{env, io};
use voxdag_top::voxdag;
use vw_io::{FileShelf, StdSink};

/// The status where not even the words fit in memory.
const MEMORY: u8 = 8;

fn main(rt: HostRuntime) -> ExitCode {
    let mut shelf = FileShelf::new(&rt);
    let mut out = StdSink::new(&rt);
    let status = match words(&rt) {
        Ok(words) => voxdag(&rt, rt.alloc(), words.as_slice(), &mut shelf, &mut out),
        Err(e) if e.kind() == ErrorKind::OutOfMemory => MEMORY,
        // A word that is no text is in no grammar.
        Err(_) => voxdag(&rt, rt.alloc(), &[], &mut shelf, &mut out),
    };
    ExitCode::from(status)
}

// The words after the program's name.
fn words(rt: &(impl Env + AllocGlobal)) -> io::Result<Vec<String>> {
    let mut args = env::args(rt)?;
    let _name = args.next();
    Ok(args.collect(rt.alloc())?)
}
