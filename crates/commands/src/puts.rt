//! Outputs that are written, and the line of a fault at one.
ghost use Rattle.std.specs.Prelude.{◌≡◌, ◌≤◌, ◌<◌, ◌^◌, [], length, string_bytes, string_capacity};
ghost use Rattle.commands.specs.Putting.{Writes, longest_name, write_fault_line};

use crate::refusals::NamedOutputRefused;
use std::alloc::Global;
use vw_io::{Output, Shelf, WriteRefused, write_all};

/// How many bytes the line of a fault at an output has beside the output's name.
const FAULT_WORDS: usize = 21;

/// Writes all outputs, in order, up to the first that is refused. Room for the line of a fault at
/// any of them is taken first, so that no such fault goes untold for want of memory.
#[tactic(auto, using(crate::proofs::Putting::at_once, crate::proofs::Putting::failed_told, crate::proofs::Putting::lacking_told))]
pub fn put_out<S: Shelf>(
    alloc: Global,
    outputs: &[Output<'_, '_>],
    shelf: &mut S,
) -> Result<(), NamedOutputRefused>
    ensures writes { Writes result outputs.now (S.state shelf.old) (S.state shelf.new) }
{
    let longest = longest_name(outputs);
    let Ok(room) = String::with_capacity(alloc, longest + FAULT_WORDS) else {
        return Err(NamedOutputRefused::Memory);
    };
    match write_all(outputs, shelf) {
        Ok(()) => Ok(()),
        Err(refused) => match refused.why {
            WriteRefused::Failed => Err(NamedOutputRefused::Failed(fault_line(refused.name, room))),
            WriteRefused::Memory => Err(NamedOutputRefused::Memory),
        },
    }
}

// The length of the longest of their names.
fn longest_name(outputs: &[Output<'_, '_>]) -> usize
    ensures is { result ≡ longest_name outputs.now }
    ensures small { result < 2 ^ 63 }
{
    match outputs {
        [] => 0,
        [output, others @ ..] => output.name.len().max(longest_name(others)),
    }
}

// The line is made in this room, and so lacks no memory.
fn fault_line(name: &str, room: String) -> String
    requires empty { string_bytes room ≡ [] }
    requires room { length (write_fault_line name.now) ≤ string_capacity room }
    ensures { string_bytes result ≡ write_fault_line name.now }
{
    let mut line = room;
    let Ok(()) = line.push_str("voxdag: write fault ") else {
        unreachable!()
    };
    let Ok(()) = line.push_str(name) else {
        unreachable!()
    };
    let Ok(()) = line.push_str("\n") else {
        unreachable!()
    };
    line
}
