ghost use Rattle.std.specs.Prelude.{◌≡◌, ◌≤◌, IfErr, OnOk};
ghost use Rattle.vw_io.specs.Outputs.{Named, AreWritten, StopsWith};

use crate::shelves::{Shelf, WriteRefused};
use std::marker::Model;

/// An output: its name and its bytes. Contracts see the two.
#[derive(Drop)]
pub struct Output<'w, 't> {
    pub name: &'w str,
    pub bytes: &'t [u8],
}

impl<'w, 't> Model for Output<'w, 't> {
    ghost Value = { Named };

    ghost view = { λ output. record { name = output.name.now; bytes = output.bytes.now } };
}

/// The output that was not written, and why.
#[derive(Clone, Copy, Debug, PartialEq, Eq)]
pub struct OutputRefused<'w> {
    pub name: &'w str,
    pub why: WriteRefused,
}

/// Writes all outputs, in order, up to the first that is refused.
#[tactic(auto, using(crate::proofs::Written::none_yet, crate::proofs::Written::all_written))]
pub fn write_all<'w, 't, S: Shelf>(
    outputs: &[Output<'w, 't>],
    shelf: &mut S,
) -> Result<(), OutputRefused<'w>>
    ensures whole { OnOk result
        (AreWritten outputs.now (S.state shelf.old).files (S.state shelf.new).files) }
    ensures never_falls { (S.state shelf.old).faults ≤ (S.state shelf.new).faults }
    ensures refused { IfErr result (λ refused. StopsWith refused.why refused.name.now outputs.now
        (S.state shelf.old).files (S.state shelf.new).files (S.state shelf.old).faults
        (S.state shelf.new).faults) }
{
    for output in outputs {
        match shelf.write(output.name, output.bytes) {
            Ok(()) => {}
            Err(why) => {
                return Err(OutputRefused {
                    name: output.name,
                    why,
                });
            }
        }
    }
    Ok(())
}
