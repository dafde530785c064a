ghost use Rattle.std.specs.Prelude.{◌≡◌, ◌≤◌, ℕ, List, length, IfOk, IfErr, OnOk};
ghost use Rattle.vw_io.specs.Inputs.{WantedInput, AreTaken, KeepsText, StopsAt, RefusesInput};

use crate::shelves::{ReadRefused, Shelf};
use std::alloc::Global;
use std::convert::AsSlice;
use std::marker::Model;

/// An input: its name, and the most bytes that its file may have. Contracts see the two.
#[derive(Drop)]
pub struct Input<'w> {
    pub name: &'w str,
    pub limit: u64,
}

impl<'w> Model for Input<'w> {
    ghost Value = { WantedInput };

    ghost view = { λ input. record { name = input.name.now; limit = input.limit } };
}

/// The first input that was not taken, and why.
#[derive(Clone, Copy, Debug, PartialEq, Eq)]
pub struct InputRefused<'w> {
    pub name: &'w str,
    pub why: ReadRefused,
}

/// The whole bytes of an input. Contracts see them.
#[derive(Drop)]
pub struct Text {
    bytes: Vec<u8>,
}

impl Model for Text {
    ghost Value = { List ℕ };

    ghost view = { λ text. text.bytes.items };
}

impl Text {
    /// The bytes.
    pub fn as_slice(&self) -> &[u8]
        ensures { result.now ≡ self.now }
    {
        self.bytes.as_slice()
    }
}

impl AsSlice<u8> for Text {
    ghost items = { λ text. text };

    fn as_slice(&self) -> &[u8] {
        self.bytes.as_slice()
    }
}

/// Reads all inputs, in order, up to the first that is not taken.
#[tactic(auto, using(crate::proofs::Reading::all_taken, crate::proofs::Reading::same_length))]
pub fn read_all<'w, S: Shelf>(
    alloc: Global,
    inputs: &[Input<'w>],
    shelf: &mut S,
) -> Result<Vec<Text>, InputRefused<'w>>
    ensures taken { IfOk result
        (λ texts. AreTaken (S.state shelf.old).files inputs.now texts.items) }
    ensures each { IfOk result (λ texts. length texts.items ≡ length inputs.now) }
    ensures refused { IfErr result (λ refused. StopsAt refused.why refused.name.now inputs.now
        (S.state shelf.old).files (S.state shelf.old).faults (S.state shelf.new).faults) }
    ensures unchanged { (S.state shelf.new).files ≡ (S.state shelf.old).files }
    ensures never_falls { (S.state shelf.old).faults ≤ (S.state shelf.new).faults }
{
    let mut texts = Vec::new(alloc);
    for input in inputs {
        match read_next(alloc, input, &mut texts, shelf) {
            Ok(()) => {}
            Err(why) => {
                return Err(InputRefused {
                    name: input.name,
                    why,
                });
            }
        }
    }
    Ok(texts)
}

// Reads one more input, and keeps its text.
fn read_next<S: Shelf>(
    alloc: Global,
    input: &Input<'_>,
    texts: &mut Vec<Text>,
    shelf: &mut S,
) -> Result<(), ReadRefused>
    ensures taken { OnOk result
        (KeepsText (S.state shelf.old).files input.now texts.old.items texts.new.items) }
    ensures refused { IfErr result (λ why. RefusesInput why (S.state shelf.old).files input.now
        (S.state shelf.old).faults (S.state shelf.new).faults) }
    ensures unchanged { (S.state shelf.new).files ≡ (S.state shelf.old).files }
    ensures never_falls { (S.state shelf.old).faults ≤ (S.state shelf.new).faults }
{
    let mut bytes = Vec::new(alloc);
    shelf.read(input.name, input.limit, &mut bytes)?;
    texts.push(Text { bytes })?;
    Ok(())
}
