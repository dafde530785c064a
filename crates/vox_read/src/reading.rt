ghost use Rattle.std.specs.Prelude.{◌≡◌, ℕ, List, ◌++◌, ◌≤◌, ◌^◌, length, None, Some, Ok, Err, Result, OnOk, IfOk, IfErr};
ghost use Rattle.vox_chunk.specs.declared.faults.VoxFault.{VoxFault};
ghost use Rattle.vox_read.specs.Contents.{AreModels, Content};
ghost use Rattle.vox_read.specs.Children.{waiting_behind, models_in, fields_fault};
ghost use Rattle.vox_read.specs.Refusals.{SaysBroken};
ghost use Rattle.vox_read.specs.Files.{ReadsModels, RefusesFile};

use crate::fields::{read_model, read_size};
use crate::models::{Model, Models};
use std::alloc::Global;
use vox_chunk::{Chunk, Chunks, VoxFault};
use vw_cell::Cell;

/// The most models that a file may have.
const MODELS: usize = 1024;

/// Reads the models of a file, in the file's order, or tells its first fault: that of the header,
/// or else of the first child of MAIN whose frame or fields break a rule.
///
/// A model is an XYZI chunk with the size of the last SIZE chunk before it, which no XYZI stands
/// between. All other chunks, and whatever stands behind the fields, in MAIN's content or behind
/// MAIN, are passed over. Want of memory may come in place of any answer.
/// Source of the layout: MagicaVoxel's format text, version 150; version 200 is read by the same
/// rules.
pub fn read_models(alloc: Global, bytes: &[u8]) -> Result<Models, VoxFault>
    requires { length bytes.now ≤ 2 ^ 28 }
    ensures models { IfOk result AreModels }
    ensures read { IfOk result (λ models. ReadsModels bytes.now (Ok models)) }
    ensures refused { IfErr result (λ fault. RefusesFile fault bytes.now) }
{
    let mut chunks = Chunks::new(bytes)?;
    let mut waiting = None;
    let mut list = Vec::new(alloc);
    while let Some(next) = chunks.next() {
        match next {
            Ok(chunk) => waiting = take_chunk(alloc, &chunk, waiting, &mut list)?,
            Err(fault) => return Err(fault),
        }
    }
    Ok(Models { list })
}

// Reads the fields of a chunk, with the size that waits and the models so far. The answer is the
// size that waits behind it.
fn take_chunk(
    alloc: Global,
    chunk: &Chunk<'_>,
    waiting: Option<Cell>,
    list: &mut Vec<Model>,
) -> Result<Option<Cell>, VoxFault>
    requires { length chunk.now.content.now ≤ 2 ^ 28 }
    ensures fine { OnOk result
        (fields_fault waiting
        (length list.old.items) chunk.now.id chunk.now.content.now chunk.now.at ≡ None) }
    ensures waits { IfOk result
        (λ size. size ≡ waiting_behind chunk.now.id chunk.now.content.now waiting) }
    ensures models { OnOk result
        (list.new.items ≡ list.old.items ++ models_in chunk.now.id chunk.now.content.now waiting) }
    ensures refused { IfErr result
        (λ fault. SaysBroken fault
        (fields_fault waiting
        (length list.old.items) chunk.now.id chunk.now.content.now chunk.now.at)) }
{
    if chunk.id == *b"SIZE" {
        return Ok(Some(read_size(chunk)?));
    }
    if chunk.id != *b"XYZI" {
        return Ok(waiting);
    }
    let Some(size) = waiting else {
        return Err(VoxFault::XyziWithoutSize(chunk.at));
    };
    if list.len() >= MODELS {
        return Err(VoxFault::TooManyModels(chunk.at));
    }
    list.push(read_model(alloc, size, chunk)?)?;
    Ok(None)
}

/// One list of bytes says one thing: its models, or its first fault.
pub fn files_have_one_reading()
    ensures { (bytes : List ℕ) (a b : Result (List Content) VoxFault) → ReadsModels bytes a
        → ReadsModels bytes b → a ≡ b }
{}

/// Every list of bytes says something: its models, or its first fault.
pub fn files_have_a_reading()
    ensures { (bytes : List ℕ) → (says : Result (List Content) VoxFault) × ReadsModels bytes says }
{}
