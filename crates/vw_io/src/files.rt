//! Whole files of the system, read and written by name.
ghost use Rattle.std.specs.Prelude.{◌≡◌, ◌<◌, ◌≤◌, length, IfOk, IfErr, OnOk, IsErrOf};
ghost use Rattle.std.specs.Io.KnownBytes.{Appends};
ghost use Rattle.std.specs.IoError.{error_kind};
ghost use Rattle.vw_io.specs.System.{refusal_to_open, refusal_to_make};
ghost use Rattle.vw_io.specs.declared.shelves.ReadRefused.TheVariants as reads;

use crate::readers::{read_refused, read_whole};
use crate::shelves::{ReadRefused, WriteRefused};
use crate::writers::write_whole;
use std::fs;
use std::fs::{Metadata, OpenFile};
use std::io::{Error, ErrorKind, Write};
use std::rt::Files;

/// Reads the whole file in place of what `into` had. After a refusal `into` holds any bytes.
///
/// The file's length, as the system knows it, is a hint: it reserves the room at once, and a file
/// that is shorter or longer is still read to its end.
pub(crate) fn read_file<R: Files>(
    rt: &R,
    name: &str,
    limit: u64,
    into: &mut Vec<u8>,
) -> Result<(), ReadRefused>
    ensures { OnOk result (length into.new.items ≤ limit) }
{
    let mut file = match fs::open(rt, name) {
        Ok(file) => file,
        Err(e) => return Err(open_refused(&e)),
    };
    let about = match file.metadata() {
        Ok(about) => about,
        Err(e) => return Err(read_refused(&e)),
    };
    let room = room_for(length_of(&about), limit)?;
    read_whole(&mut file, room, limit as usize, into)
}

/// The length of a plain file, and 0 for a pipe or a folder.
fn length_of(about: &Metadata) -> u64 {
    if about.is_file() { about.len() } else { 0 }
}

/// The room for a file of this length. One longer than the limit is refused at once.
fn room_for(length: u64, limit: u64) -> Result<usize, ReadRefused>
    ensures room { IfOk result (λ room. (room ≡ length) × (room ≤ limit)) }
    ensures refused { IfErr result (λ refused. (refused ≡ reads.TooLong) × (limit < length)) }
{
    if length > limit {
        return Err(ReadRefused::TooLong);
    }
    Ok(length as usize)
}

/// Makes the bytes the whole file. `Memory` comes only while the file is as it was.
pub(crate) fn write_file<R: Files>(rt: &R, name: &str, bytes: &[u8]) -> Result<(), WriteRefused> {
    match fs::create(rt, name) {
        Ok(mut file) => write_emptied(&mut file, bytes),
        Err(e) => Err(make_refused(&e)),
    }
}

/// Writes all bytes to a file that was just emptied: each refusal is a fault, since the file is not
/// as it was.
fn write_emptied<W: Write>(file: &mut W, bytes: &[u8]) -> Result<(), WriteRefused>
    ensures whole { OnOk result (Appends (W.contents file.old) (W.contents file.new) bytes.now) }
    ensures refused { IsErrOf result WriteRefused.Memory → ⊥ }
{
    match write_whole(file, bytes) {
        Ok(()) => Ok(()),
        Err(_) => Err(WriteRefused::Failed),
    }
}

/// What an error at opening a file is at the shelf.
fn open_refused(e: &Error) -> ReadRefused
    ensures { result ≡ refusal_to_open (error_kind e.now) }
{
    match e.kind() {
        ErrorKind::NotFound => ReadRefused::Missing,
        ErrorKind::OutOfMemory => ReadRefused::Memory,
        _ => ReadRefused::Failed,
    }
}

/// What an error at making a file is at the shelf.
fn make_refused(e: &Error) -> WriteRefused
    ensures { result ≡ refusal_to_make (error_kind e.now) }
{
    match e.kind() {
        ErrorKind::OutOfMemory => WriteRefused::Memory,
        _ => WriteRefused::Failed,
    }
}
