//! All of some bytes, written to a writer.
ghost use Rattle.std.specs.Prelude.{◌≡◌, ◌<◌, ◌≤◌, length, take, IfOk, IfErr, OnOk, OnErr};
ghost use Rattle.std.specs.Io.KnownBytes.{Appends, Keeps};
ghost use Rattle.std.specs.IoError.{error_kind};
ghost use Rattle.vw_io.specs.Streams.{StopsWriting};
ghost use Rattle.vw_io.specs.System.{refusal_to_write};

use crate::sinks::PutRefused;
use std::io::{Error, ErrorKind, Write};

/// Writes all of `bytes`. `Memory` comes only while none has gone out: later it is a fault.
pub(crate) fn write_whole<W: Write>(to: &mut W, bytes: &[u8]) -> Result<(), PutRefused>
    ensures whole { OnOk result (Appends (W.contents to.old) (W.contents to.new) bytes.now) }
    ensures refused { IfErr result (λ refused. StopsWriting refused
        (W.contents to.old) (W.contents to.new) bytes.now) }
{
    let mut done = 0;
    'pieces: for _ in 0..u64::MAX {
        if done == bytes.len() {
            return Ok(());
        }
        match write_piece(to, &bytes[done..]) {
            Ok(taken) => done += taken,
            Err(PutRefused::Memory) if done == 0 => return Err(PutRefused::Memory),
            Err(_) => return Err(PutRefused::Failed),
        }
    }
    Err(PutRefused::Failed)
}

/// One write, tried again where a signal cuts it off. It returns how many bytes were taken, at
/// least one: a write that takes nothing is a fault.
fn write_piece<W: Write>(to: &mut W, bytes: &[u8]) -> Result<usize, PutRefused>
    ensures some { IfOk result (λ taken. 0 < taken) }
    ensures within { IfOk result (λ taken. taken ≤ length bytes.now) }
    ensures taken { IfOk result (λ taken. Appends (W.contents to.old) (W.contents to.new)
        (take taken bytes.now)) }
    ensures none { OnErr result (Keeps (W.contents to.old) (W.contents to.new)) }
{
    'tries: for _ in 0..u64::MAX {
        match to.write(bytes) {
            Ok(0) => return Err(PutRefused::Failed),
            Ok(taken) => return Ok(taken),
            Err(e) => {
                if e.kind() != ErrorKind::Interrupted {
                    return Err(write_refused(&e));
                }
            }
        }
    }
    Err(PutRefused::Failed)
}

/// What an error of a writer is.
fn write_refused(e: &Error) -> PutRefused
    ensures { result ≡ refusal_to_write (error_kind e.now) }
{
    match e.kind() {
        ErrorKind::OutOfMemory => PutRefused::Memory,
        _ => PutRefused::Failed,
    }
}
