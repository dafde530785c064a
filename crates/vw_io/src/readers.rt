//! A whole reader's bytes, read a large piece at a time.
ghost use Rattle.std.specs.Prelude.{◌≡◌, ◌+◌, ◌<◌, ◌≤◌, length, take, drop, vec_len, IfOk, IfErr, OnOk, IfSome};
ghost use Rattle.std.specs.Io.KnownBytes.{Consumes, IsAtEnd};
ghost use Rattle.std.specs.IoError.{error_kind};
ghost use Rattle.vw_io.specs.Streams.{StopsReading, StopsAfter, IsOfReader};
ghost use Rattle.vw_io.specs.System.{refusal_to_read};

use crate::shelves::ReadRefused;
use std::io::{Error, ErrorKind, Read};

/// The most bytes of one read: 1 MiB.
const PIECE: usize = 1 << 20;

/// Reads to the end in place of what `into` had, with room for so many bytes at first. It answers
/// `TooLong` at the first byte past the limit. After a refusal `into` holds any bytes.
pub(crate) fn read_whole<F: Read>(
    from: &mut F,
    room: usize,
    limit: usize,
    into: &mut Vec<u8>,
) -> Result<(), ReadRefused>
    ensures within { OnOk result (length into.new.items ≤ limit) }
    ensures bytes { OnOk result (IfSome (F.remaining from.old) (λ all. into.new.items ≡ all)) }
    ensures refused { IfErr result (λ refused. StopsReading refused (F.remaining from.old) limit) }
{
    into.clear();
    into.reserve_exact(room)?;
    let filled = fill(from, limit, into)?;
    into.truncate(filled);
    Ok(())
}

/// Reads to the end, and returns how many of the first bytes of `into` are the reader's.
fn fill<F: Read>(from: &mut F, limit: usize, into: &mut Vec<u8>) -> Result<usize, ReadRefused>
    ensures within { IfOk result (λ filled. filled ≤ limit) }
    ensures bytes { IfOk result (λ filled. Consumes (F.remaining from.old) (F.remaining from.new)
        (take filled into.new.items)) }
    ensures end { OnOk result (IsAtEnd (F.remaining from.new)) }
    ensures refused { IfErr result (λ refused. StopsReading refused (F.remaining from.old) limit) }
{
    let mut filled = 0;
    'pieces: for _ in 0..u64::MAX {
        let taken = read_piece(from, filled, limit, into)?;
        if taken == 0 {
            return Ok(filled);
        }
        filled += taken;
    }
    Err(ReadRefused::Failed)
}

/// One read into the room after the first `filled` bytes, none past the limit. It returns how many
/// bytes came: 0 at the end.
fn read_piece<F: Read>(
    from: &mut F,
    filled: usize,
    limit: usize,
    into: &mut Vec<u8>,
) -> Result<usize, ReadRefused>
    requires held { filled ≤ vec_len into.old }
    requires within { filled ≤ limit }
    ensures held { IfOk result (λ taken. filled + taken ≤ vec_len into.new) }
    ensures within { IfOk result (λ taken. filled + taken ≤ limit) }
    ensures front { take filled into.new.items ≡ take filled into.old.items }
    ensures bytes { IfOk result (λ taken. Consumes (F.remaining from.old) (F.remaining from.new)
        (take taken (drop filled into.new.items))) }
    ensures end { IfOk result (λ taken. taken ≡ 0 → IsAtEnd (F.remaining from.new)) }
    ensures refused { IfErr result
        (λ refused. StopsAfter refused (F.remaining from.old) filled limit) }
{
    let end = into.capacity().min(limit).min(filled.saturating_add(PIECE));
    if end <= filled {
        return read_past(from, filled, limit, into);
    }
    if into.len() < end {
        into.resize(end, 0)?;
    }
    read_between(from, into.as_mut_slice(), filled, end)
}

/// One byte where no room is left: it shows whether more bytes come, and then makes room for them.
fn read_past<F: Read>(
    from: &mut F,
    filled: usize,
    limit: usize,
    into: &mut Vec<u8>,
) -> Result<usize, ReadRefused>
    requires held { filled ≤ vec_len into.old }
    requires within { filled ≤ limit }
    ensures held { IfOk result (λ taken. filled + taken ≤ vec_len into.new) }
    ensures within { IfOk result (λ taken. filled + taken ≤ limit) }
    ensures front { take filled into.new.items ≡ take filled into.old.items }
    ensures bytes { IfOk result (λ taken. Consumes (F.remaining from.old) (F.remaining from.new)
        (take taken (drop filled into.new.items))) }
    ensures end { IfOk result (λ taken. taken ≡ 0 → IsAtEnd (F.remaining from.new)) }
    ensures refused { IfErr result
        (λ refused. StopsAfter refused (F.remaining from.old) filled limit) }
{
    let mut next = [0u8; 1];
    if read_some(from, &mut next)? == 0 {
        return Ok(0);
    }
    if filled == limit {
        return Err(ReadRefused::TooLong);
    }
    into.truncate(filled);
    into.reserve_exact(filled.max(PIECE).min(limit - filled))?;
    into.extend_from_slice(&next)?;
    Ok(1)
}

fn read_between<F: Read>(
    from: &mut F,
    buf: &mut [u8],
    start: usize,
    end: usize,
) -> Result<usize, ReadRefused>
    requires ordered { start < end }
    requires within { end ≤ length buf.old }
    ensures within { IfOk result (λ taken. start + taken ≤ end) }
    ensures front { take start buf.new ≡ take start buf.old }
    ensures bytes { IfOk result (λ taken. Consumes (F.remaining from.old) (F.remaining from.new)
        (take taken (drop start buf.new))) }
    ensures end { IfOk result (λ taken. taken ≡ 0 → IsAtEnd (F.remaining from.new)) }
    ensures refused { IfErr result IsOfReader }
{
    read_some(from, &mut buf[start..end])
}

/// One read, tried again where a signal cuts it off.
fn read_some<F: Read>(from: &mut F, buf: &mut [u8]) -> Result<usize, ReadRefused>
    ensures within { IfOk result (λ taken. taken ≤ length buf.new) }
    ensures bytes { IfOk result (λ taken. Consumes (F.remaining from.old) (F.remaining from.new)
        (take taken buf.new)) }
    ensures end { IfOk result
        (λ taken. taken ≡ 0 → 0 < length buf.old → IsAtEnd (F.remaining from.new)) }
    ensures refused { IfErr result IsOfReader }
{
    'tries: for _ in 0..u64::MAX {
        match from.read(buf) {
            Ok(taken) => return Ok(taken),
            Err(e) => {
                if e.kind() != ErrorKind::Interrupted {
                    return Err(read_refused(&e));
                }
            }
        }
    }
    Err(ReadRefused::Failed)
}

/// What an error of an open file is at the shelf.
pub(crate) fn read_refused(e: &Error) -> ReadRefused
    ensures { result ≡ refusal_to_read (error_kind e.now) }
{
    match e.kind() {
        ErrorKind::OutOfMemory => ReadRefused::Memory,
        _ => ReadRefused::Failed,
    }
}
