ghost use Rattle.std.specs.Prelude.{◌≡◌, ℕ, ◌+◌, ◌^◌, ◌≤◌, ◌<◌, List, length, drop, MatchOption, MatchResult, Ok, Err, IsTrue, ◌↔◌};
ghost use Rattle.vox_chunk.specs.Frames.{number_at, header_of, main_of, FrameFits, end_of, id_at, content_at, Bounds};
ghost use Rattle.vox_chunk.specs.Walking.{Cursor, Walks, IsChunk};

use crate::faults::VoxFault;
use byteorder::{ByteOrder, LittleEndian};
use std::marker::Model;

/// A child of MAIN: its id, its content, which is a part of the file and no copy, and the byte
/// position of its id.
#[derive(Clone, Copy, Debug)]
pub struct Chunk<'f> {
    pub id: [u8; 4],
    pub content: &'f [u8],
    pub at: u32,
}

/// The children of MAIN, one after another. It takes no memory.
///
/// Contracts see the file's bytes, the place of the next child, and where the children end.
#[derive(Drop)]
pub struct Chunks<'f> {
    bytes: &'f [u8],
    at: usize,
    end: usize,
}

impl<'f> Model for Chunks<'f> {
    ghost Value = { Cursor };

    ghost view = { λ c. record { bytes = c.bytes.now; at = c.at; end = c.end } };

    ghost invariant = { λ c. (c.at ≤ c.end) × (c.end ≤ length c.bytes.now)
        × (length c.bytes.now ≤ 2 ^ 28) };
}

impl<'f> Chunks<'f> {
    /// The children of a file's MAIN, or the first fault of what stands before them: the mark, the
    /// version, and MAIN's own frame.
    pub fn new(bytes: &'f [u8]) -> Result<Chunks<'f>, VoxFault>
        requires { length bytes.now ≤ 2 ^ 28 }
        ensures { MatchResult result
            (λ c. (c.bytes ≡ bytes.now)
            × (header_of bytes.now ≡ Ok (record { first = c.at; end = c.end })))
            (λ fault. header_of bytes.now ≡ Err fault) }
    {
        if bytes.len() < 4 || !bytes.starts_with(b"VOX ") {
            return Err(VoxFault::NotVox);
        }
        if bytes.len() < 8 {
            return Err(VoxFault::Truncated(4));
        }
        let version = number(bytes, 4);
        if version != 150 && version != 200 {
            return Err(VoxFault::Version(version));
        }
        main_chunk(bytes)
    }

    /// The next child, `None` where the children end. A frame that doesn't fit is a fault at its
    /// place, and after a fault there is no further child.
    pub fn next(&mut self) -> Option<Result<Chunk<'f>, VoxFault>>
        ensures { Walks self.old result self.new }
    {
        if self.at >= self.end {
            return None;
        }
        let at = self.at;
        match frame_end(self.bytes, at, self.end) {
            Some(after) => {
                self.at = after;
                Some(Ok(chunk_at(self.bytes, at)))
            }
            None => {
                self.at = self.end;
                Some(Err(VoxFault::Truncated(at as u32)))
            }
        }
    }
}

// The children of MAIN, where the bytes have at least the mark and the version.
fn main_chunk(bytes: &[u8]) -> Result<Chunks<'_>, VoxFault>
    requires { length bytes.now ≤ 2 ^ 28 }
    ensures { MatchResult result
        (λ c. (c.bytes ≡ bytes.now)
        × (main_of bytes.now ≡ Ok (record { first = c.at; end = c.end })))
        (λ fault. main_of bytes.now ≡ Err fault) }
{
    if bytes.len() < 20 {
        return Err(VoxFault::Truncated(8));
    }
    if id(bytes, 8) != *b"MAIN" {
        return Err(VoxFault::NoMain);
    }
    let at = 20 + number(bytes, 12) as usize;
    let end = at + number(bytes, 16) as usize;
    if bytes.len() < end {
        return Err(VoxFault::Truncated(8));
    }
    Ok(Chunks { bytes, at, end })
}

// Where the child at a place ends, if its frame fits.
fn frame_end(bytes: &[u8], at: usize, end: usize) -> Option<usize>
    requires bounds { (at < end) × (end ≤ length bytes.now) }
    requires short { length bytes.now ≤ 2 ^ 28 }
    ensures { MatchOption result (FrameFits bytes.now end at → ⊥)
        (λ after. FrameFits bytes.now end at × (after ≡ end_of bytes.now at)) }
{
    if end - at < 12 {
        return None;
    }
    let after = at + 12 + number(bytes, at + 4) as usize + number(bytes, at + 8) as usize;
    if after <= end { Some(after) } else { None }
}

// The chunk at a place where its frame fits.
fn chunk_at(bytes: &[u8], at: usize) -> Chunk<'_>
    requires fits { FrameFits bytes.now (length bytes.now) at }
    requires short { length bytes.now ≤ 2 ^ 28 }
    ensures { IsChunk bytes.now at result }
{
    let content = number(bytes, at + 4) as usize;
    let (_, rest) = bytes.split_at(at + 12);
    let (content, _) = rest.split_at(content);
    Chunk {
        id: id(bytes, at),
        content,
        at: at as u32,
    }
}

fn id(bytes: &[u8], at: usize) -> [u8; 4]
    requires { at + 4 ≤ length bytes.now }
    ensures { result ≡ id_at bytes.now at }
{
    [bytes[at], bytes[at + 1], bytes[at + 2], bytes[at + 3]]
}

fn number(bytes: &[u8], at: usize) -> u32
    requires { at + 4 ≤ length bytes.now }
    ensures { result ≡ number_at bytes.now at }
{
    LittleEndian::read_u32(&bytes[at..])
}
