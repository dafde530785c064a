//! VOX files put together from chunks, and what the reader makes of them.
use std::alloc::Global;
use std::test::Fail;
use vox_read::{VoxFault, cell_count, read_models};

/// The number of a file's models and of all their cells, or the fault.
pub type Answer = Result<(usize, u32), VoxFault>;

/// A model of one cell: MAIN, whose children have 44 bytes, then a SIZE of 12 at 20 and an XYZI
/// of 8 at 44; 64 bytes in all.
pub const ONE: [u8; 64] = *b"VOX \x96\0\0\0MAIN\0\0\0\0\x2c\0\0\0\
    SIZE\x0c\0\0\0\0\0\0\0\x01\0\0\0\x01\0\0\0\x01\0\0\0\
    XYZI\x08\0\0\0\0\0\0\0\x01\0\0\0\0\0\0\x01";

/// Whole chunks, and some that break a rule.
#[derive(Clone, Copy, Debug)]
pub enum Piece {
    /// Size 1 1 1, of 24 bytes.
    Size1,
    /// Size 2 1 1, of 24 bytes.
    Size2,
    /// One voxel at (0, 0, 0), of 20 bytes.
    At0,
    /// One voxel at (1, 0, 0), of 20 bytes.
    At1,
    /// A number of models, of 16 bytes, which nothing rests on.
    Pack,
    /// Another chunk of one byte, with one voxel at (0, 0, 0) as its own child; 33 bytes.
    Nested,
    /// SIZE and XYZI with no content, of 12 bytes each.
    NoSize,
    NoVoxels,
    /// A SIZE that says one byte more than it has, of 24 bytes.
    Cut,
}

impl Piece {
    fn bytes(self) -> &'static [u8] {
        match self {
            Piece::Size1 => b"SIZE\x0c\0\0\0\0\0\0\0\x01\0\0\0\x01\0\0\0\x01\0\0\0",
            Piece::Size2 => b"SIZE\x0c\0\0\0\0\0\0\0\x02\0\0\0\x01\0\0\0\x01\0\0\0",
            Piece::At0 => b"XYZI\x08\0\0\0\0\0\0\0\x01\0\0\0\0\0\0\x01",
            Piece::At1 => b"XYZI\x08\0\0\0\0\0\0\0\x01\0\0\0\x01\0\0\x01",
            Piece::Pack => b"PACK\x04\0\0\0\0\0\0\0\x02\0\0\0",
            Piece::Nested =>
                b"LAYR\x01\0\0\0\x14\0\0\0\0XYZI\x08\0\0\0\0\0\0\0\x01\0\0\0\0\0\0\x01",
            Piece::NoSize => b"SIZE\0\0\0\0\0\0\0\0",
            Piece::NoVoxels => b"XYZI\0\0\0\0\0\0\0\0",
            Piece::Cut => b"SIZE\x0d\0\0\0\0\0\0\0\x01\0\0\0\x01\0\0\0\x01\0\0\0",
        }
    }
}

/// Appends chunks.
pub fn append(into: &mut Vec<u8>, pieces: &[Piece]) -> Result<(), Fail> {
    for piece in pieces {
        into.extend_from_slice(piece.bytes())?;
    }
    Ok(())
}

/// Appends a chunk with no children of its own.
pub fn append_chunk(into: &mut Vec<u8>, id: &[u8], content: &[u8]) -> Result<(), Fail> {
    into.extend_from_slice(id)?;
    into.extend_from_slice(&u32::try_from(content.len())?.to_le_bytes())?;
    into.extend_from_slice(b"\0\0\0\0")?;
    into.extend_from_slice(content)?;
    Ok(())
}

/// A file of this version, whose MAIN has these bytes of children and no content.
pub fn file(alloc: Global, version: u8, children: &[u8]) -> Result<Vec<u8>, Fail> {
    let mut bytes = Vec::new(alloc);
    bytes.extend_from_slice(b"VOX ")?;
    bytes.extend_from_slice(&[version, 0, 0, 0])?;
    bytes.extend_from_slice(b"MAIN\0\0\0\0")?;
    bytes.extend_from_slice(&u32::try_from(children.len())?.to_le_bytes())?;
    bytes.extend_from_slice(children)?;
    Ok(bytes)
}

/// What the reader makes of these bytes.
pub fn read(alloc: Global, bytes: &[u8]) -> Answer {
    if bytes.len() > 1 << 28 {
        return Err(VoxFault::Memory);
    }
    let models = read_models(alloc, bytes)?;
    let mut cells: u32 = 0;
    for model in &models.list {
        let more = cell_count(alloc, model).map_err(|_| VoxFault::Memory)?;
        cells = cells.saturating_add(more);
    }
    Ok((models.list.len(), cells))
}

/// What the reader makes of a file with these chunks.
pub fn read_pieces(alloc: Global, pieces: &[Piece]) -> Result<Answer, Fail> {
    let mut children = Vec::new(alloc);
    append(&mut children, pieces)?;
    Ok(read(alloc, file(alloc, 150, children.as_slice())?.as_slice()))
}

/// What the reader makes of a SIZE at 20 with this content, and one voxel behind it.
pub fn read_size(alloc: Global, content: &[u8]) -> Result<Answer, Fail> {
    let mut children = Vec::new(alloc);
    append_chunk(&mut children, b"SIZE", content)?;
    append(&mut children, &[Piece::At0])?;
    Ok(read(alloc, file(alloc, 150, children.as_slice())?.as_slice()))
}

/// What the reader makes of an XYZI at 44 with this content, behind a size of 2 1 1.
pub fn read_voxels(alloc: Global, content: &[u8]) -> Result<Answer, Fail> {
    let mut children = Vec::new(alloc);
    append(&mut children, &[Piece::Size2])?;
    append_chunk(&mut children, b"XYZI", content)?;
    Ok(read(alloc, file(alloc, 150, children.as_slice())?.as_slice()))
}
