use std::alloc::Global;
use std::test::Fail;

/// Keys of a frame with their values.
pub type Frame<'a> = &'a [(&'a str, &'a str)];

/// The chunks of a file behind its MAIN, one after the other.
#[derive(Drop)]
pub struct Chunks {
    alloc: Global,
    bytes: Vec<u8>,
}

impl Chunks {
    pub fn new(alloc: Global) -> Chunks {
        Chunks {
            alloc,
            bytes: Vec::new(alloc),
        }
    }

    /// The whole file.
    pub fn file(&self) -> Result<Vec<u8>, Fail> {
        let mut file = Vec::new(self.alloc);
        file.extend_from_slice(b"VOX \x96\0\0\0MAIN\0\0\0\0")?;
        put_number(&mut file, field(self.bytes.len()))?;
        file.extend_from_slice(&self.bytes)?;
        Ok(file)
    }

    /// Where the next chunk stands in the file.
    pub fn next(&self) -> u32 {
        field(self.bytes.len()).saturating_add(20)
    }

    /// A model of this size with these voxels.
    pub fn model(&mut self, size: [u8; 3], voxels: &[[u8; 4]]) -> Result<(), Fail> {
        let [x, y, z] = size;
        self.chunk(b"SIZE", &[x, 0, 0, 0, y, 0, 0, 0, z, 0, 0, 0])?;
        let mut content = Vec::new(self.alloc);
        put_voxels(&mut content, voxels)?;
        self.chunk(b"XYZI", content.as_slice())
    }

    /// A node that moves another one, in so many frames.
    pub fn mover(&mut self, id: u32, child: u32, frames: &[Frame<'_>]) -> Result<(), Fail> {
        let mut content = Vec::new(self.alloc);
        put_numbers(
            &mut content,
            &[id, 0, child, u32::MAX, u32::MAX, field(frames.len())],
        )?;
        put_frames(&mut content, frames)?;
        self.chunk(b"nTRN", content.as_slice())
    }

    /// A group of nodes.
    pub fn group(&mut self, id: u32, children: &[u32]) -> Result<(), Fail> {
        let mut content = Vec::new(self.alloc);
        put_numbers(&mut content, &[id, 0, field(children.len())])?;
        put_numbers(&mut content, children)?;
        self.chunk(b"nGRP", content.as_slice())
    }

    /// A node that shows models.
    pub fn shape(&mut self, id: u32, models: &[u32]) -> Result<(), Fail> {
        let mut content = Vec::new(self.alloc);
        put_numbers(&mut content, &[id, 0, field(models.len())])?;
        put_models(&mut content, models)?;
        self.chunk(b"nSHP", content.as_slice())
    }

    /// A chunk of this id and content.
    pub fn chunk(&mut self, id: &[u8], content: &[u8]) -> Result<(), Fail> {
        self.bytes.extend_from_slice(id)?;
        put_numbers(&mut self.bytes, &[field(content.len()), 0])?;
        self.bytes.extend_from_slice(content)?;
        Ok(())
    }
}

fn field(n: usize) -> u32 {
    u32::try_from(n).unwrap_or(u32::MAX)
}

fn put_number(bytes: &mut Vec<u8>, n: u32) -> Result<(), Fail> {
    bytes.extend_from_slice(&n.to_le_bytes())?;
    Ok(())
}

fn put_numbers(bytes: &mut Vec<u8>, numbers: &[u32]) -> Result<(), Fail> {
    for n in numbers {
        put_number(bytes, *n)?;
    }
    Ok(())
}

fn put_voxels(bytes: &mut Vec<u8>, voxels: &[[u8; 4]]) -> Result<(), Fail> {
    put_number(bytes, field(voxels.len()))?;
    for voxel in voxels {
        bytes.extend_from_slice(voxel)?;
    }
    Ok(())
}

// Models with a DICT of no pair each.
fn put_models(bytes: &mut Vec<u8>, models: &[u32]) -> Result<(), Fail> {
    for model in models {
        put_numbers(bytes, &[*model, 0])?;
    }
    Ok(())
}

fn put_frames(bytes: &mut Vec<u8>, frames: &[Frame<'_>]) -> Result<(), Fail> {
    for frame in frames {
        put_dict(bytes, frame)?;
    }
    Ok(())
}

fn put_dict(bytes: &mut Vec<u8>, pairs: Frame<'_>) -> Result<(), Fail> {
    put_number(bytes, field(pairs.len()))?;
    for (key, value) in pairs {
        put_text(bytes, key)?;
        put_text(bytes, value)?;
    }
    Ok(())
}

fn put_text(bytes: &mut Vec<u8>, text: &str) -> Result<(), Fail> {
    put_number(bytes, field(text.len()))?;
    bytes.extend_from_slice(text.as_bytes())?;
    Ok(())
}
