ghost use Rattle.std.specs.Prelude.{◌≡◌, ◌+◌, ◌*◌, ◌^◌, ◌<◌, ◌≤◌, ◌++◌, [], ◌∷◌, All, length, codes, Ok, OnOk, OnErr, vec_len, vec_capacity};
ghost use Rattle.std.specs.List.{flat_map};
ghost use Rattle.vox_read.specs.Contents.{IsSize, IsInsideModel};
ghost use Rattle.vox_read.specs.Files.{ReadsModels};
ghost use Rattle.vox_write.specs.Written.{number_bytes, chunk_head, size_bytes, voxel_bytes, file_front, model_file, model_chunks, chunks_length, models_file};
ghost use Rattle.vox_write.specs.WrittenLaws.{FilesAreRead};

use byteorder::{ByteOrder, LittleEndian};
use vox_read::{Model, Voxel};
use vw_cell::{Cell, Memory};

/// Appends the VOX file, of version 150, whose one model has this size and these voxels, in their
/// order.
///
/// `into` grows once, and each byte is put once. Memory can be wanting only where `into` has no
/// room for the whole file, and `into` is then as it was.
#[tactic(auto, using(crate::specs::WrittenLaws::model_is_read))]
pub fn write_model(size: Cell, voxels: &[Voxel], into: &mut Vec<u8>) -> Result<(), Memory>
    requires size { IsSize size }
    requires inside { All (IsInsideModel size) voxels.now }
    requires few { length voxels.now ≤ 2 ^ 24 }
    ensures written { OnOk result
        (into.new.items
        ≡ into.old.items ++ model_file (record { size = size; voxels = voxels.now })) }
    ensures refused { OnErr result
        ((into.new.items ≡ into.old.items)
        × (vec_capacity into.old < vec_len into.old + (60 + 4 * length voxels.now))) }
    ensures reads_back { ReadsModels (model_file (record { size = size; voxels = voxels.now }))
        (Ok (record { size = size; voxels = voxels.now } ∷ [])) }
{
    into.reserve(60 + 4 * voxels.len())?;
    let n = voxels.len() as u32;
    put_front(size, n, into);
    put_voxels(voxels, into);
    Ok(())
}

/// Appends the VOX file, of version 150, of these models in their order, each with its voxels in
/// theirs. `into` grows once, and is as it was where there is no memory for that.
pub fn write_models(models: &[Model], into: &mut Vec<u8>) -> Result<(), Memory>
    requires short { 20 + chunks_length models.now ≤ 2 ^ 28 }
    ensures written { OnOk result (into.new.items ≡ into.old.items ++ models_file models.now) }
    ensures refused { OnErr result (into.new.items ≡ into.old.items) }
{
    let length = chunks_length(models);
    into.reserve(20 + length)?;
    put_models(models, length as u32, into);
    Ok(())
}

// The number of bytes of the chunks of models.
fn chunks_length(models: &[Model]) -> usize
    requires { chunks_length models.now ≤ 2 ^ 28 }
    ensures { result ≡ chunks_length models.now }
{
    let mut length = 0;
    for model in models {
        length += 40 + 4 * model.voxels.len();
    }
    length
}

// The file of models in the room that there is.
fn put_models(models: &[Model], length: u32, into: &mut Vec<u8>)
    requires length { length ≡ chunks_length models.now }
    requires short { length ≤ 2 ^ 28 }
    requires room { vec_len into.old + (20 + length) ≤ vec_capacity into.old }
    ensures { into.new.items ≡ into.old.items ++ models_file models.now }
{
    put_main(length, into);
    put_chunks(models, into);
}

// The chunks of models.
fn put_chunks(models: &[Model], into: &mut Vec<u8>)
    requires short { chunks_length models.now ≤ 2 ^ 28 }
    requires room { vec_len into.old + chunks_length models.now ≤ vec_capacity into.old }
    ensures { into.new.items ≡ into.old.items ++ flat_map model_chunks models.now }
{
    for model in models {
        put_model(model.size, model.voxels.as_slice(), into);
    }
}

// The chunks of one model: a SIZE, and an XYZI.
fn put_model(size: Cell, voxels: &[Voxel], into: &mut Vec<u8>)
    requires few { length voxels.now ≤ 2 ^ 26 }
    requires room { vec_len into.old + (40 + 4 * length voxels.now) ≤ vec_capacity into.old }
    ensures items { into.new.items
        ≡ into.old.items ++ model_chunks (record { size = size; voxels = voxels.now }) }
    ensures len { vec_len into.new ≡ vec_len into.old + (40 + 4 * length voxels.now) }
    ensures capacity { vec_capacity into.new ≡ vec_capacity into.old }
{
    put_size(size, into);
    put_xyzi(voxels.len() as u32, into);
    put_voxels(voxels, into);
}

/// A law: the file of a model says that one model, and so it is what a reader has to answer.
#[tactic(auto, using(crate::specs::WrittenLaws::files_are_read))]
pub fn written_models_are_read()
    ensures { FilesAreRead }
{}

// What stands before so many voxels.
#[tactic(auto, unfolding(crate::specs::Written::file_front))]
fn put_front(size: Cell, voxels: u32, into: &mut Vec<u8>)
    requires few { voxels ≤ 2 ^ 24 }
    requires room { vec_len into.old + 60 ≤ vec_capacity into.old }
    ensures items { into.new.items ≡ into.old.items ++ file_front size voxels }
    ensures len { vec_len into.new ≡ vec_len into.old + 60 }
    ensures capacity { vec_capacity into.new ≡ vec_capacity into.old }
{
    // a SIZE, and an XYZI of so many voxels
    put_main(40 + 4 * voxels, into);
    put_size(size, into);
    put_xyzi(voxels, into);
}

// The mark, the version, and how MAIN begins, whose children have so many bytes.
fn put_main(children: u32, into: &mut Vec<u8>)
    requires room { vec_len into.old + 20 ≤ vec_capacity into.old }
    ensures items { into.new.items ≡ into.old.items ++ codes "VOX " ++ number_bytes 150
        ++ chunk_head (codes "MAIN") 0 children }
    ensures len { vec_len into.new ≡ vec_len into.old + 20 }
    ensures capacity { vec_capacity into.new ≡ vec_capacity into.old }
{
    put_four(*b"VOX ", into);
    put_number(150, into);
    put_head(*b"MAIN", 0, children, into);
}

// The chunk of the size.
fn put_size(size: Cell, into: &mut Vec<u8>)
    requires room { vec_len into.old + 24 ≤ vec_capacity into.old }
    ensures items { into.new.items ≡ into.old.items ++ chunk_head (codes "SIZE") 12 0
        ++ size_bytes size }
    ensures len { vec_len into.new ≡ vec_len into.old + 24 }
    ensures capacity { vec_capacity into.new ≡ vec_capacity into.old }
{
    put_head(*b"SIZE", 12, 0, into);
    put_number(u32::from(size.x), into);
    put_number(u32::from(size.y), into);
    put_number(u32::from(size.z), into);
}

// How the chunk of so many voxels begins, with their number.
fn put_xyzi(voxels: u32, into: &mut Vec<u8>)
    requires few { voxels ≤ 2 ^ 26 }
    requires room { vec_len into.old + 16 ≤ vec_capacity into.old }
    ensures items { into.new.items ≡ into.old.items
        ++ chunk_head (codes "XYZI") (4 + 4 * voxels) 0 ++ number_bytes voxels }
    ensures len { vec_len into.new ≡ vec_len into.old + 16 }
    ensures capacity { vec_capacity into.new ≡ vec_capacity into.old }
{
    put_head(*b"XYZI", 4 + 4 * voxels, 0, into);
    put_number(voxels, into);
}

// How a chunk begins: its id, and the numbers of bytes of its content and of its children.
fn put_head(id: [u8; 4], content: u32, children: u32, into: &mut Vec<u8>)
    requires room { vec_len into.old + 12 ≤ vec_capacity into.old }
    ensures items { into.new.items ≡ into.old.items ++ chunk_head id content children }
    ensures len { vec_len into.new ≡ vec_len into.old + 12 }
    ensures capacity { vec_capacity into.new ≡ vec_capacity into.old }
{
    put_four(id, into);
    put_number(content, into);
    put_number(children, into);
}

// The voxels, in their order.
fn put_voxels(voxels: &[Voxel], into: &mut Vec<u8>)
    requires room { vec_len into.old + 4 * length voxels.now ≤ vec_capacity into.old }
    ensures items { into.new.items ≡ into.old.items ++ flat_map voxel_bytes voxels.now }
    ensures len { vec_len into.new ≡ vec_len into.old + 4 * length voxels.now }
    ensures capacity { vec_capacity into.new ≡ vec_capacity into.old }
{
    for voxel in voxels {
        put_voxel(*voxel, into);
    }
}

fn put_voxel(voxel: Voxel, into: &mut Vec<u8>)
    requires room { vec_len into.old + 4 ≤ vec_capacity into.old }
    ensures items { into.new.items ≡ into.old.items ++ voxel_bytes voxel }
    ensures len { vec_len into.new ≡ vec_len into.old + 4 }
    ensures capacity { vec_capacity into.new ≡ vec_capacity into.old }
{
    put_four([voxel.x, voxel.y, voxel.z, voxel.colour], into);
}

fn put_number(n: u32, into: &mut Vec<u8>)
    requires room { vec_len into.old + 4 ≤ vec_capacity into.old }
    ensures items { into.new.items ≡ into.old.items ++ number_bytes n }
    ensures len { vec_len into.new ≡ vec_len into.old + 4 }
    ensures capacity { vec_capacity into.new ≡ vec_capacity into.old }
{
    let mut bytes = [0; 4];
    LittleEndian::write_u32(&mut bytes, n);
    put_four(bytes, into);
}

fn put_four(bytes: [u8; 4], into: &mut Vec<u8>)
    requires room { vec_len into.old + 4 ≤ vec_capacity into.old }
    ensures items { into.new.items ≡ into.old.items ++ bytes }
    ensures len { vec_len into.new ≡ vec_len into.old + 4 }
    ensures capacity { vec_capacity into.new ≡ vec_capacity into.old }
{
    let [first, second, third, fourth] = bytes;
    into.push_reserved(first);
    into.push_reserved(second);
    into.push_reserved(third);
    into.push_reserved(fourth);
}
