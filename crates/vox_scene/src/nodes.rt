ghost use Rattle.std.specs.Prelude.{◌≡◌, ◌≤◌, ◌<◌, ◌+◌, ◌*◌, ℕ, List, length, drop, Option, option_copied, is_some};
ghost use Rattle.vox_chunk.specs.Frames.{number_at};
ghost use Rattle.vox_scene.specs.Nodes.{is_mover, is_group, is_shape, is_node, dicts_end, first_frame, mover_of, mover_in, group_in, shown_end, first_shown, shape_kind_in, kind_in, with_id, node_in, if_found};
ghost use Rattle.vox_scene.specs.Dicts.{dict_in, value_of};
ghost use Rattle.vox_scene.specs.Rotations.{rotation_of_text, shift_of_text};

use crate::dicts::{Dict, cut_dict, number};
use crate::rotations::{Rotation, Shift, rotation_of_text, shift_of_text};
use std::marker::Model;

/// The ids of a group's children, as they stand in the file.
#[derive(Drop)]
pub struct Children<'f> {
    pub(crate) bytes: &'f [u8],
}

impl<'f> Model for Children<'f> {
    ghost use Rattle.std.specs.Prelude.{List, ℕ};
    ghost use Rattle.vox_scene.specs.Numbering.{numbers_of};

    ghost Value = { List ℕ };

    ghost view = { λ c. numbers_of c.bytes.now };
}

/// What a node does: it turns and moves its child, it groups children, or it shows a model.
#[derive(Drop)]
pub enum Kind<'f> {
    /// A rotation or a move that is none is a fault of the file.
    Moves {
        child: u32,
        axis_map: Option<Rotation>,
        shift: Option<Shift>,
    },
    Groups(Children<'f>),
    Shows(Option<u32>),
}

/// A node, and its id.
#[derive(Drop)]
pub struct Node<'f> {
    pub id: u32,
    pub kind: Kind<'f>,
}

// Whether a chunk of this id has a node.
pub(crate) fn is_node(id: [u8; 4]) -> bool
    ensures { result ≡ is_node id }
{
    id == *b"nTRN" || id == *b"nGRP" || id == *b"nSHP"
}

// The node of a chunk of this id and content.
pub(crate) fn read_node<'f>(id: [u8; 4], content: &'f [u8]) -> Option<Node<'f>>
    ensures { result ≡ node_in id content.now }
{
    if content.len() < 4 {
        return None;
    }
    let number = number(content);
    let (_, rest) = content.split_at(4);
    let Some(cut) = cut_dict(rest) else {
        return None;
    };
    match read_kind(id, cut.rest) {
        Some(kind) => Some(Node { id: number, kind }),
        None => None,
    }
}

fn read_kind<'f>(id: [u8; 4], bytes: &'f [u8]) -> Option<Kind<'f>>
    ensures { result ≡ kind_in id bytes.now }
{
    if id == *b"nTRN" {
        return read_mover(bytes);
    }
    if id == *b"nGRP" {
        return read_group(bytes);
    }
    read_shape(bytes)
}

fn read_mover<'f>(bytes: &'f [u8]) -> Option<Kind<'f>>
    ensures { result ≡ mover_in bytes.now }
{
    if bytes.len() < 16 {
        return None;
    }
    let child = number(bytes);
    let (front, rest) = bytes.split_at(16);
    let (_, last) = front.split_at(12);
    let frames = number(last);
    if !has_dicts(frames, rest) {
        return None;
    }
    Some(mover(child, frames, rest))
}

// The node with the first of these frames.
fn mover<'f>(child: u32, frames: u32, bytes: &'f [u8]) -> Kind<'f>
    ensures { result ≡ mover_of child (first_frame frames bytes.now) }
{
    if frames > 0 {
        if let Some(cut) = cut_dict(bytes) {
            return framed(child, &cut.dict);
        }
    }
    Kind::Moves {
        child,
        axis_map: rotation_of_text(None),
        shift: shift_of_text(None),
    }
}

// The node with this first frame.
fn framed<'f>(child: u32, frame: &Dict<'f>) -> Kind<'f>
    ensures { result ≡ mover_of child frame.now }
{
    Kind::Moves {
        child,
        axis_map: rotation_of_text(frame.get(b"_r")),
        shift: shift_of_text(frame.get(b"_t")),
    }
}

// Whether these bytes begin with so many DICTs.
#[tactic(auto, using(crate::proofs::Skipping::dict_skipped, crate::proofs::Skipping::dict_lacks, crate::proofs::Skipping::dicts_skipped))]
fn has_dicts(number: u32, bytes: &[u8]) -> bool
    ensures { result ≡ is_some (dicts_end number bytes.now) }
{
    let mut left = number;
    let mut rest = bytes;
    while left > 0 {
        let Some(cut) = cut_dict(rest) else {
            return false;
        };
        rest = cut.rest;
        left -= 1;
    }
    true
}

fn read_group<'f>(bytes: &'f [u8]) -> Option<Kind<'f>>
    ensures { result ≡ group_in bytes.now }
{
    if bytes.len() < 4 {
        return None;
    }
    let n = number(bytes) as usize;
    if bytes.len() < 4 + 4 * n {
        return None;
    }
    let (_, rest) = bytes.split_at(4);
    let (bytes, _) = rest.split_at(4 * n);
    Some(Kind::Groups(Children { bytes }))
}

#[tactic(auto, using(crate::proofs::Skipping::shown_long))]
fn read_shape<'f>(bytes: &'f [u8]) -> Option<Kind<'f>>
    ensures { result ≡ shape_kind_in bytes.now }
{
    if bytes.len() < 4 {
        return None;
    }
    let models = number(bytes);
    let (_, rest) = bytes.split_at(4);
    if !has_shown(models, rest) {
        return None;
    }
    if models == 0 {
        return Some(Kind::Shows(None));
    }
    Some(Kind::Shows(Some(number(rest))))
}

// Whether these bytes begin with so many numbers, each with its DICT.
#[tactic(auto, using(crate::proofs::Skipping::shown_skipped, crate::proofs::Skipping::shown_lacks, crate::proofs::Skipping::shown_short, crate::proofs::Skipping::all_skipped))]
fn has_shown(number: u32, bytes: &[u8]) -> bool
    ensures { result ≡ is_some (shown_end number bytes.now) }
{
    let mut left = number;
    let mut rest = bytes;
    while left > 0 {
        if rest.len() < 4 {
            return false;
        }
        let (_, dict) = rest.split_at(4);
        let Some(cut) = cut_dict(dict) else {
            return false;
        };
        rest = cut.rest;
        left -= 1;
    }
    true
}
