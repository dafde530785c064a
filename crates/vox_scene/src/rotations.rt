ghost use Rattle.std.specs.Prelude.{◌≡◌, ◌≤◌, ◌<◌, ◌+◌, ◌*◌, pos, ◌+ℤ◌, ◌≤ℤ◌, option_copied, IfSome, IsTrue};
ghost use Rattle.std.proofs.Common.{neg_ℤ};
ghost use Rattle.vox_scene.specs.Numbers.{signed_in};
ghost use Rattle.vox_scene.specs.Rotations.{axis_of, remaining, rotation_of_bits, rotation_of_text, shift_of_text, shift_with, no_rotation, zero_shift, entry_on, row_at, row_of_both, composed_rotation, identity_pose, posed, entry_by, IsNearOrigin};

use crate::numbers::{number_in, signed_in};
use plain_text::cut;
use std::marker::Model;

/// An axis of a cell.
#[derive(Clone, Copy, Debug, PartialEq, Eq)]
pub enum Axis {
    X,
    Y,
    Z,
}

/// One row of a matrix whose rows have one entry each that isn't 0: its column, and whether it is
/// -1.
#[derive(Clone, Copy, Debug, PartialEq, Eq)]
pub struct Row {
    pub column: Axis,
    pub is_negative: bool,
}

/// A matrix whose rows and columns have one entry each that isn't 0.
#[derive(Clone, Copy, Debug, PartialEq, Eq)]
pub struct Rotation {
    pub x: Row,
    pub y: Row,
    pub z: Row,
}

/// How far something stands off on each axis.
#[derive(Clone, Copy, Debug, PartialEq, Eq)]
pub struct Vector {
    pub x: i32,
    pub y: i32,
    pub z: i32,
}

/// How what stands below a node stands in the world: turned, and then moved.
#[derive(Clone, Copy, Debug, PartialEq, Eq)]
pub struct Pose {
    pub axis_map: Rotation,
    pub at: Vector,
}

/// How far a node moves its child: less than 1,000,000 on each axis. Contracts see the vector.
#[derive(Clone, Copy, Debug, PartialEq, Eq)]
pub struct Shift {
    x: i32,
    y: i32,
    z: i32,
}

impl Model for Shift {
    ghost use Rattle.vox_scene.specs.declared.rotations.Vector.{Vector};
    ghost use Rattle.vox_scene.specs.Rotations.{IsNearOrigin};

    ghost Value = { Vector };

    ghost view = { λ s. record { x = s.x; y = s.y; z = s.z } };

    ghost invariant = { λ s. IsNearOrigin 999999 (record { x = s.x; y = s.y; z = s.z }) };

    ghost inverse = { λ v. record { x = v.x; y = v.y; z = v.z } };
}

impl Shift {
    pub fn vector(&self) -> Vector
        ensures value { result ≡ self.now }
        ensures within { IsNearOrigin 999999 result }
    {
        Vector {
            x: self.x,
            y: self.y,
            z: self.z,
        }
    }
}

/// Nothing is turned or moved.
pub(crate) fn identity_pose() -> Pose
    ensures { result ≡ identity_pose }
{
    Pose {
        axis_map: no_rotation(),
        at: Vector { x: 0, y: 0, z: 0 },
    }
}

impl Pose {
    // What is posed by a node below this one.
    pub(crate) fn of_child(&self, axis_map: &Rotation, shift: &Vector, depth: u8) -> Pose
        requires deep { depth < 64 }
        requires here { IsNearOrigin (1000000 * depth) self.now.at }
        requires shift { IsNearOrigin 999999 shift.now }
        ensures value { result ≡ posed self.now axis_map.now shift.now }
        ensures within { IsNearOrigin (1000000 * (depth + 1)) result.at }
    {
        Pose {
            axis_map: self.axis_map.behind(axis_map),
            at: Vector {
                x: self.axis_map.x.moved(shift, self.at.x, depth),
                y: self.axis_map.y.moved(shift, self.at.y, depth),
                z: self.axis_map.z.moved(shift, self.at.z, depth),
            },
        }
    }
}

impl Row {
    // The entry of this row in a turned vector.
    pub(crate) fn turned(&self, v: &Vector) -> i32
        requires { IsNearOrigin 999999 v.now }
        ensures value { result ≡ entry_by self.now v.now }
        ensures low { neg_ℤ (pos 999999) ≤ℤ result }
        ensures high { result ≤ℤ pos 999999 }
    {
        let entry = v.entry(self.column);
        if self.is_negative { -entry } else { entry }
    }

    // That entry, moved further.
    pub(crate) fn moved(&self, v: &Vector, at: i32, depth: u8) -> i32
        requires deep { depth < 64 }
        requires within { IsNearOrigin 999999 v.now }
        requires low { neg_ℤ (pos (1000000 * depth)) ≤ℤ at }
        requires high { at ≤ℤ pos (1000000 * depth) }
        ensures value { result ≡ entry_by self.now v.now +ℤ at }
        ensures low { neg_ℤ (pos (1000000 * (depth + 1))) ≤ℤ result }
        ensures high { result ≤ℤ pos (1000000 * (depth + 1)) }
    {
        self.turned(v) + at
    }
}

pub(crate) fn no_rotation() -> Rotation
    ensures { result ≡ no_rotation }
{
    Rotation {
        x: Row {
            column: Axis::X,
            is_negative: false,
        },
        y: Row {
            column: Axis::Y,
            is_negative: false,
        },
        z: Row {
            column: Axis::Z,
            is_negative: false,
        },
    }
}

pub(crate) fn zero_shift() -> Shift
    ensures { result ≡ zero_shift }
{
    Shift { x: 0, y: 0, z: 0 }
}

// The rotation that a number's bits tell.
pub(crate) fn rotation_of_bits(bits: u8) -> Option<Rotation>
    ensures { result ≡ rotation_of_bits bits }
{
    let first = axis_of(bits % 4);
    let second = axis_of(bits / 4 % 4);
    let (Some(first), Some(second)) = (first, second) else {
        return None;
    };
    let Some(third) = remaining(first, second) else {
        return None;
    };
    Some(Rotation {
        x: Row {
            column: first,
            is_negative: bits / 16 % 2 == 1,
        },
        y: Row {
            column: second,
            is_negative: bits / 32 % 2 == 1,
        },
        z: Row {
            column: third,
            is_negative: bits / 64 % 2 == 1,
        },
    })
}

fn axis_of(n: u8) -> Option<Axis>
    ensures { result ≡ axis_of n }
{
    match n {
        0 => Some(Axis::X),
        1 => Some(Axis::Y),
        2 => Some(Axis::Z),
        _ => None,
    }
}

// The axis that two different ones leave.
fn remaining(a: Axis, b: Axis) -> Option<Axis>
    ensures { result ≡ remaining a b }
{
    match (a, b) {
        (Axis::X, Axis::Y) | (Axis::Y, Axis::X) => Some(Axis::Z),
        (Axis::X, Axis::Z) | (Axis::Z, Axis::X) => Some(Axis::Y),
        (Axis::Y, Axis::Z) | (Axis::Z, Axis::Y) => Some(Axis::X),
        _ => None,
    }
}

impl Vector {
    // The entry on an axis.
    pub(crate) fn entry(&self, axis: Axis) -> i32
        ensures { result ≡ entry_on axis self.now }
    {
        match axis {
            Axis::X => self.x,
            Axis::Y => self.y,
            Axis::Z => self.z,
        }
    }
}

impl Axis {
    fn is_same(self, other: Axis) -> bool
        ensures { IsTrue result → self ≡ other }
    {
        match (self, other) {
            (Axis::X, Axis::X) | (Axis::Y, Axis::Y) | (Axis::Z, Axis::Z) => true,
            _ => false,
        }
    }
}

impl Row {
    #[tactic(auto, using(crate::proofs::Alike::same_row))]
    fn is_same(&self, other: &Row) -> bool
        ensures { IsTrue result → self.now ≡ other.now }
    {
        self.column.is_same(other.column) && self.is_negative == other.is_negative
    }
}

impl Rotation {
    #[tactic(auto, using(crate::proofs::Alike::same_rotation))]
    pub(crate) fn is_same(&self, other: &Rotation) -> bool
        ensures { IsTrue result → self.now ≡ other.now }
    {
        self.x.is_same(&other.x) && (self.y.is_same(&other.y) && self.z.is_same(&other.z))
    }

    // The row of an axis.
    pub(crate) fn row(&self, axis: Axis) -> Row
        ensures { result ≡ row_at axis self.now }
    {
        match axis {
            Axis::X => self.x,
            Axis::Y => self.y,
            Axis::Z => self.z,
        }
    }

    // The matrix that turns by the inner one first.
    pub(crate) fn behind(&self, inner: &Rotation) -> Rotation
        ensures { result ≡ composed_rotation self.now inner.now }
    {
        Rotation {
            x: row_behind(self.x, inner),
            y: row_behind(self.y, inner),
            z: row_behind(self.z, inner),
        }
    }
}

fn row_behind(outer: Row, inner: &Rotation) -> Row
    ensures { result ≡ row_of_both outer inner.now }
{
    let row = inner.row(outer.column);
    Row {
        column: row.column,
        is_negative: outer.is_negative != row.is_negative,
    }
}

// The rotation that a text tells; without one nothing is turned.
pub(crate) fn rotation_of_text(text: Option<&[u8]>) -> Option<Rotation>
    ensures { result ≡ rotation_of_text (option_copied text.entry) }
{
    let Some(text) = text else {
        return Some(no_rotation());
    };
    match number_in(text, 3) {
        Some(bits) if bits <= 255 => rotation_of_bits(bits as u8),
        _ => None,
    }
}

// The move that a text tells; without one nothing is moved.
#[tactic(auto, using(crate::proofs::Words::four_words))]
pub(crate) fn shift_of_text(text: Option<&[u8]>) -> Option<Shift>
    ensures { result ≡ shift_of_text (option_copied text.entry) }
{
    let Some(text) = text else {
        return Some(zero_shift());
    };
    let (x, Some(rest)) = cut(text, b' ') else {
        return None;
    };
    let (y, Some(rest)) = cut(rest, b' ') else {
        return None;
    };
    let (z, None) = cut(rest, b' ') else {
        return None;
    };
    shift_by(x, y, z)
}

// The move of three words.
fn shift_by(x: &[u8], y: &[u8], z: &[u8]) -> Option<Shift>
    ensures { result ≡ shift_with (signed_in x.now) (signed_in y.now) (signed_in z.now) }
{
    let Some(x) = signed_in(x) else {
        return None;
    };
    let Some(y) = signed_in(y) else {
        return None;
    };
    let Some(z) = signed_in(z) else {
        return None;
    };
    Some(Shift { x, y, z })
}
