ghost use Rattle.std.specs.Prelude.{◌≡◌, ◌≤◌, ◌<◌, ◌+◌, ◌-◌, ◌*◌, ◌^◌, ℕ, List, length, Option, Some, None};
ghost use Rattle.std.specs.List.{flat_map};
ghost use Rattle.vox_scene.specs.declared.nodes.Node.{Node};
ghost use Rattle.vox_scene.specs.Numbering.{numbers_of};
ghost use Rattle.vox_scene.specs.Reading.{FindsNodes};
ghost use Rattle.vox_scene.specs.Rotations.{IsNearOrigin, identity_pose};
ghost use Rattle.vox_scene.specs.Walking.{shown, visits, all_visits, walked, AnswersWalk, rotation_or_identity, vector_or, is_over, room_fault, behind_one, Enters};

use crate::dicts::number;
use crate::faults::SceneFault;
use crate::nodes::Kind;
use crate::reading::Nodes;
use crate::rotations::{Pose, Rotation, Shift, Vector, no_rotation, zero_shift};
use std::marker::Model;

/// A model that a scene places: its number, and how it stands. Contracts see both.
#[derive(Clone, Copy, Debug, PartialEq, Eq)]
pub struct Placed {
    pub(crate) model: u32,
    pub(crate) pose: Pose,
}

impl Model for Placed {
    ghost use Rattle.vox_scene.specs.Rotations.{IsNearOrigin};
    ghost use Rattle.vox_scene.specs.Walks.{PlacedModel};

    ghost Value = { PlacedModel };

    ghost view = { λ p. record { model = p.model; pose = p.pose } };

    ghost invariant = { λ p. IsNearOrigin 64000000 p.pose.at };

    ghost inverse = { λ p. record { model = p.model; pose = p.pose } };
}

/// The most visits of a walk.
const VISITS: u32 = 65_536;

/// The most placements.
const PLACED: usize = 1_024;

// How many visits there were, and what they placed.
#[derive(Drop)]
pub(crate) struct Walk {
    pub(crate) visited: u32,
    pub(crate) placed: Vec<Placed>,
}

impl Model for Walk {
    ghost use Rattle.vox_scene.specs.Walks.{Progress};

    ghost Value = { Progress };

    ghost view = { λ w. record { visited = w.visited; placed = w.placed.items } };
}

// Visits a node and all below it, where `room` more can stand below it on a path.
#[cycle(walk)]
pub(crate) fn visit<'f>(
    nodes: &Nodes<'f>,
    models: u32,
    room: u8,
    pose: &Pose,
    id: u32,
    walk: &mut Walk,
) -> Result<(), SceneFault>
    requires room { room ≤ 64 }
    requires within { IsNearOrigin (1000000 * (64 - room)) pose.now.at }
    ensures { (list : List Node) → FindsNodes list nodes.now
        → AnswersWalk (walked models walk.old (visits list room pose.now id)) result walk.new }
{
    let Some(kind) = nodes.by_id.get(&id) else {
        return Err(SceneFault::NoNode(id));
    };
    if room == 0 {
        return Err(SceneFault::TooDeep(id));
    }
    if let Err(fault) = enter(kind, models, pose, id, walk) {
        return Err(fault);
    }
    match kind {
        Kind::Moves {
            child,
            axis_map,
            shift,
        } => {
            let axis_map = rotation_or_identity(*axis_map);
            let vector = vector_or(*shift);
            let inner = pose.of_child(&axis_map, &vector, 64 - room);
            visit(nodes, models, room - 1, &inner, *child, walk)
        }
        Kind::Groups(children) => { visit_all(nodes, models, room - 1, pose, children.bytes, walk) }
        Kind::Shows(_) => Ok(()),
    }
}

// Takes one more visit, of a node that may be visited, and what it places.
fn enter(
    kind: &Kind<'_>,
    models: u32,
    pose: &Pose,
    id: u32,
    walk: &mut Walk,
) -> Result<(), SceneFault>
    requires within { IsNearOrigin 64000000 pose.now.at }
    ensures { Enters (room_fault models walk.old id (shown kind.now)) result
        (behind_one walk.old pose.now (shown kind.now)) walk.new }
{
    let model = shown(kind);
    if is_over(walk, model) {
        return Err(SceneFault::TooMany(id));
    }
    if let Some(model) = model {
        if model >= models {
            return Err(SceneFault::NoModel(id));
        }
        walk.placed.push(Placed { model, pose: *pose })?;
    }
    walk.visited += 1;
    Ok(())
}

// Visits all nodes whose ids these are, in order.
#[cycle(walk)]
fn visit_all<'f>(
    nodes: &Nodes<'f>,
    models: u32,
    room: u8,
    pose: &Pose,
    children: &'f [u8],
    walk: &mut Walk,
) -> Result<(), SceneFault>
    requires room { room < 64 }
    requires within { IsNearOrigin (1000000 * (64 - room)) pose.now.at }
    ensures { (list : List Node) → FindsNodes list nodes.now
        → AnswersWalk
        (walked models walk.old
        (flat_map (visits list room pose.now) (numbers_of children.now)))
        result walk.new }
{
    let mut rest = children;
    while rest.len() >= 4 {
        let (front, more) = rest.split_at(4);
        if let Err(fault) = visit(nodes, models, room, pose, number(front), walk) {
            return Err(fault);
        }
        rest = more;
    }
    Ok(())
}

// The model that a node shows.
fn shown(kind: &Kind<'_>) -> Option<u32>
    ensures { result ≡ shown kind.now }
{
    match kind {
        Kind::Shows(model) => *model,
        _ => None,
    }
}

// Whether one more visit is one too many, or what it places is.
fn is_over(walk: &Walk, model: Option<u32>) -> bool
    ensures { result ≡ is_over walk.now model }
{
    walk.visited >= VISITS || (model.is_some() && walk.placed.len() >= PLACED)
}

fn rotation_or_identity(axis_map: Option<Rotation>) -> Rotation
    ensures { result ≡ rotation_or_identity axis_map }
{
    match axis_map {
        Some(axis_map) => axis_map,
        None => no_rotation(),
    }
}

fn vector_or(shift: Option<Shift>) -> Vector
    ensures value { result ≡ vector_or shift }
    ensures within { IsNearOrigin 999999 result }
{
    match shift {
        Some(shift) => shift.vector(),
        None => Vector { x: 0, y: 0, z: 0 },
    }
}
