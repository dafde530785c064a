ghost use Rattle.std.specs.Prelude.{◌≡◌, ◌≢◌, ◌<◌, ◌≤◌, ◌+◌, ◌↔◌, ℕ, [], ◌∷◌, Some, None, IfOk, IsTrue};
ghost use Rattle.node_words.specs.declared.keys.Key.TheVariants.{Node as node_key};
ghost use Rattle.node_words.specs.Held.{AreBelow, HasChild};
ghost use Rattle.core_laws.specs.States.{IsLive, IsUnder};
ghost use Rattle.core_laws.specs.Soundness.{FitsLevel};
ghost use Rattle.world_core.specs.Answering.{children_in};
ghost use Rattle.world_core.specs.Kept.{stored};
ghost use Rattle.world_core.specs.Lawful.{HoldsShares, HoldsAtMost, Reaches};
ghost use Rattle.world_core.specs.Stored.{IsStored, stored_state};

use crate::is_same;
use crate::parts::Parts;
use node_words::{Key, Name};
use std::alloc::Global;
use vw_cell::Memory;

impl Parts<'_> {
    // Whether the session was begun and holds at most so many shares.
    pub(crate) fn has_room(&self, session: u16, most: usize) -> bool
        ensures { IsTrue result ↔ HoldsAtMost (stored_state (stored self.now)) session most }
    {
        match self.held.get(usize::from(session)) {
            None => false,
            Some(held) => held.len() <= most,
        }
    }

    // Whether the session holds a share of each of the names, counted with repeats.
    pub(crate) fn holds(
        &self,
        alloc: Global,
        session: u16,
        some: &[Option<Name>],
    ) -> Result<bool, Memory>
        ensures { IfOk result (λ b.
            IsTrue b ↔ HoldsShares (stored_state (stored self.now)) session some.now) }
    {
        match self.held.get(usize::from(session)) {
            None => Ok(false),
            Some(held) => held.has_all(alloc, some),
        }
    }

    // Whether the name m is n or stands below it, where n is live and of this level.
    pub(crate) fn is_under(&self, level: u8, m: Name, n: Name) -> bool
        requires stored { IsStored (stored self.now) }
        requires live { IsLive self.now.plan (stored_state (stored self.now)) n }
        requires level { n.level ≡ level }
        ensures { IsTrue result ↔ IsUnder (stored_state (stored self.now)).key m n }
    {
        if is_same(m, n) {
            return true;
        }
        if level == 0 {
            return false;
        }
        let children = children_of(&self.entries.key_or_empty(n));
        for k in 0..8usize {
            if let Some(child) = children[k] {
                if self.is_under(level - 1, m, child) {
                    return true;
                }
            }
        }
        false
    }

    // Whether the session holds a share of the name, or of one above it.
    pub(crate) fn reaches(&self, session: u16, n: Name) -> bool
        requires { IsStored (stored self.now) }
        ensures { IsTrue result ↔ Reaches (stored_state (stored self.now)) session n }
    {
        let at = usize::from(session);
        if at >= self.held.len() {
            return false;
        }
        let held = self.held[at].names();
        for over in held {
            if self.is_under(over.level, n, *over) {
                return true;
            }
        }
        false
    }
}

// The children of a key, none of a leaf's.
pub(crate) fn children_of(key: &Key) -> [Option<Name>; 8]
    ensures { result ≡ children_in key.now }
{
    match key {
        Key::Leaf(_) => [None; 8],
        Key::Node(children) => *children,
    }
}

// Whether the key of these children is that of a node of this level.
pub(crate) fn is_row(level: u8, children: &[Option<Name>; 8]) -> bool
    ensures { IsTrue result ↔ FitsLevel level (node_key children.now) }
{
    level > 0 && has_child(children) && are_below(level, children)
}

fn has_child(children: &[Option<Name>; 8]) -> bool
    ensures { IsTrue result ↔ HasChild children.now }
{
    for k in 0..8usize {
        if children[k].is_some() {
            return true;
        }
    }
    false
}

fn are_below(level: u8, children: &[Option<Name>; 8]) -> bool
    ensures { IsTrue result ↔ AreBelow level children.now }
{
    for k in 0..8usize {
        if !is_below(level, children[k]) {
            return false;
        }
    }
    true
}

fn is_below(level: u8, child: Option<Name>) -> bool
    ensures { IsTrue result ↔ ((n : name) → child ≡ Some n → n.level + 1 ≡ level) }
{
    match child {
        None => true,
        Some(n) => u16::from(n.level) + 1 == u16::from(level),
    }
}

ghost use Rattle.node_words.specs.declared.shapes.names.Name.{Name as name};
