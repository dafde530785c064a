ghost use Rattle.std.specs.Prelude.{◌≡◌, ◌<◌, ◌≤◌, ◌↔◌, ◌^◌, ℕ, None, Some, IfOk, IsTrue, length, true, false};
ghost use Rattle.node_words.specs.declared.shapes.names.Name.{Name as name};
ghost use Rattle.vw_cell.specs.Places.{block_side};
ghost use Rattle.history_model.specs.Logs.{FitsWorld};
ghost use Rattle.history_model.specs.Making.{MayMake};
ghost use Rattle.world_core.specs.Reads.{keys_in};
ghost use Rattle.world_core.specs.Shown.{shown_world};
ghost use Rattle.history_model.specs.Worlds.{is_edit};
ghost use Rattle.core_laws.specs.contents.Aligned.{top};
ghost use Rattle.core_laws.specs.contents.Versions.{IsUnmarked};
ghost use Rattle.core_laws.specs.States.{IsLive};
ghost use Rattle.world_core.specs.Kept.{stored};
ghost use Rattle.world_core.specs.Lawful.{IsLawful, IsRootMade, MayAskAppend, MayLower, MayRaise};
ghost use Rattle.world_core.specs.Lawful.{MayTakeLeaf, MayTakeNode};
ghost use Rattle.world_core.specs.Stored.{IsStored, root_in, stored_state};

use crate::asking::is_row;
use crate::events::Event;
use crate::is_same;
use crate::logs::{count, mark_of, target};
use crate::parts::Parts;
use history_model::{Act, may_make};
use node_words::Name;
use std::alloc::Global;
use vw_cell::{Cell, Memory};

// Of at most 4,096 shares one goes and those of eight children come.
const MOST_BEFORE_FREEING: usize = 4089;

impl Parts<'_> {
    fn may_take_leaf(&self, session: u16, bits: u64) -> bool
        ensures { IsTrue result ↔ MayTakeLeaf (stored_state (stored self.now)) session bits }
    {
        bits > 0 && self.has_room(session, 4095)
    }

    fn may_take_node(
        &self,
        alloc: Global,
        session: u16,
        level: u8,
        children: &[Option<Name>; 8],
    ) -> Result<bool, Memory>
        ensures { IfOk result (λ b. IsTrue b
            ↔ MayTakeNode self.now.plan (stored_state (stored self.now)) session level
            children.now) }
    {
        if level > self.plan.side().root_level() || !is_row(level, children) {
            return Ok(false);
        }
        if !self.has_room(session, 4095) {
            return Ok(false);
        }
        self.holds(alloc, session, children)
    }

    fn may_raise(&self, session: u16, n: Name) -> bool
        requires { IsStored (stored self.now) }
        ensures { IsTrue result ↔ MayRaise (stored_state (stored self.now)) session n }
    {
        self.has_room(session, 4095) && self.reaches(session, n)
    }

    fn may_lower(&self, alloc: Global, session: u16, n: Name) -> Result<bool, Memory>
        ensures { IfOk result (λ b. IsTrue b
            ↔ MayLower (stored_state (stored self.now)) session n) }
    {
        if !self.has_room(session, MOST_BEFORE_FREEING) {
            return Ok(false);
        }
        self.holds(alloc, session, &[Some(n)])
    }

    fn may_append(
        &self,
        alloc: Global,
        session: u16,
        act: &Act,
        base: u32,
        root: Option<Name>,
    ) -> Result<bool, Memory>
        requires { IsStored (stored self.now) }
        ensures { IfOk result (λ b. IsTrue b
            ↔ MayAskAppend self.now.plan self.now.models.now (stored_state (stored self.now))
            session act.now base root) }
    {
        let at = self.moment();
        if base > at {
            return Ok(false);
        }
        if !act.fits(self.plan.side(), self.models) {
            return Ok(false);
        }
        if !self.is_top(root) {
            return Ok(false);
        }
        if !self.holds(alloc, session, &[root])? {
            return Ok(false);
        }
        if base < at {
            return Ok(true);
        }
        self.is_made(alloc, act, root)
    }

    // Whether the root shows just the cells that the act makes of the newest version.
    fn is_made(&self, alloc: Global, act: &Act, root: Option<Name>) -> Result<bool, Memory>
        requires stored { IsStored (stored self.now) }
        requires fits { FitsWorld (2 ^ self.now.plan.side) self.now.models.now act.now }
        requires live { (n : name) → root ≡ Some n
            → IsLive self.now.plan (stored_state (stored self.now)) n
            × (n.level ≡ top self.now.plan.side) }
        ensures { IfOk result (λ b. IsTrue b
            ↔ IsRootMade self.now.plan self.now.models.now act.now root
            (stored_state (stored self.now))) }
    {
        if is_edit(act) {
            return Ok(self.is_edited(act, root));
        }
        self.is_gone_to(alloc, act, root)
    }

    // The same for an edit, cell by cell.
    fn is_edited(&self, act: &Act, root: Option<Name>) -> bool
        requires stored { IsStored (stored self.now) }
        requires fits { FitsWorld (2 ^ self.now.plan.side) self.now.models.now act.now }
        requires edit { is_edit act.now ≡ true }
        ensures { IsTrue result
            ↔ IsRootMade self.now.plan self.now.models.now act.now root
            (stored_state (stored self.now)) }
    {
        let level = self.plan.side().root_level();
        let cells = self.plan.side().cells() as u16;
        let head = self.roots[count(&self.history)];
        self.makes(act, cells, level, head, root)
    }

    fn makes(
        &self,
        act: &Act,
        cells: u16,
        level: u8,
        head: Option<Name>,
        root: Option<Name>,
    ) -> bool
        requires fits { FitsWorld (2 ^ self.now.plan.side) self.now.models.now act.now }
        requires edit { is_edit act.now ≡ true }
        requires wide { cells ≡ block_side level }
        ensures { IsTrue result ↔ MayMake (2 ^ self.now.plan.side) self.now.models.now act.now
            (shown_world (keys_in self.now.entries) level head)
            (shown_world (keys_in self.now.entries) level root) }
    {
        let before = |q: Cell| self.entries.is_set(cells, level, head, q);
        let after = |q: Cell| self.entries.is_set(cells, level, root, q);
        may_make(self.plan.side(), self.models, act, &before, &after)
    }

    // The same for an undo or a redo: the version that it goes to isn't forgotten and has the root.
    fn is_gone_to(&self, alloc: Global, act: &Act, root: Option<Name>) -> Result<bool, Memory>
        requires stored { IsStored (stored self.now) }
        requires other { is_edit act.now ≡ false }
        requires live { (n : name) → root ≡ Some n
            → IsLive self.now.plan (stored_state (stored self.now)) n
            × (n.level ≡ top self.now.plan.side) }
        ensures { IfOk result (λ b. IsTrue b
            ↔ IsRootMade self.now.plan self.now.models.now act.now root
            (stored_state (stored self.now))) }
    {
        let target = match target(alloc, &self.history, act)? {
            None => return Ok(false),
            Some(target) => target,
        };
        Ok(self.is_kept_root(target, root))
    }

    // Whether the version, which is there, isn't forgotten and has the root.
    fn is_kept_root(&self, version: u32, root: Option<Name>) -> bool
        requires stored { IsStored (stored self.now) }
        requires there { version ≤ length self.now.history.records }
        ensures { IsTrue result ↔ IsUnmarked self.now.history.marks version
            × (root ≡ root_in self.now.roots.items version) }
    {
        let found = self.roots[version as usize];
        match mark_of(&self.history, version) {
            Some(_) => false,
            None => is_same_root(root, found),
        }
    }

    // Whether the root, where there is one, is of the top level.
    fn is_top(&self, root: Option<Name>) -> bool
        ensures { IsTrue result
            ↔ ((n : name) → root ≡ Some n → n.level ≡ top self.now.plan.side) }
    {
        match root {
            None => true,
            Some(n) => n.level == self.plan.side().root_level(),
        }
    }

    // Whether the event is lawful.
    pub(crate) fn allows(&self, alloc: Global, event: &Event) -> Result<bool, Memory>
        requires { IsStored (stored self.now) }
        ensures { IfOk result (λ b. IsTrue b
            ↔ IsLawful self.now.plan self.now.models.now (stored_state (stored self.now))
            event.now) }
    {
        match *event {
            Event::Leaf(session, bits) => Ok(self.may_take_leaf(session, bits)),
            Event::Node(session, level, children) => {
                self.may_take_node(alloc, session, level, &children)
            }
            Event::Raise(session, n) => Ok(self.may_raise(session, n)),
            Event::Lower(session, n) => self.may_lower(alloc, session, n),
            Event::Pin(session, _) => Ok(self.has_room(session, 4095)),
            Event::Append(session, _, act, base, root) => {
                self.may_append(alloc, session, &act, base, root)
            }
            Event::Forget(session, _, _) => Ok(self.has_room(session, 4095)),
        }
    }
}

fn is_edit(act: &Act) -> bool
    ensures { result ≡ is_edit act.now }
{
    match act {
        Act::Fill(_) => true,
        Act::Erase(_) => true,
        Act::Ball(_) => true,
        Act::Carve(_) => true,
        Act::Copy(_, _) => true,
        Act::Stamp(_, _) => true,
        Act::Tint(_) => true,
        Act::Undo => false,
        Act::Redo => false,
    }
}

// Whether both are one root, or none.
fn is_same_root(a: Option<Name>, b: Option<Name>) -> bool
    ensures { IsTrue result ↔ (a ≡ b) }
{
    match (a, b) {
        (None, None) => true,
        (Some(a), Some(b)) => is_same(a, b),
        _ => false,
    }
}
