ghost use Rattle.std.specs.Prelude.{◌≡◌, ◌<◌, ◌≤◌, ℕ, None, Some, IfOk, OnErr, OnOk};
ghost use Rattle.node_words.specs.declared.shapes.names.Name.{Name as name};
ghost use Rattle.core_laws.specs.States.{IsLive};
ghost use Rattle.world_core.specs.Answering.{asked_for};
ghost use Rattle.world_core.specs.Kept.{stored};
ghost use Rattle.world_core.specs.Lawful.{HoldsAtMost, MayAskAppend, MayLower, MayRaise};
ghost use Rattle.world_core.specs.Lawful.{IsLawful, MayTakeLeaf, MayTakeNode};
ghost use Rattle.world_core.specs.Steps.{Does, SharesRoot};
ghost use Rattle.world_core.specs.Stored.{IsStored, stored_state};

use crate::asking::children_of;
use crate::events::{Event, Reply};
use crate::logs::mark_of;
use crate::parts::Parts;
use history_model::{Act, Mark, Record};
use node_words::{Key, Name};
use std::alloc::Global;
use vw_cell::Memory;

impl Parts<'_> {
    fn leaf(&mut self, alloc: Global, session: u16, bits: u64) -> Result<Reply, Memory>
        requires stored { IsStored (stored self.old) }
        requires lawful { MayTakeLeaf (stored_state (stored self.old)) session bits }
        ensures does { IfOk result (λ r.
            Does (Event.Leaf session bits) (stored self.old) r (stored self.new)) }
        ensures unchanged { OnErr result (stored self.new ≡ stored self.old) }
    {
        self.take(alloc, session, 0, Key::Leaf(bits), &[])
    }

    fn node(
        &mut self,
        alloc: Global,
        session: u16,
        level: u8,
        children: [Option<Name>; 8],
    ) -> Result<Reply, Memory>
        requires stored { IsStored (stored self.old) }
        requires lawful { MayTakeNode self.old.plan (stored_state (stored self.old)) session level
            children }
        ensures does { IfOk result (λ r.
            Does (Event.Node session level children) (stored self.old) r (stored self.new)) }
        ensures unchanged { OnErr result (stored self.new ≡ stored self.old) }
    {
        self.take(alloc, session, level, Key::Node(children), &children)
    }

    fn share(&mut self, alloc: Global, session: u16, n: Name) -> Result<Reply, Memory>
        requires stored { IsStored (stored self.old) }
        requires lawful { MayRaise (stored_state (stored self.old)) session n }
        ensures does { IfOk result (λ r.
            Does (Event.Raise session n) (stored self.old) r (stored self.new)) }
        ensures unchanged { OnErr result (stored self.new ≡ stored self.old) }
    {
        self.raise(alloc, session, n)?;
        Ok(Reply::Held(n))
    }

    fn give(&mut self, alloc: Global, session: u16, n: Name) -> Result<Reply, Memory>
        requires stored { IsStored (stored self.old) }
        requires lawful { MayLower (stored_state (stored self.old)) session n }
        ensures does { IfOk result (λ r.
            Does (Event.Lower session n) (stored self.old) r (stored self.new)) }
        ensures unchanged { OnErr result (stored self.new ≡ stored self.old) }
    {
        let book = self.entries.book(n);
        if book > 1 {
            self.lower(alloc, session, n)?;
            return Ok(Reply::Left);
        }
        let children = children_of(&self.entries.key_or_empty(n));
        self.free(alloc, session, n, &children)?;
        Ok(Reply::Freed(children))
    }

    fn pin(&mut self, alloc: Global, session: u16, version: Option<u32>) -> Result<Reply, Memory>
        requires stored { IsStored (stored self.old) }
        requires lawful { HoldsAtMost (stored_state (stored self.old)) session 4095 }
        ensures does { IfOk result (λ r.
            Does (Event.Pin session version) (stored self.old) r (stored self.new)) }
        ensures unchanged { OnErr result (stored self.new ≡ stored self.old) }
    {
        let at = self.moment();
        let asked = self.asked(version);
        if asked > at {
            return Ok(Reply::NoVersion(at));
        }
        if let Some(mark) = mark_of(&self.history, asked) {
            return Ok(Reply::Forgotten(at, mark));
        }
        let root = self.roots[asked as usize];
        self.keep(alloc, session, root)?;
        Ok(Reply::Pinned(asked, at, root))
    }

    // The version that is asked for, the newest where none is named.
    fn asked(&self, version: Option<u32>) -> u32
        requires { IsStored (stored self.now) }
        ensures { result ≡ asked_for (stored_state (stored self.now)) version }
    {
        match version {
            Some(version) => version,
            None => self.moment(),
        }
    }

    // One more share of a root, where there is one.
    fn keep(&mut self, alloc: Global, session: u16, root: Option<Name>) -> Result<(), Memory>
        requires stored { IsStored (stored self.old) }
        requires live { (n : name) → root ≡ Some n
            → IsLive self.old.plan (stored_state (stored self.old)) n }
        requires room { HoldsAtMost (stored_state (stored self.old)) session 4095 }
        ensures shares { OnOk result (SharesRoot (stored self.old) session root
            (stored self.new)) }
        ensures unchanged { OnErr result (stored self.new ≡ stored self.old) }
    {
        match root {
            None => Ok(()),
            Some(n) => self.raise(alloc, session, n),
        }
    }

    fn append(
        &mut self,
        alloc: Global,
        session: u16,
        line: u32,
        act: Act,
        base: u32,
        root: Option<Name>,
    ) -> Result<Reply, Memory>
        requires stored { IsStored (stored self.old) }
        requires lawful { MayAskAppend self.old.plan self.old.models.now
            (stored_state (stored self.old)) session act base root }
        ensures does { IfOk result (λ r.
            Does (Event.Append session line act base root) (stored self.old) r
            (stored self.new)) }
        ensures unchanged { OnErr result (stored self.new ≡ stored self.old) }
    {
        let at = self.moment();
        if at == 65_535 {
            return Ok(Reply::LogFull);
        }
        if base < at {
            return Ok(Reply::Stale(at));
        }
        let next = Record { session, line, act };
        self.record(alloc, next, root)?;
        Ok(Reply::Appended(at + 1))
    }

    fn forget(
        &mut self,
        alloc: Global,
        session: u16,
        line: u32,
        version: u32,
    ) -> Result<Reply, Memory>
        requires stored { IsStored (stored self.old) }
        requires lawful { HoldsAtMost (stored_state (stored self.old)) session 4095 }
        ensures does { IfOk result (λ r.
            Does (Event.Forget session line version) (stored self.old) r (stored self.new)) }
        ensures unchanged { OnErr result (stored self.new ≡ stored self.old) }
    {
        let at = self.moment();
        if version > at {
            return Ok(Reply::NoVersion(at));
        }
        if version == at {
            return Ok(Reply::IsHead(at));
        }
        if let Some(mark) = mark_of(&self.history, version) {
            return Ok(Reply::Forgotten(at, mark));
        }
        let mark = Mark {
            version,
            at,
            session,
            line,
        };
        let root = self.mark(alloc, mark)?;
        Ok(Reply::Forgot(at, root))
    }

    // Does what a lawful event asks for.
    pub(crate) fn answer(&mut self, alloc: Global, event: &Event) -> Result<Reply, Memory>
        requires stored { IsStored (stored self.old) }
        requires lawful { IsLawful self.old.plan self.old.models.now
            (stored_state (stored self.old)) event.now }
        ensures does { IfOk result (λ r.
            Does event.now (stored self.old) r (stored self.new)) }
        ensures unchanged { OnErr result (stored self.new ≡ stored self.old) }
    {
        match *event {
            Event::Leaf(session, bits) => self.leaf(alloc, session, bits),
            Event::Node(session, level, children) => self.node(alloc, session, level, children),
            Event::Raise(session, n) => self.share(alloc, session, n),
            Event::Lower(session, n) => self.give(alloc, session, n),
            Event::Pin(session, version) => self.pin(alloc, session, version),
            Event::Append(session, line, act, base, root) => {
                self.append(alloc, session, line, act, base, root)
            }
            Event::Forget(session, line, version) => self.forget(alloc, session, line, version),
        }
    }
}
