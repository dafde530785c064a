ghost use Rattle.std.specs.Prelude.{◌≡◌, ◌<◌, ◌≤◌, ◌+◌, ℕ, [], ◌∷◌, Some, None, IfOk, OnErr, OnOk, MatchOption};
ghost use Rattle.node_words.specs.declared.shapes.names.Name.{Name as name};
ghost use Rattle.core_laws.specs.places.WordIds.{levels};
ghost use Rattle.core_laws.specs.Counting.{children_weight};
ghost use Rattle.core_laws.specs.Soundness.{FitsLevel};
ghost use Rattle.core_laws.specs.States.{IsLive};
ghost use Rattle.world_core.specs.Trading.{weights};
ghost use Rattle.world_core.specs.Answering.{children_in};
ghost use Rattle.world_core.specs.Kept.{stored};
ghost use Rattle.world_core.specs.Lawful.{HoldsShares, HoldsAtMost, MayLower};
ghost use Rattle.world_core.specs.Steps.{AddsOrMeets, FindsEntry, FreesEntry, IsNowhere};
ghost use Rattle.world_core.specs.Steps.{LowersEntry, RaisesEntry, TakesEntry};
ghost use Rattle.world_core.specs.Stored.{IsStored, stored_state};

use crate::events::Reply;
use crate::parts::Parts;
use bucket_core::Lowered;
use node_words::{Full, Key, Name, bucket_of};
use std::alloc::Global;
use vw_cell::Memory;

impl Parts<'_> {
    // One more share of a live name.
    pub(crate) fn raise(&mut self, alloc: Global, session: u16, n: Name) -> Result<(), Memory>
        requires stored { IsStored (stored self.old) }
        requires live { IsLive self.old.plan (stored_state (stored self.old)) n }
        requires room { HoldsAtMost (stored_state (stored self.old)) session 4095 }
        ensures raises { OnOk result (RaisesEntry (stored self.old) session n (stored self.new)) }
        ensures unchanged { OnErr result (stored self.new ≡ stored self.old) }
    {
        let at = usize::from(session);
        let after = self.held[at].traded(alloc, &[], &[Some(n)])?;
        self.entries.raise(n);
        self.held[at] = after;
        Ok(())
    }

    // One share less of a name that has others.
    pub(crate) fn lower(&mut self, alloc: Global, session: u16, n: Name) -> Result<(), Memory>
        requires stored { IsStored (stored self.old) }
        requires may { MayLower (stored_state (stored self.old)) session n }
        requires more { 1 < (stored_state (stored self.old)).book n }
        ensures lowers { OnOk result (LowersEntry (stored self.old) session n (stored self.new)) }
        ensures unchanged { OnErr result (stored self.new ≡ stored self.old) }
    {
        let at = usize::from(session);
        let after = self.held[at].traded(alloc, &[Some(n)], &[])?;
        let _left = self.entries.lower(n);
        self.held[at] = after;
        Ok(())
    }

    // The last share of a name, whose children's shares come to the session.
    pub(crate) fn free(
        &mut self,
        alloc: Global,
        session: u16,
        n: Name,
        children: &[Option<Name>; 8],
    ) -> Result<(), Memory>
        requires stored { IsStored (stored self.old) }
        requires may { MayLower (stored_state (stored self.old)) session n }
        requires last { (stored_state (stored self.old)).book n ≡ 1 }
        requires children { children.now ≡ children_in ((stored_state (stored self.old)).key n) }
        ensures frees { OnOk result (FreesEntry (stored self.old) session n (stored self.new)) }
        ensures unchanged { OnErr result (stored self.new ≡ stored self.old) }
    {
        let at = usize::from(session);
        let after = self.held[at].traded(alloc, &[Some(n)], children)?;
        let _key = self.entries.lower(n);
        self.held[at] = after;
        Ok(())
    }

    // The live name that has the key.
    pub(crate) fn find(&self, level: u8, bucket: u16, key: &Key) -> Option<Name>
        requires stored { IsStored (stored self.now) }
        requires level { level < levels self.now.plan }
        requires bucket { bucket ≡ bucket_of_key key.now (buckets_at self.now.plan level) }
        requires fits { FitsLevel level key.now }
        ensures { MatchOption result
            (IsNowhere (stored self.now) level bucket key.now)
            (FindsEntry (stored self.now) level key.now) }
    {
        match self.entries.find(level, bucket, key) {
            None => None,
            Some(slot) => Some(Name {
                level,
                bucket,
                slot: slot as u8,
            }),
        }
    }

    // A new entry in the lowest free slot, over the shares of its children; `None` where no slot is
    // free.
    pub(crate) fn add(
        &mut self,
        alloc: Global,
        session: u16,
        level: u8,
        bucket: u16,
        key: Key,
        children: &[Option<Name>],
    ) -> Result<Option<Name>, Memory>
        requires stored { IsStored (stored self.old) }
        requires level { level < levels self.old.plan }
        requires bucket { bucket ≡ bucket_of_key key (buckets_at self.old.plan level) }
        requires fits { FitsLevel level key }
        requires nowhere { IsNowhere (stored self.old) level bucket key }
        requires children { (f : name → ℕ) → weights children.now f ≡ children_weight f key }
        requires held { HoldsShares (stored_state (stored self.old)) session children.now }
        requires room { HoldsAtMost (stored_state (stored self.old)) session 4095 }
        ensures adds { IfOk result (λ o.
            AddsOrMeets (stored self.old) session level bucket key o (stored self.new)) }
        ensures unchanged { OnErr result (stored self.new ≡ stored self.old) }
    {
        let at = usize::from(session);
        let rest = self.held[at].without(alloc, children)?;
        match self.entries.add(level, bucket, key) {
            None => Ok(None),
            Some(slot) => {
                let n = Name {
                    level,
                    bucket,
                    slot: slot as u8,
                };
                self.held[at] = rest.with(n);
                Ok(Some(n))
            }
        }
    }

    // A share of the entry of this key, which is made where there is none.
    pub(crate) fn take(
        &mut self,
        alloc: Global,
        session: u16,
        level: u8,
        key: Key,
        children: &[Option<Name>],
    ) -> Result<Reply, Memory>
        requires stored { IsStored (stored self.old) }
        requires level { level < levels self.old.plan }
        requires fits { FitsLevel level key }
        requires children { (f : name → ℕ) → weights children.now f ≡ children_weight f key }
        requires held { HoldsShares (stored_state (stored self.old)) session children.now }
        requires room { HoldsAtMost (stored_state (stored self.old)) session 4095 }
        ensures takes { IfOk result (λ r.
            TakesEntry (stored self.old) session level key r (stored self.new)) }
        ensures unchanged { OnErr result (stored self.new ≡ stored self.old) }
    {
        let bucket = self.bucket_of(level, &key);
        match self.find(level, bucket, &key) {
            Some(n) => {
                self.raise(alloc, session, n)?;
                Ok(Reply::Held(n))
            }
            None => match self.add(alloc, session, level, bucket, key, children)? {
                Some(n) => Ok(Reply::Held(n)),
                None => Ok(Reply::Full(Full { level, bucket })),
            },
        }
    }

    fn bucket_of(&self, level: u8, key: &Key) -> u16
        requires stored { IsStored (stored self.now) }
        requires level { level < levels self.now.plan }
        ensures { result ≡ bucket_of_key key.now (buckets_at self.now.plan level) }
    {
        let buckets = self.plan.buckets()[usize::from(level)];
        bucket_of(key, buckets)
    }
}

ghost use Rattle.core_laws.specs.places.WordIds.{buckets_at};
ghost use Rattle.node_words.specs.Keys.{bucket_of_key};
