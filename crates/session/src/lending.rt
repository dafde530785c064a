//! A session is lent to a hand, which is a store of nodes by the turns of its table.
ghost use Rattle.session.specs.Lendable.{IsLendable};
ghost use Rattle.session.specs.Lent.{IsHandOf};

use crate::hand::Hand;
use node_table::{NodeTable, Pass};
use node_words::{Blocks, Full, Name, NodeRefused, NodeStore, Share, Steps};
use std::sync::Wait;
use std::sync::ledger::Ledger;

impl<'a, R> Hand<'a, R> {
    /// The session as a store of nodes, for as long as the hand lives.
    pub fn new(rt: &'a R, table: &'a NodeTable, session: &'a mut Pass) -> Hand<'a, R>
        requires ready { IsLendable table.now session.old }
        ensures { IsHandOf table.now session.entry result }
    {
        Hand { rt, table, session }
    }
}

impl<'a, R> Blocks for Hand<'a, R> {
    ghost use Rattle.session.specs.Lent.{StaysLent, lent_itself, lent_on, hand_state};

    ghost seen = { hand_state };

    ghost rests = { StaysLent };

    fn bits_at(&mut self, n: Name) -> u64 {
        self.session.tell();
        self.table.bits_at(self.session, n)
    }

    fn child_at(&mut self, n: Name, octant: u8) -> Option<Name> {
        self.session.tell();
        self.table.child_at(self.session, n, octant)
    }

    fn children_at(&mut self, n: Name) -> [Option<Name>; 8] {
        self.session.tell();
        self.table.children_at(self.session, n)
    }

    fn leaves_at(&mut self, n: Name) -> [u64; 8] {
        self.session.tell();
        self.table.leaves_at(self.session, n)
    }

    ghost rests_itself = { lent_itself };

    ghost rests_on = { lent_on };
}

impl<'a, R: Wait> NodeStore for Hand<'a, R> {
    fn held(&self) -> u32 {
        self.session.held()
    }

    fn leaf<L: Ledger>(&mut self, bits: u64, steps: &mut Steps<L>) -> Result<Share, Full> {
        intern::leaf(self.rt, self.table, self.session, bits, steps)
    }

    fn node<L: Ledger>(
        &mut self,
        level: u8,
        children: [Option<Share>; 8],
        steps: &mut Steps<L>,
    ) -> Result<Share, NodeRefused> {
        intern::node(self.rt, self.table, self.session, level, children, steps)
    }

    fn more<L: Ledger>(&mut self, share: &Share, steps: &mut Steps<L>) -> Share {
        release::more(self.rt, self.table, self.session, share, steps)
    }

    fn keep_at<L: Ledger>(&mut self, n: Name, steps: &mut Steps<L>) -> Share {
        release::keep_at(self.rt, self.table, self.session, n, steps)
    }

    fn back<L: Ledger>(&mut self, share: Share, steps: &mut Steps<L>) {
        release::back(self.rt, self.table, self.session, share, steps);
    }
}
