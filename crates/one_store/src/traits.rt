ghost use Rattle.std.specs.Prelude.{◌≡◌, ◌<◌, ◌≤◌, Some, length};
ghost use Rattle.node_words.specs.declared.shapes.names.Name.{Name};

use crate::store::{OneStore, number_in};
use node_words::{
    Blocks, Full, Key, Name, NodeRefused, NodeStore, Share, Steps, names_of, spend_all,
};
use std::sync::ledger::Ledger;

impl Blocks for OneStore {
    ghost use Rattle.one_store.specs.Known.{known_state};
    ghost use Rattle.one_store.specs.Steps.{SparesRoots, spares_itself, spares_on};

    ghost seen = { known_state };

    ghost rests = { SparesRoots };

    fn bits_at(&mut self, n: Name) -> u64 {
        let _number = self.number();
        self.words.bits(n)
    }

    fn child_at(&mut self, n: Name, octant: u8) -> Option<Name> {
        let _number = self.number();
        self.words.child(n, octant)
    }

    fn children_at(&mut self, n: Name) -> [Option<Name>; 8] {
        let _number = self.number();
        self.words.children(n)
    }

    fn leaves_at(&mut self, n: Name) -> [u64; 8] {
        let _number = self.number();
        self.words.leaves(n)
    }

    ghost rests_itself = { spares_itself };

    ghost rests_on = { spares_on };
}

impl NodeStore for OneStore {
    ghost use Rattle.std.specs.Prelude.{◌≢◌, ◌+◌, ◌≤◌, ℕ, IfOk, IfErr, OnOk, IsOkAnd, MatchResult};
    ghost use Rattle.node_words.specs.shapes.Shape as shape;
    ghost use Rattle.node_words.specs.shapes.Shape.{branch_of};
    ghost use Rattle.node_words.specs.shapes.Tree.{LeafAt, node_at, shape_of};
    ghost use Rattle.node_words.specs.declared.keys.Key.TheVariants.{Leaf, Node};
    ghost use Rattle.node_words.specs.Held.{IsReached, ForHeld, Gains, ForChildren, Joins, OnlyHeldChanges};
    ghost use Rattle.node_words.specs.shapes.Weights.{number_of_trees};
    ghost use Rattle.node_words.specs.Held.{HasChild, AreBelow, HoldsChildren, HoldsName};
    ghost use Rattle.node_words.specs.Held.{OnlyMeets, Grants, ReturnsWithin, most_before_release};
    ghost use Rattle.core_laws.specs.Events.{IsMissing};
    ghost use Rattle.one_store.specs.entries.Words.{HasEntry};
    ghost use Rattle.one_store.specs.Known.{core_of, known_state};
    ghost use Rattle.one_store.specs.Steps.{SparesRoots};
    ghost use Rattle.one_store.specs.Calls.{SharesEntry, JoinsEntry, MakesEntry, FindsFull, GivesBack};

    fn held(&self) -> u32 {
        self.number()
    }

    fn leaf<L: Ledger>(&mut self, bits: u64, steps: &mut Steps<L>) -> Result<Share, Full>
        requires bits { bits ≢ 0 }
        requires room { number_of_trees (known_state self.old).held ≤ 4095 }
        ensures held { IfOk result
            (λ n. Gains (known_state self.old).held (LeafAt n bits) (known_state self.new).held) }
        ensures level { IfOk result (λ n. n.level ≡ 0) }
        ensures grants { OnOk result
            (Grants (known_state self.old) (shape.Leaf bits) (known_state self.new)) }
        ensures hit { (n : Name) → IsReached (known_state self.old).held (LeafAt n bits)
            → IsOkAnd result
            (λ m. (m ≡ n) × ((known_state self.new).made ≡ (known_state self.old).made)) }
        ensures full { IfErr result
            (λ e. OnlyMeets (known_state self.old) e.level e.bucket (shape.Leaf bits)
            (known_state self.new)) }
        ensures full_level { IfErr result (λ e. e.level ≡ 0) }
        ensures rests { SparesRoots self.old self.new }
        ensures turns { steps.new ≡ steps.old + 1 }
        // The entry that has the key is shared.
        ensures shared { (n : Name) → HasEntry self.old.words n (Leaf bits)
            → IsOkAnd result (λ m. (m ≡ n) × SharesEntry self.old n self.new) }
        // Where none has it, one is added, or the bucket is full.
        ensures added { IsMissing self.old.words.plan (core_of self.old) 0 (Leaf bits)
            → MatchResult result (λ n. MakesEntry self.old 0 (Leaf bits) n self.new)
            (λ e. FindsFull self.old 0 (Leaf bits) e.bucket self.new) }
    {
        let _number = self.number();
        steps.tick();
        let sought = self.seek(0, &Key::Leaf(bits));
        match self.find(&sought) {
            Some(n) => Ok(self.raise(n)),
            None => self.add(&sought, 0),
        }
    }

    fn node<L: Ledger>(
        &mut self,
        level: u8,
        children: [Option<Share>; 8],
        steps: &mut Steps<L>,
    ) -> Result<Share, NodeRefused>
        requires level { (1 ≤ level) × (level + 2 ≤ (known_state self.old).plan.side) }
        requires some { HasChild children }
        requires below { AreBelow level children }
        requires held { HoldsChildren (known_state self.old).held children }
        requires room { number_of_trees (known_state self.old).held ≤ 4088 }
        ensures held { IfOk result
            (λ n. ForChildren (known_state self.old).held children
            (λ row. Joins (known_state self.old).held row n (known_state self.new).held)) }
        ensures level { IfOk result (λ n. n.level ≡ level) }
        ensures grants { OnOk result
            (ForChildren (known_state self.old).held children
            (λ row. Grants (known_state self.old) (branch_of (λ k. shape_of (row k)))
            (known_state self.new))) }
        ensures hit { ForChildren (known_state self.old).held children
            (λ row. (n : Name) → IsReached (known_state self.old).held (node_at n row)
            → IsOkAnd result
            (λ m. (m ≡ n) × ((known_state self.new).made ≡ (known_state self.old).made))) }
        ensures full { IfErr result
            (λ e. ForChildren (known_state self.old).held children
            (λ row. OnlyMeets (known_state self.old) e.full.level e.full.bucket
            (branch_of (λ k. shape_of (row k))) (known_state self.new))) }
        ensures full_level { IfErr result (λ e. e.full.level ≡ level) }
        ensures back { IfErr result (λ e. e.children ≡ children) }
        ensures rests { SparesRoots self.old self.new }
        ensures turns { steps.new ≤ steps.old + 9 }
        // The entry that has the key is the node.
        ensures shared { (n : Name) → HasEntry self.old.words n (Node children)
            → IsOkAnd result (λ m. (m ≡ n) × JoinsEntry self.old self.new) }
        // Where none has it, one is added, or the bucket is full.
        ensures added { IsMissing self.old.words.plan (core_of self.old) level (Node children)
            → MatchResult result (λ n. MakesEntry self.old level (Node children) n self.new)
            (λ e. FindsFull self.old level (Node children) e.full.bucket self.new) }
    {
        let _number = self.number();
        steps.tick();
        let names = names_of(&children);
        let sought = self.seek(level, &Key::Node(names));
        match self.find(&sought) {
            Some(n) => {
                spend_all(children);
                let share = self.raise(n);
                self.release_row(level, &names, steps);
                let _left = self.number();
                Ok(share)
            }
            None => match self.add(&sought, number_in(&names)) {
                Ok(share) => {
                    spend_all(children);
                    Ok(share)
                }
                Err(full) => Err(NodeRefused { full, children }),
            },
        }
    }

    fn more<L: Ledger>(&mut self, share: &Share, steps: &mut Steps<L>) -> Share {
        let _number = self.number();
        steps.tick();
        self.raise(share.name())
    }

    fn keep_at<L: Ledger>(&mut self, n: Name, steps: &mut Steps<L>) -> Share {
        let _number = self.number();
        steps.tick();
        self.raise(n)
    }

    fn back<L: Ledger>(&mut self, share: Share, steps: &mut Steps<L>)
        requires held { HoldsName (known_state self.old).held share }
        requires room { number_of_trees (known_state self.old).held ≤ most_before_release }
        ensures held { ForHeld (known_state self.old).held share
            (λ t. Gains (known_state self.new).held t (known_state self.old).held) }
        ensures only { OnlyHeldChanges (known_state self.old) (known_state self.new) }
        ensures rests { SparesRoots self.old self.new }
        ensures turns { ForHeld (known_state self.old).held share
            (λ t. ReturnsWithin (known_state self.new).held (shape_of t) steps.old steps.new) }
        ensures book { GivesBack self.old share self.new }
    {
        let _number = self.number();
        self.release(share.spend(), steps);
        let _left = self.number();
    }
}
