ghost use Rattle.std.specs.Prelude.{◌≡◌, ◌≤◌, IsTrue, None, Bool};
ghost use Rattle.vw_cell.specs.declared.cells.Cell.{Cell};
ghost use Rattle.vw_cell.specs.declared.directions.Direction.{Direction};
ghost use Rattle.node_words.specs.descent.Answers.{AreRight};
ghost use Rattle.measure.specs.Faces.{passes_exposed};
ghost use Rattle.measure.specs.Leaves.{BitsPassTest};
ghost use Rattle.measure.specs.Tallies.{IsWholeTally, PassesNone};
ghost use Rattle.extract.specs.Sides.{AreFound, HasSides, beside_of, leaf_towards, sided};

use crate::alike::{Alike, Found, number_of};
use crate::bare_layers::BareLeaf;
use measure::{ExposedSides, Subject, WholeBlock, passes_none};
use node_words::{Answers, Blocks, Name, same_names};
use vw_cell::Direction;

/// What stands in a block, and beside it in each direction.
#[derive(Clone, Copy)]
pub(crate) struct Surrounded {
    pub(crate) block: Option<Name>,
    pub(crate) low_x: Option<Name>,
    pub(crate) high_x: Option<Name>,
    pub(crate) low_y: Option<Name>,
    pub(crate) high_y: Option<Name>,
    pub(crate) low_z: Option<Name>,
    pub(crate) high_z: Option<Name>,
}

impl Surrounded {
    /// The block of a world, beside which nothing stands.
    pub(crate) fn world(block: Option<Name>) -> Surrounded
        ensures { (d : Direction)
            → sided result d ≡ record { direction = d; block = block; beside = None } }
    {
        Surrounded {
            block,
            low_x: None,
            high_x: None,
            low_y: None,
            high_y: None,
            low_z: None,
            high_z: None,
        }
    }

    #[inline(always)]
    fn beside(&self, direction: Direction) -> Option<Name>
        ensures { result ≡ beside_of self.now direction }
    {
        match direction {
            Direction::LowX => self.low_x,
            Direction::HighX => self.high_x,
            Direction::LowY => self.low_y,
            Direction::HighY => self.high_y,
            Direction::LowZ => self.low_z,
            Direction::HighZ => self.high_z,
        }
    }

    #[inline(always)]
    fn sided(&self, direction: Direction) -> ExposedSides
        ensures { result ≡ sided self.now direction }
    {
        ExposedSides {
            direction,
            block: self.block,
            beside: self.beside(direction),
        }
    }

    /// The cells of a leaf that are bare towards each direction.
    #[inline(always)]
    pub(crate) fn leaf<B: Blocks>(&self, store: &mut B) -> BareLeaf
        requires block { HasSides (B.seen store.old).held 0 self.now }
        ensures bits { (d : Direction) (test : Cell → Bool)
            → passes_exposed (B.seen store.old).held 0 (sided self.now d) test
            → BitsPassTest (leaf_towards result d) test }
        ensures seen { B.seen store.new ≡ B.seen store.old }
        ensures rests { B.rests store.old store.new }
    {
        let low_x = self.bits(store, Direction::LowX);
        let high_x = self.bits(store, Direction::HighX);
        let low_y = self.bits(store, Direction::LowY);
        let high_y = self.bits(store, Direction::HighY);
        let low_z = self.bits(store, Direction::LowZ);
        let high_z = self.bits(store, Direction::HighZ);
        BareLeaf {
            low_x,
            high_x,
            low_y,
            high_y,
            low_z,
            high_z,
        }
    }

    // The same towards one direction.
    #[inline(always)]
    fn bits<B: Blocks>(&self, store: &mut B, direction: Direction) -> u64
        requires block { HasSides (B.seen store.old).held 0 self.now }
        ensures bits { (test : Cell → Bool)
            → passes_exposed (B.seen store.old).held 0 (sided self.now direction) test
            → BitsPassTest result test }
        ensures block { HasSides (B.seen store.new).held 0 self.now }
        ensures seen { B.seen store.new ≡ B.seen store.old }
        ensures rests { B.rests store.old store.new }
    {
        let towards = self.sided(direction);
        towards.leaf(store)
    }

    /// Whether no cell of the block is bare in any direction, which is asked only where the same
    /// stands beside it everywhere. It may miss that none is.
    #[inline(always)]
    pub(crate) fn is_hidden<B: Blocks>(&self, store: &mut B, found: &mut Found, level: u8) -> bool
        requires level { (1 ≤ level) × (level ≤ 10) }
        requires block { HasSides (B.seen store.old).held level self.now }
        requires found { AreFound (B.seen store.old).held found.old }
        ensures none { IsTrue result → (d : Direction) (test : Cell → Bool)
            → passes_exposed (B.seen store.old).held level (sided self.now d) test
            → PassesNone level test }
        ensures block { HasSides (B.seen store.new).held level self.now }
        ensures found { AreFound (B.seen store.old).held found.new }
        ensures seen { B.seen store.new ≡ B.seen store.old }
        ensures rests { B.rests store.old store.new }
    {
        if !self.is_even() {
            return false;
        }
        self.is_hidden_alike(store, found, level)
    }

    // The same, where the same stands beside it everywhere.
    fn is_hidden_alike<B: Blocks>(&self, store: &mut B, found: &mut Found, level: u8) -> bool
        requires level { (1 ≤ level) × (level ≤ 10) }
        requires even { (d : Direction) → beside_of self.now d ≡ self.now.block }
        requires block { HasSides (B.seen store.old).held level self.now }
        requires found { AreFound (B.seen store.old).held found.old }
        ensures none { IsTrue result → (d : Direction) (test : Cell → Bool)
            → passes_exposed (B.seen store.old).held level (sided self.now d) test
            → PassesNone level test }
        ensures block { HasSides (B.seen store.new).held level self.now }
        ensures found { AreFound (B.seen store.old).held found.new }
        ensures seen { B.seen store.new ≡ B.seen store.old }
        ensures rests { B.rests store.old store.new }
    {
        let query = Alike {
            block: self.block,
            level,
        };
        if let Some(number) = found.alike.find(&query) {
            return number > 0;
        }
        let hidden = self.hides_all(store, &mut found.wholes, level);
        found.alike.keep(query, number_of(hidden));
        hidden
    }

    // Whether no cell is bare in any direction. It may miss that none is.
    fn hides_all<B: Blocks>(
        &self,
        store: &mut B,
        wholes: &mut Answers<WholeBlock<ExposedSides>>,
        level: u8,
    ) -> bool
        requires level { (1 ≤ level) × (level ≤ 10) }
        requires block { HasSides (B.seen store.old).held level self.now }
        requires wholes { AreRight
            (IsWholeTally passes_exposed) (B.seen store.old).held wholes.old.places }
        ensures none { IsTrue result → (d : Direction) (test : Cell → Bool)
            → passes_exposed (B.seen store.old).held level (sided self.now d) test
            → PassesNone level test }
        ensures block { HasSides (B.seen store.new).held level self.now }
        ensures wholes { AreRight
            (IsWholeTally passes_exposed) (B.seen store.old).held wholes.new.places }
        ensures seen { B.seen store.new ≡ B.seen store.old }
        ensures rests { B.rests store.old store.new }
    {
        if !self.hides(store, wholes, Direction::LowX, level) {
            return false;
        }
        if !self.hides(store, wholes, Direction::HighX, level) {
            return false;
        }
        if !self.hides(store, wholes, Direction::LowY, level) {
            return false;
        }
        if !self.hides(store, wholes, Direction::HighY, level) {
            return false;
        }
        if !self.hides(store, wholes, Direction::LowZ, level) {
            return false;
        }
        if !self.hides(store, wholes, Direction::HighZ, level) {
            return false;
        }
        true
    }

    // Whether the same stands in the block and beside it everywhere.
    #[inline(always)]
    fn is_even(&self) -> bool
        ensures { IsTrue result → (d : Direction) → beside_of self.now d ≡ self.now.block }
    {
        same_names(self.block, self.low_x)
            && same_names(self.block, self.high_x)
            && same_names(self.block, self.low_y)
            && same_names(self.block, self.high_y)
            && same_names(self.block, self.low_z)
            && same_names(self.block, self.high_z)
    }

    // Whether no cell is bare in one direction. It may miss that none is.
    #[inline(always)]
    fn hides<B: Blocks>(
        &self,
        store: &mut B,
        wholes: &mut Answers<WholeBlock<ExposedSides>>,
        direction: Direction,
        level: u8,
    ) -> bool
        requires level { (1 ≤ level) × (level ≤ 10) }
        requires block { HasSides (B.seen store.old).held level self.now }
        requires wholes { AreRight
            (IsWholeTally passes_exposed) (B.seen store.old).held wholes.old.places }
        ensures none { IsTrue result → (test : Cell → Bool)
            → passes_exposed (B.seen store.old).held level (sided self.now direction) test
            → PassesNone level test }
        ensures block { HasSides (B.seen store.new).held level self.now }
        ensures wholes { AreRight
            (IsWholeTally passes_exposed) (B.seen store.old).held wholes.new.places }
        ensures seen { B.seen store.new ≡ B.seen store.old }
        ensures rests { B.rests store.old store.new }
    {
        let towards = self.sided(direction);
        passes_none(store, wholes, towards, level)
    }
}
