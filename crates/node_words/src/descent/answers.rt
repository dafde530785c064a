ghost use Rattle.std.specs.Prelude.{◌≡◌, ◌<◌, ℕ, List, IfSome, IsTrue};
ghost use Rattle.node_words.specs.shapes.Tree.{Tree};
ghost use Rattle.node_words.specs.descent.Answers.{AreRight};

/// What may be asked of nodes more than once in a walk, and is answered by a number.
pub trait Query: Copy {
    /// What the number tells, while these trees are held.
    ghost tells: { List Tree → Self → ℕ → Type 0 };

    /// Whether both ask the same. It may miss some that do.
    fn is_same(&self, other: &Self) -> bool
        ensures exact { IsTrue result → self.now ≡ other.now };

    /// The place of the answer among 256. The more evenly it spreads, the more answers are found
    /// again.
    fn place(&self) -> usize
        ensures { result < 256 };
}

/// A query with its answer.
#[derive(Clone, Copy)]
pub struct Known<Q> {
    query: Q,
    number: u64,
}

/// Answers found earlier in a walk, each at one place; a new one takes the place of an old. It
/// takes no memory but the stack's.
#[derive(Drop)]
pub struct Answers<Q> {
    places: [Option<Known<Q>>; 256],
}

impl<Q: Query> Answers<Q> {
    /// No answers yet.
    pub fn new() -> Answers<Q>
        ensures { (held : List Tree) → AreRight Q.tells held result.places }
    {
        Answers {
            places: [None; 256],
        }
    }

    /// The answer to the query, where it is remembered.
    pub fn find(&self, query: &Q) -> Option<u64>
        ensures { (held : List Tree) → AreRight Q.tells held self.now.places
            → IfSome result (Q.tells held query.now) }
    {
        let known = self.places[query.place()]?;
        if known.query.is_same(query) {
            Some(known.number)
        } else {
            None
        }
    }

    /// Remembers the answer to the query.
    pub fn keep(&mut self, query: Q, number: u64)
        ensures { (held : List Tree) → AreRight Q.tells held self.old.places
            → Q.tells held query number → AreRight Q.tells held self.new.places }
    {
        self.places[query.place()] = Some(Known { query, number });
    }
}
