ghost use Rattle.std.specs.Prelude.{◌≡◌, IfOk};
ghost use Rattle.one_store.specs.notes.StoreNotes.{no_notes};

use atomic_table::{Play, Seat, Table, TableRule};
use std::alloc::{AllocError, Global};
use std::marker::{Brand, Model, PhantomData};

// What the one seat of the table has noted. No value of it is made.
pub struct Noted {
    none: (),
}

impl Model for Noted {
    ghost use Rattle.one_store.specs.notes.StoreNotes.{StoreNotes, no_notes, coded_notes};

    ghost Value = { StoreNotes };

    ghost coded = { coded_notes };

    ghost view = { λ _. no_notes };
}

/// What is noted next. A caller picks it in its proof.
pub trait Note {
    ghost use Rattle.one_store.specs.notes.StoreNotes.{StoreNotes};

    ghost next: { StoreNotes };
}

impl Note for Brand {
    ghost use Rattle.one_store.specs.notes.StoreNotes.{no_notes};

    ghost next = { no_notes };
}

// Whatever is noted is allowed.
pub struct Anything;

impl TableRule<(), Noted, ()> for Anything {
    ghost use Rattle.one_store.specs.notes.StoreNotes.{no_notes};

    ghost holds = { λ k s. Unit {0} };

    ghost first = { λ k. no_notes };
}

// What is picked is noted.
pub struct Noting<N: Note> {
    of: PhantomData<N>,
}

impl<N: Note> Play<(), Noted> for Noting<N> {
    ghost then = { λ s before n after. after.0 ≡ N.next };
}

/// The notes of one store: a table of one word, whose one seat sees what was noted. To note
/// something is to read that word.
#[derive(Drop)]
pub struct Notes {
    table: Table<(), Noted, (), Anything, Global>,
    seat: Seat<(), Noted>,
    ghost one_table: { seat.table_id ≡ table.shared.table_id },
    ghost one_word: { table.shared.table_id.words ≡ 1 },
}

impl Model for Notes {
    ghost use Rattle.one_store.specs.notes.StoreNotes.{StoreNotes, coded_notes};

    ghost Value = { StoreNotes };

    ghost coded = { coded_notes };

    ghost view = { λ n. n.seat.me.0 };
}

impl Notes {
    /// Nothing is noted yet.
    pub fn new(alloc: Global) -> Result<Notes, AllocError>
        ensures { IfOk result (λ n. n ≡ no_notes) }
    {
        let (table, seat) = Table::of_words(alloc, &[0], &())?;
        Ok(Notes { table, seat })
    }

    /// Notes what is picked.
    pub fn note<N: Note>(&mut self)
        ensures { self.new ≡ N.next }
    {
        let Notes { table, seat } = self;
        let table = &*table;
        let _found = table.shared.load::<Noting<N>>(seat, 0);
    }
}
