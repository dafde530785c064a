// One note for each kind of step. What is noted is picked in the proof, from the words and the
// name.
ghost use Rattle.std.specs.Prelude.{◌≡◌, ◌-◌, ℕ, Some};
ghost use Rattle.node_words.specs.declared.shapes.names.Name.{Name};
ghost use Rattle.one_store.specs.entries.Words.{key_in};
ghost use Rattle.core_laws.specs.States.{tree_at};
ghost use Rattle.one_store.specs.notes.Changes.{NotesGain, NotesLoss, NotesFreeing, NotesEntry, NotesFull};
ghost use Rattle.one_store.specs.Known.{trees_below};
ghost use Rattle.one_store.specs.Steps.{sought_key, tree_over, shape_over, met_by};

use crate::entries::EntryWords;
use crate::notes::{Note, Notes};
use crate::sought::SoughtKey;
use node_words::Name;

pub(crate) fn note_gain<N: Note>(notes: &mut Notes, words: &EntryWords, n: Name)
    requires { NotesGain notes.old (tree_at (key_in words.now) n.level (Some n)) N.next }
    ensures { NotesGain notes.old (tree_at (key_in words.now) n.level (Some n)) notes.new }
{
    notes.note::<N>();
}

pub(crate) fn note_loss<N: Note>(notes: &mut Notes, words: &EntryWords, n: Name)
    requires { NotesLoss notes.old (tree_at (key_in words.now) n.level (Some n)) N.next }
    ensures { NotesLoss notes.old (tree_at (key_in words.now) n.level (Some n)) notes.new }
{
    notes.note::<N>();
}

pub(crate) fn note_freeing<N: Note>(notes: &mut Notes, words: &EntryWords, n: Name)
    requires { NotesFreeing notes.old (tree_at (key_in words.now) n.level (Some n))
        (trees_below (key_in words.now) (n.level - 1) (key_in words.now n)) N.next }
    ensures { NotesFreeing notes.old (tree_at (key_in words.now) n.level (Some n))
        (trees_below (key_in words.now) (n.level - 1) (key_in words.now n)) notes.new }
{
    notes.note::<N>();
}

pub(crate) fn note_entry<N: Note>(
    notes: &mut Notes,
    words: &EntryWords,
    n: Name,
    sought: &SoughtKey,
)
    requires { NotesEntry notes.old
        (trees_below (key_in words.now) (sought.now.level - 1) (sought_key sought.now))
        (tree_over sought.now.level (key_in words.now) n (sought_key sought.now))
        (shape_over sought.now.level (key_in words.now) (sought_key sought.now)) N.next }
    ensures { NotesEntry notes.old
        (trees_below (key_in words.now) (sought.now.level - 1) (sought_key sought.now))
        (tree_over sought.now.level (key_in words.now) n (sought_key sought.now))
        (shape_over sought.now.level (key_in words.now) (sought_key sought.now)) notes.new }
{
    notes.note::<N>();
}

pub(crate) fn note_full<N: Note>(notes: &mut Notes, words: &EntryWords, sought: &SoughtKey)
    requires { NotesFull notes.old (met_by words.now sought.now) N.next }
    ensures { NotesFull notes.old (met_by words.now sought.now) notes.new }
{
    notes.note::<N>();
}
