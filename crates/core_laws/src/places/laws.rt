ghost use Rattle.std.specs.Prelude.{◌≡◌, ◌<◌, ℕ, Option};
ghost use Rattle.node_words.specs.Plans.{Layout};
ghost use Rattle.core_laws.specs.places.WordIds.{WordId, place, width, IsWordId, key_words};

/// Two words stand at two places.
pub fn places_are_apart()
    ensures { (p : Layout) (s t : WordId) → IsWordId p s → IsWordId p t → place p s ≡ place p t
        → s ≡ t }
{}

/// Whether the table has a word can be decided.
pub fn words_can_be_told()
    ensures { (p : Layout) (s : WordId) → Dec (IsWordId p s) }
{}

/// Each word stands in the table.
pub fn places_are_in_the_table()
    ensures { (p : Layout) (s : WordId) → IsWordId p s → place p s < width p }
{}

ghost use Rattle.node_words.specs.declared.keys.Key.{Key};
ghost use Rattle.core_laws.specs.places.KeyWords.{key_of_words, key_word, IsKeyAt};
ghost use Rattle.node_words.specs.declared.shapes.names.Name.{Name};
ghost use Rattle.core_laws.specs.places.Words.{word_of_child, IsChildAt};

/// Children of one level with one word are one child.
pub fn child_words_tell_children()
    ensures { (level : ℕ) (a b : Option Name) → IsChildAt level a → IsChildAt level b
        → word_of_child a ≡ word_of_child b → a ≡ b }
{}

/// The words of a key are those of no other: a key is read back from its words, and words from the
/// key that they stand for.
pub fn keys_and_words_tell_each_other()
    ensures words { (level : ℕ) (words : ℕ → ℕ) (i : ℕ) → i < key_words level
        → key_word (key_of_words level words) i ≡ words i }
    ensures key { (level : ℕ) (key : Key) (words : ℕ → ℕ) → IsKeyAt level key
        → ((i : ℕ) → i < key_words level → words i ≡ key_word key i)
        → key_of_words level words ≡ key }
{}
