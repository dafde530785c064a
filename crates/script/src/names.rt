ghost use Rattle.std.specs.Prelude.{◌≡◌};
ghost use Rattle.script.specs.Commands.{all_change_names, change_names, question_rows, is_among, is_row};

// Whether the name is that of a change.
pub(crate) fn is_change(name: &[u8]) -> bool
    ensures { result ≡ is_among all_change_names name.now }
{
    name == b"undo".as_slice() || name == b"redo".as_slice() || is_edit(name)
}

// Whether the name is that of an edit, which may stand behind `try`.
pub(crate) fn is_edit(name: &[u8]) -> bool
    ensures { result ≡ is_among change_names name.now }
{
    name == b"fill".as_slice()
        || name == b"erase".as_slice()
        || name == b"ball".as_slice()
        || name == b"carve".as_slice()
        || name == b"copy".as_slice()
        || name == b"stamp".as_slice()
}

// Whether the name is that of a question.
#[tactic(auto, unfolding(crate::specs::Commands::question_rows))]
pub(crate) fn is_question(tint: bool, name: &[u8]) -> bool
    ensures { result ≡ is_row (question_rows tint) name.now }
{
    name == b"get".as_slice()
        || name == b"count".as_slice()
        || name == b"faces".as_slice()
        || name == b"bounds".as_slice()
        || name == b"ray".as_slice()
        || name == b"save".as_slice()
        || (tint && name == b"colour".as_slice())
}
