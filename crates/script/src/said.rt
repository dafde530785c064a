use history_model::{SpelledTint, Three};

/// A step as it is spelled: its size, to lower places where `low` is set.
#[derive(Clone, Copy)]
pub(crate) struct SignedSize {
    pub(crate) low: bool,
    pub(crate) size: u32,
}

/// The steps of a ray as they are spelled.
#[derive(Clone, Copy)]
pub(crate) struct SpelledSteps {
    pub(crate) x: SignedSize,
    pub(crate) y: SignedSize,
    pub(crate) z: SignedSize,
}

/// A question as its words spell it, with numbers that no world may have.
#[derive(Clone, Copy)]
pub(crate) enum Asked {
    Get(Three),
    Colour(Three),
    Count(Three, Three),
    Bounds,
    Faces(Three, Three),
    Ray(Three, SpelledSteps),
}

/// The name of a file as it is spelled: its first bytes, 0 behind them, and how many it has.
#[derive(Clone, Copy)]
pub(crate) struct NameWord {
    pub(crate) bytes: [u8; 64],
    pub(crate) len: usize,
}

/// What is asked of a version: a question, or a box under a name.
#[derive(Clone, Copy)]
pub(crate) enum SpelledAsk {
    Question(Asked),
    Save(NameWord, Three, Three),
}

/// The same of a command.
#[derive(Clone, Copy)]
pub(crate) enum SpelledCommand {
    Edit(SpelledTint, bool),
    Forget(u32),
    Ask(Option<u32>, Asked),
    Save(Option<u32>, NameWord, Three, Three),
    Same(u32, u32),
    Head,
}
