use history_model::Three;

/// A question as its words spell it, with numbers that no world may have.
#[derive(Clone, Copy)]
pub enum SpelledQuestion {
    Get(Three),
    Count(Three, Three),
    Bounds,
    Faces(Three, Three),
    Ray(Three, SpelledWay),
}

/// The steps of a ray as they are spelled.
#[derive(Clone, Copy)]
pub struct SpelledWay {
    pub x: SpelledStep,
    pub y: SpelledStep,
    pub z: SpelledStep,
}

/// A step as it is spelled: its size, to lower places where `low` is set.
#[derive(Clone, Copy)]
pub struct SpelledStep {
    pub low: bool,
    pub size: u32,
}
