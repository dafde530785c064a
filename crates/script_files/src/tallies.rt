use commands::SceneTally;
use transcript::Answer;
use world_run::Ended;

/// How a command came to its end: what its line tells, and the closed world where it ran scripts.
#[derive(Drop)]
pub struct Completed {
    pub done: Done,
    pub ended: Option<Ended>,
}

/// What is told of a run whose outputs are written, and its closed world.
#[derive(Drop)]
pub struct RunWritten {
    pub tally: Tally,
    pub ended: Ended,
}

/// What is told of a load's run whose outputs are written, and its closed world.
#[derive(Drop)]
pub struct LoadWritten {
    pub tally: LoadTally,
    pub ended: Ended,
}

/// What the line of a command tells that came to its end.
#[derive(Clone, Copy, Debug, PartialEq, Eq)]
pub enum Done {
    /// The number of cells of a file's models.
    Counted(u64),
    /// The numbers of a run.
    Ran(Tally),
    /// The numbers of a load's run.
    Shown(LoadTally),
    /// The numbers of a scene.
    Placed(SceneTally),
    /// The answer of a version of a file.
    Looked(Answer),
    /// Nothing: the command puts no line.
    Written,
    /// Whether the texts of an audit are those of one run.
    Answered(bool),
}

/// How many scripts there were, how many records and marks their history has, and how many nodes
/// are live at the end, on all levels together.
#[derive(Clone, Copy, Debug, PartialEq, Eq)]
pub struct Tally {
    pub scripts: u64,
    pub records: u64,
    pub marks: u64,
    pub nodes: u64,
}

/// The load's number, how many records the history of its run has, and how many cells each region
/// of the world had when its script counted them.
#[derive(Clone, Copy, Debug, PartialEq, Eq)]
pub struct LoadTally {
    pub number: u32,
    pub records: u64,
    pub counts: [u64; 4],
}
