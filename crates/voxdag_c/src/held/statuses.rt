//! What a call answers: 0 where it was done, and else why not.

/// It was done.
pub const DONE: u32 = 0;
/// The handle holds no world.
pub const CLOSED: u32 = 1;
/// Want of memory. Nothing changed.
pub const NO_MEMORY: u32 = 2;
/// A place, a box, a ball or a model leaves the world, or a size is 0.
pub const OUTSIDE: u32 = 3;
/// There is no such version yet.
pub const NO_VERSION: u32 = 4;
/// The version was forgotten.
pub const FORGOTTEN: u32 = 5;
/// No change is left to undo.
pub const NOTHING_TO_UNDO: u32 = 6;
/// No undo is left to take back.
pub const NOTHING_TO_REDO: u32 = 7;
/// A history has 65,535 records at most.
pub const HISTORY_FULL: u32 = 8;
/// A bucket of the store has no room. No version came.
pub const STORE_FULL: u32 = 9;
/// The newest version can't be forgotten.
pub const IS_NEWEST: u32 = 10;
/// What is to be written doesn't fit the room for it.
pub const TOO_SMALL: u32 = 11;
/// No side of a world, or no number of slots of a bucket.
pub const BAD_PLAN: u32 = 12;
/// The handle holds a world already.
pub const IS_OPEN: u32 = 13;
/// There is no model of this number.
pub const NO_MODEL: u32 = 14;
/// The bytes are no VOX file whose models can be read.
pub const BAD_FILE: u32 = 15;
/// A step of a ray isn't from -1,024 to 1,024, or all of them are 0.
pub const BAD_WAY: u32 = 16;
/// The bytes are no journal: its first line that doesn't fit was told.
pub const BAD_JOURNAL: u32 = 18;
/// A record of the journal breaks a rule of a legal history: its line was told.
pub const NOT_LEGAL: u32 = 19;
/// A call for a world with tints where cells have none, or the reverse.
pub const OTHER_KIND: u32 = 20;
/// A tint is a number from 1 to 255.
pub const BAD_TINT: u32 = 21;
/// The file's scene breaks a rule: what is wrong, and where, was told.
pub const BAD_SCENE: u32 = 22;
/// The bytes are no file of versions: the place of the first fault was told.
pub const BAD_DAG: u32 = 23;
