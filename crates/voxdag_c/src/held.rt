//! A world that C holds between two calls, and what each call does to it.
//!
//! A call takes its numbers as they come, tests them, and answers a status of `statuses`. It
//! stands on the store for one thread, takes memory, and reaches no file. What the world that is
//! held means is said in `specs/held/Holding.antt`, and what each call does to it in
//! `specs/held/Calls.antt`.

mod asks;
mod facts;
mod file_handle;
mod file_looks;
mod file_ptr;
mod files;
mod handle;
mod kept;
mod looks;
mod openings;
mod outputs;
mod parts;
mod places;
mod plans;
mod scenes;
mod shown;
pub mod statuses;
mod tints;
mod worlds;

pub use file_handle::{FileHandle, file_handles_cross};
pub use file_ptr::FilePtr;
pub use files::CFile;
pub use handle::{Handle, handles_cross};
pub use kept::WorldPtr;
pub use places::{CBox, CPlace};
pub use plans::CPlan;
pub use scenes::CScene;
pub use shown::CShown;
pub use worlds::CWorld;
