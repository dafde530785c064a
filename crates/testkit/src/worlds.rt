//! For tests: worlds in a store for one thread, and the models that are stamped into them. It holds
//! no test, and touches memory alone.

mod asking;
mod edits;
mod models;
mod worlds;

pub use asking::Found;
pub use edits::Refusal;
pub use models::Drawing;
pub use worlds::StoredWorld;
