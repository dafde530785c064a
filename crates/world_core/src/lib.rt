//! The pure core of a world: its entries, its versions, and what each session holds, as plain
//! lists. It is the plain program whose contract is the definition, isn't fast, and touches memory
//! alone, with no threads in sight.
//!
//! A `Core` answers one event after another: what an event asks for stands in `specs/Lawful.antt`,
//! what a reply means in `specs/Answering.antt`. Entries are lists of levels, buckets and slots: a
//! bucket is told in `bucket_core`, the state that the lists show in `specs/Slots.antt`. What a
//! closed world leaves is a `Closed`, whoever keeps its entries.
#![tactic(auto)]

mod answering;
mod asking;
mod closed;
mod cores;
mod entries;
mod events;
mod holdings;
mod lawful;
mod levels;
mod logs;
mod parts;
mod reads;
mod sharing;
mod slots;
mod versions;

pub use closed::{Closed, Root};
pub use cores::Core;
pub use entries::Entries;
pub use events::{Event, Reply};
pub use holdings::{Holding, Rest, is_same};
pub use levels::Level;
pub use reads::{bits_in, child_in};
pub use slots::{slots_hold, slots_step};
