//! One history of all sessions over a table's log turn: versions are pinned, records appended and
//! versions forgotten, each by one step of the log. It touches the table, and may wait.
//!
//! What a pin answers is said in `specs/Pins.antt`, a commit in `specs/Commits.antt`, what
//! forgetting leaves in `specs/Forgets.antt`, and where undos and redos go in `specs/Targets.antt`.
//!
//! All sessions share the turn, so each call loads and stores little under it. Besides the length,
//! and five words of each record that the session hasn't seen yet:
//!
//! | Call | Under the turn |
//! |---|---|
//! | `head` | nothing |
//! | `pin` | 1 load of the mark, 1 of the root; the root's bucket: 1 exchange, 1 load, 2 stores |
//! | `commit`, `try_commit` | 7 stores: the words of the version, and the length |
//! | `Sure::target` | 2 loads for an undo; for a redo 1, and 1 for each edit on the way back |
//! | `Sure::mark`, `Sure::root` | 1 load each |
//! | `Sure::keep` | 1 load, and the root's bucket |
//! | `Sure::finish` | 7 stores, and the loads of `target` where that wasn't asked |
//! | `forget` | 1 load of the mark, 1 of the root, 2 stores |
//! | `same` | 1 load of each mark, 1 of each root |
//!
//! A mark that is found takes a second load. A version that falls out behind a record takes what
//! `forget` takes. The turn is taken by 1 exchange and given back by 1 store.
//!
//! `Sure` is the turn as a value. Who hands the pass on between its calls makes them on the pass:
//! `take_log` of `node_table`, then what looks there, `target` and `keep_version`, then `finish` or
//! `leave_log`.
#![tactic(auto)]

mod answers;
mod commits;
mod falling;
mod finishing;
mod forgets;
mod laws;
mod lookahead;
mod pins;
mod roots;
mod sames;
mod sures;
mod taking;
mod tries;
mod words;

pub use answers::{CommitRefused, Committed, Forgot, Pinned, SureRefused, TryRefused};
pub use commits::commit;
pub use finishing::finish;
pub use forgets::forget;
pub use laws::{pins_stay_and_tell, sessions_alone_are_never_busy};
pub use lookahead::{FoundTarget, Lookahead, no_lookahead, target};
pub use pins::pin;
pub use retain::{ForgetRefused, PinRefused, SameAt, SameRefused};
pub use roots::keep_version;
pub use sames::{head, same};
pub use sures::Sure;
pub use taking::sure;
pub use tries::try_commit;
