//! Scripts that sessions run beside each other in one world.
//!
//! It holds definitions, laws and the loop over a session's lines, and touches nothing but the
//! responder that answers them. What the run of one session tells rests on what that session saw
//! alone (`SessionRan` in `specs/sessions/Ran.antt`), and what a closed world tells is one history
//! of all sessions (`ClosesWorld` there). Both together are a run of the scripts, as one after
//! another gives it (`specs/sessions/Statements.antt`). What each call tells is in
//! `specs/sessions/CallSpecs.antt`.

mod calls;
mod laws;
mod lines;
mod responders;
mod runs;

pub use calls::{ActAnswer, AskedAt, OnceAnswer, SavedAt, SessionCalls};
pub use laws::{calls_take_lines, sessions_are_a_run, sessions_go_on};
pub use lines::answer_line;
pub use responders::LineResponder;
pub use runs::run_lines;
