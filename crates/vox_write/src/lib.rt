//! Models as the bytes of a VOX file, which is read back as the same models.
//!
//! It appends to bytes and touches no file. The bytes are told one by one in `specs/Written.antt`.
#![tactic(auto)]

mod writing;

pub use writing::{write_model, write_models, written_models_are_read};
