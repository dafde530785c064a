//! One editing act carried out on the root of a version, over any store of nodes, of a world of
//! plain cells and of one whose cells have tints.
//!
//! It touches the store, and takes memory for the stencils of models alone. Whatever the act, the
//! contract is one, in `specs/Acts.antt`: what its cells are, what joined the entries made, and
//! what a full bucket leaves. Models that were drawn, be they lent or owned, are told in
//! `specs/Drawn.antt`. A maker ([`ActMaker`]) makes one act of one root after another, and may take
//! over what it made.
#![tactic(auto)]

mod balls;
mod boxes;
mod copies;
mod drawn;
mod fitting;
mod lists;
mod makers;
mod questions;
mod rebuild;

pub use balls::BallAct;
pub use boxes::BoxAct;
pub use copies::CopyAct;
pub use drawn::Lends;
pub use edit_copy::copy_may_repeat;
pub use edit_ops::box_may_repeat;
pub use lists::{DrawnList, DrawnModels, OwnModels, draw_models, own_models};
pub use makers::{ActMaker, AnyAct};
pub use questions::{answer_tinted, tell, tints_in};
pub use rebuild::rebuild_act;
