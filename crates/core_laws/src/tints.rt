//! Laws of tinted acts and of stores that keep the tints of a world's cells, each from 0 to 255.
//! They touch nothing.
//!
//! The meaning of an act, how a store of four times the side keeps tints, and by which parts it
//! makes an act are said in `history_model`: `Tints.antt`, `Planes.antt` and `Parts.antt` of its
//! `specs/`. The laws that tie the three are the contracts of the functions here, and
//! `specs/tints/Planes.antt` here says which number the eight places of a cell have.

mod laws;

pub use laws::{
    journals_of_version_1_are_plain, parts_make_the_tints, plain_stores_have_the_cells_of_versions,
    plain_versions_have_tint_1, stored_tints_are_read, stores_agree_where_tints_do,
    stores_keep_the_tints_of_versions, tinted_acts_set_what_plain_ones_set,
    tints_tell_the_cells_of_versions, versions_agree_where_their_tints_do,
};
