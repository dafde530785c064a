//! What any store of nodes promises: names, shares, plans, keys and their buckets, and the traits
//! of stores. It holds no store, and touches none but through those traits.
//!
//! A store keeps each node once. Whoever holds a share of a node may read it and all that stands
//! below it, and may make a node of shares. What a store holds is seen as a list of trees of names
//! (`specs/Held.antt`); its layout is in `specs/Plans.antt`, its keys in `specs/Keys.antt`.
#![tactic(auto)]

mod contents;
mod descent;
mod kernels;
mod keys;
mod laws;
mod plans;
mod rows;
mod shapes;
mod shares;
mod stores;
mod turns;
mod under;

pub use contents::{cells_have_one_shape, shapes_go_by_octants, some_shapes_are_known};
pub use descent::{
    Answers, Landing, Query, descend, half_side, is_empty, leaf_bits, leaf_has, look, name_of,
    octant_bits, octant_name, octant_names, octants_count_their_cells, part_of,
    parts_have_the_cells_of_their_box, same_boxes, same_cells, same_names, whole_block,
};
pub use kernels::{
    ball_bits, box_bits, leaves_lie_across_eight, leaves_show_their_cells, window_bits,
};
pub use keys::{Key, bucket_of};
pub use laws::{
    children_are_reached, gathered_octants_join_or_go_back, held_children_make_canonical_shapes,
    keys_follow_shapes, longer_lists_have_enough, plans_have_buckets,
};
pub use plans::Plan;
pub use rows::{end, end_all, names_of, shares_of, spend_all, take_at};
pub use shapes::{
    Ball, Block, Boxed, Cell, Memory, Name, Side, is_set, octant_with, octants_show_their_cells,
    parts_are_canonical, rows_weigh_their_trees, shapes_are_canonical, shapes_have_buckets,
    shapes_have_cells, shapes_have_codes, trees_have_shapes,
};
pub use shares::{Full, NodeRefused, Share};
pub use stores::{Blocks, NodeStore};
pub use turns::Steps;
pub use under::{Under, has_cell};
