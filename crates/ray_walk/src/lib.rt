//! The first set cell that a ray meets, over any store that can be read. The walk goes from clear
//! block to clear block, and visits no instant between.
//!
//! It reads names of nodes and holds nothing. The course of a ray, instant by instant, is in
//! `specs/Courses.antt`.
#![tactic(auto)]

mod courses;
mod rays;
mod walks;

pub use rays::ray;
