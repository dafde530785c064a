ghost use Rattle.std.specs.Prelude.{◌≡◌, ◌≤◌};
ghost use Rattle.gen_load.specs.Draws.{state_after};
ghost use Rattle.gen_load.specs.Loads.{box_from, ball_from, place_from, edit_from, edit_state};

use crate::generator::Generator;
use history_model::Act;
use vw_cell::{Ball, Boxed, Cell};

/// The next edit of the region whose least x this is.
#[tactic(auto, using(crate::proofs::Steps::stamp_is, crate::proofs::Steps::stamp_draws), unfolding(crate::specs::Draws::state_after))]
pub(crate) fn next_edit(numbers: &mut Generator, x: u16) -> Act
    requires { x ≤ 192 }
    ensures edit { result ≡ edit_from numbers.old x }
    ensures state { numbers.new ≡ edit_state numbers.old }
{
    match numbers.below(4) {
        0 => Act::Fill(next_box(numbers, x)),
        1 => Act::Erase(next_box(numbers, x)),
        2 => Act::Ball(next_ball(numbers, x)),
        _ => Act::Stamp(0, next_place(numbers, x)),
    }
}

#[tactic(auto, unfolding(crate::specs::Draws::state_after))]
fn next_box(numbers: &mut Generator, x: u16) -> Boxed
    requires { x ≤ 192 }
    ensures value { result ≡ box_from numbers.old x }
    ensures state { numbers.new ≡ state_after numbers.old 6 }
{
    let at = Cell {
        x: x + numbers.below(48),
        y: numbers.below(240),
        z: numbers.below(240),
    };
    let size = Cell {
        x: 1 + numbers.below(16),
        y: 1 + numbers.below(16),
        z: 1 + numbers.below(16),
    };
    Boxed { at, size }
}

#[tactic(auto, unfolding(crate::specs::Draws::state_after))]
fn next_ball(numbers: &mut Generator, x: u16) -> Ball
    requires { x ≤ 192 }
    ensures value { result ≡ ball_from numbers.old x }
    ensures state { numbers.new ≡ state_after numbers.old 4 }
{
    let centre = Cell {
        x: x + 8 + numbers.below(48),
        y: 8 + numbers.below(240),
        z: 8 + numbers.below(240),
    };
    let radius = numbers.below(8);
    Ball { centre, radius }
}

#[tactic(auto, unfolding(crate::specs::Draws::state_after))]
fn next_place(numbers: &mut Generator, x: u16) -> Cell
    requires { x ≤ 192 }
    ensures value { result ≡ place_from numbers.old x }
    ensures state { numbers.new ≡ state_after numbers.old 3 }
{
    Cell {
        x: x + numbers.below(32),
        y: numbers.below(224),
        z: numbers.below(224),
    }
}
