ghost use Rattle.std.specs.Prelude.{◌≡◌, ℕ, ◌+◌, ◌*◌, ◌^◌, ◌<◌, ◌≤◌, option_copied};
ghost use Rattle.vw_cell.specs.Places.{IsInWorld};
ghost use Rattle.history_model.specs.Ways.{IsStep, IsHeading, ahead, behind, heading_of};
ghost use Rattle.history_model.specs.Rays.{Hits, factor, scale};
ghost use Rattle.node_words.specs.descent.Roots.{HoldsRoot, ForWorld};
ghost use Rattle.ray_walk.specs.Courses.{IsTrack, IsCourse};
ghost use Rattle.ray_walk.specs.Rays.{track_of, course_of};

use crate::courses::{Course, Track};
use crate::walks::walk;
use history_model::Way;
use node_words::{Blocks, Share, name_of};
use vw_cell::{Cell, Side};

/// The set cell of the root's world that a ray meets first, which begins at the centre of a cell.
/// `None` where it leaves the world without having met one.
pub fn ray<B: Blocks>(
    store: &mut B,
    root: Option<&Share>,
    side: Side,
    from: Cell,
    way: Way,
) -> Option<Cell>
    requires root { HoldsRoot (B.seen store.old).held side (option_copied root) }
    requires from { IsInWorld (2 ^ side) from }
    ensures first { ForWorld (B.seen store.old).held side (option_copied root.entry)
        (λ cells. Hits from way (2 ^ side) cells result) }
    ensures seen { B.seen store.new ≡ B.seen store.old }
    ensures rests { B.rests store.old store.new }
{
    let level = side.root_level();
    let course = course(from, way);
    walk(store, level, name_of(root), &course, from)
}

// The ray on its three axes.
fn course(from: Cell, way: Way) -> Course
    requires from { IsInWorld 4096 from }
    ensures course { result ≡ course_of from way }
    ensures fine { IsCourse result }
    ensures heading { IsHeading way }
{
    let dx = way.dx();
    let dy = way.dy();
    let dz = way.dz();
    let scale = scale(dx, dy, dz);
    Course {
        x: track(scale, from.x, dx),
        y: track(scale, from.y, dy),
        z: track(scale, from.z, dz),
    }
}

// Twice the product of the sizes of the steps that aren't 0.
#[tactic(auto, using(crate::proofs::RayLaws::scale_small))]
fn scale(dx: i16, dy: i16, dz: i16) -> u64
    requires dx { IsStep dx }
    requires dy { IsStep dy }
    requires dz { IsStep dz }
    ensures scale { result ≡ scale (heading_of dx dy dz) }
    ensures bounds { (1 ≤ result) × (result ≤ 2 ^ 31) }
{
    let x = size(dx).max(1);
    let y = size(dy).max(1);
    let z = size(dz).max(1);
    2 * (x * (y * z))
}

fn size(d: i16) -> u64
    requires { IsStep d }
    ensures size { result ≡ ahead d + behind d }
    ensures bound { result ≤ 1024 }
{
    u64::from(d.unsigned_abs())
}

// The ray on one axis, from the centre of a cell.
fn track(scale: u64, o: u16, d: i16) -> Track
    requires scale { (1 ≤ scale) × (scale ≤ 2 ^ 31) }
    requires o { o < 4096 }
    requires d { IsStep d }
    ensures track { result ≡ track_of scale o d }
    ensures fine { IsTrack result }
{
    let unit = 2 * scale;
    let start = scale * (2 * u64::from(o) + 1);
    let size = size(d);
    let (ahead, behind) = if d > 0 { (size, 0) } else { (0, size) };
    Track {
        unit,
        start,
        ahead,
        behind,
    }
}
