//! A voxel world for C: a handle that C owns, and a function for each command.
//!
//! It touches memory alone, its own and what C hands in. Each number that C hands in is tested
//! before it counts. A status is 0 where a command was carried out, and else says why not. What
//! each call does is said in `Calls.antt`, `Facts.antt`, `Files.antt` and `GoingOn.antt` of `specs/held/`, and
//! `include/voxdag.h` has all of this in the words of C.
#![tactic(auto)]

mod held;

ghost use Rattle.std.specs.Prelude.{◌≡◌, false, true, ⊤};
ghost use Rattle.history_model.specs.Ways.{heading_of};
ghost use Rattle.history_model.specs.declared.acts.Act.TheVariants.{Fill, Erase, Carve, Copy, Stamp, Undo, Redo};
ghost use Rattle.history_model.specs.declared.acts.Act.TheVariants as acts;
ghost use Rattle.history_model.specs.declared.acts.TintAct.TheVariants as tints;
ghost use Rattle.history_model.specs.declared.questions.Question.TheVariants as questions;
ghost use Rattle.transcript.specs.declared.answers.Answer.TheVariants as answers;
ghost use Rattle.voxdag_c.specs.held.Places.{cell_of_c_place, box_of, ball_of, extent_of, hit_of};
ghost use Rattle.voxdag_c.specs.held.Calls.{ByHandle, WorldChanges, WorldForgets, WorldAsks, WorldCompares, WorldSaves, WorldJournals, OpensHandle};
ghost use Rattle.voxdag_c.specs.held.Calls.{ByKind, WorldDiffers, WorldShows, WorldFloods, WorldTints, act_here};
ghost use Rattle.voxdag_c.specs.held.Calls.{PutsNewest, PutsSize, WritesNothing, ClosesHandle};
ghost use Rattle.voxdag_c.specs.held.Facts.{WorldFiles, PutsPlan};
ghost use Rattle.voxdag_c.specs.held.Files.{TellsSide, TellsNewest, FileAsks, FileCompares, FileDiffers, FileSaves, FileShows, FileFloods, OpensDag};
ghost use Rattle.voxdag_c.specs.held.GoingOn.{GoesOnInHandle};
ghost use Rattle.voxdag_c.specs.held.Scenes.{OpensScene};

use crate::held::{
    CBox, CFile, CPlace, CPlan, CScene, CShown, CWorld, FileHandle, Handle, statuses as status,
};
use std::alloc::Global;

/// Sets the cells of a box.
#[tactic(auto, using(crate::proofs::Through::through_closed, crate::proofs::Through::through_open))]
#[unsafe(no_mangle)]
pub extern "C" fn voxdag_c_fill(alloc: Global, handle: &mut Handle, part: &CBox) -> u32
    ensures { ByHandle ⊤
        (λ w status v. WorldChanges w (act_here w (Fill (box_of part.now)))
        status v)
        handle.old.kept.value result handle.new.kept.value }
{
    match handle.take(alloc) {
        None => status::CLOSED,
        Some(mut world) => {
            let status = world.fill(*part);
            handle.put(world);
            status
        }
    }
}

/// Clears the cells of a box.
#[tactic(auto, using(crate::proofs::Through::through_closed, crate::proofs::Through::through_open))]
#[unsafe(no_mangle)]
pub extern "C" fn voxdag_c_erase(alloc: Global, handle: &mut Handle, part: &CBox) -> u32
    ensures { ByHandle ⊤
        (λ w status v. WorldChanges w (act_here w (Erase (box_of part.now)))
        status v)
        handle.old.kept.value result handle.new.kept.value }
{
    match handle.take(alloc) {
        None => status::CLOSED,
        Some(mut world) => {
            let status = world.erase(*part);
            handle.put(world);
            status
        }
    }
}

/// Sets the cells of a ball.
#[tactic(auto, using(crate::proofs::Through::through_closed, crate::proofs::Through::through_open))]
#[unsafe(no_mangle)]
pub extern "C" fn voxdag_c_ball(
    alloc: Global,
    handle: &mut Handle,
    centre: &CPlace,
    radius: u32,
) -> u32
    ensures { ByHandle ⊤
        (λ w status v. WorldChanges w (act_here w (acts.Ball (ball_of centre.now radius)))
        status v)
        handle.old.kept.value result handle.new.kept.value }
{
    match handle.take(alloc) {
        None => status::CLOSED,
        Some(mut world) => {
            let status = world.ball(*centre, radius);
            handle.put(world);
            status
        }
    }
}

/// Clears the cells of a ball.
#[tactic(auto, using(crate::proofs::Through::through_closed, crate::proofs::Through::through_open))]
#[unsafe(no_mangle)]
pub extern "C" fn voxdag_c_carve(
    alloc: Global,
    handle: &mut Handle,
    centre: &CPlace,
    radius: u32,
) -> u32
    ensures { ByHandle ⊤
        (λ w status v. WorldChanges w (act_here w (Carve (ball_of centre.now radius)))
        status v)
        handle.old.kept.value result handle.new.kept.value }
{
    match handle.take(alloc) {
        None => status::CLOSED,
        Some(mut world) => {
            let status = world.carve(*centre, radius);
            handle.put(world);
            status
        }
    }
}

/// Puts what the box has where its least corner goes to the place.
#[tactic(auto, using(crate::proofs::Through::through_closed, crate::proofs::Through::through_open))]
#[unsafe(no_mangle)]
pub extern "C" fn voxdag_c_copy(alloc: Global, handle: &mut Handle, part: &CBox, to: &CPlace) -> u32
    ensures { ByHandle ⊤
        (λ w status v. WorldChanges w (act_here w (Copy (box_of part.now) (cell_of_c_place to.now)))
        status v)
        handle.old.kept.value result handle.new.kept.value }
{
    match handle.take(alloc) {
        None => status::CLOSED,
        Some(mut world) => {
            let status = world.copy(*part, *to);
            handle.put(world);
            status
        }
    }
}

/// Sets the cells of a model, whose number counts from 0, with its least corner at the place. In a
/// world with tints they get the model's colours.
#[tactic(auto, using(crate::proofs::Through::through_closed, crate::proofs::Through::through_open))]
#[unsafe(no_mangle)]
pub extern "C" fn voxdag_c_stamp(
    alloc: Global,
    handle: &mut Handle,
    number: u16,
    at: &CPlace,
) -> u32
    ensures { ByHandle ⊤
        (λ w status v. WorldChanges w (act_here w (Stamp number (cell_of_c_place at.now)))
        status v)
        handle.old.kept.value result handle.new.kept.value }
{
    match handle.take(alloc) {
        None => status::CLOSED,
        Some(mut world) => {
            let status = world.stamp(number, *at);
            handle.put(world);
            status
        }
    }
}

/// Goes back to the version before the last change.
#[tactic(auto, using(crate::proofs::Through::through_closed, crate::proofs::Through::through_open))]
#[unsafe(no_mangle)]
pub extern "C" fn voxdag_c_undo(alloc: Global, handle: &mut Handle) -> u32
    ensures { ByHandle ⊤ (λ w status v. WorldChanges w Undo status v)
        handle.old.kept.value result handle.new.kept.value }
{
    match handle.take(alloc) {
        None => status::CLOSED,
        Some(mut world) => {
            let status = world.undo();
            handle.put(world);
            status
        }
    }
}

/// Takes an undo back.
#[tactic(auto, using(crate::proofs::Through::through_closed, crate::proofs::Through::through_open))]
#[unsafe(no_mangle)]
pub extern "C" fn voxdag_c_redo(alloc: Global, handle: &mut Handle) -> u32
    ensures { ByHandle ⊤ (λ w status v. WorldChanges w Redo status v)
        handle.old.kept.value result handle.new.kept.value }
{
    match handle.take(alloc) {
        None => status::CLOSED,
        Some(mut world) => {
            let status = world.redo();
            handle.put(world);
            status
        }
    }
}

/// Forgets a version.
#[tactic(auto, using(crate::proofs::Through::through_closed, crate::proofs::Through::through_open))]
#[unsafe(no_mangle)]
pub extern "C" fn voxdag_c_forget(alloc: Global, handle: &mut Handle, version: u32) -> u32
    ensures { ByHandle ⊤ (λ w status v. WorldForgets w version status v)
        handle.old.kept.value result handle.new.kept.value }
{
    match handle.take(alloc) {
        None => status::CLOSED,
        Some(mut world) => {
            let status = world.forget(version);
            handle.put(world);
            status
        }
    }
}

/// The number of the newest version.
#[tactic(auto, using(crate::proofs::Through::through_closed, crate::proofs::Through::through_open))]
#[unsafe(no_mangle)]
pub extern "C" fn voxdag_c_newest(alloc: Global, handle: &mut Handle, version: &mut u32) -> u32
    ensures { ByHandle (version.new ≡ version.old)
        (λ w status v. (v ≡ w) × PutsNewest w status version.new)
        handle.old.kept.value result handle.new.kept.value }
{
    match handle.take(alloc) {
        None => status::CLOSED,
        Some(mut world) => {
            let status = world.put_newest(version);
            handle.put(world);
            status
        }
    }
}

/// What the world is.
#[tactic(auto, using(crate::proofs::Through::through_closed, crate::proofs::Through::through_open))]
#[unsafe(no_mangle)]
pub extern "C" fn voxdag_c_about(alloc: Global, handle: &mut Handle, plan: &mut CPlan) -> u32
    ensures { ByHandle (plan.new ≡ plan.old)
        (λ w status v. (v ≡ w) × PutsPlan w status plan.new)
        handle.old.kept.value result handle.new.kept.value }
{
    match handle.take(alloc) {
        None => status::CLOSED,
        Some(mut world) => {
            let status = world.put_plan(plan);
            handle.put(world);
            status
        }
    }
}

/// The size of a model, whose number counts from 0.
#[tactic(auto, using(crate::proofs::Through::through_closed, crate::proofs::Through::through_open))]
#[unsafe(no_mangle)]
pub extern "C" fn voxdag_c_model_size(
    alloc: Global,
    handle: &mut Handle,
    number: u16,
    size: &mut CPlace,
) -> u32
    ensures { ByHandle (size.new ≡ size.old)
        (λ w status v. (v ≡ w) × PutsSize w number size.old size.new status)
        handle.old.kept.value result handle.new.kept.value }
{
    match handle.take(alloc) {
        None => status::CLOSED,
        Some(mut world) => {
            let status = world.put_model_size(number, size);
            handle.put(world);
            status
        }
    }
}

/// Whether a cell of a version is set.
#[tactic(auto, using(crate::proofs::Through::through_closed, crate::proofs::Through::through_open))]
#[unsafe(no_mangle)]
pub extern "C" fn voxdag_c_get(
    alloc: Global,
    handle: &mut Handle,
    version: u32,
    place: &CPlace,
    set: &mut bool,
) -> u32
    ensures { ByHandle (set.new ≡ set.old)
        (λ w status v. (v ≡ w) × WorldAsks w version (questions.Get (cell_of_c_place place.now))
        (λ a. a ≡ answers.Is set.new) (set.new ≡ set.old) status)
        handle.old.kept.value result handle.new.kept.value }
{
    match handle.take(alloc) {
        None => status::CLOSED,
        Some(mut world) => {
            let status = world.get(version, *place, set);
            handle.put(world);
            status
        }
    }
}

/// How many cells of a box of a version are set.
#[tactic(auto, using(crate::proofs::Through::through_closed, crate::proofs::Through::through_open))]
#[unsafe(no_mangle)]
pub extern "C" fn voxdag_c_count(
    alloc: Global,
    handle: &mut Handle,
    version: u32,
    part: &CBox,
    cells: &mut u64,
) -> u32
    ensures { ByHandle (cells.new ≡ cells.old)
        (λ w status v. (v ≡ w) × WorldAsks w version (questions.Count (box_of part.now))
        (λ a. a ≡ answers.Count cells.new) (cells.new ≡ cells.old) status)
        handle.old.kept.value result handle.new.kept.value }
{
    match handle.take(alloc) {
        None => status::CLOSED,
        Some(mut world) => {
            let status = world.count(version, *part, cells);
            handle.put(world);
            status
        }
    }
}

/// How many pairs there are of a set cell of the box and a neighbour that isn't set.
#[tactic(auto, using(crate::proofs::Through::through_closed, crate::proofs::Through::through_open))]
#[unsafe(no_mangle)]
pub extern "C" fn voxdag_c_faces(
    alloc: Global,
    handle: &mut Handle,
    version: u32,
    part: &CBox,
    faces: &mut u64,
) -> u32
    ensures { ByHandle (faces.new ≡ faces.old)
        (λ w status v. (v ≡ w) × WorldAsks w version (questions.Faces (box_of part.now))
        (λ a. a ≡ answers.Faces faces.new) (faces.new ≡ faces.old) status)
        handle.old.kept.value result handle.new.kept.value }
{
    match handle.take(alloc) {
        None => status::CLOSED,
        Some(mut world) => {
            let status = world.faces(version, *part, faces);
            handle.put(world);
            status
        }
    }
}

/// The least box that has all set cells of a version, where some are set.
#[tactic(auto, using(crate::proofs::Through::through_closed, crate::proofs::Through::through_open))]
#[unsafe(no_mangle)]
pub extern "C" fn voxdag_c_bounds(
    alloc: Global,
    handle: &mut Handle,
    version: u32,
    some: &mut bool,
    least: &mut CBox,
) -> u32
    ensures { ByHandle ((some.new ≡ some.old) × (least.new ≡ least.old))
        (λ w status v. (v ≡ w) × WorldAsks w version (questions.Bounds)
        (λ a. (a ≡ answers.Extent (extent_of some.new least.new))
        × (some.new ≡ false → least.new ≡ least.old))
        ((some.new ≡ some.old) × (least.new ≡ least.old)) status)
        handle.old.kept.value result handle.new.kept.value }
{
    match handle.take(alloc) {
        None => status::CLOSED,
        Some(mut world) => {
            let status = world.bounds(version, some, least);
            handle.put(world);
            status
        }
    }
}

/// The first set cell of a version on a ray from the centre of a cell, where one is hit.
#[tactic(auto, using(crate::proofs::Through::through_closed, crate::proofs::Through::through_open))]
#[unsafe(no_mangle)]
pub extern "C" fn voxdag_c_ray(
    alloc: Global,
    handle: &mut Handle,
    version: u32,
    from: &CPlace,
    dx: i16,
    dy: i16,
    dz: i16,
    some: &mut bool,
    hit: &mut CPlace,
) -> u32
    ensures { ByHandle ((some.new ≡ some.old) × (hit.new ≡ hit.old))
        (λ w status v. (v ≡ w) × WorldAsks w version
        (questions.Ray (cell_of_c_place from.now) (heading_of dx dy dz))
        (λ a. (a ≡ answers.Hit (hit_of some.new hit.new))
        × (some.new ≡ false → hit.new ≡ hit.old))
        ((some.new ≡ some.old) × (hit.new ≡ hit.old)) status)
        handle.old.kept.value result handle.new.kept.value }
{
    match handle.take(alloc) {
        None => status::CLOSED,
        Some(mut world) => {
            let status = world.ray(version, *from, dx, dy, dz, some, hit);
            handle.put(world);
            status
        }
    }
}

/// Whether two versions have the same tints: the same cells, where cells have none.
#[tactic(auto, using(crate::proofs::Through::through_closed, crate::proofs::Through::through_open))]
#[unsafe(no_mangle)]
pub extern "C" fn voxdag_c_same(
    alloc: Global,
    handle: &mut Handle,
    a: u32,
    b: u32,
    same: &mut bool,
) -> u32
    ensures { ByHandle (same.new ≡ same.old)
        (λ w status v. (v ≡ w) × WorldCompares w a b same.old same.new status)
        handle.old.kept.value result handle.new.kept.value }
{
    match handle.take(alloc) {
        None => status::CLOSED,
        Some(mut world) => {
            let status = world.same(a, b, same);
            handle.put(world);
            status
        }
    }
}

/// The VOX file of a box of a version, and how many bytes it has.
#[tactic(auto, using(crate::proofs::Through::through_closed, crate::proofs::Through::through_open))]
#[unsafe(no_mangle)]
pub extern "C" fn voxdag_c_save(
    alloc: Global,
    handle: &mut Handle,
    version: u32,
    part: &CBox,
    out: &mut [u8],
    needed: &mut usize,
) -> u32
    ensures { ByHandle (WritesNothing out.old out.new needed.old needed.new)
        (λ w status v. (v ≡ w) × WorldSaves w version (box_of part.now)
        out.old out.new needed.old needed.new status)
        handle.old.kept.value result handle.new.kept.value }
{
    match handle.take(alloc) {
        None => status::CLOSED,
        Some(mut world) => {
            let status = world.save(alloc, version, *part, out, needed);
            handle.put(world);
            status
        }
    }
}

/// The text of the journal, and how many bytes it has.
#[tactic(auto, using(crate::proofs::Through::through_closed, crate::proofs::Through::through_open))]
#[unsafe(no_mangle)]
pub extern "C" fn voxdag_c_journal(
    alloc: Global,
    handle: &mut Handle,
    out: &mut [u8],
    needed: &mut usize,
) -> u32
    ensures { ByHandle (WritesNothing out.old out.new needed.old needed.new)
        (λ w status v. (v ≡ w) × WorldJournals w out.old out.new needed.old needed.new status)
        handle.old.kept.value result handle.new.kept.value }
{
    match handle.take(alloc) {
        None => status::CLOSED,
        Some(mut world) => {
            let status = world.journal(alloc, out, needed);
            handle.put(world);
            status
        }
    }
}

/// The file of the versions that aren't forgotten, and how many bytes it has.
#[tactic(auto, using(crate::proofs::Through::through_closed, crate::proofs::Through::through_open))]
#[unsafe(no_mangle)]
pub extern "C" fn voxdag_c_dag(
    alloc: Global,
    handle: &mut Handle,
    out: &mut [u8],
    needed: &mut usize,
) -> u32
    ensures { ByHandle (WritesNothing out.old out.new needed.old needed.new)
        (λ w status v. (v ≡ w) × WorldFiles w out.old out.new needed.old needed.new status)
        handle.old.kept.value result handle.new.kept.value }
{
    match handle.take(alloc) {
        None => status::CLOSED,
        Some(mut world) => {
            let status = world.dag(alloc, out, needed);
            handle.put(world);
            status
        }
    }
}

/// The least box of all cells whose tints differ in two versions, where any do: of all cells that
/// differ, where cells have no tints.
#[tactic(auto, using(crate::proofs::Through::through_closed, crate::proofs::Through::through_open))]
#[unsafe(no_mangle)]
pub extern "C" fn voxdag_c_changes(
    alloc: Global,
    handle: &mut Handle,
    a: u32,
    b: u32,
    some: &mut bool,
    least: &mut CBox,
) -> u32
    ensures { ByHandle ((some.new ≡ some.old) × (least.new ≡ least.old))
        (λ w status v. (v ≡ w)
        × WorldDiffers w a b
        (λ found. (found ≡ extent_of some.new least.new)
        × (some.new ≡ false → least.new ≡ least.old))
        ((some.new ≡ some.old) × (least.new ≡ least.old)) status)
        handle.old.kept.value result handle.new.kept.value }
{
    match handle.take(alloc) {
        None => status::CLOSED,
        Some(mut world) => {
            let status = world.changes(a, b, some, least);
            handle.put(world);
            status
        }
    }
}

/// The cells of a box of a version that can be seen, each with its tint, and how many they are.
#[tactic(auto, using(crate::proofs::Through::through_closed, crate::proofs::Through::through_open))]
#[unsafe(no_mangle)]
pub extern "C" fn voxdag_c_surface(
    alloc: Global,
    handle: &mut Handle,
    version: u32,
    part: &CBox,
    out: &mut [CShown],
    needed: &mut usize,
) -> u32
    ensures { ByHandle (WritesNothing out.old out.new needed.old needed.new)
        (λ w status v. (v ≡ w)
        × WorldShows w version (box_of part.now) out.old out.new needed.old needed.new status)
        handle.old.kept.value result handle.new.kept.value }
{
    match handle.take(alloc) {
        None => status::CLOSED,
        Some(mut world) => {
            let status = world.surface(alloc, version, *part, out, needed);
            handle.put(world);
            status
        }
    }
}

/// The region of a box of a version that is connected with a cell: how many cells, and its VOX
/// file.
#[tactic(auto, using(crate::proofs::Through::through_closed, crate::proofs::Through::through_open))]
#[unsafe(no_mangle)]
pub extern "C" fn voxdag_c_flood(
    alloc: Global,
    handle: &mut Handle,
    version: u32,
    part: &CBox,
    from: &CPlace,
    cells: &mut u64,
    out: &mut [u8],
    needed: &mut usize,
) -> u32
    ensures { ByHandle
        ((cells.new ≡ cells.old) × WritesNothing out.old out.new needed.old needed.new)
        (λ w status v. (v ≡ w)
        × WorldFloods w version (box_of part.now) (cell_of_c_place from.now) cells.old cells.new
        out.old out.new needed.old needed.new status)
        handle.old.kept.value result handle.new.kept.value }
{
    match handle.take(alloc) {
        None => status::CLOSED,
        Some(mut world) => {
            let status = world.flood(alloc, version, *part, *from, cells, out, needed);
            handle.put(world);
            status
        }
    }
}

/// Gives the cells of a box a tint, in a world whose cells have tints.
#[tactic(auto, using(crate::proofs::Through::through_closed, crate::proofs::Through::through_open))]
#[unsafe(no_mangle)]
pub extern "C" fn voxdag_c_fill_tint(
    alloc: Global,
    handle: &mut Handle,
    part: &CBox,
    tint: u32,
) -> u32
    ensures { ByHandle ⊤
        (λ w status v. WorldTints w (tints.Fill (box_of part.now) tint) tint status v)
        handle.old.kept.value result handle.new.kept.value }
{
    match handle.take(alloc) {
        None => status::CLOSED,
        Some(mut world) => {
            let status = world.fill_tint(*part, tint);
            handle.put(world);
            status
        }
    }
}

/// Gives the cells of a ball a tint, in a world whose cells have tints.
#[tactic(auto, using(crate::proofs::Through::through_closed, crate::proofs::Through::through_open))]
#[unsafe(no_mangle)]
pub extern "C" fn voxdag_c_ball_tint(
    alloc: Global,
    handle: &mut Handle,
    centre: &CPlace,
    radius: u32,
    tint: u32,
) -> u32
    ensures { ByHandle ⊤
        (λ w status v. WorldTints w (tints.Ball (ball_of centre.now radius) tint) tint status v)
        handle.old.kept.value result handle.new.kept.value }
{
    match handle.take(alloc) {
        None => status::CLOSED,
        Some(mut world) => {
            let status = world.ball_tint(*centre, radius, tint);
            handle.put(world);
            status
        }
    }
}

/// The tint of a cell of a version, 0 where it is clear, in a world whose cells have tints.
#[tactic(auto, using(crate::proofs::Through::through_closed, crate::proofs::Through::through_open))]
#[unsafe(no_mangle)]
pub extern "C" fn voxdag_c_colour(
    alloc: Global,
    handle: &mut Handle,
    version: u32,
    place: &CPlace,
    tint: &mut u8,
) -> u32
    ensures { ByHandle (tint.new ≡ tint.old)
        (λ w status v. (v ≡ w) × ByKind true w (tint.new ≡ tint.old)
        (λ told. WorldAsks w version (questions.Colour (cell_of_c_place place.now))
        (λ a. a ≡ answers.Colour tint.new) (tint.new ≡ tint.old) told) status)
        handle.old.kept.value result handle.new.kept.value }
{
    match handle.take(alloc) {
        None => status::CLOSED,
        Some(mut world) => {
            let status = world.colour(version, *place, tint);
            handle.put(world);
            status
        }
    }
}

/// Opens an empty world of this side, from 4 to 4,096 and a power of two, with buckets of so many
/// nodes, where 0 stands for the usual number, and with the models of a VOX file, where no bytes
/// stand for no models.
#[unsafe(no_mangle)]
pub extern "C" fn voxdag_c_open(
    alloc: Global,
    handle: &mut Handle,
    side: u32,
    cap: u16,
    file: &[u8],
) -> u32
    ensures { OpensHandle false side cap 0 file.now handle.old.kept.value result
        handle.new.kept.value }
{
    open_as(alloc, handle, side, cap, 0, false, file)
}

/// The same of a world whose cells have tints, or have none, and that keeps so many of its last
/// versions, where 0 stands for all: as a change is made, the version that falls out of them is
/// forgotten. With tints a side is 1,024 at most.
#[unsafe(no_mangle)]
pub extern "C" fn voxdag_c_open_as(
    alloc: Global,
    handle: &mut Handle,
    side: u32,
    cap: u16,
    keep: u32,
    tint: bool,
    file: &[u8],
) -> u32
    ensures { OpensHandle tint side cap keep file.now handle.old.kept.value result
        handle.new.kept.value }
{
    open_as(alloc, handle, side, cap, keep, tint, file)
}

fn open_as(
    alloc: Global,
    handle: &mut Handle,
    side: u32,
    cap: u16,
    keep: u32,
    tint: bool,
    file: &[u8],
) -> u32
    ensures { OpensHandle tint side cap keep file.now handle.old.kept.value result
        handle.new.kept.value }
{
    if let Some(world) = handle.take(alloc) {
        handle.put(world);
        return status::IS_OPEN;
    }
    match CWorld::from_bytes(alloc, side, cap, keep, tint, file) {
        Ok(world) => {
            handle.put(world);
            status::DONE
        }
        Err(status) => status,
    }
}

/// Opens the world that stands behind a journal over the models of a VOX file, where no bytes stand
/// for no models, with buckets of so many nodes, where 0 stands for the usual number, and from now
/// on with so many of its last versions kept, where 0 stands for all. Where the journal is refused,
/// its line is told.
#[unsafe(no_mangle)]
pub extern "C" fn voxdag_c_open_journal(
    alloc: Global,
    handle: &mut Handle,
    cap: u16,
    keep: u32,
    file: &[u8],
    journal: &[u8],
    line: &mut u32,
) -> u32
    ensures { GoesOnInHandle cap keep file.now journal.now line.old line.new handle.old.kept.value
        result handle.new.kept.value }
{
    match handle.take(alloc) {
        Some(world) => {
            handle.put(world);
            status::IS_OPEN
        }
        None => match CWorld::from_journal(alloc, cap, keep, file, journal, line) {
            Ok(world) => {
                handle.put(world);
                status::DONE
            }
            Err(status) => status,
        },
    }
}

/// Opens the world of the scene of a VOX file, whose turned models are stamped where they stand: of
/// this side, where 0 stands for the least that holds it, and else as `voxdag_c_open_as`. How many
/// models stand in it is told, or what is wrong with the scene, and where.
#[unsafe(no_mangle)]
pub extern "C" fn voxdag_c_open_scene(
    alloc: Global,
    handle: &mut Handle,
    side: u32,
    cap: u16,
    keep: u32,
    tint: bool,
    file: &[u8],
    told: &mut CScene,
) -> u32
    ensures { OpensScene tint side cap keep file.now told.old told.new handle.old.kept.value
        result handle.new.kept.value }
{
    match handle.take(alloc) {
        Some(world) => {
            handle.put(world);
            status::IS_OPEN
        }
        None => match CWorld::from_scene(alloc, side, cap, keep, tint, file, told) {
            Ok(world) => {
                handle.put(world);
                status::DONE
            }
            Err(status) => status,
        },
    }
}

/// Closes the world, and gives its memory back.
#[unsafe(no_mangle)]
pub extern "C" fn voxdag_c_close(alloc: Global, handle: &mut Handle) -> u32
    ensures { ClosesHandle handle.old.kept.value result handle.new.kept.value }
{
    match handle.take(alloc) {
        None => status::CLOSED,
        Some(world) => {
            drop(world);
            status::DONE
        }
    }
}

/// Opens the file of versions that these bytes are, of which a copy is kept; where they are none, the
/// place of the first fault is told.
#[unsafe(no_mangle)]
pub extern "C" fn voxdag_c_versions_open(
    alloc: Global,
    handle: &mut FileHandle,
    file: &[u8],
    at: &mut u64,
) -> u32
    ensures { OpensDag file.now at.old at.new handle.old.kept.value result handle.new.kept.value }
{
    match handle.take(alloc) {
        Some(held) => {
            handle.put(held);
            status::IS_OPEN
        }
        None => match CFile::from_bytes(alloc, file, at) {
            Ok(held) => {
                handle.put(held);
                status::DONE
            }
            Err(status) => status,
        },
    }
}

/// Closes the file, and gives its memory back.
#[unsafe(no_mangle)]
pub extern "C" fn voxdag_c_versions_close(alloc: Global, handle: &mut FileHandle) -> u32
    ensures { ClosesHandle handle.old.kept.value result handle.new.kept.value }
{
    match handle.take(alloc) {
        None => status::CLOSED,
        Some(held) => {
            drop(held);
            status::DONE
        }
    }
}

/// The side of the file's worlds in cells.
#[tactic(auto, using(crate::proofs::Through::through_closed, crate::proofs::Through::through_open))]
#[unsafe(no_mangle)]
pub extern "C" fn voxdag_c_versions_side(
    alloc: Global,
    handle: &mut FileHandle,
    side: &mut u32,
) -> u32
    ensures { ByHandle (side.new ≡ side.old)
        (λ f status g. (g ≡ f) × TellsSide f side.new status)
        handle.old.kept.value result handle.new.kept.value }
{
    match handle.take(alloc) {
        None => status::CLOSED,
        Some(held) => {
            let status = held.put_side(side);
            handle.put(held);
            status
        }
    }
}

/// The greatest number of a version, where the file has one.
#[tactic(auto, using(crate::proofs::Through::through_closed, crate::proofs::Through::through_open))]
#[unsafe(no_mangle)]
pub extern "C" fn voxdag_c_versions_newest(
    alloc: Global,
    handle: &mut FileHandle,
    version: &mut u32,
) -> u32
    ensures { ByHandle (version.new ≡ version.old)
        (λ f status g. (g ≡ f) × TellsNewest f version.old version.new status)
        handle.old.kept.value result handle.new.kept.value }
{
    match handle.take(alloc) {
        None => status::CLOSED,
        Some(held) => {
            let status = held.put_newest(version);
            handle.put(held);
            status
        }
    }
}

/// Whether a cell of a version is set.
#[tactic(auto, using(crate::proofs::Through::through_closed, crate::proofs::Through::through_open))]
#[unsafe(no_mangle)]
pub extern "C" fn voxdag_c_versions_get(
    alloc: Global,
    handle: &mut FileHandle,
    version: u32,
    place: &CPlace,
    set: &mut bool,
) -> u32
    ensures { ByHandle (set.new ≡ set.old)
        (λ f status g. (g ≡ f) × FileAsks f version (questions.Get (cell_of_c_place place.now))
        (λ a. a ≡ answers.Is set.new) (set.new ≡ set.old) status)
        handle.old.kept.value result handle.new.kept.value }
{
    match handle.take(alloc) {
        None => status::CLOSED,
        Some(held) => {
            let status = held.get(version, *place, set);
            handle.put(held);
            status
        }
    }
}

/// How many cells of a box of a version are set.
#[tactic(auto, using(crate::proofs::Through::through_closed, crate::proofs::Through::through_open))]
#[unsafe(no_mangle)]
pub extern "C" fn voxdag_c_versions_count(
    alloc: Global,
    handle: &mut FileHandle,
    version: u32,
    part: &CBox,
    cells: &mut u64,
) -> u32
    ensures { ByHandle (cells.new ≡ cells.old)
        (λ f status g. (g ≡ f) × FileAsks f version (questions.Count (box_of part.now))
        (λ a. a ≡ answers.Count cells.new) (cells.new ≡ cells.old) status)
        handle.old.kept.value result handle.new.kept.value }
{
    match handle.take(alloc) {
        None => status::CLOSED,
        Some(held) => {
            let status = held.count(version, *part, cells);
            handle.put(held);
            status
        }
    }
}

/// How many pairs there are of a set cell of the box and a neighbour that isn't set.
#[tactic(auto, using(crate::proofs::Through::through_closed, crate::proofs::Through::through_open))]
#[unsafe(no_mangle)]
pub extern "C" fn voxdag_c_versions_faces(
    alloc: Global,
    handle: &mut FileHandle,
    version: u32,
    part: &CBox,
    faces: &mut u64,
) -> u32
    ensures { ByHandle (faces.new ≡ faces.old)
        (λ f status g. (g ≡ f) × FileAsks f version (questions.Faces (box_of part.now))
        (λ a. a ≡ answers.Faces faces.new) (faces.new ≡ faces.old) status)
        handle.old.kept.value result handle.new.kept.value }
{
    match handle.take(alloc) {
        None => status::CLOSED,
        Some(held) => {
            let status = held.faces(version, *part, faces);
            handle.put(held);
            status
        }
    }
}

/// The least box that has all set cells of a version, where some are set.
#[tactic(auto, using(crate::proofs::Through::through_closed, crate::proofs::Through::through_open))]
#[unsafe(no_mangle)]
pub extern "C" fn voxdag_c_versions_bounds(
    alloc: Global,
    handle: &mut FileHandle,
    version: u32,
    some: &mut bool,
    least: &mut CBox,
) -> u32
    ensures { ByHandle ((some.new ≡ some.old) × (least.new ≡ least.old))
        (λ f status g. (g ≡ f) × FileAsks f version questions.Bounds
        (λ a. (a ≡ answers.Extent (extent_of some.new least.new))
        × (some.new ≡ false → least.new ≡ least.old))
        ((some.new ≡ some.old) × (least.new ≡ least.old)) status)
        handle.old.kept.value result handle.new.kept.value }
{
    match handle.take(alloc) {
        None => status::CLOSED,
        Some(held) => {
            let status = held.bounds(version, some, least);
            handle.put(held);
            status
        }
    }
}

/// The first set cell of a version on a ray from the centre of a cell, where one is hit.
#[tactic(auto, using(crate::proofs::Through::through_closed, crate::proofs::Through::through_open))]
#[unsafe(no_mangle)]
pub extern "C" fn voxdag_c_versions_ray(
    alloc: Global,
    handle: &mut FileHandle,
    version: u32,
    from: &CPlace,
    dx: i16,
    dy: i16,
    dz: i16,
    some: &mut bool,
    hit: &mut CPlace,
) -> u32
    ensures { ByHandle ((some.new ≡ some.old) × (hit.new ≡ hit.old))
        (λ f status g. (g ≡ f) × FileAsks f version
        (questions.Ray (cell_of_c_place from.now) (heading_of dx dy dz))
        (λ a. (a ≡ answers.Hit (hit_of some.new hit.new))
        × (some.new ≡ false → hit.new ≡ hit.old))
        ((some.new ≡ some.old) × (hit.new ≡ hit.old)) status)
        handle.old.kept.value result handle.new.kept.value }
{
    match handle.take(alloc) {
        None => status::CLOSED,
        Some(held) => {
            let status = held.ray(version, *from, dx, dy, dz, some, hit);
            handle.put(held);
            status
        }
    }
}

/// Whether two versions have the same cells.
#[tactic(auto, using(crate::proofs::Through::through_closed, crate::proofs::Through::through_open))]
#[unsafe(no_mangle)]
pub extern "C" fn voxdag_c_versions_same(
    alloc: Global,
    handle: &mut FileHandle,
    a: u32,
    b: u32,
    same: &mut bool,
) -> u32
    ensures { ByHandle (same.new ≡ same.old)
        (λ f status g. (g ≡ f) × FileCompares f a b same.old same.new status)
        handle.old.kept.value result handle.new.kept.value }
{
    match handle.take(alloc) {
        None => status::CLOSED,
        Some(held) => {
            let status = held.same(a, b, same);
            handle.put(held);
            status
        }
    }
}

/// The least box of all cells that differ in two versions, where any do.
#[tactic(auto, using(crate::proofs::Through::through_closed, crate::proofs::Through::through_open))]
#[unsafe(no_mangle)]
pub extern "C" fn voxdag_c_versions_changes(
    alloc: Global,
    handle: &mut FileHandle,
    a: u32,
    b: u32,
    some: &mut bool,
    least: &mut CBox,
) -> u32
    ensures { ByHandle ((some.new ≡ some.old) × (least.new ≡ least.old))
        (λ f status g. (g ≡ f) × FileDiffers f a b
        (λ found. (found ≡ extent_of some.new least.new)
        × (some.new ≡ false → least.new ≡ least.old))
        ((some.new ≡ some.old) × (least.new ≡ least.old)) status)
        handle.old.kept.value result handle.new.kept.value }
{
    match handle.take(alloc) {
        None => status::CLOSED,
        Some(held) => {
            let status = held.changes(a, b, some, least);
            handle.put(held);
            status
        }
    }
}

/// The VOX file of a box of a version, and how many bytes it has.
#[tactic(auto, using(crate::proofs::Through::through_closed, crate::proofs::Through::through_open))]
#[unsafe(no_mangle)]
pub extern "C" fn voxdag_c_versions_save(
    alloc: Global,
    handle: &mut FileHandle,
    version: u32,
    part: &CBox,
    out: &mut [u8],
    needed: &mut usize,
) -> u32
    ensures { ByHandle (WritesNothing out.old out.new needed.old needed.new)
        (λ f status g. (g ≡ f) × FileSaves f version (box_of part.now) out.old out.new
        needed.old needed.new status)
        handle.old.kept.value result handle.new.kept.value }
{
    match handle.take(alloc) {
        None => status::CLOSED,
        Some(held) => {
            let status = held.save(alloc, version, *part, out, needed);
            handle.put(held);
            status
        }
    }
}

/// The cells of a box of a version that can be seen, and how many they are.
#[tactic(auto, using(crate::proofs::Through::through_closed, crate::proofs::Through::through_open))]
#[unsafe(no_mangle)]
pub extern "C" fn voxdag_c_versions_surface(
    alloc: Global,
    handle: &mut FileHandle,
    version: u32,
    part: &CBox,
    out: &mut [CShown],
    needed: &mut usize,
) -> u32
    ensures { ByHandle (WritesNothing out.old out.new needed.old needed.new)
        (λ f status g. (g ≡ f) × FileShows f version (box_of part.now) out.old out.new
        needed.old needed.new status)
        handle.old.kept.value result handle.new.kept.value }
{
    match handle.take(alloc) {
        None => status::CLOSED,
        Some(held) => {
            let status = held.surface(alloc, version, *part, out, needed);
            handle.put(held);
            status
        }
    }
}

/// The region of a box of a version that is connected with a cell: how many cells, and its VOX
/// file.
#[tactic(auto, using(crate::proofs::Through::through_closed, crate::proofs::Through::through_open))]
#[unsafe(no_mangle)]
pub extern "C" fn voxdag_c_versions_flood(
    alloc: Global,
    handle: &mut FileHandle,
    version: u32,
    part: &CBox,
    from: &CPlace,
    cells: &mut u64,
    out: &mut [u8],
    needed: &mut usize,
) -> u32
    ensures { ByHandle ((cells.new ≡ cells.old) × WritesNothing out.old out.new needed.old needed.new)
        (λ f status g. (g ≡ f) × FileFloods f version (box_of part.now) (cell_of_c_place from.now)
        cells.old cells.new out.old out.new needed.old needed.new status)
        handle.old.kept.value result handle.new.kept.value }
{
    match handle.take(alloc) {
        None => status::CLOSED,
        Some(held) => {
            let status = held.flood(alloc, version, *part, *from, cells, out, needed);
            handle.put(held);
            status
        }
    }
}
