//! Room for what the session of a script answers and saves, all of which is taken first.
ghost use Rattle.std.specs.Prelude.{◌≡◌, ◌≤◌, [], All, IfOk, length};
ghost use Rattle.std.specs.List.{AllZip};
ghost use Rattle.conformance.specs.sessions.Saves.{saves_asked_in};
ghost use Rattle.world_run.specs.Works.{IsEmptyRoom, IsRoomFor};

use crate::accepted::number_of_saves;
use conformance::SavedBox;
use script::Script;
use session::Pinned;
use std::alloc::Global;
use transcript::LineAnswer;
use vw_cell::Memory;

/// More saves than a script has that was read: those have at most 16.
const SAVES: usize = 1_024;

/// Room for the answers of a script, for the pins of its saves, and for the saves.
pub(crate) struct ScriptRoom {
    pub(crate) answers: Vec<LineAnswer>,
    pub(crate) saves: Vec<SavedBox>,
    pub(crate) pins: Vec<Pinned>,
}

/// Room for each of the scripts.
pub(crate) fn rooms_of(alloc: Global, scripts: &[Script]) -> Result<Vec<ScriptRoom>, Memory>
    ensures { IfOk result (λ rooms. AllZip IsRoomFor scripts.now rooms.items) }
{
    let mut rooms = Vec::with_capacity(alloc, scripts.len())?;
    for script in scripts {
        match room_of(alloc, script) {
            Ok(room) => rooms.push_reserved(room),
            Err(refused) => {
                give_up_rooms(rooms);
                return Err(refused);
            }
        }
    }
    Ok(rooms)
}

fn room_of(alloc: Global, script: &Script) -> Result<ScriptRoom, Memory>
    ensures { IfOk result (λ room. IsRoomFor script.now room) }
{
    let lines = script.lines.as_slice();
    let number = number_of_saves(lines);
    // the reader of scripts lets fewer through
    if number > SAVES {
        return Err(Memory);
    }
    let answers = Vec::with_capacity(alloc, lines.len())?;
    let saves = Vec::with_capacity(alloc, number)?;
    let pins = Vec::with_capacity(alloc, number)?;
    Ok(ScriptRoom {
        answers,
        saves,
        pins,
    })
}

/// Gives up rooms in which nothing was pinned.
pub(crate) fn give_up_rooms(mut rooms: Vec<ScriptRoom>)
    requires { All IsEmptyRoom rooms.items }
{
    while let Some(room) = rooms.pop() {
        let ScriptRoom {
            answers: _,
            saves: _,
            pins,
        } = room;
        pins.destroy_empty();
    }
    rooms.destroy_empty();
}
