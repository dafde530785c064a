//! The scene of a VOX file: its nodes, where they place the turned models, and the script that
//! stamps them; or the file's first fault.
//!
//! It reads bytes and takes memory; no file is opened here. Which scene a file has is said in
//! `specs/Scenes.antt`, and what a refusal names in `specs/Faults.antt`. Nodes are in
//! `specs/Nodes.antt`, how they turn and move what stands below them in `specs/Rotations.antt`, and
//! the script in `specs/Written.antt`.
#![tactic(auto)]

mod dicts;
mod faults;
mod laws;
mod model_instances;
mod nodes;
mod numbers;
mod painting;
mod reading;
mod rotations;
mod scenes;
mod scripting;
mod sides;
mod sizes;
mod walking;

pub use dicts::Dict;
pub use faults::SceneFault;
pub use laws::{files_of_models_are_read, scenes_are_judged};
pub use model_instances::ModelInstance;
pub use nodes::{Children, Kind, Node};
pub use reading::Nodes;
pub use rotations::{Axis, Pose, Rotation, Row, Shift, Vector};
pub use scenes::{Scene, read_scene, scene_bytes};
pub use scripting::stamp_text;
pub use walking::Placed;
