//! Laws of the outputs of a scene: a run takes them, and builds the scene.
//!
//! Nothing is called here: each law is a clause of a function with an empty body. What it is to
//! build a scene is said in `specs/scenes/Building.antt`.

ghost use Rattle.text_laws.specs.scenes.Building.{StampsAreRead, ScenesAreBuilt};

/// A law: the script of a scene's stamps is read as these stamps, one a line, in a world that holds
/// each model at its place.
pub fn stamps_are_read()
    ensures { StampsAreRead }
{}

/// A law: the file of a scene's turned models gives these models, the script of their stamps is
/// read as such in the scene's world, and the cells that they make of the empty world are those
/// that the scene places.
pub fn scenes_are_built()
    ensures { ScenesAreBuilt }
{}
