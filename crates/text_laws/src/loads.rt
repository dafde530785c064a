//! Laws of the inputs that one number makes: a run takes them, since their scripts are read as the
//! commands they were made of.
//!
//! It has no code but the statements, and touches nothing. The commands are in
//! `specs/loads/Commands.antt`, and that they are read in `specs/loads/ReadLaws.antt`; what a load
//! is stands in `specs/loads/Loads.antt` of `gen_load`.

ghost use Rattle.text_laws.specs.loads.ReadLaws.{ScriptsAreRead};

/// A law: each script of a load is read as its edits and its question, in a world of side 256 with
/// the load's model.
#[tactic(auto, using(crate::specs::loads::ReadLaws::scripts_are_read))]
pub fn load_scripts_are_read()
    ensures { ScriptsAreRead }
{}
