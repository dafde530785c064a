ghost use Rattle.std.specs.Prelude.{◌≡◌, ℕ, Bool, List, Some};
ghost use Rattle.std.specs.List.{slice_get};
ghost use Rattle.vw_cell.specs.declared.cells.Cell.{Cell};
ghost use Rattle.vox_read.specs.Contents.{Content};
ghost use Rattle.history_model.specs.Worlds.{edited};
ghost use Rattle.history_model.specs.declared.acts.Act.TheVariants.{Stamp};
ghost use Rattle.edit_stamp.specs.Drawings.{Drawn, Draws};
ghost use Rattle.edit_stamp.specs.Stamps.{stamped};

/// What is drawn as the model is stamps as the model: the world is that of the act.
pub fn stencils_stamp_their_models()
    ensures { (models : List Content) (m : ℕ) (model : Content) (drawn : Drawn)
        (at : Cell) (before : Cell → Bool) (c : Cell)
        → slice_get models m ≡ Some model → Draws model drawn
        → stamped drawn at before c ≡ edited models (Stamp m at) before c }
{}
