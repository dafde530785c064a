ghost use Rattle.std.specs.Prelude.{◌≡◌, ◌-◌, ◌≤◌, ◌^◌, ℕ, List, Option, Some, Bool};
ghost use Rattle.std.specs.List.{slice_get};
ghost use Rattle.vw_cell.specs.declared.cells.Cell.{Cell};
ghost use Rattle.vox_read.specs.Contents.{Content};
ghost use Rattle.node_words.specs.declared.shapes.names.Name.{Name};
ghost use Rattle.node_words.specs.Held.{StoreState};
ghost use Rattle.history_model.specs.Worlds.{World};
ghost use Rattle.edit_walk.specs.cells.Worlds.{ShowsWorld};
ghost use Rattle.history_model.specs.declared.acts.TintAct.{TintAct};
ghost use Rattle.history_model.specs.Tints.{Tints, tinted, tints_from, stamp_tint};
ghost use Rattle.history_model.specs.Logs.{TintFits};
ghost use Rattle.history_model.specs.Planes.{StoresTints};
ghost use Rattle.history_model.specs.Parts.{part_number};
ghost use Rattle.colour.specs.Inks.{Inked, DrawsTints, HasInk, parts_in, inked_tints};
ghost use Rattle.colour.specs.Made.{PartsMade};

/// A stencil that was drawn of a model puts the model's tints.
pub fn stencils_put_their_models_tints()
    ensures { (models : List Content) (m : ℕ) (model : Content) (inked : Inked) (at p : Cell)
        → slice_get models m ≡ Some model → DrawsTints model inked
        → tints_from inked.size (inked_tints inked) at p
        ≡ stamp_tint (slice_get models m) at p }
{}

/// What an act makes by its parts of a root that keeps some tints is a root that keeps the tints
/// that the act makes of them.
pub fn rebuilt_roots_keep_tints()
    ensures { (old new : StoreState) (side : ℕ) (root name : Option Name) (models : List Content)
        (act : TintAct) (stencil : Option Inked) (tints : Tints) (before : World)
        → TintFits (2 ^ (side - 2)) models act → HasInk models act stencil
        → PartsMade old side root (parts_in (2 ^ (side - 2)) act stencil) (part_number act) name
        new
        → ShowsWorld old.held (side - 2) root before → StoresTints (2 ^ (side - 2)) tints before
        → (after : World) × StoresTints (2 ^ (side - 2)) (tinted models act tints) after
        × ShowsWorld new.held (side - 2) name after }
{}
