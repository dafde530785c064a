ghost use Rattle.std.specs.Prelude.{◌≡◌, ◌≤◌, ◌<◌, ◌*◌, ◌/◌, ◌^◌, ℕ, List, All, true, false};
ghost use Rattle.vw_cell.specs.declared.cells.Cell.{Cell};
ghost use Rattle.vw_cell.specs.Places.{IsInWorld};
ghost use Rattle.vw_cell.specs.Sums.{one_if};
ghost use Rattle.vox_read.specs.Contents.{Content};
ghost use Rattle.history_model.specs.Worlds.{World, edited};
ghost use Rattle.history_model.specs.Logs.{Log, FitsWorld, IsPlain, SuitsTints, TintFits, side_of_world};
ghost use Rattle.history_model.specs.Moments.{world_has, world_tint};
ghost use Rattle.history_model.specs.Stores.{store_has};
ghost use Rattle.history_model.specs.Entries.{HasJournal};
ghost use Rattle.history_model.specs.declared.histories.Record.{Record};
ghost use Rattle.history_model.specs.declared.acts.TintAct.{TintAct};
ghost use Rattle.history_model.specs.Tints.{Tints, tinted, ink_of, plain_of};
ghost use Rattle.history_model.specs.Planes.{StoresTints, tells};
ghost use Rattle.history_model.specs.Parts.{part, part_number, after_parts};
ghost use Rattle.core_laws.specs.tints.Planes.{TintsPlaces, tint_in};

/// A store that keeps some tints, and makes the parts of an act one after another, keeps the tints
/// that the act makes of them.
pub fn parts_make_the_tints()
    ensures { (n : ℕ) (models : List Content) (act : TintAct) (tints : Tints) (before : World)
        → TintFits n models act → StoresTints n tints before
        → StoresTints n (tinted models act tints)
        (after_parts (part n (ink_of models act) act) (part_number act) before) }
{}

/// The tint of a cell is the number that a store of tints has in the cell's eight places.
pub fn stored_tints_are_read()
    ensures { (n : ℕ) (tints : Tints) (world : World) (p : Cell)
        → StoresTints n tints world → IsInWorld n p → tints p < 2 ^ 8
        → tint_in n world p ≡ tints p }
{}

/// Two stores of tints have the same cells exactly where their tints agree.
pub fn stores_agree_where_tints_do()
    ensures same_cells { (n : ℕ) (t u : Tints) (v w : World)
        → StoresTints n t v → StoresTints n u w
        → ((p : Cell) → IsInWorld n p → t p ≡ u p)
        → (q : Cell) → IsInWorld (4 * n) q → v q ≡ w q }
    ensures same_tints { (n : ℕ) (t u : Tints) (v w : World)
        → StoresTints n t v → StoresTints n u w
        → ((q : Cell) → IsInWorld (4 * n) q → v q ≡ w q)
        → (p : Cell) → IsInWorld n p → t p < 2 ^ 8 → u p < 2 ^ 8 → t p ≡ u p }
{}

/// A tinted act sets the cells that it would set without its tint.
pub fn tinted_acts_set_what_plain_ones_set()
    ensures { (n : ℕ) (models : List Content) (act : TintAct) (tints : Tints) (world : World)
        → TintFits n models act → ((p : Cell) → tells 0 (tints p) ≡ world p)
        → (p : Cell) → tells 0 (tinted models act tints p) ≡ edited models (plain_of act) world p }
{}

/// The store of a coloured history keeps the tints of each version.
pub fn stores_keep_the_tints_of_versions()
    ensures { (models : List Content) (log : Log) → log.coloured ≡ true → SuitsTints log
        → All (λ r. FitsWorld (2 ^ log.side) models r.act) log.records → (v : ℕ)
        → StoresTints (2 ^ log.side / 4) (world_tint models log.records v)
        (store_has models log v) }
{}

/// A store has the cells of each version of a plain history.
pub fn plain_stores_have_the_cells_of_versions()
    ensures { (models : List Content) (log : Log) → IsPlain log → (v : ℕ) (p : Cell)
        → store_has models log v p ≡ world_has models log.records v p }
{}

/// In a plain history each set cell has tint 1.
pub fn plain_versions_have_tint_1()
    ensures { (models : List Content) (log : Log) → IsPlain log → (v : ℕ) (p : Cell)
        → world_tint models log.records v p ≡ one_if (world_has models log.records v p) }
{}

/// A journal of version 1 tells a plain history.
pub fn journals_of_version_1_are_plain()
    ensures { (log : Log) → HasJournal log → log.coloured ≡ false → IsPlain log }
{}

/// The cells of a version are those whose tint isn't 0.
pub fn tints_tell_the_cells_of_versions()
    ensures { (side : ℕ) (models : List Content) (records : List Record)
        → All (λ r. FitsWorld side models r.act) records → (v : ℕ) (p : Cell)
        → tells 0 (world_tint models records v p) ≡ world_has models records v p }
{}

/// Two versions have the same cells in their store exactly where they have the same tints.
pub fn versions_agree_where_their_tints_do()
    ensures same_tints { (models : List Content) (log : Log) → SuitsTints log
        → All (λ r. FitsWorld (2 ^ log.side) models r.act) log.records → All TintsPlaces models
        → (log.coloured ≡ true → 4 ≤ log.side) → (v w : ℕ)
        → ((q : Cell) → IsInWorld (2 ^ log.side) q
        → store_has models log v q ≡ store_has models log w q)
        → (p : Cell) → IsInWorld (side_of_world log.coloured (2 ^ log.side)) p
        → world_tint models log.records v p ≡ world_tint models log.records w p }
    ensures same_cells { (models : List Content) (log : Log) → SuitsTints log
        → All (λ r. FitsWorld (2 ^ log.side) models r.act) log.records → All TintsPlaces models
        → (log.coloured ≡ true → 4 ≤ log.side) → (v w : ℕ)
        → ((p : Cell) → IsInWorld (side_of_world log.coloured (2 ^ log.side)) p
        → world_tint models log.records v p ≡ world_tint models log.records w p)
        → (q : Cell) → IsInWorld (2 ^ log.side) q
        → store_has models log v q ≡ store_has models log w q }
{}
