ghost use Rattle.std.specs.Prelude.{◌≡◌, ◌<◌, ◌++◌, ◌∷◌, [], ℕ, true, false, IfOk, OnOk, length, option_copied};
ghost use Rattle.std.specs.List.{slice_get};
ghost use Rattle.vox_read.specs.Contents.{AreModels, IsModel};
ghost use Rattle.history_model.specs.Logs.{TintFits};
ghost use Rattle.colour.specs.Inks.{HasInk};
ghost use Rattle.colour.specs.Planes.{TintsPlaces};
ghost use Rattle.act_rebuilds.specs.Drawn.{HaveTints, DrawsNumber, size_of};

use crate::drawn::{DrawnModel, Lends, TintedModel, size_in, tinted_size};
use colour::TintStencil;
use edit_stamp::Stencil;
use history_model::TintAct;
use std::alloc::Global;
use vox_read::{Model, Models};
use vw_cell::{Cell, Memory};

/// The models of a world, each drawn once for all of its stamps: by its tints in a world whose
/// cells have tints, else by its cells. Contracts see which of both, and the models.
#[derive(Drop)]
pub struct DrawnList<B: Lends + Drop> {
    tint: bool,
    // One of both lists is empty.
    cells: Vec<DrawnModel<B>>,
    tints: Vec<TintedModel<B>>,
}

/// Models that are lent.
pub type DrawnModels<'m> = DrawnList<&'m Model>;

/// Models that are owned.
pub type OwnModels = DrawnList<Model>;

impl<B: Lends + Drop> std::marker::Model for DrawnList<B> {
    ghost use Rattle.act_rebuilds.specs.Drawn.{WorldModels, models_by};

    ghost Value = { WorldModels };

    ghost view = { λ s. record {
      tint = s.tint;
      models = models_by s.tint s.cells.items s.tints.items;
    } };
}

impl<B: Lends + Drop> DrawnList<B> {
    // None yet.
    fn none(alloc: Global, tint: bool) -> DrawnList<B>
        ensures tint { result.tint ≡ tint }
        ensures models { result.models ≡ [] }
    {
        DrawnList {
            tint,
            cells: Vec::new(alloc),
            tints: Vec::new(alloc),
        }
    }

    // What its lists take memory from.
    pub(crate) fn allocator(&self) -> Global {
        *self.cells.allocator()
    }

    // One model more, which is drawn.
    fn add(&mut self, alloc: Global, from: B) -> Result<(), Memory>
        requires { IsModel (B.lent from) }
        ensures tint { self.new.tint ≡ self.old.tint }
        ensures models { OnOk result (self.new.models ≡ self.old.models ++ B.lent from ∷ []) }
        ensures tints { OnOk result (self.old.tint ≡ true → TintsPlaces (B.lent from)) }
    {
        if self.tint {
            self.tints.push(TintedModel::new(alloc, from)?)?;
            return Ok(());
        }
        self.cells.push(DrawnModel::new(alloc, from)?)?;
        Ok(())
    }

    /// Whether cells have tints.
    pub fn tint(&self) -> bool
        ensures { result ≡ self.now.tint }
    {
        self.tint
    }

    /// The size of the model of this number, counted from 0.
    pub fn size(&self, number: usize) -> Option<Cell>
        ensures { result ≡ size_of (slice_get self.now.models number) }
    {
        if self.tint {
            return tinted_size(self.tints.as_slice(), number);
        }
        size_in(self.cells.as_slice(), number)
    }

    // The cells of the model of this number.
    pub(crate) fn stencil(&self, number: u16) -> &Stencil
        requires plain { self.now.tint ≡ false }
        requires there { number < length self.now.models }
        ensures { DrawsNumber self.now.models number result.now }
    {
        let model = &self.cells[usize::from(number)];
        &model.stencil
    }

    // The tints of the model that a stamp names. Other acts have none.
    pub(crate) fn ink(&self, act: &TintAct) -> Option<&TintStencil>
        requires tinted { self.now.tint ≡ true }
        requires fits { (n : ℕ) × TintFits n self.now.models act.now }
        ensures { HasInk self.now.models act.now (option_copied result) }
    {
        match *act {
            TintAct::Stamp(m, _) => {
                let model = &self.tints[usize::from(m)];
                Some(&model.stencil)
            }
            _ => None,
        }
    }
}

/// Draws each model, by its tints or by its cells.
pub fn draw_models<'m>(
    alloc: Global,
    models: &'m Models,
    tint: bool,
) -> Result<DrawnModels<'m>, Memory>
    requires { AreModels models.now }
    ensures tint { IfOk result (λ drawn. drawn.tint ≡ tint) }
    ensures models { IfOk result (λ drawn. drawn.models ≡ models.now) }
    ensures tints { IfOk result (λ drawn. HaveTints tint models.now) }
{
    let mut drawn: DrawnList<&'m Model> = DrawnList::none(alloc, tint);
    for model in &models.list {
        drawn.add(alloc, model)?;
    }
    Ok(drawn)
}

/// The same of models that it owns from then on.
pub fn own_models(alloc: Global, models: Models, tint: bool) -> Result<OwnModels, Memory>
    requires { AreModels models }
    ensures tint { IfOk result (λ own. own.tint ≡ tint) }
    ensures models { IfOk result (λ own. own.models ≡ models) }
    ensures tints { IfOk result (λ own. HaveTints tint models) }
{
    let Models { list } = models;
    let mut own: DrawnList<Model> = DrawnList::none(alloc, tint);
    let mut rest = list.into_iter();
    while let Some(model) = rest.next() {
        own.add(alloc, model)?;
    }
    Ok(own)
}
