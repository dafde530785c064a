ghost use Rattle.std.specs.Prelude.{◌≡◌, IfOk};
ghost use Rattle.std.specs.List.{slice_get};
ghost use Rattle.vox_read.specs.Contents.{Content, IsModel};
ghost use Rattle.act_rebuilds.specs.Drawn.{size_of};
ghost use Rattle.colour.specs.Planes.{TintsPlaces};

use colour::TintStencil;
use edit_stamp::Stencil;
use std::alloc::Global;
use vox_read::Model;
use vw_cell::{Cell, Memory};

/// A model that is owned or lent.
pub trait Lends {
    ghost lent: { Self → Content };

    /// The model.
    fn lend(&self) -> &Model
        ensures { result.now ≡ lent self.now };
}

impl Lends for Model {
    ghost lent = { λ m. m };

    fn lend(&self) -> &Model {
        self
    }
}

impl<'m> Lends for &'m Model {
    ghost lent = { λ m. m.now };

    fn lend(&self) -> &Model {
        *self
    }
}

/// A model with its cells as a stencil, drawn once for all of its stamps. Contracts see the model.
#[derive(Drop)]
pub(crate) struct DrawnModel<B: Lends + Drop> {
    // Whose cells they are: what a stamp means.
    from: B,
    pub(crate) stencil: Stencil,
}

impl<B: Lends + Drop> std::marker::Model for DrawnModel<B> {
    ghost use Rattle.vox_read.specs.Contents.{Content};
    ghost use Rattle.edit_stamp.specs.Drawings.{Draws};

    ghost Value = { Content };

    ghost view = { λ s. B.lent s.from };

    ghost invariant = { λ s. Draws (B.lent s.from) s.stencil };
}

impl<B: Lends + Drop> DrawnModel<B> {
    pub(crate) fn new(alloc: Global, from: B) -> Result<DrawnModel<B>, Memory>
        requires { IsModel (B.lent from) }
        ensures { IfOk result (λ s. s ≡ B.lent from) }
    {
        let stencil = Stencil::new(alloc, from.lend())?;
        Ok(DrawnModel { from, stencil })
    }

    fn size(&self) -> Cell
        ensures { result ≡ self.now.size }
    {
        let model = self.from.lend();
        model.size
    }
}

/// A model with its tints as stencils, drawn once for all of its stamps. Contracts see the model.
#[derive(Drop)]
pub(crate) struct TintedModel<B: Lends + Drop> {
    // Whose tints they are: what a stamp means.
    from: B,
    pub(crate) stencil: TintStencil,
}

impl<B: Lends + Drop> std::marker::Model for TintedModel<B> {
    ghost use Rattle.vox_read.specs.Contents.{Content};
    ghost use Rattle.colour.specs.Inks.{DrawsTints};

    ghost Value = { Content };

    ghost view = { λ s. B.lent s.from };

    ghost invariant = { λ s. DrawsTints (B.lent s.from) s.stencil };
}

impl<B: Lends + Drop> TintedModel<B> {
    pub(crate) fn new(alloc: Global, from: B) -> Result<TintedModel<B>, Memory>
        requires { IsModel (B.lent from) }
        ensures model { IfOk result (λ s. s ≡ B.lent from) }
        ensures tints { IfOk result (λ s. TintsPlaces (B.lent from)) }
    {
        let stencil = TintStencil::new(alloc, from.lend())?;
        Ok(TintedModel { from, stencil })
    }

    fn size(&self) -> Cell
        ensures { result ≡ self.now.size }
    {
        let model = self.from.lend();
        model.size
    }
}

pub(crate) fn size_in<B: Lends + Drop>(list: &[DrawnModel<B>], number: usize) -> Option<Cell>
    ensures { result ≡ size_of (slice_get list.now number) }
{
    match list.get(number) {
        Some(model) => Some(model.size()),
        None => None,
    }
}

pub(crate) fn tinted_size<B: Lends + Drop>(list: &[TintedModel<B>], number: usize) -> Option<Cell>
    ensures { result ≡ size_of (slice_get list.now number) }
{
    match list.get(number) {
        Some(model) => Some(model.size()),
        None => None,
    }
}
