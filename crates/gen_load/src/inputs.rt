use std::marker::Model;
use vw_cell::Side;

/// What a run is given: a world's side, a VOX file, and a script for each session.
#[derive(Drop)]
pub struct Load {
    pub side: Side,
    pub vox: Vec<u8>,
    pub scripts: Vec<Vec<u8>>,
}

impl Model for Load {
    ghost use Rattle.std.specs.Prelude.{map};
    ghost use Rattle.gen_load.specs.Loads.{Given};

    ghost Value = { Given };

    ghost view = { λ l. record
        { side = l.side; vox = l.vox.items; scripts = map (λ s. s.items) l.scripts.items } };
}
