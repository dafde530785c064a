//! Scripts, one after the other.
ghost use Rattle.std.specs.Prelude.{◌≡◌, ◌≤◌, ◌<◌, Ok, length, map, IfOk, IfErr, OnOk};
ghost use Rattle.vox_read.specs.Contents.{AreModels};
ghost use Rattle.history_model.specs.Logs.{store_exponent};
ghost use Rattle.commands.specs.Refusals.{RefusesScripts};
ghost use Rattle.script.specs.Scripts.{commands_of};
ghost use Rattle.commands.specs.Scripts.{scripts_of, in_script, AreFitScripts, ReadsScript};

use crate::refusals::{NumberedFault, TextRefused};
use script::{Script, read_script};
use std::alloc::Global;
use std::convert::AsSlice;
use vox_read::Models;
use vw_cell::Side;

/// The commands of all scripts, or the first fault of the first that has one.
pub fn read_scripts<T: AsSlice<u8>>(
    alloc: Global,
    texts: &[T],
    side: Side,
    models: &Models,
    tint: bool,
) -> Result<Vec<Script>, TextRefused>
    requires models { AreModels models.now }
    requires few { length texts.now ≤ 64 }
    ensures read { IfOk result
        (λ scripts. scripts_of tint side models.now (map T.items texts.now) ≡ Ok scripts.items) }
    ensures refused { IfErr result (λ refused.
        RefusesScripts refused (scripts_of tint side models.now (map T.items texts.now))) }
    ensures number { IfOk result (λ scripts. length scripts.items ≡ length texts.now) }
    ensures fit { IfOk result
        (λ scripts. AreFitScripts tint (store_exponent tint side) models.now scripts.items) }
{
    let mut scripts = Vec::new(alloc);
    for text in texts {
        read_next(alloc, text.as_slice(), side, models, tint, &mut scripts)?;
    }
    Ok(scripts)
}

// Reads one more script, whose number is that of the scripts before it.
#[tactic(auto, using(crate::proofs::Refusing::script_refused))]
fn read_next(
    alloc: Global,
    text: &[u8],
    side: Side,
    models: &Models,
    tint: bool,
    scripts: &mut Vec<Script>,
) -> Result<(), TextRefused>
    requires models { AreModels models.now }
    requires few { length scripts.old.items < 64 }
    ensures read { OnOk result (ReadsScript tint side models.now text.now
        scripts.old.items scripts.new.items) }
    ensures refused { IfErr result (λ refused. RefusesScripts refused (in_script
        (length scripts.old.items) (commands_of tint side models.now text.now))) }
{
    let number = scripts.len() as u16;
    let script = match read_script(alloc, text, side, models, tint) {
        Ok(script) => script,
        Err(fault) => {
            return Err(TextRefused::from(NumberedFault {
                script: number,
                fault,
            }));
        }
    };
    match scripts.push(script) {
        Ok(()) => Ok(()),
        Err(_) => Err(TextRefused::Memory),
    }
}
