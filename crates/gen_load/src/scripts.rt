ghost use Rattle.std.specs.Prelude.{◌≡◌, ◌≤◌, ◌++◌, IfOk, OnOk, string_bytes};
ghost use Rattle.std.specs.List.{flat_map};
ghost use Rattle.gen_load.specs.Loads.{line_state, edits_from, edit_line, region_line, script_from};

use crate::edits::next_edit;
use crate::generator::Generator;
use history_model::Act;
use std::alloc::{AllocError, Global};
use vw_cell::Memory;

/// How many edits a script has.
const EDITS: u16 = 200;

/// The next script: the edits of the region whose least x this is, and the line that counts it.
pub(crate) fn next_script(alloc: Global, numbers: &mut Generator, x: u16) -> Result<Vec<u8>, Memory>
    requires { x ≤ 192 }
    ensures text { IfOk result (λ text. text.items ≡ script_from numbers.old x) }
    ensures state { OnOk result (numbers.new ≡ line_state numbers.old 200) }
{
    let mut text = String::new(alloc);
    put_edits(numbers, x, EDITS, &mut text)?;
    write!(text, "count {x} 0 0 64 256 256\n")?;
    Ok(text.into_bytes())
}

// The lines of the next so many edits.
fn put_edits(
    numbers: &mut Generator,
    x: u16,
    count: u16,
    text: &mut String,
) -> Result<(), AllocError>
    requires { x ≤ 192 }
    ensures text { OnOk result (string_bytes text.new
        ≡ string_bytes text.old ++ flat_map edit_line (edits_from numbers.old x count)) }
    ensures state { OnOk result (numbers.new ≡ line_state numbers.old count) }
{
    for _ in 0..count {
        put_edit(next_edit(numbers, x), text)?;
    }
    Ok(())
}

fn put_edit(act: Act, text: &mut String) -> Result<(), AllocError>
    ensures { OnOk result (string_bytes text.new ≡ string_bytes text.old ++ edit_line act) }
{
    write!(text, "{act}\n")
}
