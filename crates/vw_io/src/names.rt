ghost use Rattle.std.specs.Prelude.{◌≡◌, map};
ghost use Rattle.std.specs.List.{list_any};
ghost use Rattle.std.specs.Str.{bytes_eq};
ghost use Rattle.vw_io.specs.Names.{collide};

use crate::inputs::Input;

/// Whether one of these names of outputs is an input's, or a later output's.
pub fn collide(names: &[&str], inputs: &[Input<'_>]) -> bool
    ensures { result ≡ collide (map (λ name. name.now) names.now) inputs.now }
{
    match names {
        [] => false,
        [name, others @ ..] => {
            is_input(name, inputs) || is_among(name, others) || collide(others, inputs)
        }
    }
}

// Whether an input has this name.
fn is_input(name: &str, inputs: &[Input<'_>]) -> bool
    ensures { result ≡ list_any (λ input. bytes_eq input.name name.now) inputs.now }
{
    inputs.iter().any(|input| input.name == name)
}

// Whether this name is one of these.
fn is_among(name: &str, names: &[&str]) -> bool
    ensures { result ≡ list_any (λ other. bytes_eq other name.now)
        (map (λ other. other.now) names.now) }
{
    match names {
        [] => false,
        [other, others @ ..] => *other == name || is_among(name, others),
    }
}
