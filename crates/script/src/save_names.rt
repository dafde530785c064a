ghost use Rattle.std.specs.Prelude.{◌≡◌, true};
ghost use Rattle.script.specs.Commands.{name_bytes};
ghost use Rattle.script.specs.Placing.{is_save_name};

use crate::commands::SaveName;

impl SaveName {
    /// The name as a text.
    pub fn as_str(&self) -> &str
        requires { is_save_name self.now ≡ true }
        ensures { result.now ≡ name_bytes self.now }
    {
        let len = usize::from(self.len);
        match std::str::from_utf8(&self.bytes[..len]) {
            Ok(text) => text,
            Err(_) => unreachable!(),
        }
    }
}
