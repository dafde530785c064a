//! Bytes that are written where C has room for them.
ghost use Rattle.std.specs.Prelude.{◌≡◌, length};
ghost use Rattle.voxdag_c.specs.held.Calls.{WritesBytes};

use crate::held::statuses as status;

/// Puts the bytes at the front, where there is room for all of them, and says how many they are.
pub(crate) fn put_bytes(out: &mut [u8], needed: &mut usize, bytes: &[u8]) -> u32
    ensures writes { WritesBytes bytes.now out.old out.new needed.new result }
    ensures room { length out.new ≡ length out.old }
{
    *needed = bytes.len();
    if bytes.len() > out.len() {
        return status::TOO_SMALL;
    }
    let (front, _) = out.split_at_mut(bytes.len());
    front.copy_from_slice(bytes);
    status::DONE
}
