// What commands read.

/// The most bytes that a VOX file or a file of many versions may have: 256 MiB.
pub const VOX_LIMIT: u64 = 268_435_456;

/// The most bytes that a script may have: 8 MiB.
pub const SCRIPT_LIMIT: u64 = 8_388_608;
