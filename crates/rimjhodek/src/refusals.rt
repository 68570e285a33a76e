// The refusal that the exports themselves give.

// A number that names no mode, exception or vector.
pub(crate) const UNKNOWN: u8 = 255;
