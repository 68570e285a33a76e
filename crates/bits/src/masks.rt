// A word's bits under a mask.
ghost use Rattle.std.specs.Prelude.{◌≡◌};
ghost use Rattle.bits.specs.Mask.{merged};

// The bits of `x` under `mask`, and those of `y` elsewhere.
pub fn merge(mask: u64, x: u64, y: u64) -> u64
    ensures { result ≡ merged mask x y }
{
    (y & !mask) | (x & mask)
}
