// Numbers mixed under a multiplier, for the buckets in which records and pairs are looked up.
ghost use Rattle.std.specs.Prelude.{◌≡◌, ◌<◌};
ghost use Rattle.running.specs.Inner.Chains.{mixed};

// One number more.
pub(crate) fn mix(by: usize, h: usize, x: usize) -> usize
    requires { (by < 2147483648) × (h < 4294967296) × (x < 4294967296) }
    ensures { (result ≡ mixed by h x) × (result < 4294967296) }
{
    (h + x) * by % 4294967296
}
