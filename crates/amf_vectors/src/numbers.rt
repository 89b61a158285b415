ghost use Rattle.std.specs.Prelude.{◌≡◌, ◌<◌, ◌^◌, ◌%◌, ◌*◌, ◌+◌};

/// The first number of a generator.
pub(crate) fn first(seed: u32) -> u32
    ensures { result ≡ seed % 2 ^ 31 }
{
    seed % (1 << 31)
}

/// The number behind this one (a linear congruential generator of 31 bits).
pub(crate) fn next(number: u32) -> u32
    ensures { result ≡ (1103515245 * number + 12345) % 2 ^ 31 }
{
    ((1_103_515_245 * u64::from(number) + 12_345) % (1 << 31)) as u32
}
