// Counts of 32 bits.
ghost use Rattle.std.specs.Prelude.{◌≡◌};
ghost use Rattle.machine.specs.Count.{counted};

// One more, in 32 bits.
pub fn one_more(n: u32) -> u32
    ensures { result ≡ counted n }
{
    n.wrapping_add(1)
}
