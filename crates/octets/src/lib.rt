// Octets in lent slices: copying, comparing, and numbers that stand in them, high octet first.
// The loops are the kit's; what is added here is one definition for each meaning, which callers cite.
#![tactic(auto)]

ghost use Rattle.std.specs.Prelude.{◌≡◌, ◌+◌, ◌≤◌, ◌<◌, ℕ, List, length, take, drop};
ghost use Rattle.octets.specs.Octets.{put_at, fitted, same_octets, number_at, number_octets, long_at, long_octets, word_at};

pub mod sets;

// Writes src over dst's octets from index `at` on; every other octet of dst stays.
pub fn put(dst: &mut [u8], at: usize, src: &[u8])
    requires { at + length src.now ≤ length dst.old }
    ensures { dst.new ≡ put_at at src.now dst.old }
{
    dst[at..at + src.len()].copy_from_slice(src);
}

// Writes as many octets of src as fit over dst's, from the front; what is behind them stays.
#[tactic(auto, unfolding(crate::specs::Octets::fitted))]
pub fn put_fitting(dst: &mut [u8], src: &[u8])
    ensures { dst.new ≡ fitted src.now dst.old }
{
    let n = src.len().min(dst.len());
    dst[..n].copy_from_slice(&src[..n]);
}

// Whether a and b hold the same octets.
#[tactic(auto, using(crate::proofs::CopyLaws::pointwise_octets))]
pub fn same(a: &[u8], b: &[u8]) -> bool
    ensures { result ≡ same_octets a.now b.now }
{
    a == b
}

// The N octets from index `at` on, as a part of s itself.
pub fn chunk<const N: usize>(s: &[u8], at: usize) -> &[u8; N]
    requires { at + N ≤ length s.now }
    ensures { result.now ≡ take N (drop at s.now) }
{
    s[at..at + N].first_chunk().unwrap()
}

// A value that stands in octets, every number high octet first.
pub trait InOctets: Sized {
    // How many octets it takes.
    ghost width: { ℕ };
    // The value at an index of a list.
    ghost value_at: { List ℕ → ℕ → Self };
    // The octets of a value.
    ghost octets_of: { Self → List ℕ };

    // The value at index `at`.
    fn read(s: &[u8], at: usize) -> Self
        requires { at + width ≤ length s.now }
        ensures { result ≡ value_at s.now at };

    // Writes the value at index `at`.
    fn write(self, out: &mut [u8], at: usize)
        requires { at + width ≤ length out.old }
        ensures { out.new ≡ put_at at (octets_of self) out.old };
}

impl InOctets for u16 {
    ghost width = { 2 };

    ghost value_at = { number_at };

    ghost octets_of = { number_octets };

    fn read(s: &[u8], at: usize) -> u16 {
        u16::from_be_bytes(*chunk(s, at))
    }

    fn write(self, out: &mut [u8], at: usize) {
        put(out, at, &u16::to_be_bytes(self));
    }
}

impl InOctets for u32 {
    ghost width = { 4 };

    ghost value_at = { long_at };

    ghost octets_of = { long_octets };

    fn read(s: &[u8], at: usize) -> u32 {
        u32::from_be_bytes(*chunk(s, at))
    }

    fn write(self, out: &mut [u8], at: usize) {
        put(out, at, &u32::to_be_bytes(self));
    }
}

// The number at index `at`.
pub fn number<N: InOctets>(s: &[u8], at: usize) -> N
    requires { at + N.width ≤ length s.now }
    ensures { result ≡ N.value_at s.now at }
{
    N::read(s, at)
}

// The four octets from index `at` on as one number, the first of them the lowest, to be tested at once.
#[tactic(auto, unfolding(crate::specs::Octets::word))]
pub fn word(s: &[u8], at: usize) -> u64
    requires { at + 4 ≤ length s.now }
    ensures { result ≡ word_at s.now at }
{
    u64::from(u32::from_le_bytes(*chunk(s, at)))
}

// Writes a number at index `at`.
pub fn put_number<N: InOctets>(dst: &mut [u8], at: usize, n: N)
    requires { at + N.width ≤ length dst.old }
    ensures { dst.new ≡ put_at at (N.octets_of n) dst.old }
{
    n.write(dst, at);
}
