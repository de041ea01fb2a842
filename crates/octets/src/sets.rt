// Sets of numbers below 32, as 32-bit numbers: bit 0 is number 0.
// Kept: functions of a u32, since reports and C hold sets as one; a type around it adds `.0` to each clause with `member`.
ghost use Rattle.std.specs.Prelude.{◌≡◌, false, ◌&&◌, ◌||◌, ℕ, ◌≤◌, ◌<◌, eqb};
ghost use Rattle.octets.specs.Sets.{member, end_of};

// Whether number i is in the set.
#[tactic(auto, unfolding(crate::specs::Sets::member))]
pub fn has(set: u32, i: usize) -> bool
    requires { i < 32 }
    ensures { result ≡ member set i }
{
    (set >> i) % 2 == 1
}

// The least number above all of the set, 0 for none.
#[tactic(auto, using(crate::proofs::SetLaws::beyond_end), unfolding(crate::specs::Sets::end_of))]
pub fn end(set: u32) -> usize
    ensures { (result ≡ end_of set) × ((m : ℕ) → result ≤ m → member set m ≡ false) }
{
    (32 - u32::leading_zeros(set)) as usize
}

// The set with number i too.
#[tactic(auto, using(crate::proofs::SetLaws::with_member))]
pub fn with(set: u32, i: usize) -> u32
    requires { i < 32 }
    ensures { (m : ℕ) → member result m ≡ (eqb m i || member set m) }
{
    set | (1u32 << i)
}

// The set with number i too, where it is to be in.
pub fn with_if(set: u32, i: usize, is_in: bool) -> u32
    requires { i < 32 }
    ensures { (m : ℕ) → member result m ≡ ((is_in && eqb m i) || member set m) }
{
    if is_in { with(set, i) } else { set }
}

// The numbers of both sets.
pub fn all_of(a: u32, b: u32) -> u32
    ensures { (m : ℕ) → member result m ≡ (member a m || member b m) }
{
    a | b
}
