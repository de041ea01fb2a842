// The octets of a port's group.
ghost use Rattle.std.specs.Prelude.{◌≡◌, true, ◌%◌};
ghost use Rattle.octets.specs.Octets.{word_at};
ghost use Rattle.asks.specs.Ask.{ask_fallen};
ghost use Rattle.asks.specs.Group.{outcome_code, outcome_of, group_octets, group_of, group_in_range};

use crate::ask::{Ask, Outcome};
use machine::states::Ticks;

// The octets of a group.
pub const GROUP: usize = 7;

// The longest time to wait, in ticks.
pub const LONGEST_WAIT: u16 = 600;

impl From<Outcome> for u8 {
    ghost from_gives = { λ o n. n ≡ outcome_code o };

    fn from(o: Outcome) -> u8 {
        o as u8
    }
}

impl From<u8> for Outcome {
    ghost from_gives = { λ n o. o ≡ outcome_of n };

    fn from(n: u8) -> Outcome {
        match n {
            1 => Outcome::Awaiting,
            2 => Outcome::Answered,
            3 => Outcome::TimedOut,
            4 => Outcome::Cancelled,
            _ => Outcome::Nothing,
        }
    }
}

// What a group's octets tell of.
impl From<&[u8; GROUP]> for Ask {
    ghost from_gives = { λ s a. a ≡ group_of s.now };

    #[tactic(auto, unfolding(crate::specs::Group::group_of))]
    fn from(s: &[u8; GROUP]) -> Ask {
        Ask {
            outcome: Outcome::from(s[0]),
            timer: Ticks(octets::number(s, 1)),
            number: octets::number(s, 3),
        }
    }
}

// The octets of a group.
impl From<Ask> for [u8; GROUP] {
    ghost from_gives = { λ a s. s ≡ group_octets a };

    #[tactic(auto, unfolding(crate::specs::Group::group_octets))]
    fn from(a: Ask) -> [u8; GROUP] {
        let [t0, t1] = a.timer.0.to_be_bytes();
        let [n0, n1, n2, n3] = a.number.to_be_bytes();
        [u8::from(a.outcome), t0, t1, n0, n1, n2, n3]
    }
}

// Outcome and timer as one number, to be tested at once: at most 4 where the timer is 0.
fn first_octets(s: &[u8; GROUP]) -> u64
    ensures { result ≡ word_at s.now 0 % 16777216 }
{
    octets::word(s, 0) % 16777216
}

// Whether a group's octets are in range. One look tells of a port that has nothing to tell of.
#[tactic(auto, unfolding(crate::specs::Group::group_in_range))]
pub fn is_group(s: &[u8; GROUP]) -> bool
    ensures { result ≡ group_in_range s.now }
{
    first_octets(s) == 0 || s[0] <= 4 && octets::number::<u16>(s, 1) <= LONGEST_WAIT
}

// Whether a tick leaves the group as it is, by one look: its timer is 0, and it is not awaited. (Another is left as it is by what it tells of.)
pub fn is_idle(s: &[u8; GROUP]) -> bool
    ensures { result ≡ true → group_octets (ask_fallen (group_of s.now)) ≡ s.now }
{
    let w = first_octets(s);
    w <= 4 && w != 1
}
