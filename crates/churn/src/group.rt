// The octets of a port's two monitors.
ghost use Rattle.std.specs.Prelude.{◌≡◌, ◌≤◌};
ghost use Rattle.churn.specs.Group.{churn_code, churn_of, group_octets, group_of, group_in_range};
ghost use Rattle.churn.specs.Rest.{stay_code, is_still, is_fresh};

use crate::watch::{CHURN_DETECTION_TIME, Churn, Monitors, Watch};
use machine::states::Ticks;

// The octets of a group.
pub const GROUP: usize = 14;
// Octets 0 to 3, and 2 to 5, of two machines in MONITOR with all of Churn_Detection_Time ahead, the first of four octets the lowest.
const FRESH: u64 = 0x58020101;

const FRESH_TIMERS: u64 = 0x58025802;

impl From<Churn> for u8 {
    ghost from_gives = { λ s n. n ≡ churn_code s };

    fn from(s: Churn) -> u8 {
        s as u8
    }
}

impl From<u8> for Churn {
    ghost from_gives = { λ n s. s ≡ churn_of n };

    fn from(n: u8) -> Churn {
        match n {
            1 => Churn::Monitor,
            2 => Churn::Churn,
            _ => Churn::NoChurn,
        }
    }
}

// The monitors that a group's octets tell of.
impl From<&[u8; GROUP]> for Monitors {
    ghost from_gives = { λ s m. m ≡ group_of s.now };

    #[tactic(auto, unfolding(crate::specs::Group::group_of))]
    fn from(s: &[u8; GROUP]) -> Monitors {
        Monitors {
            actor: Watch {
                state: Churn::from(s[0]),
                timer: Ticks(octets::number(s, 2)),
                count: octets::number(s, 6),
            },
            partner: Watch {
                state: Churn::from(s[1]),
                timer: Ticks(octets::number(s, 4)),
                count: octets::number(s, 10),
            },
        }
    }
}

// The octets of a group.
impl From<Monitors> for [u8; GROUP] {
    ghost from_gives = { λ m s. s ≡ group_octets m };

    #[tactic(auto, unfolding(crate::specs::Group::group_octets, octets::specs::Octets::put_at))]
    fn from(m: Monitors) -> [u8; GROUP] {
        let mut s = [
            u8::from(m.actor.state),
            u8::from(m.partner.state),
            0,
            0,
            0,
            0,
            0,
            0,
            0,
            0,
            0,
            0,
            0,
            0,
        ];
        octets::put_number(&mut s, 2, m.actor.timer.0);
        octets::put_number(&mut s, 4, m.partner.timer.0);
        octets::put_number(&mut s, 6, m.actor.count);
        octets::put_number(&mut s, 10, m.partner.count);
        s
    }
}

// The number of the state in which a machine stays while the link is up, by Synchronization.
fn stay_code(sync: bool) -> u64
    ensures { (result ≡ stay_code sync) × (result ≤ 2) }
{
    if sync { 0 } else { 2 }
}

// Whether both machines stay there, by the two Synchronizations, and no timer runs.
#[tactic(auto, unfolding(crate::specs::Rest::is_still))]
pub(crate) fn is_still(ours: bool, theirs: bool, s: &[u8; GROUP]) -> bool
    ensures { result ≡ is_still ours theirs s.now }
{
    octets::word(s, 0) == stay_code(ours) + stay_code(theirs) * 256 && octets::word(s, 2) == 0
}

// Whether both machines are in MONITOR with all of their time ahead.
#[tactic(auto, unfolding(crate::specs::Rest::is_fresh))]
pub(crate) fn is_fresh(s: &[u8; GROUP]) -> bool
    ensures { result ≡ is_fresh s.now }
{
    octets::word(s, 0) == FRESH && octets::word(s, 2) == FRESH_TIMERS
}

// Whether states and timers are in range, one by one.
#[tactic(auto, unfolding(crate::specs::Group::group_in_range))]
fn has_ranges(s: &[u8; GROUP]) -> bool
    ensures { result ≡ group_in_range s.now }
{
    s[0] <= 2
        && s[1] <= 2
        && octets::number::<u16>(s, 2) <= CHURN_DETECTION_TIME
        && octets::number::<u16>(s, 4) <= CHURN_DETECTION_TIME
}

// Whether a group's octets are in range; in most, states and timers are 0.
pub fn is_group(s: &[u8; GROUP]) -> bool
    ensures { result ≡ group_in_range s.now }
{
    is_still(true, true, s) || has_ranges(s)
}
