// The transitions of the Receive machine (figure 43-10) but for those with an LACPDU.
ghost use Rattle.std.specs.Prelude.{◌≡◌};
ghost use Rattle.machine.specs.Receive.{receive_next};
ghost use Rattle.machine.specs.Time.{timeout_time};

use crate::states::{Receive, Ticks};

pub const SHORT_TIMEOUT_TIME: Ticks = Ticks(30);

pub const LONG_TIMEOUT_TIME: Ticks = Ticks(900);

// Which transition applies without an LACPDU, if any.
pub fn next(state: Receive, up: bool, full: bool, out: bool) -> Option<Receive>
    ensures { result ≡ receive_next state up full out }
{
    match (state, up, full, out) {
        (Receive::Initialize, _, _, _) => Some(Receive::PortDisabled),
        (Receive::PortDisabled, false, _, _) => None,
        (Receive::PortDisabled, true, true, _) => Some(Receive::Expired),
        (Receive::PortDisabled, true, false, _) => Some(Receive::LacpDisabled),
        (Receive::Expired, false, _, _) => Some(Receive::PortDisabled),
        (Receive::Expired, true, _, true) => Some(Receive::Defaulted),
        (Receive::Expired, true, _, false) => None,
        (Receive::LacpDisabled, false, _, _) => Some(Receive::PortDisabled),
        (Receive::LacpDisabled, true, _, _) => None,
        (Receive::Defaulted, false, _, _) => Some(Receive::PortDisabled),
        (Receive::Defaulted, true, _, _) => None,
        (Receive::Current, false, _, _) => Some(Receive::PortDisabled),
        (Receive::Current, true, _, true) => Some(Receive::Expired),
        (Receive::Current, true, _, false) => None,
    }
}

// The time of the current-while timer, by a Timeout bit.
pub fn timeout_time(short: bool) -> Ticks
    ensures { result ≡ timeout_time short }
{
    if short {
        SHORT_TIMEOUT_TIME
    } else {
        LONG_TIMEOUT_TIME
    }
}
