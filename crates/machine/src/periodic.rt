// The transitions of the Periodic Transmission machine (figure 43-11).
ghost use Rattle.std.specs.Prelude.{◌≡◌};
ghost use Rattle.machine.specs.Periodic.{periodic_next, periodic_rests, periodic_time, is_tx};

use crate::states::{Periodic, Ticks};

pub const FAST_PERIODIC_TIME: Ticks = Ticks(10);

pub const SLOW_PERIODIC_TIME: Ticks = Ticks(300);

// Which transition applies, if any: NO_PERIODIC from anywhere, then a timer that ran out, then the partner's Timeout.
pub fn next(state: Periodic, quiet: bool, out: bool, short: bool) -> Option<Periodic>
    ensures { result ≡ periodic_next state quiet out short }
{
    match (state, quiet, out, short) {
        (_, true, _, _) => Some(Periodic::NoPeriodic),
        (Periodic::NoPeriodic, false, _, _) => Some(Periodic::FastPeriodic),
        (Periodic::FastPeriodic, false, true, _) => Some(Periodic::PeriodicTx),
        (Periodic::FastPeriodic, false, false, true) => None,
        (Periodic::FastPeriodic, false, false, false) => Some(Periodic::SlowPeriodic),
        (Periodic::SlowPeriodic, false, true, _) => Some(Periodic::PeriodicTx),
        (Periodic::SlowPeriodic, false, false, true) => Some(Periodic::PeriodicTx),
        (Periodic::SlowPeriodic, false, false, false) => None,
        (Periodic::PeriodicTx, false, _, true) => Some(Periodic::FastPeriodic),
        (Periodic::PeriodicTx, false, _, false) => Some(Periodic::SlowPeriodic),
    }
}

// Whether everything stays as it is: no transition applies, or just that to NO_PERIODIC, in it and with its timer stopped.
pub fn rests(state: Periodic, quiet: bool, out: bool, short: bool) -> bool
    ensures { result ≡ periodic_rests state quiet out short }
{
    match state {
        Periodic::NoPeriodic => quiet & out,
        Periodic::FastPeriodic => !quiet & (!out & short),
        Periodic::SlowPeriodic => !quiet & (!out & !short),
        Periodic::PeriodicTx => false,
    }
}

// What the periodic timer is started with; 0 stops it.
pub fn time(state: Periodic) -> Ticks
    ensures { result ≡ periodic_time state }
{
    match state {
        Periodic::FastPeriodic => FAST_PERIODIC_TIME,
        Periodic::SlowPeriodic => SLOW_PERIODIC_TIME,
        Periodic::NoPeriodic | Periodic::PeriodicTx => Ticks(0),
    }
}

// PERIODIC_TX sets NTT.
pub fn sets_ntt(state: Periodic) -> bool
    ensures { result ≡ is_tx state }
{
    state == Periodic::PeriodicTx
}
