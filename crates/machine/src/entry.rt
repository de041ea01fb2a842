// The actions on entry to a state of the Mux machine (figure 43-13).
ghost use Rattle.std.specs.Prelude.{◌≡◌};
ghost use Rattle.machine.specs.Mux.{mux_bits, sets_ntt, wait_time};

use crate::states::{Mux, Ticks};
use frame::state::PortState;

pub const AGGREGATE_WAIT_TIME: Ticks = Ticks(20);

impl Mux {
    // The actor's bits on entry to a state.
    pub fn bits(self, old: PortState) -> PortState
        ensures { result ≡ mux_bits self old }
    {
        match self {
            Mux::Detached => PortState {
                synchronization: false,
                collecting: false,
                distributing: false,
                ..old
            },
            Mux::Waiting => old,
            Mux::Attached => PortState {
                synchronization: true,
                collecting: false,
                ..old
            },
            Mux::Collecting => PortState {
                collecting: true,
                distributing: false,
                ..old
            },
            Mux::Distributing => PortState {
                distributing: true,
                ..old
            },
        }
    }

    // Whether entry to a state sets NTT.
    pub fn sets_ntt(self) -> bool
        ensures { result ≡ sets_ntt self }
    {
        matches!(self, Mux::Detached | Mux::Attached | Mux::Collecting)
    }

    // What the wait timer is started with; 0 stops it.
    pub fn wait_time(self) -> Ticks
        ensures { result ≡ wait_time self }
    {
        match self {
            Mux::Waiting => AGGREGATE_WAIT_TIME,
            _ => Ticks(0),
        }
    }
}
