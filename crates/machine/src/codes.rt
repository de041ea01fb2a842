// The number that stands for each state in a record's octets. A number that stands for none is read as the first state.
ghost use Rattle.std.specs.Prelude.{◌≡◌};
ghost use Rattle.machine.specs.Codes.{receive_code, receive_of, periodic_code, periodic_of, mux_code, mux_of, selected_code, selected_of};

use crate::states::{Mux, Periodic, Receive, Selection};

impl From<Receive> for u8 {
    ghost from_gives = { λ state n. n ≡ receive_code state };

    fn from(state: Receive) -> u8 {
        state as u8
    }
}

impl From<u8> for Receive {
    ghost from_gives = { λ n state. state ≡ receive_of n };

    fn from(n: u8) -> Receive {
        match n {
            1 => Receive::PortDisabled,
            2 => Receive::Expired,
            3 => Receive::LacpDisabled,
            4 => Receive::Defaulted,
            5 => Receive::Current,
            _ => Receive::Initialize,
        }
    }
}

impl From<Periodic> for u8 {
    ghost from_gives = { λ state n. n ≡ periodic_code state };

    fn from(state: Periodic) -> u8 {
        state as u8
    }
}

impl From<u8> for Periodic {
    ghost from_gives = { λ n state. state ≡ periodic_of n };

    fn from(n: u8) -> Periodic {
        match n {
            1 => Periodic::FastPeriodic,
            2 => Periodic::SlowPeriodic,
            3 => Periodic::PeriodicTx,
            _ => Periodic::NoPeriodic,
        }
    }
}

impl From<Mux> for u8 {
    ghost from_gives = { λ state n. n ≡ mux_code state };

    fn from(state: Mux) -> u8 {
        state as u8
    }
}

impl From<u8> for Mux {
    ghost from_gives = { λ n state. state ≡ mux_of n };

    fn from(n: u8) -> Mux {
        match n {
            1 => Mux::Waiting,
            2 => Mux::Attached,
            3 => Mux::Collecting,
            4 => Mux::Distributing,
            _ => Mux::Detached,
        }
    }
}

impl From<Selection> for u8 {
    ghost from_gives = { λ selected n. n ≡ selected_code selected };

    fn from(selected: Selection) -> u8 {
        selected as u8
    }
}

impl From<u8> for Selection {
    ghost from_gives = { λ n selected. selected ≡ selected_of n };

    fn from(n: u8) -> Selection {
        match n {
            1 => Selection::Selected,
            _ => Selection::Unselected,
        }
    }
}
