// How what the stories tell of is printed.
use frame::block::{Address, Block};
use frame::state::PortState;
use machine::states::{Mux, Periodic, Receive};
use port::record::Port;
use std::fmt;

// A value as the stories print it.
#[derive(Drop)]
pub(crate) struct Shown<T>(pub T);

// A letter for each bit that is set, and a dash for one that is clear.
impl fmt::Display for Shown<PortState> {
    fn fmt<W: fmt::Write>(&self, f: &mut fmt::Formatter<W>) -> fmt::Result {
        let s = self.0;
        let bits = [
            (s.activity, 'A'),
            (s.timeout, 'T'),
            (s.aggregation, 'G'),
            (s.synchronization, 'S'),
            (s.collecting, 'C'),
            (s.distributing, 'D'),
            (s.defaulted, 'F'),
            (s.expired, 'E'),
        ];
        for (bit, letter) in bits {
            write!(f, "{}", if bit { letter } else { '-' })?;
        }
        Ok(())
    }
}

impl fmt::Display for Shown<Block> {
    fn fmt<W: fmt::Write>(&self, f: &mut fmt::Formatter<W>) -> fmt::Result {
        let Block {
            system,
            key,
            port,
            state,
        } = self.0;
        let Address { high, middle, low } = system.address;
        write!(
            f,
            "{:04x} {high:04x}{middle:04x}{low:04x} ",
            system.priority
        )?;
        write!(
            f,
            "{key:04x} {:04x} {:04x} {}",
            port.priority,
            port.number,
            Shown(state)
        )
    }
}

// The three machines with their timers, NTT, the actor's and the partner's state.
impl fmt::Display for Shown<Port> {
    fn fmt<W: fmt::Write>(&self, f: &mut fmt::Formatter<W>) -> fmt::Result {
        let p = self.0;
        write!(
            f,
            "{:<14}{:3}  ",
            receive_name(p.phase.receive),
            p.timers.current.0
        )?;
        write!(
            f,
            "{:<14}{:3}  ",
            periodic_name(p.phase.periodic),
            p.timers.periodic.0
        )?;
        write!(f, "{:<14}{:3}  ", mux_name(p.phase.mux), p.timers.wait.0)?;
        write!(
            f,
            "{:<5}{}  {}",
            if p.ntt { "NTT" } else { "-" },
            Shown(p.actor),
            Shown(p.partner.state)
        )
    }
}

// The octets, two digits for each.
impl fmt::Display for Shown<&[u8]> {
    fn fmt<W: fmt::Write>(&self, f: &mut fmt::Formatter<W>) -> fmt::Result {
        for o in self.0 {
            write!(f, "{o:02x}")?;
        }
        Ok(())
    }
}

fn receive_name(s: Receive) -> &'static str {
    match s {
        Receive::Initialize => "INITIALIZE",
        Receive::PortDisabled => "PORT_DISABLED",
        Receive::Expired => "EXPIRED",
        Receive::LacpDisabled => "LACP_DISABLED",
        Receive::Defaulted => "DEFAULTED",
        Receive::Current => "CURRENT",
    }
}

fn periodic_name(s: Periodic) -> &'static str {
    match s {
        Periodic::NoPeriodic => "NO_PERIODIC",
        Periodic::FastPeriodic => "FAST_PERIODIC",
        Periodic::SlowPeriodic => "SLOW_PERIODIC",
        Periodic::PeriodicTx => "PERIODIC_TX",
    }
}

fn mux_name(s: Mux) -> &'static str {
    match s {
        Mux::Detached => "DETACHED",
        Mux::Waiting => "WAITING",
        Mux::Attached => "ATTACHED",
        Mux::Collecting => "COLLECTING",
        Mux::Distributing => "DISTRIBUTING",
    }
}
