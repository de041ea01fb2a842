// The story of one port that is alone on aggregator 1, printed so that a person can read it against the figures of Clause 43:
// start, link up, silence, a partner's frame, long silence, half duplex.
use crate::OWN_ADDRESS;
use crate::shown::Shown;
use frame::block::{Address, Block, PortId, SystemId};
use frame::state::PortState;
use machine::states::{Line, Selection};
use port::record::Port;
use settings::Settings;
use std::io::{self, Write};

// One line: what happened, and the port after it.
fn tell(w: &mut impl Write, event: &str, p: Port) -> io::Result<()> {
    writeln!(w, "{event:<24}{}", Shown(p))
}

// Periodic machine and steps 3 to 6 for a port that shares its aggregator with no other.
fn settle(p: Port) -> Port {
    let q = p.periodic();
    match q.phase.selected {
        Selection::Unselected => last_steps(q.detach().place(1)),
        Selection::Selected => last_steps(q),
    }
}

fn last_steps(p: Port) -> Port {
    p.attach(p.timers.wait.0 == 0).mux().clear_ntt()
}

fn ticks(mut p: Port, n: u32) -> Port {
    for _ in 0..n {
        p = settle(p.tick().receive());
    }
    p
}

fn line(p: Port, up: bool, full: bool) -> Port {
    settle(p.set_line(Line { up, full }))
}

pub(crate) fn system(n: u16) -> SystemId {
    SystemId {
        priority: 1,
        address: Address {
            low: n,
            ..Address::default()
        },
    }
}

// Port 1 of a system, key 1.
fn block(n: u16, o: u8) -> Block {
    Block {
        system: system(n),
        key: 1,
        port: PortId {
            priority: 1,
            number: 1,
        },
        state: PortState::from(o),
    }
}

// A default partner block of zeros, but for the state.
pub(crate) fn nobody(o: u8) -> Block {
    Block {
        state: PortState::from(o),
        ..Block::default()
    }
}

// Active, long timeout, aggregatable; the default partner block is all zeros.
fn settings() -> Settings {
    Settings {
        address: OWN_ADDRESS,
        key: 1,
        priority: 1,
        activity: true,
        timeout: false,
        aggregation: true,
        default: nobody(0),
    }
}

// An LACPDU of system 5, active, in sync, collecting and distributing, that says of us (system 9) just what we say.
fn hear(p: Port) -> Port {
    let us = p.actor_block(system(9), 1);
    let mut actor = [0u8; 15];
    block(5, 0x3d).write(&mut actor);
    settle(p.receive_lacpdu(us, &actor, us))
}

pub fn print_story(w: &mut impl Write) -> io::Result<()> {
    writeln!(
        w,
        "one port, active, long timeout, aggregatable, default partner block all zeros"
    )?;
    let p = settle(settings().start());
    tell(w, "start", p)?;
    let p = line(p, true, true);
    tell(w, "link up", p)?;
    let p = p.sent();
    tell(w, "an LACPDU is fetched", p)?;
    let p = ticks(p, 10);
    tell(w, "10 ticks", p)?;
    let p = ticks(p.sent(), 10);
    tell(w, "fetched, 10 ticks", p)?;
    let p = ticks(p.sent(), 10);
    tell(w, "fetched, 10 ticks", p)?;
    let p = hear(p.sent());
    tell(w, "fetched, partner heard", p)?;
    let p = ticks(p, 20);
    tell(w, "20 ticks", p)?;
    let p = ticks(p.sent(), 879);
    tell(w, "fetched, 879 ticks", p)?;
    let p = ticks(p, 1);
    tell(w, "1 tick", p)?;
    let p = ticks(p, 30);
    tell(w, "30 ticks", p)?;
    let p = line(p, true, false);
    tell(w, "half duplex", p)?;
    let p = line(p, true, true);
    tell(w, "full duplex", p)
}
