// What every port does in turn, the first port first.
ghost use Rattle.std.specs.Prelude.{◌≡◌, ◌<◌, true, map, ℕ};
ghost use Rattle.octets.specs.Lists.{map_from};
ghost use Rattle.port.specs.Mux.{mux_run};
ghost use Rattle.port.specs.Receive.{receive_run, rests_receive};
ghost use Rattle.port.specs.Periodic.{periodic_run, rests_periodic};
ghost use Rattle.port.specs.Transmit.{ticked, advanced, is_settled};
ghost use Rattle.table.specs.Record.{decoded};
ghost use Rattle.table.specs.Table.{count_in, port_at};
ghost use Rattle.trunk.specs.Settled.{muxed};
ghost use Rattle.trunk.specs.Displaced.{displaced};
ghost use Rattle.table.specs.Lent.{Has, Stepped, Swept};

use crate::displace::displace_one;
use frame::block::Block;
use port::record::Port;
use table::layout::RECORD;
use table::lent::{Table, TableMut};
use table::record::{actor_in, line_in, ntt_in, partner_in, phase_in, timers_in};

// ---- whether a step leaves a record as it is, from the few of its octets that the step looks at

// The receive machine stays.
#[tactic(auto, unfolding(port::specs::Receive::rests_receive, port::specs::Receive::receive_choice, table::specs::Record::decoded))]
fn rests_receive(s: &[u8; RECORD]) -> bool
    ensures { result ≡ rests_receive (decoded s.now) }
{
    let line = line_in(s);
    let out = timers_in(s).current.0 == 0;
    machine::receive::next(phase_in(s).receive, line.up, line.full, out).is_none()
}

// The periodic machine stays, and has nothing to stop.
#[tactic(auto, unfolding(port::specs::Periodic::rests_periodic, table::specs::Record::decoded))]
fn rests_periodic(s: &[u8; RECORD]) -> bool
    ensures { result ≡ rests_periodic (decoded s.now) }
{
    let them = partner_in(s);
    let out = timers_in(s).periodic.0 == 0;
    let quiet = line_in(s).is_quiet(!actor_in(s).activity & !them.activity);
    machine::periodic::rests(phase_in(s).periodic, quiet, out, them.timeout)
}

// The mux machine stays, and there is no NTT to be cleared.
#[tactic(auto, unfolding(port::specs::Transmit::is_settled, port::specs::Mux::rests_mux, port::specs::Mux::mux_choice, port::specs::Transmit::silent, table::specs::Record::decoded))]
fn is_settled(s: &[u8; RECORD]) -> bool
    ensures { result ≡ is_settled (decoded s.now) }
{
    let phase = phase_in(s);
    let them = partner_in(s);
    let step = machine::mux::next(
        phase.mux,
        phase.selected,
        false,
        them.synchronization,
        them.collecting,
    );
    step.is_none() && !(ntt_in(s) && line_in(s).is_silent(!actor_in(s).activity & !them.activity))
}

// ---- the steps, each in a function of its own, so that the records of one lie in the stack where those of another do

// Timers fall and sends grow older, where they stand.
fn pass_time(table: &mut TableMut, i: usize)
    requires { Has table.old i }
    ensures { Stepped table.old table.new i ticked }
{
    let timers = timers_in(table.lent().look(i));
    table.store_timers(i, timers.tick());
    table.age(i);
}

// What the receive machine makes of port i. A function of its own, so that the place for the record costs nothing where the machine rests.
fn after_receive(table: &Table, i: usize) -> Port
    requires { i < count_in table.now }
    ensures { result ≡ receive_run (port_at table.now i) }
{
    let p = table.load(i);
    p.receive()
}

// The receive machine of port i, which mostly rests.
fn receive_one(table: &mut TableMut, i: usize)
    requires { Has table.old i }
    ensures { Stepped table.old table.new i receive_run }
{
    if !rests_receive(table.lent().look(i)) {
        let p = after_receive(&table.lent(), i);
        table.store(i, p);
    }
}

// Timers, ages and the receive machine of port i.
fn tick_one(table: &mut TableMut, i: usize)
    requires { Has table.old i }
    ensures { Stepped table.old table.new i advanced }
{
    pass_time(table, i);
    receive_one(table, i);
}

// What the periodic machine makes of port i, for the same reason.
fn after_periodic(table: &Table, i: usize) -> Port
    requires { i < count_in table.now }
    ensures { result ≡ periodic_run (port_at table.now i) }
{
    let p = table.load(i);
    p.periodic()
}

// The periodic machine of port i, which mostly rests.
fn periodic_one(table: &mut TableMut, i: usize)
    requires { Has table.old i }
    ensures { Stepped table.old table.new i periodic_run }
{
    if !rests_periodic(table.lent().look(i)) {
        let p = after_periodic(&table.lent(), i);
        table.store(i, p);
    }
}

// What the mux machine makes of port i. A function of its own, so that the record as it was is gone from the stack before the other is stored.
fn after_mux(table: &Table, i: usize) -> Port
    requires { i < count_in table.now }
    ensures { result ≡ mux_run (port_at table.now i) }
{
    let p = table.load(i);
    p.mux()
}

// The mux machine of port i, and its NTT; mostly both stay.
fn mux_one(table: &mut TableMut, i: usize)
    requires { Has table.old i }
    ensures { Stepped table.old table.new i muxed }
{
    if !is_settled(table.lent().look(i)) {
        let p = after_mux(&table.lent(), i);
        table.store(i, p.clear_ntt());
    }
}

// ---- each step for every port

// What `does` says of port i, `step` makes of it: every port in turn, the first port first. A further step for each port is a function for one
// port, and one that goes over all of them by this.
pub(crate) fn sweep<F: Fn(&mut TableMut, usize)>(table: &mut TableMut, step: F)
    ghost does: { ℕ → Port → Port }
    requires may { (t : _) (i : _) → Has t.now i → F.pre step t i }
    requires steps { (t : _) (i : _) (u : _) → Has t.now i → F.post step t i tt u → Stepped t.now u.now i (does i) }
    ensures { Swept table.old table.new (map_from does 0) }
{
    for i in 0..table.lent().count() {
        step(table, i);
    }
}

// Steps 1 and 2 of a tick.
pub fn tick_all(table: &mut TableMut)
    ensures { Swept table.old table.new (map advanced) }
{
    sweep(table, tick_one);
}

// The periodic machines. Never inlined: its frame is gone before steps 3 to 6 begin, which `work::finish` calls beside it.
#[inline(never)]
pub fn periodic_all(table: &mut TableMut)
    ensures { Swept table.old table.new (map periodic_run) }
{
    sweep(table, periodic_one);
}

// Step 6: the mux machines, and NTT cleared where it is to be.
pub fn mux_all(table: &mut TableMut)
    ensures { Swept table.old table.new (map muxed) }
{
    sweep(table, mux_one);
}

// The port with index r heard the block `a`: any other port that it displaces does INITIALIZE, then PORT_DISABLED.
pub fn displace_all(table: &mut TableMut, r: usize, a: Block)
    ensures { Swept table.old table.new (displaced r a) }
{
    sweep(table, |table, i| displace_one(table, i, r, a));
}
