// The work of an accepted call, on a table that passed the range check: its own change, the receive machine of the port concerned,
// displaced ports, periodic machines, and steps 3 to 6. `control` tests first, and then calls one of these.
#![tactic(auto)]

ghost use Rattle.std.specs.Prelude.{◌≡◌, true, ◌+◌, ◌<◌, ◌≤◌, length};
ghost use Rattle.frame.specs.Class.{frame_size};
ghost use Rattle.frame.specs.Block.{block_of};
ghost use Rattle.frame.specs.Wire.{actor_part, response};
ghost use Rattle.table.specs.Layout.{header_of, most_ports};
ghost use Rattle.port.specs.Range.{port_in_range};
ghost use Rattle.table.specs.Lent.{Has, Swept, Remade};
ghost use Rattle.table.specs.Table.{is_room, count_in, port_at, state_of, octets_of, on_octets};
ghost use Rattle.work.specs.Work.{worked, after_one, after_start, received_at, after_received, after_tick, after_line, after_settings, after_send, lacpdu_of, written_over};

use frame::block::Block;
use machine::states::Line;
use port::record::Port;
use settings::Settings;
use table::layout::Header;
use table::lent::TableMut;
use trunk::sweep::{displace_all, mux_all, periodic_all, tick_all};

// The end of step 2, and steps 3 to 6.
fn finish(table: &mut TableMut)
    ensures { Swept table.old table.new (worked (header_of table.old.octets.now)) }
{
    periodic_all(table);
    trunk::settle::settle(table);
}

// Port i becomes q, and everything settles.
fn change(table: &mut TableMut, i: usize, q: Port)
    requires { Has table.old i × (port_in_range (count_in table.old.octets.now) q ≡ true) }
    ensures { Remade table.old table.new (on_octets (after_one i q)) }
{
    table.store(i, q);
    finish(table);
}

// A tick.
pub fn advance(table: &mut TableMut)
    ensures { Remade table.old table.new (on_octets after_tick) }
{
    tick_all(table);
    finish(table);
}

// Port i has this link and duplex now. The values as they are change nothing.
pub fn set_line(table: &mut TableMut, i: usize, line: Line)
    requires { Has table.old i }
    ensures { Remade table.old table.new (on_octets (after_line i line)) }
{
    let p = table.lent().load(i);
    if line == p.line {
        return;
    }
    change(table, i, p.set_line(line));
}

// Port i has these settings now. Equal ones change nothing.
pub fn configure(table: &mut TableMut, i: usize, settings: Settings)
    requires { Has table.old i }
    ensures { Remade table.old table.new (on_octets (after_settings i settings)) }
{
    let p = table.lent().load(i);
    if settings.is_held(p) {
        return;
    }
    change(table, i, settings.configure(p));
}

// An accepted LACPDU on port i, whose record is p (CURRENT, 43.4.12), and the ports whose partner it shows to have moved. One that says nothing
// new starts the current-while timer again, and writes no more than that to the record.
pub fn receive(table: &mut TableMut, i: usize, p: Port, frame: &[u8])
    requires { Has table.old i × (p ≡ port_at table.old.octets.now i) × (frame_size ≤ length frame.now) }
    ensures { Remade table.old table.new (on_octets (after_received i frame.now)) }
{
    let us = p.actor_block(table.lent().header().system, number_of(i));
    let actor = frame::wire::actor(frame);
    let a = Block::read(actor);
    let b = Block::read(frame::wire::partner(frame));
    if p.repeats(us, a, b) {
        table.store_current(i, p.timeout());
    } else {
        table.store(i, p.receive_lacpdu(us, actor, b));
    }
    displace_all(table, i, a);
    finish(table);
}

// The number of port i, which is counted from 0.
fn number_of(i: usize) -> u16
    requires { i < most_ports }
    ensures { result ≡ i + 1 }
{
    (i + 1) as u16
}

// Writes the LACPDU of port i, whose record is p, over the first 124 octets of out, and remembers the send.
pub fn send(table: &mut TableMut, i: usize, p: Port, out: &mut [u8])
    requires { Has table.old i × (p ≡ port_at table.old.octets.now i) × (frame_size ≤ length out.old) }
    ensures { Remade table.old table.new (on_octets (after_send i)) × (out.new ≡ written_over (lacpdu_of (state_of table.old.octets.now) i) out.old) }
{
    let ours = table.lent().header();
    let actor = p.actor_block(ours.system, number_of(i));
    frame::wire::write_lacpdu(out, p.own.address, actor, p.partner, ours.delay);
    table.store(i, p.sent());
}

// Writes the Response to a Marker, from the port whose record is p, over the first 124 octets of out.
pub fn respond(p: Port, frame: &[u8], out: &mut [u8])
    requires { (frame_size ≤ length frame.now) × (frame_size ≤ length out.old) }
    ensures { out.new ≡ written_over (response p.own.address frame.now) out.old }
{
    frame::wire::write_response(out, p.own.address, frame);
}

// A table of memory with any content: every port begins alike, and steps 3 to 5, and 6.
pub fn begin(table: &mut [u8], header: Header, settings: Settings)
    requires { is_room table.old header.count ≡ true }
    ensures { table.new ≡ octets_of (after_start header settings) }
{
    table::fill(table, header, settings.start());
    let mut table = TableMut::known(table);
    trunk::settle::join_all(&mut table);
    mux_all(&mut table);
}
