// Reports of several ports as 32-bit sets: those that hold an aggregator, are attached to it and distribute, and those that have an LACPDU to send.
#![tactic(auto)]

ghost use Rattle.std.specs.Prelude.{◌≡◌, ◌<◌, Bool};
ghost use Rattle.port.specs.declared.record.Port.{Port};
ghost use Rattle.port.specs.Transmit.{is_due};
ghost use Rattle.table.specs.Record.{decoded};
ghost use Rattle.table.specs.Table.{count_in, ports, port_at};
ghost use Rattle.report.specs.Sets.{holds, set_of, lowest_of, sets_of, due_of};

use table::layout::RECORD;
use table::lent::Table;
use table::record::{ages_in, line_in, ntt_in};

// The ports of an aggregator as sets, bit 0 the first port, with how many distribute and the lowest that does (from 1; 0 for none).
#[derive(Clone, Copy, Default, PartialEq, Eq)]
pub struct Sets {
    pub holding: u32,
    pub attached: u32,
    pub distributing: u32,
    pub count: u32,
    pub lowest: u32,
}

// Whether an LACPDU is due on the port with these octets, of which NTT, link, duplex and ages are looked at.
fn is_due(s: &[u8; RECORD]) -> bool
    ensures { result ≡ is_due (decoded s.now) }
{
    let line = line_in(s);
    ntt_in(s) & (line.up & (line.full & !ages_in(s).is_barred()))
}

// The ports that pass a test, bit 0 the first port.
fn set_of<F: Fn(&Table, usize) -> bool>(table: &Table, passes: F) -> u32
    ghost test: { Port → Bool }
    requires may { (t : _) (i : _) → i < count_in t.now → F.pre passes t i }
    requires tells { (t : _) (i : _) (r : _) → i < count_in t.now → F.post passes t i r → r ≡ test (port_at t.now i) }
    ensures { result ≡ set_of test (ports table.now) }
{
    let mut set = 0;
    for i in (0..table.count()).rev() {
        set = set * 2 + u32::from(passes(table, i));
    }
    set
}

// Whether port i, from 0, holds aggregator k.
fn holds(table: &Table, i: usize, k: u8) -> bool
    requires { i < count_in table.now }
    ensures { result ≡ holds k (port_at table.now i) }
{
    table.aggregator(i) == k
}

// The lowest port of a set, from 1; 0 for an empty set.
// Kept: C's report (R15.4) and `sets_of` say 0 for none, and an Option would only be taken apart again in `Sets`.
fn lowest_of(set: u32) -> u32
    ensures { result ≡ lowest_of set }
{
    if set == 0 {
        return 0;
    }
    u32::trailing_zeros(set) + 1
}

// What the report says of aggregator k.
pub fn aggregator_of(table: &Table, k: u8) -> Sets
    ensures { result ≡ sets_of k (ports table.now) }
{
    let holding = set_of(table, |table, i| holds(table, i, k));
    let attached = set_of(table, |table, i| {
        holds(table, i, k) & table.phase(i).mux.is_attached()
    });
    let distributing = set_of(table, |table, i| {
        holds(table, i, k) & table.phase(i).mux.distributes()
    });
    Sets {
        holding,
        attached,
        distributing,
        count: u32::count_ones(distributing),
        lowest: lowest_of(distributing),
    }
}

// The ports on which an LACPDU is due, bit 0 the first port.
pub fn due_ports(table: &Table) -> u32
    ensures { result ≡ due_of (ports table.now) }
{
    set_of(table, |table, i| is_due(table.look(i)))
}
