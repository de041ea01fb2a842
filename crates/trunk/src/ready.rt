// Ready of an aggregator (43.4.8), and step 5.
ghost use Rattle.std.specs.Prelude.{◌≡◌, ◌<◌, true, not, ◌&&◌, ℕ, ◌+◌};
ghost use Rattle.octets.specs.Sets.{member};
ghost use Rattle.machine.specs.Mux.{waits};
ghost use Rattle.machine.specs.Time.{ran_out};
ghost use Rattle.table.specs.Table.{count_in, ports, port_at};
ghost use Rattle.trunk.specs.Ready.{held_back};
ghost use Rattle.trunk.specs.Settled.{AllChosen, attached_all};
ghost use Rattle.trunk.specs.Groups.{may_attach, attached_unless};
ghost use Rattle.table.specs.Lent.{Has, Stepped, Swept};

use crate::sweep::sweep;
use octets::sets;
use table::lent::{Table, TableMut};

// Whether port i waits with its timer still running.
fn holds_back(table: &Table, i: usize) -> bool
    requires { i < count_in table.now }
    ensures { result ≡ waits (port_at table.now i).phase.mux && not (ran_out (port_at table.now i).timers.wait) }
{
    table.phase(i).mux.waits() & (table.timers(i).wait.0 != 0)
}

// The aggregators that some port holds back, bit 0 the first.
fn held_back(table: &Table) -> u32
    ensures { (k : ℕ) → member result k ≡ held_back (k + 1) (ports table.now) }
{
    let mut set: u32 = 0;
    for i in (0..table.count()).rev() {
        if holds_back(table, i) {
            set = sets::with(set, (table.aggregator(i) - 1) as usize);
        }
    }
    set
}

// Whether port i waits, and its aggregator is not held back.
fn may_attach(table: &Table, i: usize, held: u32) -> bool
    requires { i < count_in table.now }
    ensures { result ≡ may_attach held (port_at table.now i) }
{
    table.phase(i).mux.waits() && !sets::has(held, (table.aggregator(i) - 1) as usize)
}

// Step 5 for port i. A port that does not wait, or is held back, is left alone.
fn attach_one(table: &mut TableMut, i: usize, held: u32)
    requires { Has table.old i }
    ensures { Stepped table.old table.new i (attached_unless held) }
{
    if may_attach(&table.lent(), i, held) {
        let p = table.lent().load(i);
        table.store(i, p.attach(true));
    }
}

// Step 5 for all ports, which step 4 left SELECTED. Which aggregators are held back is found out once, before any port attaches; one for
// which a port waits is Ready unless it is.
pub fn attach_all(table: &mut TableMut)
    requires { AllChosen (ports table.old.octets.now) }
    ensures { Swept table.old table.new attached_all }
{
    let held = held_back(&table.lent());
    sweep(table, |table, i| attach_one(table, i, held));
}
