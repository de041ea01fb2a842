// The selection rule (43.4.14) by sets of ports, and steps 3 and 4. Groups are worked out from what the rule compares, each once; a whole
// record is loaded for a port that moves, and for no other.
ghost use Rattle.std.specs.Prelude.{◌≡◌, true, false, map, ℕ, ◌<◌};
ghost use Rattle.octets.specs.Lists.{map_from};
ghost use Rattle.octets.specs.Octets.{within};
ghost use Rattle.octets.specs.Sets.{member};
ghost use Rattle.port.specs.Compared.{compared};
ghost use Rattle.table.specs.Keys.{compared_by};
ghost use Rattle.table.specs.Table.{count_in, ports, port_at};
ghost use Rattle.trunk.specs.Selection.{individual, same_group};
ghost use Rattle.trunk.specs.Settled.{must_move, reselected, selected_all};
ghost use Rattle.trunk.specs.Groups.{since, placing};
ghost use Rattle.table.specs.Lent.{Has, Stepped, Swept};

use machine::states::Selection;
use octets::sets;
use table::layout::Header;
use table::lent::{Table, TableMut};
use table::record::{Keys, neighbour_in};

// Kept: the header goes beside the keys, since it is one for all ports and the definitions take it so (`individual`, `same_group`).
// Own or partner's Aggregation clear, or the partner is our own system.
#[tactic(auto, unfolding(crate::specs::Selection::individual, machine::specs::Compare::same_system, machine::specs::Compare::same_address))]
fn is_individual(c: Keys, ours: Header) -> bool
    ensures { result ≡ individual ours (compared_by c) }
{
    !c.aggregation | (!c.willing | (c.system == ours.system))
}

// Whether two ports, not one and the same, are in one group (R10.2).
#[tactic(auto, unfolding(crate::specs::Selection::same_group, crate::specs::Selection::same_keys, machine::specs::Compare::same_system, machine::specs::Compare::same_address))]
fn same_group(c: Keys, d: Keys, ours: Header) -> bool
    ensures { result ≡ same_group ours (compared_by c) (compared_by d) }
{
    let keys = (c.key == d.key) & ((c.system == d.system) & (c.theirs == d.theirs));
    !is_individual(c, ours) & (!is_individual(d, ours) & keys)
}

// Whether port j shares the group of another port, of which c is compared. Most that do not are told by their neighbour's address.
fn shares(table: &Table, j: usize, c: Keys, ours: Header) -> bool
    requires { j < count_in table.now }
    ensures { result ≡ same_group ours (compared_by c) (compared (port_at table.now j)) }
{
    (neighbour_in(table.look(j)) == c.system.address.low) && same_group(c, table.keys(j), ours)
}

// Port i and the later ports of its group. An individual port has none.
fn group_of(table: &Table, i: usize, ours: Header) -> u32
    requires { i < count_in table.now }
    ensures { (m : ℕ) → member result m ≡ since ours (map compared (ports table.now)) i m }
{
    let n = table.count();
    let c = table.keys(i);
    let mut set = sets::with(0, i);
    if is_individual(c, ours) {
        return set;
    }
    for j in i + 1..n {
        set = sets::with_if(set, j, shares(table, j, c, ours));
    }
    set
}

// UNSELECTED, or k is not what port i holds.
#[tactic(auto, unfolding(crate::specs::Settled::must_move))]
fn must_move(table: &Table, i: usize, k: u8) -> bool
    requires { i < count_in table.now }
    ensures { result ≡ must_move k (port_at table.now i) }
{
    (table.phase(i).selected == Selection::Unselected) | (table.aggregator(i) != k)
}

// Steps 3 and 4 for port i, which is to hold aggregator k. A port that must move goes state by state down to DETACHED, and only then to
// k; one that need not is left alone.
fn select_one(table: &mut TableMut, i: usize, k: u8)
    requires { Has table.old i × (within 1 k (count_in table.old.octets.now) ≡ true) }
    ensures { Stepped table.old table.new i (reselected k) }
{
    if must_move(&table.lent(), i, k) {
        let p = table.lent().load(i);
        table.store(i, p.detach().place(k));
    }
}

// Steps 3 and 4 for the ports of a set, none of which is before port i: they are to hold its aggregator.
fn select_set(table: &mut TableMut, set: u32, i: usize)
    requires { Has table.old i × ((m : ℕ) → m < i → member set m ≡ false) }
    ensures { Swept table.old table.new (map_from (placing set i) 0) }
{
    let k = (i + 1) as u8;
    for j in i..table.lent().count().min(sets::end(set)) {
        if sets::has(set, j) {
            select_one(table, j, k);
        }
    }
}

// Steps 3 and 4 for all ports: the lowest port that no set has yet gives its aggregator to its group.
pub fn select_all(table: &mut TableMut, ours: Header)
    ensures { Swept table.old table.new (selected_all ours) }
{
    let mut done: u32 = 0;
    for i in 0..table.lent().count() {
        if !sets::has(done, i) {
            let set = group_of(&table.lent(), i, ours);
            select_set(table, set, i);
            done = sets::all_of(done, set);
        }
    }
}
