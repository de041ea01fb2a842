// Why two ports are not in one group (R10): what the selection rule compares, each field for itself.
ghost use Rattle.std.specs.Prelude.{◌≡◌, ◌<◌, map};
ghost use Rattle.port.specs.Compared.{compared};
ghost use Rattle.table.specs.Keys.{compared_by};
ghost use Rattle.table.specs.Table.{count_in, ports, ours};
ghost use Rattle.why.specs.Apart.{alone, apart_from, apart_number, apart_of};

use table::layout::Header;
use table::lent::Table;
use table::record::Keys;

// Why a port is individual (R10.1), each reason for itself.
#[derive(Clone, Copy, PartialEq, Eq, Default)]
pub struct Alone {
    // Its own Aggregation is clear.
    pub own: bool,
    // The partner's is.
    pub partner: bool,
    // The partner is our own system.
    pub ourselves: bool,
}

// Why two ports are apart: which is individual, and what they differ in.
#[derive(Clone, Copy, PartialEq, Eq, Default)]
pub struct Apart {
    pub first: Alone,
    pub second: Alone,
    pub keys: bool,
    // The partners' system priorities, and their system addresses.
    pub priorities: bool,
    pub addresses: bool,
    // The partners' keys.
    pub theirs: bool,
}

#[tactic(auto, unfolding(machine::specs::Compare::same_system, machine::specs::Compare::same_address))]
fn alone_of(c: Keys, ours: Header) -> Alone
    ensures { result ≡ alone ours (compared_by c) }
{
    Alone {
        own: !c.aggregation,
        partner: !c.willing,
        ourselves: c.system == ours.system,
    }
}

#[tactic(auto, unfolding(machine::specs::Compare::same_address))]
fn apart_from(c: Keys, d: Keys, ours: Header) -> Apart
    ensures { result ≡ apart_from ours (compared_by c) (compared_by d) }
{
    Apart {
        first: alone_of(c, ours),
        second: alone_of(d, ours),
        keys: c.key != d.key,
        priorities: c.system.priority != d.system.priority,
        addresses: c.system.address != d.system.address,
        theirs: c.theirs != d.theirs,
    }
}

// Why ports i and j, from 0, are apart. A port is not apart from itself.
#[tactic(auto, unfolding(crate::specs::Apart::apart_of))]
pub fn apart_of(table: &Table, i: usize, j: usize) -> Apart
    requires { (i < count_in table.now) × (j < count_in table.now) }
    ensures { result ≡ apart_of (ours table.now) (map compared (ports table.now)) i j }
{
    if i == j {
        return Apart::default();
    }
    apart_from(table.keys(i), table.keys(j), table.header())
}

impl Apart {
    // The reasons as a number, a bit for each.
    pub fn number(self) -> u32
        ensures { result ≡ apart_number self }
    {
        let reasons = [
            self.first.own,
            self.first.partner,
            self.first.ourselves,
            self.second.own,
            self.second.partner,
            self.second.ourselves,
            self.keys,
            self.priorities,
            self.addresses,
            self.theirs,
        ];
        let mut number = 0;
        for reason in reasons.iter().rev() {
            number = number * 2 + u32::from(*reason);
        }
        number
    }
}
