// Displaced ports (43.4.8 port_moved).
ghost use Rattle.std.specs.Prelude.{◌≡◌};
ghost use Rattle.trunk.specs.Displaced.{is_displaced, displaced_if};
ghost use Rattle.table.specs.Lent.{Has, Stepped};

use frame::block::Block;
use machine::states::Receive;
use port::record::Port;
use table::lent::TableMut;

// In PORT_DISABLED, with a partner whose system address and port are those of the block `a`.
#[tactic(auto, unfolding(crate::specs::Displaced::is_displaced, machine::specs::Compare::same_address))]
fn is_displaced(p: Port, a: Block) -> bool
    ensures { result ≡ is_displaced a p }
{
    (p.phase.receive == Receive::PortDisabled)
        & ((p.partner.system.address == a.system.address)
            & (p.partner.port.number == a.port.number))
}

// What port i does when port r heard the block `a`: a port that is not displaced is left alone.
pub fn displace_one(table: &mut TableMut, i: usize, r: usize, a: Block)
    requires { Has table.old i }
    ensures { Stepped table.old table.new i (displaced_if r a i) }
{
    if table.lent().phase(i).receive == Receive::PortDisabled {
        let p = table.lent().load(i);
        if (i != r) & is_displaced(p, a) {
            table.store(i, p.moved_away());
        }
    }
}
