// Steps 3 to 6 of an accepted call (R4).
ghost use Rattle.std.specs.Prelude.{◌≡◌, true};
ghost use Rattle.table.specs.Layout.{header_of};
ghost use Rattle.trunk.specs.Settled.{selected_all, attached_all, settled};
ghost use Rattle.table.specs.Lent.{Swept};

use crate::ready::attach_all;
use crate::select::select_all;
use crate::sweep::mux_all;
use table::lent::TableMut;

// Steps 3 to 5 for all ports. A start calls it too, beside `settle`: with two callers it keeps a frame of its own, which is large, and gone
// before step 6.
pub fn join_all(table: &mut TableMut)
    ensures { Swept table.old table.new (λ ps. attached_all (selected_all (header_of table.old.octets.now) ps)) }
{
    let ours = table.lent().header();
    select_all(table, ours);
    attach_all(table);
}

// Steps 3 to 6 for all ports.
pub fn settle(table: &mut TableMut)
    ensures { Swept table.old table.new (settled (header_of table.old.octets.now)) }
{
    join_all(table);
    mux_all(table);
}
