// Two reports beyond R15 on a table with all that lies behind its records: why a port does not carry, and why two ports are apart. Each may be given anything, and
// nothing is written.
#![tactic(auto)]

ghost use Rattle.std.specs.Prelude.{◌≡◌, ◌≤◌, length};
ghost use Rattle.table.specs.Layout.{place};
ghost use Rattle.table.specs.Table.{count_in};
ghost use Rattle.reasons.specs.Reasons.{first, port_found, why_report, apart_report};

use control::answer::Reason;
use table::layout::place_of;
use table::lent::Table;
use why::apart::Apart;
use why::cause::Why;

// The index of port n, from 0, or answers 1 and 2.
fn find(table: &[u8], n: u32) -> Result<usize, Reason>
    ensures { result ≡ port_found n table.now }
{
    asked::report_port(table, n, &mut [])?;
    let i = n - 1;
    Ok(i as usize)
}

// The header and the records, at the front of a table.
fn records(table: &[u8]) -> &[u8]
    requires { place (count_in table.now) ≤ length table.now }
    ensures { result.now ≡ first table.now }
{
    &table[..place_of(table[0] as usize)]
}

// Why port n does not carry, or that it does.
pub fn why(table: &[u8], n: u32) -> Result<Why, Reason>
    ensures { result ≡ why_report n table.now }
{
    let i = find(table, n)?;
    let records = Table::known(records(table));
    Ok(why::cause::why_of(&records, i))
}

// Why ports n and m are not in one group: nothing where they are.
pub fn apart(table: &[u8], n: u32, m: u32) -> Result<Apart, Reason>
    ensures { result ≡ apart_report n m table.now }
{
    let i = find(table, n)?;
    let j = find(table, m)?;
    let records = Table::known(records(table));
    Ok(why::apart::apart_of(&records, i, j))
}
