// The table in lent memory: a header and one record for each port. Where each field lies, reading and writing records, and the
// check that answer 1 rests on. Nothing of a table's size stands on the stack.
#![tactic(auto)]

ghost use Rattle.std.specs.Prelude.{◌≡◌, ◌+◌, ◌≤◌, true, length, replicate};
ghost use Rattle.octets.specs.Octets.{Octets, put_at};
ghost use Rattle.table.specs.Layout.{place, table_size, record_size};
ghost use Rattle.port.specs.Range.{port_in_range};
ghost use Rattle.table.specs.Record.{encoded};
ghost use Rattle.table.specs.Table.{record_at, first_in_range, table_in_range, is_room};
ghost use Rattle.table.specs.Leaves.{Holds, Repeated};

use crate::layout::{HEADER, Header, MOST_PORTS, RECORD, place_of, write_header};
use crate::range::is_record;
use crate::record::write_record;
use port::record::Port;

pub mod layout;
pub mod lent;
mod range;
pub mod record;

// The part of the table that is record `i`, from 0.
#[tactic(auto, unfolding(crate::specs::Table::record_at))]
pub fn record_at(table: &[u8], i: usize) -> &[u8; RECORD]
    requires { place i + record_size ≤ length table.now }
    ensures { result.now ≡ record_at table.now i }
{
    octets::chunk(table, place_of(i))
}

// Writes record `i`, from 0, of a table or of what becomes one; every other octet stays.
pub(crate) fn put(table: &mut [u8], i: usize, p: Port)
    requires { place i + record_size ≤ length table.old }
    ensures put { table.new ≡ put_at (place i) (encoded p) table.old }
    ensures octets { Octets table.new }
{
    let at = place_of(i);
    write_record(p, &mut table[at..at + RECORD]);
}

// Makes a table of memory with any content: this header, and for every port this record.
#[tactic(auto, using(crate::proofs::FillLaws::roomy))]
pub fn fill(table: &mut [u8], header: Header, p: Port)
    requires { (is_room table.old header.count ≡ true) × (port_in_range header.count p ≡ true) }
    ensures { Holds table.new header (replicate header.count p) }
{
    write_header(table, header);
    put(table, 0, p);
    repeat_first(table);
}

// Every octet behind the first record becomes the one that stands a record before it, so that all records are the first.
fn repeat_first(table: &mut [u8])
    requires { place 1 ≤ length table.old }
    ensures { Repeated table.old table.new }
{
    for j in HEADER + RECORD..table.len() {
        table[j] = table[j - RECORD];
    }
}

// Whether every record of a table of `count` ports is in range.
fn has_records(table: &[u8], count: u8) -> bool
    requires { table_size count ≤ length table.now }
    ensures { result ≡ first_in_range count count table.now }
{
    for i in 0..usize::from(count) {
        if !is_record(count, record_at(table, i)) {
            return false;
        }
    }
    true
}

// Whether memory, of any length and content, is a table: answer 1 is given exactly if not.
pub fn is_table(table: &[u8]) -> bool
    ensures { result ≡ table_in_range table.now }
{
    if table.len() < HEADER {
        return false;
    }
    let count = table[0];
    is_room(table, u32::from(count)) && has_records(table, count)
}

// Whether memory has the size of a table of `count` ports, of which there are 1 to 32.
pub fn is_room(table: &[u8], count: u32) -> bool
    ensures { result ≡ is_room table.now count }
{
    (1..=u32::from(MOST_PORTS)).contains(&count) && table.len() == place_of(count as usize)
}
