// The layout of a table: a header, and then the records one after the other, the first port's first.
ghost use Rattle.std.specs.Prelude.{◌≡◌, ◌+◌, ◌≤◌, length};
ghost use Rattle.octets.specs.Octets.{put_at};
ghost use Rattle.table.specs.Layout.{header_size, place, published_size, header_of, header_octets};

use frame::block::SystemId;
use frame::wire::TensOfMicroseconds;
use octets::InOctets;

// The octets of the header.
pub(crate) const HEADER: usize = 11;
// The octets of a record.
pub const RECORD: usize = 57;
// The most ports that a table has.
pub(crate) const MOST_PORTS: u8 = 32;

#[derive(Clone, Copy, PartialEq, Eq)]
pub struct Header {
    pub count: u8,
    pub system: SystemId,
    pub delay: TensOfMicroseconds,
}

// Where record `i`, from 0, begins; for the port count, the octets of the table.
pub fn place_of(i: usize) -> usize
    requires { place i ≤ 18446744073709551615 }
    ensures { result ≡ place i }
{
    HEADER + RECORD * i
}

// The octets that a table of `count` ports has; 0 for a count outside 1 to 32.
pub fn table_size(count: u32) -> u32
    ensures { result ≡ published_size count }
{
    // Kept: a number and no Option, since `published_size` and R22.1 in docs/RULES.md say 0, as C gets it.
    if (1..=u32::from(MOST_PORTS)).contains(&count) {
        place_of(count as usize) as u32
    } else {
        0
    }
}

// The header at the front of a table.
pub(crate) fn read_header(table: &[u8]) -> Header
    requires { header_size ≤ length table.now }
    ensures { result ≡ header_of table.now }
{
    Header {
        count: table[0],
        system: SystemId::read(table, 1),
        delay: TensOfMicroseconds(octets::number(table, 9)),
    }
}

// Writes the header at the front of a table; every other octet stays.
pub(crate) fn write_header(table: &mut [u8], header: Header)
    requires { header_size ≤ length table.old }
    ensures { table.new ≡ put_at 0 (header_octets header) table.old }
{
    octets::put(table, 0, &[header.count]);
    header.system.write(table, 1);
    octets::put_number(table, 9, header.delay.0);
}
