// The tests that come before any work, in the order of R2.14.
ghost use Rattle.std.specs.Prelude.{◌≡◌};
ghost use Rattle.control.specs.Answer.{is_number, found, frame_answer};

use crate::answer::{Accepted, Answer, Reason};
use frame::class::{Kind, Refusal};
use machine::states::{Line, Mux};
use table::lent::Table;

// Whether n is the number of a port of the table, and so of an aggregator.
fn is_number(table: &Table, n: u32) -> bool
    ensures { result ≡ is_number table.now n }
{
    let count = table.count() as u32;
    (1..=count).contains(&n)
}

// Answers 1 and 2, or the place of the port, from 0.
pub fn find(table: &[u8], n: u32) -> Result<usize, Reason>
    ensures { result ≡ found table.now n }
{
    let Some(table) = Table::of(table) else {
        return Err(Reason::Table);
    };
    if !is_number(&table, n) {
        return Err(Reason::Number);
    }
    let i = n - 1;
    Ok(i as usize)
}

// Of a frame: what its tests said, and at the end what the port says to it (R2.5, R2.9, R2.12).
pub fn judge(kind: Result<Kind, Refusal>, line: Line, mux: Mux) -> Answer
    ensures { result ≡ frame_answer kind line mux }
{
    match kind? {
        Kind::Lacpdu => {
            if line.up & line.full {
                return Ok(Accepted::Lacpdu);
            }
            Err(Reason::Disabled)
        }
        Kind::Marker => {
            if mux.collects() | mux.distributes() {
                return Ok(Accepted::Marker);
            }
            Err(Reason::NotCollecting)
        }
        Kind::Response => Err(Reason::Response),
    }
}
