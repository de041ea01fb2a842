// Answer 1's ranges of a record's octets.
ghost use Rattle.std.specs.Prelude.{◌≡◌};
ghost use Rattle.port.specs.Range.{timers_in_range, age_in_range, ages_in_range};
ghost use Rattle.table.specs.Range.{codes_in_range, record_in_range};

use crate::layout::RECORD;
use crate::record::{ages_in, aggregator_in, timers_in};
use machine::ages::FORGOTTEN_AGE;
use machine::entry::AGGREGATE_WAIT_TIME;
use machine::periodic::SLOW_PERIODIC_TIME;
use machine::receive::LONG_TIMEOUT_TIME;
use machine::states::{Ages, Timers};

// The highest bit of each of four octets.
const HIGHEST: u64 = 0x80808080;
// What the greatest codes of octets 0 to 3, which are 5, 3, 4 and 1, lack to 127.
const SPARE: u64 = 0x7e7b7c7a;
// All bits but the lowest of octets 5 to 7, of four from 5 on.
const NO_FLAG: u64 = 0x00fefefe;

// States and flags, four octets at a time: none of the states has its highest bit, nor would with what the greatest code lacks to it, and no flag
// has a bit beside its lowest.
fn codes_in_range(s: &[u8; RECORD]) -> bool
    ensures { result ≡ codes_in_range s.now }
{
    let states = octets::word(s, 0);
    let flags = octets::word(s, 5);
    (states & HIGHEST == 0) & (((states + SPARE) & HIGHEST == 0) & (flags & NO_FLAG == 0))
}

// Each timer at most the longest time with which it is started.
#[tactic(auto, unfolding(port::specs::Range::timers_in_range))]
fn timers_in_range(timers: Timers) -> bool
    ensures { result ≡ timers_in_range timers }
{
    (timers.current.0 <= LONG_TIMEOUT_TIME.0)
        & ((timers.periodic.0 <= SLOW_PERIODIC_TIME.0) & (timers.wait.0 <= AGGREGATE_WAIT_TIME.0))
}

// A send that is remembered, or none.
fn age_in_range(age: Option<u8>) -> bool
    ensures { result ≡ age_in_range age }
{
    age.is_none_or(|a| a < FORGOTTEN_AGE)
}

// Each of the three ages.
#[tactic(auto, unfolding(port::specs::Range::ages_in_range))]
fn ages_in_range(ages: Ages) -> bool
    ensures { result ≡ ages_in_range ages }
{
    age_in_range(ages.first) & (age_in_range(ages.second) & age_in_range(ages.third))
}

// Whether the octets of a record, in a table of `count` ports, are in range.
#[tactic(auto, unfolding(crate::specs::Range::record_in_range, port::specs::Range::values_in_range, crate::specs::Record::decoded))]
pub fn is_record(count: u8, s: &[u8; RECORD]) -> bool
    ensures { result ≡ record_in_range count s.now }
{
    codes_in_range(s)
        & ((1..=count).contains(&aggregator_in(s))
            & (timers_in_range(timers_in(s)) & ages_in_range(ages_in(s))))
}
