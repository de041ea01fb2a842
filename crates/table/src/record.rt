// A port's record and its octets, group by group.
ghost use Rattle.std.specs.Prelude.{◌≡◌, length, get_or};
ghost use Rattle.octets.specs.Octets.{put_at};
ghost use Rattle.frame.specs.Block.{block_of};
ghost use Rattle.frame.specs.State.{port_state_of};
ghost use Rattle.machine.specs.Ages.{aged, ages_ticked};
ghost use Rattle.frame.specs.Wire.{part};
ghost use Rattle.port.specs.Compared.{compared};
ghost use Rattle.table.specs.Codes.{flag_of, age_octet, age_of};
ghost use Rattle.table.specs.Keys.{compared_by};
ghost use Rattle.table.specs.Layout.{record_size};
ghost use Rattle.octets.specs.Octets.{number_octets};
ghost use Rattle.table.specs.Record.{phase_octets, phase_in, status_octets, line_in, timers_octets, timers_in, ages_octets, ages_in, own_octets, own_in, encoded, decoded};

use crate::layout::RECORD;
use frame::block::{Address, Block, SystemId};
use frame::state::PortState;
use machine::ages::FORGOTTEN_AGE;
use machine::states::{Ages, Line, Mux, Periodic, Phase, Receive, Selection, Ticks, Timers};
use octets::InOctets;
use port::record::{Own, Port};

// Where the timers begin in a record, the first of them current-while.
pub(crate) const TIMERS: usize = 9;
// Where the ages of sends begin.
pub(crate) const AGES: usize = 14;
// What stands in an age's octet where no send is remembered.
const NO_AGE: u8 = 255;

// What the selection rule compares (R10): own key and Aggregation, and the partner's system, key and Aggregation.
#[derive(Clone, Copy, PartialEq, Eq)]
pub struct Keys {
    pub key: u16,
    pub aggregation: bool,
    pub system: SystemId,
    pub theirs: u16,
    pub willing: bool,
}

// They are in octets 8, 23 and 24, and in the partner block, 42 to 56.
#[tactic(auto, unfolding(crate::specs::Record::decoded))]
pub(crate) fn keys_in(s: &[u8; RECORD]) -> Keys
    ensures { compared_by result ≡ compared (decoded s.now) }
{
    let partner = &s[42..57];
    Keys {
        key: octets::number(s, 23),
        aggregation: PortState::from(s[8]).aggregation,
        system: SystemId::read(partner, 0),
        theirs: octets::number(partner, 8),
        willing: PortState::from(partner[14]).aggregation,
    }
}

// Octets 0 to 3: receive state, periodic state, mux state, Selected.
fn phase_octets(phase: Phase) -> [u8; 4]
    ensures { result ≡ phase_octets phase }
{
    [
        u8::from(phase.receive),
        u8::from(phase.periodic),
        u8::from(phase.mux),
        u8::from(phase.selected),
    ]
}

// The states in octets 0 to 3.
pub fn phase_in(s: &[u8; RECORD]) -> Phase
    ensures { result ≡ phase_in s.now }
{
    Phase {
        receive: Receive::from(s[0]),
        periodic: Periodic::from(s[1]),
        mux: Mux::from(s[2]),
        selected: Selection::from(s[3]),
    }
}

// Octets 4 to 8: aggregator held, NTT, link, duplex, Actor_Oper_Port_State.
fn status_octets(p: Port) -> [u8; 5]
    ensures { result ≡ status_octets p.aggregator p.ntt p.line p.actor }
{
    [
        p.aggregator,
        u8::from(p.ntt),
        u8::from(p.line.up),
        u8::from(p.line.full),
        u8::from(p.actor),
    ]
}

// The aggregator held in octet 4.
pub(crate) fn aggregator_in(s: &[u8; RECORD]) -> u8
    ensures { result ≡ get_or s.now 4 0 }
{
    s[4]
}

// NTT in octet 5.
pub fn ntt_in(s: &[u8; RECORD]) -> bool
    ensures { result ≡ flag_of (get_or s.now 5 0) }
{
    s[5] == 1
}

// Link and duplex in octets 6 and 7.
pub fn line_in(s: &[u8; RECORD]) -> Line
    ensures { result ≡ line_in s.now }
{
    Line {
        up: s[6] == 1,
        full: s[7] == 1,
    }
}

// Actor_Oper_Port_State in octet 8.
pub fn actor_in(s: &[u8; RECORD]) -> PortState
    ensures { result ≡ port_state_of (get_or s.now 8 0) }
{
    PortState::from(s[8])
}

// Octets 9 to 13: current-while, periodic timer, and the wait timer, of which the low octet is kept.
pub(crate) fn timers_octets(timers: Timers) -> [u8; 5]
    ensures { result ≡ timers_octets timers }
{
    let [current_high, current_low] = timers.current.0.to_be_bytes();
    let [periodic_high, periodic_low] = timers.periodic.0.to_be_bytes();
    let [_, wait] = timers.wait.0.to_be_bytes();
    [current_high, current_low, periodic_high, periodic_low, wait]
}

// The timers in octets 9 to 13.
pub fn timers_in(s: &[u8; RECORD]) -> Timers
    ensures { result ≡ timers_in s.now }
{
    Timers {
        current: Ticks(octets::number(s, 9)),
        periodic: Ticks(octets::number(s, 11)),
        wait: Ticks(u16::from(s[13])),
    }
}

// The octet of an age.
fn age_octet(age: Option<u8>) -> u8
    ensures { result ≡ age_octet age }
{
    age.unwrap_or(NO_AGE)
}

// The age that an octet tells of.
fn age_of(n: u8) -> Option<u8>
    ensures { result ≡ age_of n }
{
    if n == NO_AGE { None } else { Some(n) }
}

// Octets 14 to 16: the ages of sends.
pub(crate) fn ages_octets(ages: Ages) -> [u8; 3]
    ensures { result ≡ ages_octets ages }
{
    [
        age_octet(ages.first),
        age_octet(ages.second),
        age_octet(ages.third),
    ]
}

// The ages in octets 14 to 16.
pub fn ages_in(s: &[u8; RECORD]) -> Ages
    ensures { result ≡ ages_in s.now }
{
    Ages {
        first: age_of(s[14]),
        second: age_of(s[15]),
        third: age_of(s[16]),
    }
}

// The octet of a send's age a tick later. By octets, since a detour by `Option` makes a tick at rest miss its bound (docs/BENCHMARKS.md).
fn older(n: u8) -> u8
    ensures { result ≡ age_octet (aged (age_of n)) }
{
    if n < FORGOTTEN_AGE - 1 { n + 1 } else { NO_AGE }
}

// Octets 14 to 16 a tick later.
pub(crate) fn older_octets(s: &[u8; RECORD]) -> [u8; 3]
    ensures { result ≡ ages_octets (ages_ticked (ages_in s.now)) }
{
    [older(s[14]), older(s[15]), older(s[16])]
}

// Writes octets 17 to 41: own address, key, port priority, default partner block.
fn write_own(own: Own, out: &mut [u8])
    requires { length out.old ≡ record_size }
    ensures { out.new ≡ put_at 17 (own_octets own) out.old }
{
    own.address.write(out, 17);
    octets::put_number(out, 23, own.key);
    octets::put_number(out, 25, own.priority);
    own.default.write(&mut out[27..42]);
}

// The settings in octets 17 to 41.
fn own_in(s: &[u8; RECORD]) -> Own
    ensures { result ≡ own_in s.now }
{
    Own {
        address: Address::read(s, 17),
        key: octets::number(s, 23),
        priority: octets::number(s, 25),
        default: Block::read(octets::chunk(s, 27)),
    }
}

// The state of the partner block in force, in octet 56.
pub fn partner_in(s: &[u8; RECORD]) -> PortState
    ensures { result ≡ (block_of (part 42 57 s.now)).state }
{
    PortState::from(s[56])
}

// The lowest two octets of the partner's system address, 48 and 49: what tells most neighbours apart.
pub fn neighbour_in(s: &[u8; RECORD]) -> u16
    ensures { result ≡ (block_of (part 42 57 s.now)).system.address.low }
{
    octets::number(s, 48)
}

// Writes a record into its octets.
// Kept: a slice and no `&mut [u8; RECORD]`, since what is written through `first_chunk_mut().unwrap()` is lost to the proof (tried).
pub(crate) fn write_record(p: Port, out: &mut [u8])
    requires { length out.old ≡ record_size }
    ensures { out.new ≡ encoded p }
{
    octets::put(out, 0, &phase_octets(p.phase));
    octets::put(out, 4, &status_octets(p));
    octets::put(out, TIMERS, &timers_octets(p.timers));
    octets::put(out, AGES, &ages_octets(p.ages));
    write_own(p.own, out);
    p.partner.write(&mut out[42..RECORD]);
}

// The record that octets tell of.
#[tactic(auto, unfolding(crate::specs::Record::decoded))]
pub fn read_record(s: &[u8; RECORD]) -> Port
    ensures { result ≡ decoded s.now }
{
    Port {
        phase: phase_in(s),
        aggregator: s[4],
        ntt: s[5] == 1,
        line: line_in(s),
        actor: PortState::from(s[8]),
        timers: timers_in(s),
        ages: ages_in(s),
        own: own_in(s),
        partner: Block::read(octets::chunk(s, 42)),
    }
}
