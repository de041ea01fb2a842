// The C interface (include/myrkosti.h): each call of `asked` and each report of `reasons` with numbers and lent octets. A call answers its number (R2).
#![tactic(auto)]

ghost use Rattle.std.specs.Prelude.{◌≡◌};
ghost use Rattle.control.specs.Call.{start as call_start, tick as call_tick, line as call_line, configure as call_configure};
ghost use Rattle.asked.specs.Layer.{old_layer, new_layer};
ghost use Rattle.asked.specs.Meets.{MeetsNumber, MeetsAskNumber, MeetsRecord, MeetsAggregator, MeetsDue};
ghost use Rattle.asked.specs.Moves.{MeetsForwardNumber, MeetsBackNumber};
ghost use Rattle.asked.specs.Report.{asked_published};
ghost use Rattle.why.specs.Cause.{cause_number};
ghost use Rattle.reasons.specs.Reasons.{MeetsWhy, MeetsApart};
ghost use Rattle.myrkosti.specs.Arguments.{settings_of, system_of, delay_of};
ghost use Rattle.myrkosti.specs.Counted.{MeetsFetch, MeetsReceive};
ghost use Rattle.myrkosti.specs.Version.{interface_version};

use control::answer::{Numbered, length_sent};
use counters::Counters;
use frame::block::{Address, Block, SystemId};
use frame::wire::TensOfMicroseconds;
use machine::states::Line;
use octets::InOctets;
use report::Sets;
use settings::Settings;
use why::apart::{Alone, Apart};
use why::cause::{Cause, Why};

// What C is told beside a refusal (R2.20): of an aggregator, of why a port does not carry, and of why two are apart.
const NO_SETS: Sets = Sets {
    holding: 0,
    attached: 0,
    distributing: 0,
    count: 0,
    lowest: 0,
};

const NO_WHY: Why = Why {
    cause: None,
    holder: None,
    ticks: 0,
};

const NOT_ALONE: Alone = Alone {
    own: false,
    partner: false,
    ourselves: false,
};

const NOT_APART: Apart = Apart {
    first: NOT_ALONE,
    second: NOT_ALONE,
    keys: false,
    priorities: false,
    addresses: false,
    theirs: false,
};

// The version of this interface (include/myrkosti.h).
#[unsafe(no_mangle)]
pub extern "C" fn myrkosti_version() -> u32
    ensures { result ≡ interface_version }
{
    0x0202
}

// The octets that a table of `ports` ports has; 0 for a count outside 1 to 32.
#[unsafe(no_mangle)]
pub extern "C" fn myrkosti_table_size(ports: u32) -> u32
    ensures { result ≡ asked_published new_layer ports }
{
    asked::table_size(ports)
}

// A tenth of a second has passed.
#[unsafe(no_mangle)]
pub extern "C" fn myrkosti_tick(table: &mut [u8]) -> u32
    ensures { MeetsNumber call_tick table.old result table.new }
{
    let a = asked::tick(table);
    a.number() as u32
}

// The link of a port is up or down now, and its duplex full or half.
#[unsafe(no_mangle)]
pub extern "C" fn myrkosti_line(table: &mut [u8], port: u32, up: bool, full: bool) -> u32
    ensures { MeetsNumber (call_line port (record { up = up; full = full })) table.old result table.new }
{
    let a = asked::line(table, port, Line { up, full });
    a.number() as u32
}

// Writes what is due on a port into `out`. The port's counters are lent, and count it.
#[unsafe(no_mangle)]
pub extern "C" fn myrkosti_fetch(
    table: &mut [u8],
    port: u32,
    out: &mut [u8],
    counters: &mut Counters,
) -> u32
    ensures { MeetsFetch port out.old table.old counters.old result table.new out.new counters.new }
{
    let a = asked::fetch(table, port, out);
    *counters = counters.fetched(a);
    a.number() as u32
}

// A frame was received on a port. The Response to a Marker is written into `out`, and its length into `sent`. The port's counters are lent, and count it.
#[unsafe(no_mangle)]
pub extern "C" fn myrkosti_receive(
    table: &mut [u8],
    port: u32,
    frame: &[u8],
    out: &mut [u8],
    sent: &mut u32,
    counters: &mut Counters,
) -> u32
    ensures { MeetsReceive port frame.now out.old table.old counters.old
        result table.new out.new sent.new counters.new }
{
    let a = asked::receive(table, port, frame, out);
    *sent = length_sent(a) as u32;
    *counters = counters.received(a);
    a.number() as u32
}

// Asks for a Marker on a port, to be awaited for so many ticks, and writes it into `out`.
#[unsafe(no_mangle)]
pub extern "C" fn myrkosti_ask(table: &mut [u8], port: u32, ticks: u32, out: &mut [u8]) -> u32
    ensures { MeetsAskNumber port ticks out.old table.old result table.new out.new }
{
    let a = asked::ask(table, port, ticks, out);
    a.number() as u32
}

// A port's settings as numbers and lent octets.
fn settings_of(
    address: &[u8; 6],
    key: u16,
    priority: u16,
    activity: bool,
    timeout: bool,
    aggregation: bool,
    partner: &[u8; 15],
) -> Settings
    ensures { result ≡ settings_of address.now key priority activity timeout aggregation partner.now }
{
    Settings {
        address: Address::read(address, 0),
        key,
        priority,
        activity,
        timeout,
        aggregation,
        default: Block::read(partner),
    }
}

// A port has these settings from now on.
#[unsafe(no_mangle)]
pub extern "C" fn myrkosti_settings(
    table: &mut [u8],
    port: u32,
    address: &[u8; 6],
    key: u16,
    priority: u16,
    activity: bool,
    timeout: bool,
    aggregation: bool,
    partner: &[u8; 15],
) -> u32
    ensures { MeetsNumber
        (call_configure port
        (settings_of address.now key priority activity timeout aggregation partner.now))
        table.old result table.new }
{
    let s = settings_of(
        address,
        key,
        priority,
        activity,
        timeout,
        aggregation,
        partner,
    );
    let a = asked::configure(table, port, s);
    a.number() as u32
}

// The record of a port, as it lies in the table, as many octets as fit into `record`, from the front; zeros beside a refusal.
#[unsafe(no_mangle)]
pub extern "C" fn myrkosti_port(table: &[u8], port: u32, record: &mut [u8]) -> u32
    ensures { MeetsRecord port table.now «record».old result «record».new }
{
    let a = asked::report_port(table, port, record);
    a.number() as u32
}

// The ports that hold an aggregator, are attached to it and distribute, how many distribute and the lowest that does; zeros beside a refusal.
#[unsafe(no_mangle)]
pub extern "C" fn myrkosti_aggregator(
    table: &[u8],
    aggregator: u32,
    holding: &mut u32,
    attached: &mut u32,
    distributing: &mut u32,
    count: &mut u32,
    lowest: &mut u32,
) -> u32
    ensures { MeetsAggregator aggregator table.now result holding.new attached.new distributing.new count.new lowest.new }
{
    let r = asked::report_aggregator(table, aggregator);
    let sets = r.unwrap_or(NO_SETS);
    *holding = sets.holding;
    *attached = sets.attached;
    *distributing = sets.distributing;
    *count = sets.count;
    *lowest = sets.lowest;
    r.number() as u32
}

// The ports that have something to send: those whose fetch would be answered 0; none beside a refusal.
#[unsafe(no_mangle)]
pub extern "C" fn myrkosti_due(table: &[u8], ports: &mut u32) -> u32
    ensures { MeetsDue table.now result ports.new }
{
    let r = asked::report_due(table);
    *ports = r.unwrap_or(0);
    r.number() as u32
}

// A cause's number; 0 for none.
fn number_of(cause: Option<Cause>) -> u32
    ensures { result ≡ cause_number cause }
{
    match cause {
        Some(cause) => u32::from(cause),
        None => 0,
    }
}

// Why a port does not carry, or that it does: a cause's number; the port that holds it back, and the ticks left; zeros beside a refusal.
#[unsafe(no_mangle)]
pub extern "C" fn myrkosti_why(
    table: &[u8],
    port: u32,
    cause: &mut u32,
    holder: &mut u32,
    ticks: &mut u32,
) -> u32
    ensures { MeetsWhy port table.now result cause.new holder.new ticks.new }
{
    let r = reasons::why(table, port);
    let why = r.unwrap_or(NO_WHY);
    *cause = number_of(why.cause);
    *holder = why.holder.unwrap_or(0);
    *ticks = why.ticks;
    r.number() as u32
}

// Why two ports are not in one group, a bit for each reason; none where they are, and beside a refusal.
#[unsafe(no_mangle)]
pub extern "C" fn myrkosti_apart(table: &[u8], first: u32, second: u32, reasons: &mut u32) -> u32
    ensures { MeetsApart first second table.now result reasons.new }
{
    let r = reasons::apart(table, first, second);
    *reasons = r.unwrap_or(NOT_APART).number();
    r.number() as u32
}

// Starts a table of `ports` ports in memory of any content; every port begins with these settings.
#[unsafe(no_mangle)]
pub extern "C" fn myrkosti_start(
    table: &mut [u8],
    ports: u32,
    system_priority: u16,
    system: &[u8; 6],
    collector_max_delay: u16,
    address: &[u8; 6],
    key: u16,
    port_priority: u16,
    activity: bool,
    timeout: bool,
    aggregation: bool,
    partner: &[u8; 15],
) -> u32
    ensures { MeetsNumber
        (call_start ports (system_of system_priority system.now) (delay_of collector_max_delay)
        (settings_of address.now key port_priority activity timeout aggregation partner.now))
        table.old result table.new }
{
    let id = SystemId {
        priority: system_priority,
        address: Address::read(system, 0),
    };
    let s = settings_of(
        address,
        key,
        port_priority,
        activity,
        timeout,
        aggregation,
        partner,
    );
    let a = asked::start(table, ports, id, TensOfMicroseconds(collector_max_delay), s);
    a.number() as u32
}

// ---- moves between the two forms of a table

// The octets that a table of `ports` ports has in the old form, without monitors; 0 for a count outside 1 to 32.
#[unsafe(no_mangle)]
pub extern "C" fn myrkosti_old_table_size(ports: u32) -> u32
    ensures { result ≡ asked_published old_layer ports }
{
    asked::old_table_size(ports)
}

// Writes a table of the old form into other memory, in the form of today: its monitors begin afresh.
#[unsafe(no_mangle)]
pub extern "C" fn myrkosti_forward(old_table: &[u8], new_table: &mut [u8]) -> u32
    ensures { MeetsForwardNumber old_table.now new_table.old result new_table.new }
{
    let a = asked::forward(old_table, new_table);
    a.number() as u32
}

// Writes a table into other memory, in the old form: its monitors are dropped.
#[unsafe(no_mangle)]
pub extern "C" fn myrkosti_back(new_table: &[u8], old_table: &mut [u8]) -> u32
    ensures { MeetsBackNumber new_table.now old_table.old result old_table.new }
{
    let a = asked::back(new_table, old_table);
    a.number() as u32
}
