// The calls (R1.2) on a table with its monitors. Each may be given anything. It is `control`'s call on the table without them; where that did steps 3 to 6,
// the churn detection machines then run.
#![tactic(auto)]

ghost use Rattle.std.specs.Prelude.{◌≡◌, ◌-◌, ◌≤◌, true, length, is_some, IfOk, IfSome};
ghost use Rattle.machine.specs.States.{same_line};
ghost use Rattle.settings.specs.Settings.{same_settings};
ghost use Rattle.table.specs.Layout.{place};
ghost use Rattle.table.specs.Record.{decoded};
ghost use Rattle.table.specs.Table.{count_in, port_at};
ghost use Rattle.churn.specs.Whole.{whole_size};
ghost use Rattle.control.specs.Call.{start as call_start, receive as call_receive, tick as call_tick, line as call_line, configure as call_configure, fetch as call_fetch};
ghost use Rattle.control.specs.Answer.{is_number};
ghost use Rattle.whole.specs.Calls.{is_whole_room, base_found, watched_if};
ghost use Rattle.whole.specs.Meets.{Meets, MeetsOut, MeetsPort};
ghost use Rattle.whole.specs.Moves.{goes_forward, goes_back, MeetsForward, MeetsBack};
ghost use Rattle.whole.specs.Report.{whole_aggregator, whole_due, whole_published};

use churn::Stage;
use churn::group::GROUP;
use control::answer::{Accepted, Answer, Reason, is_lacpdu};
use frame::block::SystemId;
use frame::wire::TensOfMicroseconds;
use machine::states::Line;
use report::Sets;
use settings::Settings;
use table::layout::{RECORD, place_of};

// The octets of a record with its monitors.
pub const WHOLE_RECORD: usize = 71;

// Answer 1, or the octets of the table without its monitors.
fn base_size(table: &[u8]) -> Result<usize, Reason>
    ensures { (result ≡ base_found table.now) × IfOk result (λ b. b ≤ length table.now) }
{
    if !churn::has_monitors(table) {
        return Err(Reason::Table);
    }
    Ok(place_of(table[0] as usize))
}

// The machines of every port, if the call did steps 3 to 6.
fn watch_if(table: &mut [u8], settled: bool, stage: Stage)
    requires { settled ≡ true → length table.old ≡ whole_size (count_in table.old) }
    ensures { table.new ≡ watched_if settled stage table.old }
{
    if settled {
        churn::watch_all(table, stage);
    }
}

// A tenth of a second has passed.
pub fn tick(table: &mut [u8]) -> Answer
    ensures { Meets call_tick table.old result table.new }
{
    let b = base_size(table)?;
    let a = control::tick(&mut table[..b]);
    watch_if(table, a.is_ok(), Stage::Tick);
    a
}

// A frame was received on port n. The Response to a Marker is written into `out`, and sent by the caller.
pub fn receive(table: &mut [u8], n: u32, frame: &[u8], out: &mut [u8]) -> Answer
    ensures { MeetsOut (call_receive n frame.now out.old) table.old result table.new out.new }
{
    let b = base_size(table)?;
    let a = control::receive(&mut table[..b], n, frame, out);
    watch_if(table, is_lacpdu(a), Stage::Other);
    a
}

// The next LACPDU of port n is written into `out`, and sent by the caller.
pub fn fetch(table: &mut [u8], n: u32, out: &mut [u8]) -> Answer
    ensures { MeetsOut (call_fetch n out.old) table.old result table.new out.new }
{
    let b = base_size(table)?;
    control::fetch(&mut table[..b], n, out)
}

// The record of port n of a table without monitors, if there is one.
pub fn record_of(base: &[u8], n: u32) -> Option<&[u8; RECORD]>
    requires { length base.now ≡ place (count_in base.now) }
    ensures { (is_some result ≡ is_number base.now n) × IfSome result (λ r. decoded r.now ≡ port_at base.now (n - 1)) }
{
    if !(1..=u32::from(base[0])).contains(&n) {
        return None;
    }
    let i = n - 1;
    Some(table::record_at(base, i as usize))
}

// Whether port n, if there is one, has this line.
fn has_line(table: &[u8], n: u32, line: Line) -> bool
    requires { length table.now ≡ place (count_in table.now) }
    ensures { is_number table.now n ≡ true → result ≡ same_line line (port_at table.now (n - 1)).line }
{
    match record_of(table, n) {
        Some(record) => line == table::record::line_in(record),
        None => false,
    }
}

// Whether port n, if there is one, has these settings.
fn has_settings(table: &[u8], n: u32, settings: Settings) -> bool
    requires { length table.now ≡ place (count_in table.now) }
    ensures { is_number table.now n ≡ true → result ≡ same_settings settings (port_at table.now (n - 1)) }
{
    match record_of(table, n) {
        Some(record) => settings.is_held(table::record::read_record(record)),
        None => false,
    }
}

// The link of port n is up or down now, and its duplex full or half.
pub fn line(table: &mut [u8], n: u32, line: Line) -> Answer
    ensures { Meets (call_line n line) table.old result table.new }
{
    let b = base_size(table)?;
    let same = has_line(&table[..b], n, line);
    let a = control::line(&mut table[..b], n, line);
    watch_if(table, a.is_ok() & !same, Stage::Other);
    a
}

// Port n has these settings from now on.
pub fn configure(table: &mut [u8], n: u32, settings: Settings) -> Answer
    ensures { Meets (call_configure n settings) table.old result table.new }
{
    let b = base_size(table)?;
    let same = has_settings(&table[..b], n, settings);
    let a = control::configure(&mut table[..b], n, settings);
    watch_if(table, a.is_ok() & !same, Stage::Other);
    a
}

// Kept: `table`, `whole` and `asked` have a test each, one line over the size that their own tables have.
// Whether memory has the size of a table of `count` ports with monitors.
fn is_room(table: &[u8], count: u32) -> bool
    ensures { result ≡ is_whole_room table.now count }
{
    if !(1..=32).contains(&count) {
        return false;
    }
    table.len() == churn::whole_size(count as usize)
}

// Starts a table of `count` ports in memory of any content; every port begins with these settings.
pub fn start(
    table: &mut [u8],
    count: u32,
    system: SystemId,
    delay: TensOfMicroseconds,
    settings: Settings,
) -> Answer
    ensures { Meets (call_start count system delay settings) table.old result table.new }
{
    if !is_room(table, count) {
        return Err(Reason::Table);
    }
    let b = place_of(count as usize);
    let a = control::start(&mut table[..b], count, system, delay, settings);
    watch_if(table, a.is_ok(), Stage::Start);
    a
}

// Kept: a match and no `?`, since a refusal writes zeros too (R2.20).
// The record of port n and its monitors, as many of their octets as fit into `record`, from the front; zeros beside a refusal.
pub fn report_port(table: &[u8], n: u32, record: &mut [u8]) -> Answer
    ensures { MeetsPort n table.now «record».old result «record».new }
{
    let b = match base_size(table) {
        Ok(b) => b,
        Err(why) => {
            octets::put_fitting(record, &[0; WHOLE_RECORD]);
            return Err(why);
        }
    };
    let a = control::report_port(&table[..b], n, record);
    if record.len() < RECORD {
        return a;
    }
    if a.is_ok() {
        let i = n - 1;
        octets::put_fitting(&mut record[RECORD..], churn::group_at(table, i as usize));
        return a;
    }
    octets::put_fitting(&mut record[RECORD..], &[0; GROUP]);
    a
}

// The ports that hold aggregator n, are attached to it and distribute.
pub fn report_aggregator(table: &[u8], n: u32) -> Result<Sets, Reason>
    ensures { result ≡ whole_aggregator n table.now }
{
    let b = base_size(table)?;
    control::report_aggregator(&table[..b], n)
}

// The ports that have something to send: those whose fetch would be answered 0.
pub fn report_due(table: &[u8]) -> Result<u32, Reason>
    ensures { result ≡ whole_due table.now }
{
    let b = base_size(table)?;
    control::report_due(&table[..b])
}

// Kept: a number and no Option, since `whole_published` and R22.1 in docs/RULES.md say 0, as C gets it.
// The octets that a table of `count` ports has; 0 for a count outside 1 to 32.
pub fn table_size(count: u32) -> u32
    ensures { result ≡ whole_published count }
{
    if !(1..=32).contains(&count) {
        return 0;
    }
    churn::whole_size(count as usize) as u32
}

// ---- moves between the two forms of a table

// Kept: forward and back are two, since one begins monitors and the other drops them; they share a test of sizes and a copy.
// Whether `old` is a table without monitors, and the other memory has the size of the same table with them.
fn goes_forward(old: &[u8], new: &[u8]) -> bool
    ensures { result ≡ goes_forward old.now new.now }
{
    if !table::is_table(old) {
        return false;
    }
    new.len() == churn::whole_size(old[0] as usize)
}

// A table without monitors is turned into one with them: they begin afresh and run once.
pub fn forward(old: &[u8], new: &mut [u8]) -> Answer
    ensures { MeetsForward old.now new.old result new.new }
{
    if !goes_forward(old, new) {
        return Err(Reason::Table);
    }
    octets::put(new, 0, old);
    churn::watch_all(new, Stage::Start);
    Ok(Accepted::Done)
}

// Whether `new` is a table with monitors, and the other memory has the size of the same table without them.
fn goes_back(new: &[u8], old: &[u8]) -> bool
    ensures { result ≡ goes_back new.now old.now }
{
    match base_size(new) {
        Ok(b) => table::is_table(&new[..b]) & (old.len() == b),
        Err(_) => false,
    }
}

// A table with monitors is turned into one without them.
pub fn back(new: &[u8], old: &mut [u8]) -> Answer
    ensures { MeetsBack new.now old.old result old.new }
{
    if !goes_back(new, old) {
        return Err(Reason::Table);
    }
    let b = place_of(new[0] as usize);
    octets::put(old, 0, &new[..b]);
    Ok(Accepted::Done)
}
