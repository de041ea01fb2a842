// The calls (R1.2). Each may be given anything: memory of any length and content, any port number, frame, buffer and setting. It tests in
// the order of R2.14, and a refusal leaves table and outgoing buffer as they came; what an accepted call does stands in `work`.
#![tactic(auto)]

ghost use Rattle.std.specs.Prelude.{◌≡◌};
ghost use Rattle.table.specs.Table.{InTable};
ghost use Rattle.control.specs.Call.{start as call_start, receive as call_receive, tick as call_tick, line as call_line, configure as call_configure, fetch as call_fetch};
ghost use Rattle.control.specs.Meets.{Meets, MeetsOut, MeetsReceive, MeetsFetch, MeetsPort};
ghost use Rattle.control.specs.Report.{aggregator_report, due_report};

use crate::answer::{Accepted, Answer, Reason};
use frame::block::SystemId;
use frame::class::FRAME;
use frame::wire::TensOfMicroseconds;
use machine::states::Line;
use report::Sets;
use settings::Settings;
use table::layout::{Header, RECORD};
use table::lent::{Table, TableMut};

pub mod answer;
mod checks;

// Starts a table of `count` ports in memory of any content; every port begins with these settings.
pub fn start(
    table: &mut [u8],
    count: u32,
    system: SystemId,
    delay: TensOfMicroseconds,
    settings: Settings,
) -> Answer
    ensures { Meets (call_start count system delay settings) table.old result table.new }
{
    if !table::is_room(table, count) {
        return Err(Reason::Table);
    }
    if !settings.is_lawful() {
        return Err(Reason::Default);
    }
    let header = Header {
        count: count as u8,
        system,
        delay,
    };
    work::begin(table, header, settings);
    Ok(Accepted::Done)
}

// A frame was received on port n. The Response to a Marker is written into `out`, and sent by the caller.
pub fn receive(table: &mut [u8], n: u32, frame: &[u8], out: &mut [u8]) -> Answer
    ensures { MeetsOut (call_receive n frame.now out.old) table.old result table.new out.new }
{
    let i = checks::find(table, n)?;
    receive_at(table, i, frame, out)
}

// The port's part of it.
// Kept: over octets, as `receive` is; of a `TableMut` the clause would say besides that it stays the same memory.
fn receive_at(table: &mut [u8], i: usize, frame: &[u8], out: &mut [u8]) -> Answer
    requires { InTable table.old i }
    ensures { MeetsReceive table.old i frame.now out.old result table.new out.new }
{
    if out.len() < FRAME {
        return Err(Reason::Buffer);
    }
    let p = Table::known(table).load(i);
    match checks::judge(frame::class::classify(frame), p.line, p.phase.mux)? {
        Accepted::Done => Ok(Accepted::Done),
        Accepted::Lacpdu => {
            work::receive(&mut TableMut::known(table), i, p, frame);
            Ok(Accepted::Lacpdu)
        }
        Accepted::Marker => {
            work::respond(p, frame, out);
            Ok(Accepted::Marker)
        }
    }
}

// A tenth of a second has passed.
pub fn tick(table: &mut [u8]) -> Answer
    ensures { Meets call_tick table.old result table.new }
{
    if !table::is_table(table) {
        return Err(Reason::Table);
    }
    work::advance(&mut TableMut::known(table));
    Ok(Accepted::Done)
}

// The link of port n is up or down now, and its duplex full or half: one event, and none where both are as they were.
pub fn line(table: &mut [u8], n: u32, line: Line) -> Answer
    ensures { Meets (call_line n line) table.old result table.new }
{
    let i = checks::find(table, n)?;
    work::set_line(&mut TableMut::known(table), i, line);
    Ok(Accepted::Done)
}

// Port n has these settings from now on.
pub fn configure(table: &mut [u8], n: u32, settings: Settings) -> Answer
    ensures { Meets (call_configure n settings) table.old result table.new }
{
    let i = checks::find(table, n)?;
    if settings.is_lawful() {
        work::configure(&mut TableMut::known(table), i, settings);
        Ok(Accepted::Done)
    } else {
        Err(Reason::Default)
    }
}

// The next LACPDU of port n is written into `out`, and sent by the caller.
pub fn fetch(table: &mut [u8], n: u32, out: &mut [u8]) -> Answer
    ensures { MeetsOut (call_fetch n out.old) table.old result table.new out.new }
{
    let i = checks::find(table, n)?;
    fetch_at(table, i, out)
}

// Mostly nothing is due because NTT is clear, which is seen without the rest of the record.
// Kept: over octets, as `fetch` is; of a `TableMut` the clause would say besides that it stays the same memory.
fn fetch_at(table: &mut [u8], i: usize, out: &mut [u8]) -> Answer
    requires { InTable table.old i }
    ensures { MeetsFetch table.old i out.old result table.new out.new }
{
    if out.len() < FRAME {
        return Err(Reason::Buffer);
    }
    let known = Table::known(table);
    if !known.ntt(i) {
        return Err(Reason::NothingToSend);
    }
    let p = known.load(i);
    p.due()?;
    work::send(&mut TableMut::known(table), i, p, out);
    Ok(Accepted::Done)
}

// Kept: a match and no `?`, since a refusal writes zeros too (R2.20).
// The record of port n, as many of its octets as fit into `record`, from the front; zeros beside a refusal.
pub fn report_port(table: &[u8], n: u32, record: &mut [u8]) -> Answer
    ensures { MeetsPort n table.now «record».old result «record».new }
{
    match checks::find(table, n) {
        Err(why) => {
            octets::put_fitting(record, &[0; RECORD]);
            Err(why)
        }
        Ok(i) => {
            octets::put_fitting(record, Table::known(table).look(i));
            Ok(Accepted::Done)
        }
    }
}

// The ports that hold aggregator n, are attached to it and distribute.
pub fn report_aggregator(table: &[u8], n: u32) -> Result<Sets, Reason>
    ensures { result ≡ aggregator_report n table.now }
{
    checks::find(table, n)?;
    Ok(report::aggregator_of(&Table::known(table), n as u8))
}

// The ports that have something to send: those whose fetch would be answered 0.
pub fn report_due(table: &[u8]) -> Result<u32, Reason>
    ensures { result ≡ due_report table.now }
{
    let Some(table) = Table::of(table) else {
        return Err(Reason::Table);
    };
    Ok(report::due_ports(&table))
}
