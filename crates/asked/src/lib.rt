// The calls (R1.2) on a table with what its ports asked for, and the call that asks for a Marker (43.5). Each may be given anything. A call of before is `whole`'s on the
// front of the memory, and then the groups behind it.
#![tactic(auto)]

ghost use Rattle.std.specs.Prelude.{◌≡◌, Bool, true, cond, ◌&&◌, ◌++◌, ◌+◌, ◌*◌, ◌-◌, ◌≤◌, ◌<◌, length, take, drop, eqb, IfOk};
ghost use Rattle.octets.specs.Octets.{within};
ghost use Rattle.frame.specs.Class.{frame_size};
ghost use Rattle.frame.specs.Wire.{marker};
ghost use Rattle.frame.specs.declared.wire.MarkerType.TheVariants as kind;
ghost use Rattle.table.specs.Layout.{place};
ghost use Rattle.table.specs.Table.{count_in, port_at, ours, InTable};
ghost use Rattle.asks.specs.Ask.{longest_wait};
ghost use Rattle.asks.specs.Group.{group_size};
ghost use Rattle.asks.specs.Groups.{ask_at, groups_in_range, all_fallen, all_begun};
ghost use Rattle.control.specs.Answer.{answer_number, is_number};
ghost use Rattle.control.specs.Call.{start as call_start, receive as call_receive, tick as call_tick, line as call_line, configure as call_configure, fetch as call_fetch, report as call_report};
ghost use Rattle.whole.specs.Calls.{whole_answer};
ghost use Rattle.asked.specs.Layer.{old_layer, new_layer};
ghost use Rattle.asked.specs.Asked.{is_asked_room, front_found, size_found, ended_at, request_of, brings_back};
ghost use Rattle.asked.specs.Calls.{falls_from};
ghost use Rattle.asked.specs.Meets.{Meets, MeetsOut, MeetsAsk, MeetsPort};
ghost use Rattle.asked.specs.Moves.{MeetsForward, MeetsBack};
ghost use Rattle.asked.specs.Report.{asked_aggregator, asked_due, asked_published};

use crate::form::{Form, New, Old};
use crate::said::AskRefusal;
use asks::ask::Outcome;
use asks::group::{GROUP, LONGEST_WAIT};
use control::answer::{Accepted, Answer, Reason};
use frame::block::{Address, SystemId};
use frame::class::FRAME;
use frame::wire::{MarkerType, TensOfMicroseconds};
use machine::states::Line;
use octets::InOctets;
use report::Sets;
use settings::Settings;
use table::layout::place_of;
use table::lent::Table;
use whole::WHOLE_RECORD;

mod form;
pub mod said;

// The octets of a port's record.
pub const ASKED_RECORD: usize = 78;

// ---- the memory: a front of `f` octets, and the groups

// Whether memory with a front of `f` octets has the size for its port count, and each group is in range.
fn is_asked(table: &[u8], f: usize) -> bool
    requires { 1 ≤ length table.now }
    ensures { result ≡ (eqb (length table.now) (f + group_size * count_in table.now) && groups_in_range (count_in table.now) (drop f table.now)) }
{
    let n = table[0] as usize;
    let g = GROUP * n;
    if table.len() < g {
        return false;
    }
    if table.len() - g != f {
        return false;
    }
    asks::are_groups(&table[f..], n)
}

// Answer 1, or the octets of the front.
fn front_size<F: Form>(table: &[u8]) -> Result<usize, Reason>
    ensures { (result ≡ front_found F.layer table.now) × IfOk result (λ f. f ≤ length table.now) }
{
    if table.len() == 0 {
        return Err(Reason::Table);
    }
    let f = F::front_size(table[0] as usize);
    if !is_asked(table, f) {
        return Err(Reason::Table);
    }
    Ok(f)
}

// The octets of a table of `count` ports, for a count from 1 to 32.
fn size_of<F: Form>(count: u32) -> Option<u32>
    ensures { result ≡ size_found F.layer count }
{
    if !(1..=32).contains(&count) {
        return None;
    }
    let n = count as usize;
    Some((F::front_size(n) + GROUP * n) as u32)
}

// A tick of the groups of `n` ports behind a front of `f` octets, if it was accepted.
fn fall_if(table: &mut [u8], f: usize, n: usize, falls: bool)
    requires { length table.old ≡ f + group_size * n }
    ensures { table.new ≡ take f table.old ++ cond falls (all_fallen n (drop f table.old)) (drop f table.old) }
{
    if falls {
        asks::fall_all(&mut table[f..], n);
    }
}

// A start of them.
fn begin_if(table: &mut [u8], f: usize, n: usize, begins: bool)
    requires { length table.old ≡ f + group_size * n }
    ensures { table.new ≡ take f table.old ++ cond begins (all_begun n) (drop f table.old) }
{
    if begins {
        asks::begin_all(&mut table[f..], n);
    }
}

// What port `i`, from 0, awaits comes to this end.
fn end(table: &mut [u8], f: usize, i: usize, outcome: Outcome)
    requires { f + (group_size * i + group_size) ≤ length table.old }
    ensures { table.new ≡ take f table.old ++ ended_at outcome i (drop f table.old) }
{
    let a = asks::at(&table[f..], i);
    asks::store(&mut table[f..], i, a.end(outcome));
}

// ---- the calls of before

// A tenth of a second has passed.
pub fn tick(table: &mut [u8]) -> Answer
    ensures { Meets call_tick table.old result table.new }
{
    let f = front_size::<New>(table)?;
    let n = table[0] as usize;
    let a = whole::tick(&mut table[..f]);
    fall_if(table, f, n, a.is_ok());
    a
}

// Requester port, requester system and transaction of a Marker, as octets.
fn write_request(out: &mut [u8; 12], n: u16, system: Address, number: u32)
    ensures { out.new ≡ request_of n system number }
{
    octets::put_number(out, 0, n);
    system.write(out, 2);
    octets::put_number(out, 8, number);
}

// Whether a Response on port n brings back what the port awaits. Header and records are the first `b` octets, and the groups lie behind `f`.
// Kept: the memory goes on behind its table, for the groups are read too, so the clause speaks of its front.
fn brings(table: &[u8], b: usize, f: usize, n: u32, frame: &[u8]) -> bool
    requires { InTable (take b table.now) (n - 1) × (1 ≤ n) × (n ≤ 32) × (b ≤ length table.now) × (f + group_size * n ≤ length table.now) × (frame_size ≤ length frame.now) }
    ensures { result ≡ brings_back n (ours (take b table.now)).system.address frame.now (ask_at (drop f table.now) (n - 1)) }
{
    let i = n - 1;
    let a = asks::at(&table[f..], i as usize);
    let outcome = a.outcome;
    if !outcome.is_awaiting() {
        return false;
    }
    let header = Table::known(&table[..b]).header();
    let system = header.system;
    let mut request = [0u8; 12];
    write_request(&mut request, n as u16, system.address, a.awaited());
    octets::same(frame::wire::request(frame), &request)
}

// Whether a received frame is refused as a Marker Response.
fn is_response(a: Answer) -> bool
    ensures { result ≡ eqb (answer_number a) 12 }
{
    matches!(a, Err(Reason::Response))
}

// A frame was received on port n. The Response to a Marker is written into `out`, and sent by the caller.
pub fn receive(table: &mut [u8], n: u32, frame: &[u8], out: &mut [u8]) -> Answer
    ensures { MeetsOut (call_receive n frame.now out.old) table.old result table.new out.new }
{
    let f = front_size::<New>(table)?;
    let b = place_of(table[0] as usize);
    let a = whole::receive(&mut table[..f], n, frame, out);
    if !is_response(a) {
        return a;
    }
    if !brings(table, b, f, n, frame) {
        return a;
    }
    let i = n - 1;
    end(table, f, i as usize, Outcome::Answered);
    Ok(Accepted::Done)
}

// The next LACPDU of port n is written into `out`, and sent by the caller.
pub fn fetch(table: &mut [u8], n: u32, out: &mut [u8]) -> Answer
    ensures { MeetsOut (call_fetch n out.old) table.old result table.new out.new }
{
    let f = front_size::<New>(table)?;
    whole::fetch(&mut table[..f], n, out)
}

// Whether the link of port n, if there is one, is up and this line is another.
fn falls(base: &[u8], n: u32, line: Line) -> bool
    requires { length base.now ≡ place (count_in base.now) }
    ensures { is_number base.now n ≡ true → result ≡ falls_from (port_at base.now (n - 1)).line line }
{
    match whole::record_of(base, n) {
        Some(record) => {
            let before = table::record::line_in(record);
            let same = line == before;
            before.up & !same
        }
        None => false,
    }
}

// The link of port n is up or down now, and its duplex full or half.
pub fn line(table: &mut [u8], n: u32, line: Line) -> Answer
    ensures { Meets (call_line n line) table.old result table.new }
{
    let f = front_size::<New>(table)?;
    let b = place_of(table[0] as usize);
    let ends = falls(&table[..b], n, line);
    let a = whole::line(&mut table[..f], n, line);
    if a.is_ok() & ends {
        let i = n - 1;
        end(table, f, i as usize, Outcome::Cancelled);
    }
    a
}

// Port n has these settings from now on.
pub fn configure(table: &mut [u8], n: u32, settings: Settings) -> Answer
    ensures { Meets (call_configure n settings) table.old result table.new }
{
    let f = front_size::<New>(table)?;
    whole::configure(&mut table[..f], n, settings)
}

// Whether memory has the size of a table of `count` ports.
fn is_room(table: &[u8], count: u32) -> bool
    ensures { result ≡ is_asked_room new_layer table.now count }
{
    match size_of::<New>(count) {
        Some(size) => table.len() == size as usize,
        None => false,
    }
}

// Starts a table of `count` ports in memory of any content; every port begins with these settings.
pub fn start(
    table: &mut [u8],
    count: u32,
    system: SystemId,
    delay: TensOfMicroseconds,
    settings: Settings,
) -> Answer
    ensures { Meets (call_start count system delay settings) table.old result table.new }
{
    if !is_room(table, count) {
        return Err(Reason::Table);
    }
    let n = count as usize;
    let f = churn::whole_size(n);
    let a = whole::start(&mut table[..f], count, system, delay, settings);
    begin_if(table, f, n, a.is_ok());
    a
}

// ---- the ask

// Answers 1 and 2 of a port's front.
fn find(front: &[u8], n: u32) -> Answer
    ensures { result ≡ whole_answer (call_report n) front.now }
{
    whole::report_port(front, n, &mut [])
}

// Writes the Marker of port n, whose number is `number`, over the first 124 octets of out. `base` is the header and the records.
fn write_marker(base: &Table, n: u32, number: u32, out: &mut [u8])
    requires { (n - 1 < count_in base.now) × (1 ≤ n) × (n ≤ 32) × (frame_size ≤ length out.old) }
    ensures { out.new ≡ marker (port_at base.now (n - 1)).own.address kind.Marker (request_of n (ours base.now).system.address number) ++ drop frame_size out.old }
{
    let i = n - 1;
    let p = base.load(i as usize);
    let header = base.header();
    let system = header.system;
    let mut request = [0u8; 12];
    write_request(&mut request, n as u16, system.address, number);
    let own = p.own;
    frame::wire::write_marker(out, own.address, MarkerType::Marker, &request);
}

// Whether a Marker can be awaited for so many ticks.
fn is_wait(ticks: u32) -> bool
    ensures { result ≡ within 1 ticks longest_wait }
{
    (1..=LONGEST_WAIT as u32).contains(&ticks)
}

// A Marker is asked for on port n, with a time to wait; it is written into `out`, and sent by the caller.
pub fn ask(table: &mut [u8], n: u32, wait: u32, out: &mut [u8]) -> Result<(), AskRefusal>
    ensures { MeetsAsk n wait out.old table.old result table.new out.new }
{
    let f = front_size::<New>(table)?;
    let b = place_of(table[0] as usize);
    find(&table[..f], n)?;
    if out.len() < FRAME {
        return Err(AskRefusal::Plain(Reason::Buffer));
    }
    if !is_wait(wait) {
        return Err(AskRefusal::Wait);
    }
    let i = n - 1;
    if !Table::known(&table[..b])
        .phase(i as usize)
        .mux
        .distributes()
    {
        return Err(AskRefusal::NotDistributing);
    }
    let q = asks::at(&table[f..], i as usize);
    if q.outcome.is_awaiting() {
        return Err(AskRefusal::Awaiting);
    }
    write_marker(&Table::known(&table[..b]), n, q.number, out);
    asks::store(&mut table[f..], i as usize, q.ask(wait as u16));
    Ok(())
}

// ---- reports

// Kept: a match and no `?`, since a refusal writes zeros too (R2.20).
// The record of port n, its monitors and what it asked for, as many of their octets as fit into `record`, from the front; zeros beside a refusal.
pub fn report_port(table: &[u8], n: u32, record: &mut [u8]) -> Answer
    ensures { MeetsPort n table.now «record».old result «record».new }
{
    let f = match front_size::<New>(table) {
        Ok(f) => f,
        Err(why) => {
            octets::put_fitting(record, &[0; ASKED_RECORD]);
            return Err(why);
        }
    };
    let a = whole::report_port(&table[..f], n, record);
    if record.len() < WHOLE_RECORD {
        return a;
    }
    if a.is_ok() {
        let i = n - 1;
        octets::put_fitting(
            &mut record[WHOLE_RECORD..],
            asks::group_at(&table[f..], i as usize),
        );
        return a;
    }
    octets::put_fitting(&mut record[WHOLE_RECORD..], &[0; GROUP]);
    a
}

// The ports that hold aggregator n, are attached to it and distribute.
pub fn report_aggregator(table: &[u8], n: u32) -> Result<Sets, Reason>
    ensures { result ≡ asked_aggregator n table.now }
{
    let f = front_size::<New>(table)?;
    whole::report_aggregator(&table[..f], n)
}

// The ports that have something to send: those whose fetch would be answered 0.
pub fn report_due(table: &[u8]) -> Result<u32, Reason>
    ensures { result ≡ asked_due table.now }
{
    let f = front_size::<New>(table)?;
    whole::report_due(&table[..f])
}

// Kept: a number and no Option, since `asked_published` and R22.1 in docs/RULES.md say 0, as C gets it.
// The octets that a table of `count` ports has; 0 for a count outside 1 to 32.
pub fn table_size(count: u32) -> u32
    ensures { result ≡ asked_published new_layer count }
{
    size_of::<New>(count).unwrap_or(0)
}

// The same of the old form.
pub fn old_table_size(count: u32) -> u32
    ensures { result ≡ asked_published old_layer count }
{
    size_of::<Old>(count).unwrap_or(0)
}

// ---- moves between the two forms of a table

// Kept: forward and back are two, since each calls its own move of `whole` and puts the groups behind another front.
// A table of the old form is written into other memory, in the form of today: its front moves forward, and the groups go along.
pub fn forward(old: &[u8], new: &mut [u8]) -> Answer
    ensures { MeetsForward old.now new.old result new.new }
{
    let b = front_size::<Old>(old)?;
    let n = old[0] as usize;
    let f = churn::whole_size(n);
    if new.len() != f + GROUP * n {
        return Err(Reason::Table);
    }
    let a = whole::forward(&old[..b], &mut new[..f]);
    if a.is_ok() {
        octets::put(new, f, &old[b..]);
    }
    a
}

// A table is written into other memory, in the old form: its front moves back, and the groups go along.
pub fn back(new: &[u8], old: &mut [u8]) -> Answer
    ensures { MeetsBack new.now old.old result old.new }
{
    let f = front_size::<New>(new)?;
    let n = new[0] as usize;
    let b = place_of(n);
    if old.len() != b + GROUP * n {
        return Err(Reason::Table);
    }
    let a = whole::back(&new[..f], &mut old[..b]);
    if a.is_ok() {
        octets::put(old, b, &new[f..]);
    }
    a
}
