// The story of six ports that form, lose and re-form two trunks, told by the calls, and what they refuse.
// tools/story-of-six.py works out the same lines from the documents.
ghost use Rattle.std.specs.Prelude.{◌≤◌, length};

use crate::OWN_ADDRESS;
use crate::shown::Shown;
use crate::story::{nobody, system};
use control::answer::{Answer, Numbered, length_sent};
use frame::block::{Address, Block, PortId};
use frame::state::PortState;
use frame::wire::{MarkerType, TensOfMicroseconds};
use machine::states::{Line, Mux, Receive};
use port::record::Port;
use settings::Settings;
use std::fmt;
use std::io::{self, Write};
use table::layout::RECORD;
use table::record::read_record;

// A link that is down, and one that is up at half and at full duplex.
const DOWN: Line = Line {
    up: false,
    full: true,
};

const HALF: Line = Line {
    up: true,
    full: false,
};

const FULL: Line = Line {
    up: true,
    full: true,
};

// ---- lines

fn receive_letter(s: Receive) -> char {
    match s {
        Receive::Initialize => 'I',
        Receive::PortDisabled => 'P',
        Receive::Expired => 'E',
        Receive::LacpDisabled => 'L',
        Receive::Defaulted => 'F',
        Receive::Current => 'C',
    }
}

fn mux_letter(s: Mux) -> char {
    match s {
        Mux::Detached => 'd',
        Mux::Waiting => 'w',
        Mux::Attached => 'a',
        Mux::Collecting => 'c',
        Mux::Distributing => 'D',
    }
}

// A port in short: aggregator held, receive state, mux state, and its wait timer, or dashes where it does not wait.
#[derive(Drop)]
struct Cell(Port);

impl fmt::Display for Cell {
    fn fmt<W: fmt::Write>(&self, f: &mut fmt::Formatter<W>) -> fmt::Result {
        let p = self.0;
        write!(f, "{}{}", p.aggregator, receive_letter(p.phase.receive))?;
        write!(f, "{}", mux_letter(p.phase.mux))?;
        if p.phase.mux.waits() {
            write!(f, "{:02}", p.timers.wait.0)
        } else {
            write!(f, "--")
        }
    }
}

// The first six ports: a hash for one that is in the set, and a dash for one that is not.
#[derive(Drop)]
struct Members(u32);

impl fmt::Display for Members {
    fn fmt<W: fmt::Write>(&self, f: &mut fmt::Formatter<W>) -> fmt::Result {
        for i in 0u32..6 {
            write!(f, "{}", if self.0 >> i & 1 == 1 { '#' } else { '-' })?;
        }
        Ok(())
    }
}

// What the report of port n tells.
fn reported(table: &[u8], n: u32) -> Port {
    let mut s = [0u8; RECORD];
    let _ = control::report_port(table, n, &mut s);
    read_record(&s)
}

// What happened, and the six ports after it.
fn tell(w: &mut impl Write, event: &str, table: &[u8]) -> io::Result<()> {
    write!(w, "{event:<34}{}", Cell(reported(table, 1)))?;
    for n in 2..7 {
        write!(w, "  {}", Cell(reported(table, n)))?;
    }
    writeln!(w)
}

fn tell_aggregator(w: &mut impl Write, table: &[u8], k: u32) -> io::Result<()> {
    let sets = control::report_aggregator(table, k).unwrap_or_default();
    write!(w, "  aggregator {k} holds {}", Members(sets.holding))?;
    write!(w, " attached {}", Members(sets.attached))?;
    write!(w, " distributing {}", Members(sets.distributing))?;
    writeln!(w, " count {} lowest {}", sets.count, sets.lowest)
}

fn tell_port(w: &mut impl Write, table: &[u8], n: u32) -> io::Result<()> {
    writeln!(w, "  port {n} {}", Shown(reported(table, n)))
}

fn tell_answer(w: &mut impl Write, what: &str, answer: impl Numbered) -> io::Result<()> {
    writeln!(w, "  {what}: {}", answer.number())
}

// The answer to a received frame has the length sent beside a 0.
fn tell_heard(w: &mut impl Write, what: &str, answer: Answer) -> io::Result<()> {
    match answer {
        Ok(_) => writeln!(w, "  {what}: 0 sent {}", length_sent(answer)),
        Err(why) => tell_answer(w, what, why),
    }
}

// ---- calls

// Key, active, short timeout, aggregatable, and the default partner block's state.
fn settings(key: u16, default: u8) -> Settings {
    Settings {
        address: OWN_ADDRESS,
        key,
        priority: 1,
        activity: true,
        timeout: true,
        aggregation: true,
        default: nobody(default),
    }
}

fn start(table: &mut [u8], count: u32, default: u8) -> Answer {
    control::start(
        table,
        count,
        system(9),
        TensOfMicroseconds(0),
        settings(1, default),
    )
}

fn configure(table: &mut [u8], n: u32, key: u16, default: u8) -> Answer {
    control::configure(table, n, settings(key, default))
}

fn sender(s: u16) -> Address {
    Address {
        high: 0x0200,
        middle: 0,
        low: s,
    }
}

// Port q of system s, key 1, active, short, aggregatable, in sync, collecting and distributing.
fn far_end(s: u16, q: u16) -> Block {
    Block {
        system: system(s),
        key: 1,
        port: PortId {
            priority: 1,
            number: q,
        },
        state: PortState::from(0x3f),
    }
}

// What our port n says of itself.
fn our_end(table: &[u8], n: u32) -> Block {
    let p = reported(table, n);
    p.actor_block(system(9), (n % 65536) as u16)
}

// Writes what far end s.q says to our port n, whose present word of itself it repeats.
fn write_word(table: &[u8], n: u32, s: u16, q: u16, frame: &mut [u8])
    requires { 124 ≤ length frame.old }
{
    frame::wire::write_lacpdu(
        frame,
        sender(s),
        far_end(s, q),
        our_end(table, n),
        TensOfMicroseconds(0),
    );
}

// Far end s.q speaks on our port n.
fn speak(table: &mut [u8], s: u16, q: u16, n: u32) -> Answer {
    let mut frame = [0u8; 124];
    let mut out = [0xffu8; 124];
    write_word(table, n, s, q, &mut frame);
    control::receive(table, n, &frame, &mut out)
}

// A Marker of system 5, port 1, transaction 7, or a Response to it, is received with this buffer.
fn mark(table: &mut [u8], n: u32, kind: MarkerType, out: &mut [u8]) -> Answer {
    let mut frame = [0u8; 124];
    let request = [0, 1, 0, 0, 0, 0, 0, 5, 0, 0, 0, 7];
    frame::wire::write_marker(&mut frame, sender(5), kind, &request);
    control::receive(table, n, &frame, out)
}

// ---- the story

// A step of the story: something happens, or something is told.
#[derive(Clone, Copy)]
enum Step {
    // The line of our port n becomes such.
    Link(u32, Line),
    // Far end s.q speaks on our port n: s, q, n.
    Speak(u16, u16, u32),
    Ticks(u32),
    // The key of our port n becomes such.
    Key(u32, u16),
    // What happened, and the six ports after it.
    Tell(&'static str),
    // Who holds aggregator k, is attached to it and distributes.
    Aggregator(u32),
    // The machines of our port n.
    Machines(u32),
}

use Step::{Aggregator, Key, Link, Machines, Speak, Tell, Ticks};

fn ticks(table: &mut [u8], n: u32) {
    for _ in 0..n {
        let _ = control::tick(table);
    }
}

fn play_one(w: &mut impl Write, table: &mut [u8], step: Step) -> io::Result<()> {
    match step {
        Link(n, line) => {
            let _ = control::line(table, n, line);
            Ok(())
        }
        Speak(s, q, n) => {
            let _ = speak(table, s, q, n);
            Ok(())
        }
        Ticks(n) => {
            ticks(table, n);
            Ok(())
        }
        Key(n, key) => {
            let _ = configure(table, n, key, 0);
            Ok(())
        }
        Tell(event) => tell(w, event, table),
        Aggregator(k) => tell_aggregator(w, table, k),
        Machines(n) => tell_port(w, table, n),
    }
}

fn play(w: &mut impl Write, table: &mut [u8], steps: &[Step]) -> io::Result<()> {
    for step in steps {
        play_one(w, table, *step)?;
    }
    Ok(())
}

const START: [Step; 11] = [
    Tell("start"),
    Aggregator(1),
    Machines(1),
    Link(1, FULL),
    Link(2, FULL),
    Link(3, FULL),
    Link(4, FULL),
    Link(5, FULL),
    Link(6, FULL),
    Tell("links 1 to 6 up"),
    Machines(1),
];

// Two trunks form.
const FORMING: [Step; 16] = [
    Speak(5, 1, 1),
    Speak(5, 2, 2),
    Speak(5, 3, 3),
    Speak(6, 4, 4),
    Speak(6, 5, 5),
    Speak(6, 6, 6),
    Tell("partners 5.1 5.2 5.3, 6.4 6.5 6.6"),
    Machines(1),
    Ticks(19),
    Tell("19 ticks"),
    Ticks(1),
    Tell("1 tick"),
    Aggregator(1),
    Aggregator(4),
    Aggregator(2),
    Machines(4),
];

const LINK_DOWN: [Step; 4] = [
    Link(1, DOWN),
    Tell("link 1 down"),
    Aggregator(1),
    Machines(1),
];

// The cable of link 1 is moved to port 6.
const MOVING: [Step; 14] = [
    Speak(5, 2, 2),
    Speak(5, 3, 3),
    Speak(6, 4, 4),
    Speak(6, 5, 5),
    Speak(6, 6, 6),
    Tell("all speak"),
    Speak(5, 1, 6),
    Tell("5.1 speaks on port 6"),
    Aggregator(1),
    Aggregator(2),
    Aggregator(4),
    Machines(1),
    Ticks(10),
    Tell("10 ticks"),
];

// All far ends but 6.4, which has fallen silent.
const OTHERS_SPEAK: [Step; 5] = [
    Speak(5, 2, 2),
    Speak(5, 3, 3),
    Speak(6, 5, 5),
    Speak(5, 1, 6),
    Tell("all speak but 6.4"),
];

const SILENCE: [Step; 4] = [Ticks(10), Tell("10 ticks"), Aggregator(2), Aggregator(4)];

// Port 4 expires.
const EXPIRY: [Step; 3] = [Ticks(10), Tell("10 ticks"), Machines(4)];

const LONGER_SILENCE: [Step; 2] = [Ticks(20), Tell("20 ticks")];

// Port 4 is defaulted, and port 5 moves.
const DEFAULT: [Step; 5] = [
    Ticks(10),
    Tell("10 ticks"),
    Machines(4),
    Aggregator(4),
    Aggregator(5),
];

// Port 3 has another key.
const OTHER_KEY: [Step; 4] = [
    Key(3, 2),
    Tell("key of port 3 becomes 2"),
    Aggregator(2),
    Aggregator(3),
];

// Port 5 has half duplex.
const HALF_DUPLEX: [Step; 8] = [
    Link(5, HALF),
    Tell("duplex of port 5 half"),
    Machines(5),
    Ticks(20),
    Tell("20 ticks"),
    Aggregator(2),
    Aggregator(3),
    Aggregator(5),
];

// Link 1 comes up at half duplex, and nothing is to be fetched.
const UP_AT_HALF_DUPLEX: [Step; 3] = [Link(1, HALF), Tell("port 1 up at half duplex"), Machines(1)];

const FIRST_BACK: [Step; 9] = [
    Link(1, FULL),
    Tell("duplex of port 1 full"),
    Speak(6, 6, 1),
    Tell("6.6 speaks on port 1"),
    Ticks(5),
    Tell("5 ticks"),
    Speak(6, 4, 4),
    Tell("6.4 speaks on port 4"),
    Aggregator(1),
];

const OTHERS_BACK: [Step; 7] = [
    Link(5, FULL),
    Tell("duplex of port 5 full"),
    Speak(6, 5, 5),
    Tell("6.5 speaks on port 5"),
    Aggregator(1),
    Key(3, 1),
    Tell("key of port 3 becomes 1"),
];

// Two trunks again, of other ports; those of the first wait for one another.
const FORMING_AGAIN: [Step; 16] = [
    Speak(6, 6, 1),
    Speak(6, 4, 4),
    Speak(5, 2, 2),
    Speak(5, 3, 3),
    Speak(6, 5, 5),
    Speak(5, 1, 6),
    Tell("all speak"),
    Ticks(15),
    Tell("15 ticks"),
    Ticks(5),
    Tell("5 ticks"),
    Aggregator(1),
    Aggregator(2),
    Aggregator(3),
    Machines(3),
    Tell("fetch on every port"),
];

fn tell_markers(w: &mut impl Write, table: &mut [u8]) -> io::Result<()> {
    let mut out = [0xffu8; 124];
    tell_heard(w, "LACPDU on port 1", speak(table, 5, 1, 1))?;
    tell_heard(
        w,
        "Marker on port 1",
        mark(table, 1, MarkerType::Marker, &mut out),
    )?;
    tell_heard(
        w,
        "Marker on port 2",
        mark(table, 2, MarkerType::Marker, &mut out),
    )?;
    tell_heard(
        w,
        "Response on port 2",
        mark(table, 2, MarkerType::Response, &mut out),
    )
}

fn tell_fetch(w: &mut impl Write, table: &mut [u8], n: u32) -> io::Result<()> {
    let mut out = [0xffu8; 124];
    let answer = control::fetch(table, n, &mut out);
    writeln!(w, "  fetch on port {n}: {}", answer.number())
}

fn tell_fetches(w: &mut impl Write, table: &mut [u8]) -> io::Result<()> {
    for n in [1, 2, 3, 4, 5, 6, 1] {
        tell_fetch(w, table, n)?;
    }
    Ok(())
}

fn tell_no_change(w: &mut impl Write, table: &mut [u8]) -> io::Result<()> {
    let mut out = [0xffu8; 123];
    tell_answer(
        w,
        "settings as they are on port 1",
        configure(table, 1, 1, 0),
    )?;
    tell_answer(
        w,
        "port 1 up at full duplex again",
        control::line(table, 1, FULL),
    )?;
    tell_answer(
        w,
        "fetch with a buffer of 123 octets",
        control::fetch(table, 1, &mut out),
    )?;
    tell_answer(
        w,
        "settings with a wrong default",
        configure(table, 1, 1, 0x10),
    )
}

fn tell_short_table(w: &mut impl Write, table: &mut [u8]) -> io::Result<()>
    requires { 352 ≤ length table.old }
{
    tell_answer(
        w,
        "tick of a table one octet short",
        control::tick(&mut table[..352]),
    )
}

fn tell_reports(w: &mut impl Write, table: &[u8]) -> io::Result<()> {
    for n in [0, 7] {
        let answer = control::report_port(table, n, &mut []);
        writeln!(w, "  report of port {n}: {}", answer.number())?;
    }
    for k in [0, 7] {
        let answer = control::report_aggregator(table, k);
        writeln!(w, "  report of aggregator {k}: {}", answer.number())?;
    }
    Ok(())
}

fn tell_thirteen_octets(w: &mut impl Write, table: &mut [u8]) -> io::Result<()> {
    let frame = [0u8; 13];
    let mut out = [0xffu8; 124];
    tell_heard(
        w,
        "thirteen octets on port 1",
        control::receive(table, 1, &frame, &mut out),
    )
}

fn tell_odd_version(w: &mut impl Write, table: &mut [u8]) -> io::Result<()> {
    let mut frame = [0u8; 124];
    let mut out = [0xffu8; 124];
    write_word(table, 1, 6, 6, &mut frame);
    octets::put(&mut frame, 15, &[7, 9]);
    tell_heard(
        w,
        "version 7, type octet 9 on port 1",
        control::receive(table, 1, &frame, &mut out),
    )
}

fn tell_short_buffer(w: &mut impl Write, table: &mut [u8]) -> io::Result<()> {
    let mut out = [0xffu8; 123];
    tell_heard(
        w,
        "a Marker with a buffer of 123 octets",
        mark(table, 1, MarkerType::Marker, &mut out),
    )
}

fn tell_starts(w: &mut impl Write, table: &mut [u8]) -> io::Result<()> {
    tell_answer(w, "start with a wrong default", start(table, 6, 0x08))?;
    tell_answer(w, "start of seven ports on this memory", start(table, 7, 0))?;
    let _ = start(table, 6, 0);
    play(w, table, &[Tell("start again"), Aggregator(1)])
}

fn tell_widest(w: &mut impl Write) -> io::Result<()> {
    let mut table = [0u8; 1835];
    tell_answer(w, "start of 32 ports", start(&mut table, 32, 0))?;
    for n in [32, 33] {
        let answer = control::report_port(&table, n, &mut []);
        writeln!(w, "  report of port {n} of 32: {}", answer.number())?;
    }
    Ok(())
}

fn tell_trunks(w: &mut impl Write, table: &mut [u8]) -> io::Result<()> {
    let _ = start(table, 6, 0);
    play(w, table, &START)?;
    play(w, table, &FORMING)?;
    play(w, table, &LINK_DOWN)?;
    tell_markers(w, table)?;
    play(w, table, &MOVING)
}

fn tell_losses(w: &mut impl Write, table: &mut [u8]) -> io::Result<()> {
    for then in [SILENCE.as_slice(), &EXPIRY, &LONGER_SILENCE, &DEFAULT] {
        play(w, table, &OTHERS_SPEAK)?;
        play(w, table, then)?;
    }
    play(w, table, &OTHER_KEY)?;
    play(w, table, &OTHERS_SPEAK)?;
    play(w, table, &HALF_DUPLEX)
}

fn tell_return(w: &mut impl Write, table: &mut [u8]) -> io::Result<()> {
    play(w, table, &UP_AT_HALF_DUPLEX)?;
    tell_fetch(w, table, 1)?;
    play(w, table, &FIRST_BACK)?;
    play(w, table, &OTHERS_BACK)?;
    play(w, table, &FORMING_AGAIN)
}

fn tell_answers(w: &mut impl Write, table: &mut [u8]) -> io::Result<()>
    requires { 352 ≤ length table.old }
{
    tell_fetches(w, table)?;
    tell_no_change(w, table)?;
    tell_short_table(w, table)?;
    tell_reports(w, table)?;
    tell_thirteen_octets(w, table)?;
    tell_odd_version(w, table)?;
    tell_short_buffer(w, table)?;
    tell_starts(w, table)
}

pub fn print_story(w: &mut impl Write) -> io::Result<()> {
    writeln!(
        w,
        "six ports, active, short timeout, aggregatable, default partner block all zeros"
    )?;
    let mut table = [0u8; 353];
    tell_trunks(w, &mut table)?;
    tell_losses(w, &mut table)?;
    tell_return(w, &mut table)?;
    tell_answers(w, &mut table)?;
    tell_widest(w)
}
