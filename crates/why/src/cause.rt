// Why a port does not carry: the first of the causes that applies.
ghost use Rattle.std.specs.Prelude.{◌≡◌, ◌<◌};
ghost use Rattle.table.specs.Table.{count_in, ports, port_at};
ghost use Rattle.why.specs.Cause.{number_of, is_defaulted, is_expired, is_by_default, wait_for, longer as cause_longer, longest as cause_longest, cause_of, holder as cause_holder, ticks as cause_ticks, why_of};

use machine::states::Receive;
use port::record::Port;
use table::lent::Table;

// The order is that in which they are asked for, and each keeps its number. Where none is known, in memory that no run made, C has 0.
#[derive(Clone, Copy, PartialEq, Eq)]
pub enum Cause {
    Carries = 1,
    // It carries on the administrative word alone: LACP is off, or the partner is a default.
    CarriesByDefault = 2,
    LinkDown = 3,
    // So LACP is off.
    HalfDuplex = 4,
    // The partner was not heard since the start, or was given up.
    Defaulted = 5,
    // The partner is silent.
    Expired = 6,
    // Its own wait timer runs.
    Waits = 7,
    // Another port waits for the same aggregator with its timer running.
    HeldBack = 8,
    // The partner is not in sync.
    OutOfSync = 9,
    // The partner is in sync and does not collect.
    NotCollecting = 10,
}

// A port by its number, from 1, and the ticks that it still waits.
#[derive(Clone, Copy, PartialEq, Eq)]
pub struct Hold {
    pub port: u32,
    pub ticks: u32,
}

// Kept: a cause holds no port and no ticks itself, since `order` lists causes and `CausesTrue` speaks of each.
#[derive(Clone, Copy, PartialEq, Eq, Default)]
pub struct Why {
    pub cause: Option<Cause>,
    // HeldBack: the number of the port that waits longest, the lowest of several.
    pub holder: Option<u32>,
    // Waits: its own ticks. HeldBack: those of that port. Otherwise 0.
    pub ticks: u32,
}

impl From<Cause> for u32 {
    ghost from_gives = { λ cause n. n ≡ number_of cause };

    fn from(cause: Cause) -> u32 {
        cause as u32
    }
}

fn is_defaulted(r: Receive) -> bool
    ensures { result ≡ is_defaulted r }
{
    matches!(r, Receive::Defaulted)
}

fn is_expired(r: Receive) -> bool
    ensures { result ≡ is_expired r }
{
    matches!(r, Receive::Expired)
}

// LACP is off, or the partner is a default.
fn is_by_default(r: Receive) -> bool
    ensures { result ≡ is_by_default r }
{
    matches!(r, Receive::LacpDisabled | Receive::Defaulted)
}

// ---- who holds others back

// The ticks that port i still waits for aggregator k, if it waits for it and some are left.
#[tactic(auto, unfolding(crate::specs::Cause::wait_for, trunk::specs::Ready::holds_back, trunk::specs::Ready::waits_for))]
fn wait_for(table: &Table, i: usize, k: u8) -> Option<u32>
    requires { i < count_in table.now }
    ensures { result ≡ wait_for k (port_at table.now i) }
{
    let mux = table.phase(i).mux;
    let wait = table.timers(i).wait.0;
    if (table.aggregator(i) == k) & (mux.waits() & !(wait == 0)) {
        Some(wait as u32)
    } else {
        None
    }
}

// Port n with this wait, unless another waits longer.
fn longer(wait: Option<u32>, n: u32, others: Option<Hold>) -> Option<Hold>
    ensures { result ≡ cause_longer wait n others }
{
    match (wait, others) {
        (None, _) => others,
        (Some(wait), Some(hold)) if wait < hold.ticks => others,
        (Some(wait), _) => Some(Hold {
            port: n,
            ticks: wait,
        }),
    }
}

// The port that waits longest for aggregator k, the lowest of several.
fn longest(table: &Table, k: u8) -> Option<Hold>
    ensures { result ≡ cause_longest k 1 (ports table.now) }
{
    let mut hold = None;
    for i in (0..table.count()).rev() {
        hold = longer(wait_for(table, i, k), i as u32 + 1, hold);
    }
    hold
}

// ---- the cause

// The first that applies to a port, whose aggregator somebody holds back or not.
#[tactic(auto, unfolding(crate::specs::Cause::cause_of, crate::specs::Cause::first_of))]
fn cause_of(p: Port, held: bool) -> Option<Cause>
    ensures { result ≡ cause_of held p }
{
    let receive = p.phase.receive;
    let waits = p.phase.mux.waits();
    let carries = p.phase.mux.distributes();
    let by_default = is_by_default(receive);
    if carries & !by_default {
        Some(Cause::Carries)
    } else if carries & by_default {
        Some(Cause::CarriesByDefault)
    } else if !p.line.up {
        Some(Cause::LinkDown)
    } else if !p.line.full {
        Some(Cause::HalfDuplex)
    } else if is_defaulted(receive) {
        Some(Cause::Defaulted)
    } else if is_expired(receive) {
        Some(Cause::Expired)
    } else if waits & !(p.timers.wait.0 == 0) {
        Some(Cause::Waits)
    } else if waits & held {
        Some(Cause::HeldBack)
    } else if !p.partner.state.synchronization {
        Some(Cause::OutOfSync)
    } else if p.partner.state.synchronization & !p.partner.state.collecting {
        Some(Cause::NotCollecting)
    } else {
        None
    }
}

// Who holds the port back, where somebody does.
fn holder(cause: Option<Cause>, hold: Option<Hold>) -> Option<u32>
    ensures { result ≡ cause_holder cause hold }
{
    match cause {
        Some(Cause::HeldBack) => hold.map(|h| h.port),
        _ => None,
    }
}

// The ticks beside a cause: `wait` is the port's own timer.
fn ticks(cause: Option<Cause>, wait: u32, hold: Option<Hold>) -> u32
    ensures { result ≡ cause_ticks cause wait hold }
{
    match (cause, hold) {
        (Some(Cause::Waits), _) => wait,
        (Some(Cause::HeldBack), Some(hold)) => hold.ticks,
        _ => 0,
    }
}

// Why port i, from 0, does not carry, or that it does.
pub fn why_of(table: &Table, i: usize) -> Why
    requires { i < count_in table.now }
    ensures { result ≡ why_of (ports table.now) (port_at table.now i) }
{
    let p = table.load(i);
    let hold = longest(table, p.aggregator);
    let cause = cause_of(p, hold.is_some());
    Why {
        cause: cause,
        holder: holder(cause, hold),
        ticks: ticks(cause, p.timers.wait.0 as u32, hold),
    }
}
