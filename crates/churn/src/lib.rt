// Churn detection (43.4.17): the two machines that watch a port's Synchronizations, their octets behind the ports' records, and a run of all of them.
#![tactic(auto)]

ghost use Rattle.std.specs.Prelude.{◌≡◌, ◌+◌, ◌≤◌, ◌<◌, length, true};
ghost use Rattle.octets.specs.Octets.{put_at};
ghost use Rattle.table.specs.Record.{decoded};
ghost use Rattle.table.specs.Table.{count_in, port_at};
ghost use Rattle.churn.specs.Churn.{watching};
ghost use Rattle.churn.specs.Group.{group_of, group_size, group_octets};
ghost use Rattle.churn.specs.Rest.{begins, rests as rest_rests, rest_to};
ghost use Rattle.churn.specs.Whole.{group_place, whole_size, base_of, group_at, groups_in_range, has_monitors, prepared, watched_at, watched_all};

use crate::group::GROUP;
use crate::watch::Monitors;
use table::layout::{RECORD, place_of};
use table::record::{actor_in, line_in, partner_in};

pub mod group;
pub mod watch;

// What goes before the machines in a call: a start begins them anew, a tick has made their timers fall.
// Kept: a value and no closure, since `watched_all`, `stage_of` (whole) and `event_of` (promises) speak of it, and theorems of promises by them.
#[derive(Clone, Copy, PartialEq, Eq)]
pub enum Stage {
    Start,
    Tick,
    Other,
}

impl Stage {
    // Whether the machines begin anew.
    fn begins(self) -> bool
        ensures { result ≡ begins self }
    {
        self == Stage::Start
    }
}

// The monitors as the machines find them.
fn prepare(stage: Stage, s: &[u8; GROUP]) -> Monitors
    ensures { result ≡ prepared stage (group_of s.now) }
{
    match stage {
        Stage::Start => Monitors::default(),
        Stage::Tick => Monitors::from(s).fall(),
        Stage::Other => Monitors::from(s),
    }
}

// Both machines of a port whose record is s.
#[tactic(auto, unfolding(crate::specs::Churn::watching, table::specs::Record::decoded))]
fn run_both(s: &[u8; RECORD], m: Monitors) -> Monitors
    ensures { result ≡ watching (decoded s.now) m }
{
    let line = line_in(s);
    Monitors {
        actor: m.actor.run(line.up, actor_in(s).synchronization),
        partner: m.partner.run(line.up, partner_in(s).synchronization),
    }
}

// A run of the machines of port `i`, from 0.
// Kept: its size stands in these contracts and in no type: a table is octets that C lends for one call, and a struct would be built of them anew in each.
fn run_one(table: &mut [u8], i: usize, stage: Stage)
    requires { (length table.old ≡ whole_size (count_in table.old)) × (i < count_in table.old) }
    ensures { table.new ≡ put_at (group_place (count_in table.old) i) (group_octets (watched_at stage table.old i)) table.old }
{
    let m = prepare(stage, group_at(table, i));
    let r = run_both(table::record_at(table, i), m);
    let at = place_of(table[0] as usize) + GROUP * i;
    octets::put(table, at, &<[u8; GROUP]>::from(r));
}

// Whether the machines of a port whose record is s give its group g back, unless they begin anew. Mostly both Synchronizations are set.
#[tactic(auto, unfolding(crate::specs::Rest::rests, table::specs::Record::decoded))]
fn rests(s: &[u8; RECORD], g: &[u8; GROUP]) -> bool
    ensures { result ≡ rest_rests (decoded s.now) g.now }
{
    if !line_in(s).up {
        return group::is_fresh(g);
    }
    match (actor_in(s).synchronization, partner_in(s).synchronization) {
        (true, true) => group::is_still(true, true, g),
        (ours, theirs) => group::is_still(ours, theirs, g),
    }
}

// The same of port `i`, from 0.
fn rests_at(table: &[u8], i: usize) -> bool
    requires { (length table.now ≡ whole_size (count_in table.now)) × (i < count_in table.now) }
    ensures { result ≡ rest_rests (port_at (base_of table.now) i) (group_at table.now i) }
{
    rests(table::record_at(table, i), group_at(table, i))
}

// How many ports rest, from the first on, up to one that does not.
fn resting(table: &[u8]) -> usize
    requires { length table.now ≡ whole_size (count_in table.now) }
    ensures { (result ≤ count_in table.now) × (rest_to result table.now ≡ true) }
{
    let n = table[0] as usize;
    for i in 0..n {
        if !rests_at(table, i) {
            return i;
        }
    }
    n
}

// The first port, from 0, whose machines are to run; those before it rest. On most calls there is none.
fn first_to_run(table: &[u8], stage: Stage) -> usize
    requires { length table.now ≡ whole_size (count_in table.now) }
    ensures { (result ≤ count_in table.now) × (rest_to result table.now ≡ true) × (begins stage ≡ true → result ≡ 0) }
{
    if stage.begins() { 0 } else { resting(table) }
}

// The machines of port `i`, from 0, unless they rest.
fn watch_one(table: &mut [u8], i: usize, stage: Stage)
    requires { (length table.old ≡ whole_size (count_in table.old)) × (i < count_in table.old) }
    ensures { table.new ≡ put_at (group_place (count_in table.old) i) (group_octets (watched_at stage table.old i)) table.old }
{
    if stage.begins() || !rests_at(table, i) {
        run_one(table, i, stage);
    }
}

// The machines of every port, on what stands after step 6.
pub fn watch_all(table: &mut [u8], stage: Stage)
    requires { length table.old ≡ whole_size (count_in table.old) }
    ensures { table.new ≡ watched_all stage table.old }
{
    let n = table[0] as usize;
    for i in first_to_run(table, stage)..n {
        watch_one(table, i, stage);
    }
}

// The octets that a table of `count` ports has with its monitors.
pub fn whole_size(count: usize) -> usize
    requires { count ≤ 255 }
    ensures { result ≡ whole_size count }
{
    place_of(count) + GROUP * count
}

// The part of a table that is group `i`, from 0.
#[tactic(auto, unfolding(crate::specs::Whole::group_at))]
pub fn group_at(table: &[u8], i: usize) -> &[u8; GROUP]
    requires { group_place (count_in table.now) i + group_size ≤ length table.now }
    ensures { result.now ≡ group_at table.now i }
{
    octets::chunk(table, place_of(table[0] as usize) + GROUP * i)
}

// Whether every group is in range.
fn has_groups(table: &[u8]) -> bool
    requires { length table.now ≡ whole_size (count_in table.now) }
    ensures { result ≡ groups_in_range (count_in table.now) table.now }
{
    let (groups, _) = table[place_of(table[0] as usize)..].as_chunks::<GROUP>();
    groups.iter().all(group::is_group)
}

// Whether memory has the size of a table with its monitors, and each of them is in range; the records have their own test.
#[tactic(auto, unfolding(crate::specs::Whole::has_monitors))]
pub fn has_monitors(table: &[u8]) -> bool
    ensures { result ≡ has_monitors table.now }
{
    !table.is_empty() && table.len() == whole_size(table[0] as usize) && has_groups(table)
}
