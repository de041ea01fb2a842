// Markers of our own (43.5): what each port asked for last and what came of it, as a group of octets for each port, one behind the other.
#![tactic(auto)]

ghost use Rattle.std.specs.Prelude.{◌≡◌, ◌+◌, ◌*◌, ◌≤◌, length};
ghost use Rattle.octets.specs.Octets.{put_at};
ghost use Rattle.asks.specs.Ask.{ask_fallen};
ghost use Rattle.asks.specs.Group.{group_size, group_octets};
ghost use Rattle.octets.specs.Rows.{row_at};
ghost use Rattle.asks.specs.Groups.{ask_at, groups_in_range, all_fallen, all_begun};

use crate::ask::Ask;
use crate::group::GROUP;

pub mod ask;
pub mod group;

// The part that is group `i`, from 0.
#[tactic(auto, unfolding(octets::specs::Rows::row_at))]
pub fn group_at(groups: &[u8], i: usize) -> &[u8; GROUP]
    requires { group_size * i + group_size ≤ length groups.now }
    ensures { result.now ≡ row_at group_size groups.now i }
{
    octets::chunk(groups, GROUP * i)
}

// What port `i`, from 0, asked for.
// Kept: groups are octets with an index, not `&mut [[u8; GROUP]]`: the library promises nothing of octets that `as_chunks_mut` lent.
#[tactic(auto, unfolding(crate::specs::Groups::ask_at))]
pub fn at(groups: &[u8], i: usize) -> Ask
    requires { group_size * i + group_size ≤ length groups.now }
    ensures { result ≡ ask_at groups.now i }
{
    Ask::from(group_at(groups, i))
}

pub fn store(groups: &mut [u8], i: usize, a: Ask)
    requires { group_size * i + group_size ≤ length groups.old }
    ensures { groups.new ≡ put_at (group_size * i) (group_octets a) groups.old }
{
    octets::put(groups, GROUP * i, &<[u8; GROUP]>::from(a));
}

// Whether the first `n` groups are in range.
pub fn are_groups(groups: &[u8], n: usize) -> bool
    requires { group_size * n ≤ length groups.now }
    ensures { result ≡ groups_in_range n groups.now }
{
    let (groups, _) = groups.as_chunks::<GROUP>();
    groups[..n].iter().all(group::is_group)
}

// A tick has passed for port `i`, from 0. Where nothing runs and nothing is awaited, nothing is written.
fn fall_one(groups: &mut [u8], i: usize)
    requires { group_size * i + group_size ≤ length groups.old }
    ensures { groups.new ≡ put_at (group_size * i) (group_octets (ask_fallen (ask_at groups.old i))) groups.old }
{
    if !group::is_idle(group_at(groups, i)) {
        store(groups, i, at(groups, i).fall());
    }
}

// A tick has passed for all.
pub fn fall_all(groups: &mut [u8], n: usize)
    requires { length groups.old ≡ group_size * n }
    ensures { groups.new ≡ all_fallen n groups.old }
{
    for i in 0..n {
        fall_one(groups, i);
    }
}

// None has asked yet.
pub fn begin_all(groups: &mut [u8], n: usize)
    requires { length groups.old ≡ group_size * n }
    ensures { groups.new ≡ all_begun n }
{
    for i in 0..n {
        store(groups, i, Ask::default());
    }
}
