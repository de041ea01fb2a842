// The comparisons of 43.4.9.
ghost use Rattle.std.specs.Prelude.{◌≡◌};
ghost use Rattle.machine.specs.Compare.{same_party, same_view, in_sync};

use frame::block::Block;

// Whether two blocks name one party: the five numbers (system priority, system, key, port priority, port) and Aggregation.
pub fn same_party(x: Block, y: Block) -> bool
    ensures { result ≡ same_party x y }
{
    let same_numbers = (x.system == y.system) & ((x.key == y.key) & (x.port == y.port));
    same_numbers & (x.state.aggregation == y.state.aggregation)
}

// And Activity, Timeout and Synchronization.
#[tactic(auto, unfolding(crate::specs::Compare::same_view))]
pub fn same_view(x: Block, y: Block) -> bool
    ensures { result ≡ same_view x y }
{
    same_party(x, y)
        && x.state.activity == y.state.activity
        && x.state.timeout == y.state.timeout
        && x.state.synchronization == y.state.synchronization
}

// Whether a frame's sender is in sync: `us` is what we say of ourselves, the frame says `a` of its sender and `b` of us.
#[tactic(auto, unfolding(crate::specs::Compare::in_sync, crate::specs::Compare::maintained))]
pub fn in_sync(us: Block, a: Block, b: Block) -> bool
    ensures { result ≡ in_sync us a b }
{
    let maintained = a.state.activity | (us.state.activity & b.state.activity);
    a.state.synchronization & (maintained & (same_party(b, us) | !a.state.aggregation))
}
