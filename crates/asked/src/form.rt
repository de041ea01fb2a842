// The two forms of a table (M-106): its front is without monitors or with them.
ghost use Rattle.std.specs.Prelude.{◌≡◌, ◌≤◌, ℕ};
ghost use Rattle.std.proofs.Common.{rules};
ghost use native.Mathlib.Omega.{arith};
ghost use Rattle.asked.specs.Layer.{Layer, old_layer, new_layer};

use table::layout::place_of;

pub trait Form {
    ghost layer: { Layer };

    // The octets of the front of a table of so many ports.
    fn front_size(count: usize) -> usize
        requires { count ≤ 255 }
        ensures is { result ≡ layer.size count }
        ensures small { result ≤ 20000 };

    // A front has an octet that says the count.
    ghost some: { (n : ℕ) → 1 ≤ layer.size n };
}

// Without monitors.
pub struct Old;

impl Form for Old {
    ghost layer = { old_layer };

    ghost some = { λ n. Prim.search (rules, arith) };

    fn front_size(count: usize) -> usize {
        place_of(count)
    }
}

// With them.
pub struct New;

impl Form for New {
    ghost layer = { new_layer };

    ghost some = { λ n. Prim.search (rules, arith) };

    fn front_size(count: usize) -> usize {
        churn::whole_size(count)
    }
}
