// The transitions of the Mux machine, independent control (figure 43-13), and what its states mean to others.
ghost use Rattle.std.specs.Prelude.{◌≡◌};
ghost use Rattle.machine.specs.Mux.{waits, is_attached, collects, distributes, mux_next};

use crate::states::{Mux, Selection};

// Which transition applies, if any, by Selected, Ready, and the partner's Synchronization and Collecting.
pub fn next(state: Mux, selected: Selection, ready: bool, sync: bool, coll: bool) -> Option<Mux>
    ensures { result ≡ mux_next state selected ready sync coll }
{
    match (state, selected, ready, sync, coll) {
        (Mux::Detached, Selection::Unselected, _, _, _) => None,
        (Mux::Detached, Selection::Selected, _, _, _) => Some(Mux::Waiting),
        (Mux::Waiting, Selection::Unselected, _, _, _) => Some(Mux::Detached),
        (Mux::Waiting, Selection::Selected, true, _, _) => Some(Mux::Attached),
        (Mux::Waiting, Selection::Selected, false, _, _) => None,
        (Mux::Attached, Selection::Unselected, _, _, _) => Some(Mux::Detached),
        (Mux::Attached, Selection::Selected, _, true, _) => Some(Mux::Collecting),
        (Mux::Attached, Selection::Selected, _, false, _) => None,
        (Mux::Collecting, Selection::Unselected, _, _, _) => Some(Mux::Attached),
        (Mux::Collecting, Selection::Selected, _, true, true) => Some(Mux::Distributing),
        (Mux::Collecting, Selection::Selected, _, true, false) => None,
        (Mux::Collecting, Selection::Selected, _, false, _) => Some(Mux::Attached),
        (Mux::Distributing, Selection::Unselected, _, _, _) => Some(Mux::Collecting),
        (Mux::Distributing, Selection::Selected, _, true, true) => None,
        (Mux::Distributing, Selection::Selected, _, true, false) => Some(Mux::Collecting),
        (Mux::Distributing, Selection::Selected, _, false, _) => Some(Mux::Collecting),
    }
}

impl Mux {
    pub fn waits(self) -> bool
        ensures { result ≡ waits self }
    {
        self == Mux::Waiting
    }

    pub fn is_attached(self) -> bool
        ensures { result ≡ is_attached self }
    {
        matches!(self, Mux::Attached | Mux::Collecting | Mux::Distributing)
    }

    pub fn collects(self) -> bool
        ensures { result ≡ collects self }
    {
        matches!(self, Mux::Collecting | Mux::Distributing)
    }

    pub fn distributes(self) -> bool
        ensures { result ≡ distributes self }
    {
        self == Mux::Distributing
    }
}
