// The Mux machine on a record (43.4.15).
ghost use Rattle.std.specs.Prelude.{◌≡◌};
ghost use Rattle.machine.specs.declared.states.Mux.TheVariants.{Detached};
ghost use Rattle.port.specs.Mux.{mux_entered, mux_choice, mux_step, detached, placed, attached_if, mux_run};

use crate::record::Port;
use machine::states::{Mux, Selection};

impl Port {
    // The actions on entry to a state.
    fn enter_mux(mut self, state: Mux) -> Self
        ensures { result ≡ mux_entered state self }
    {
        self.phase.mux = state;
        self.timers.wait = state.wait_time();
        self.actor = state.bits(self.actor);
        self.ntt |= state.sets_ntt();
        self
    }

    #[tactic(auto, unfolding(crate::specs::Mux::mux_choice))]
    fn mux_choice(self, ready: bool) -> Option<Mux>
        ensures { result ≡ mux_choice ready self }
    {
        machine::mux::next(
            self.phase.mux,
            self.phase.selected,
            ready,
            self.partner.state.synchronization,
            self.partner.state.collecting,
        )
    }

    #[tactic(auto, unfolding(crate::specs::Mux::mux_step))]
    fn mux_step(self, ready: bool) -> Self
        ensures { result ≡ mux_step ready self }
    {
        match self.mux_choice(ready) {
            None => self,
            Some(m) => self.enter_mux(m),
        }
    }

    // Step 3: state by state down to DETACHED, so that no frame reaches two aggregators.
    #[tactic(auto, using(crate::proofs::MuxLaws::detached_descends), unfolding(crate::specs::Mux::entered_all))]
    pub fn detach(self) -> Self
        ensures { result ≡ detached self }
    {
        let p = self.with_selected(Selection::Unselected);
        match self.phase.mux {
            Mux::Detached => p,
            Mux::Waiting | Mux::Attached => p.enter_mux(Mux::Detached),
            Mux::Collecting => p.enter_mux(Mux::Attached).enter_mux(Mux::Detached),
            Mux::Distributing => p
                .enter_mux(Mux::Collecting)
                .enter_mux(Mux::Attached)
                .enter_mux(Mux::Detached),
        }
    }

    // Step 4: the port, which is detached, holds this aggregator now, is SELECTED, and waits.
    pub fn place(mut self, aggregator: u8) -> Self
        requires { self.phase.mux ≡ Detached }
        ensures { result ≡ placed aggregator self }
    {
        self.aggregator = aggregator;
        self.with_selected(Selection::Selected)
            .enter_mux(Mux::Waiting)
    }

    // Step 5: a port that waits attaches where its aggregator is Ready.
    #[tactic(auto, unfolding(crate::specs::Mux::attached_if))]
    pub fn attach(self, ready: bool) -> Self
        ensures { result ≡ attached_if ready self }
    {
        if self.phase.mux.waits() {
            self.mux_step(ready)
        } else {
            self
        }
    }

    // Step 6: up or down as the partner's bits say, to where the machine rests.
    #[tactic(auto, unfolding(crate::specs::Mux::mux_run))]
    pub fn mux(self) -> Self
        ensures { result ≡ mux_run self }
    {
        self.mux_step(false).mux_step(false)
    }
}
