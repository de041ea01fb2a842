// The Periodic Transmission machine (43.4.13).
ghost use Rattle.std.specs.Prelude.{◌≡◌};
ghost use Rattle.port.specs.Periodic.{periodic_entered, periodic_choice, periodic_step, periodic_run};

use crate::record::Port;
use machine::states::{Periodic, Ticks};

impl Port {
    // The actions on entry to a state.
    fn enter_periodic(mut self, state: Periodic) -> Self
        ensures { result ≡ periodic_entered state self }
    {
        self.phase.periodic = state;
        self.timers.periodic = machine::periodic::time(state);
        self.ntt |= machine::periodic::sets_ntt(state);
        self
    }

    #[tactic(auto, unfolding(crate::specs::Periodic::periodic_choice))]
    fn periodic_choice(self) -> Option<Periodic>
        ensures { result ≡ periodic_choice self }
    {
        let passive = !self.actor.activity & !self.partner.state.activity;
        machine::periodic::next(
            self.phase.periodic,
            self.line.is_quiet(passive),
            self.timers.periodic == Ticks(0),
            self.partner.state.timeout,
        )
    }

    // Never inlined: the two steps of a run then share one frame.
    #[inline(never)]
    #[tactic(auto, unfolding(crate::specs::Periodic::periodic_step))]
    fn periodic_step(self) -> Self
        ensures { result ≡ periodic_step self }
    {
        match self.periodic_choice() {
            None => self,
            Some(s) => self.enter_periodic(s),
        }
    }

    // The machine until no step applies.
    #[tactic(auto, unfolding(crate::specs::Periodic::periodic_run))]
    pub fn periodic(self) -> Self
        ensures { result ≡ periodic_run self }
    {
        self.periodic_step().periodic_step()
    }
}
