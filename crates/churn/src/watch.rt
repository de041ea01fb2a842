// The churn detection machine (figures 43-15 and 43-16), once for the actor's Synchronization and once for the partner's.
ghost use Rattle.std.specs.Prelude.{◌≡◌};
ghost use Rattle.churn.specs.Churn.{churn_next, churn_entered, churn_choice, watched, watch_fallen, monitors_fallen, begun};

use machine::count::one_more;
use machine::states::Ticks;

// Churn_Detection_Time (43.4.4).
pub(crate) const CHURN_DETECTION_TIME: u16 = 600;

// The states of 43.4.17. The constant beside a refusal is the first.
#[derive(Clone, Copy, PartialEq, Eq)]
pub enum Churn {
    NoChurn,
    Monitor,
    Churn,
}

// A machine's state and timer, and how often it found churn.
// Kept: the timer stands beside the state, not in Monitor, since octets may tell of one beside each, and `watch_fallen` lets it fall there too.
#[derive(Clone, Copy, PartialEq, Eq)]
pub struct Watch {
    pub state: Churn,
    pub timer: Ticks,
    pub count: u32,
}

// A port's two.
#[derive(Clone, Copy, PartialEq, Eq, Default)]
pub struct Monitors {
    pub actor: Watch,
    pub partner: Watch,
}

// What a start begins with.
impl Default for Watch {
    ghost is_default = { λ w. w ≡ begun };

    fn default() -> Watch {
        Watch {
            state: Churn::Monitor,
            timer: Ticks(CHURN_DETECTION_TIME),
            count: 0,
        }
    }
}

// Which transition applies, if any, by the link, Synchronization and whether the timer has run out.
pub(crate) fn next(up: bool, state: Churn, sync: bool, out: bool) -> Option<Churn>
    ensures { result ≡ churn_next up state sync out }
{
    match (up, state, sync, out) {
        (false, _, _, _) => Some(Churn::Monitor),
        (true, Churn::NoChurn, true, _) => None,
        (true, Churn::NoChurn, false, _) => Some(Churn::Monitor),
        (true, Churn::Monitor, true, _) => Some(Churn::NoChurn),
        (true, Churn::Monitor, false, true) => Some(Churn::Churn),
        (true, Churn::Monitor, false, false) => None,
        (true, Churn::Churn, true, _) => Some(Churn::NoChurn),
        (true, Churn::Churn, false, _) => None,
    }
}

impl Watch {
    fn enter(self, state: Churn) -> Watch
        ensures { result ≡ churn_entered state self }
    {
        let (time, count) = match state {
            Churn::NoChurn => (0, self.count),
            Churn::Monitor => (CHURN_DETECTION_TIME, self.count),
            Churn::Churn => (0, one_more(self.count)),
        };
        Watch {
            state,
            timer: Ticks(time),
            count,
        }
    }

    #[tactic(auto, unfolding(crate::specs::Churn::churn_choice))]
    fn choice(self, up: bool, sync: bool) -> Option<Churn>
        ensures { result ≡ churn_choice up sync self }
    {
        next(up, self.state, sync, self.timer == Ticks(0))
    }

    // A run of the machine.
    #[tactic(auto, unfolding(crate::specs::Churn::watched))]
    pub(crate) fn run(self, up: bool, sync: bool) -> Watch
        ensures { result ≡ watched up sync self }
    {
        match self.choice(up, sync) {
            None => self,
            Some(state) => self.enter(state),
        }
    }

    fn fall(self) -> Watch
        ensures { result ≡ watch_fallen self }
    {
        Watch {
            timer: self.timer.fallen(),
            ..self
        }
    }
}

impl Monitors {
    // Step 1 of a tick.
    #[tactic(auto, unfolding(crate::specs::Churn::monitors_fallen))]
    pub(crate) fn fall(self) -> Monitors
        ensures { result ≡ monitors_fallen self }
    {
        Monitors {
            actor: self.actor.fall(),
            partner: self.partner.fall(),
        }
    }
}
