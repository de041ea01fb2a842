// What a port asked for last.
ghost use Rattle.std.specs.Prelude.{◌≡◌};
ghost use Rattle.asks.specs.Ask.{is_awaiting, never_asked, asked, awaited, ended, ask_fallen};

use machine::count::one_more;
use machine::states::Ticks;

// What came of it. The constant beside a refusal is the first.
#[derive(Clone, Copy, PartialEq, Eq)]
pub enum Outcome {
    Nothing,
    Awaiting,
    Answered,
    TimedOut,
    Cancelled,
}

// The timer is that of the Marker that is awaited; `number` is the transaction of the next one.
// Kept: the timer stands beside the outcome, not in Awaiting, since octets may tell of one beside each, and `ask_fallen` lets it fall there too.
#[derive(Clone, Copy, PartialEq, Eq)]
pub struct Ask {
    pub outcome: Outcome,
    pub timer: Ticks,
    pub number: u32,
}

impl Outcome {
    pub fn is_awaiting(self) -> bool
        ensures { result ≡ is_awaiting self }
    {
        self == Outcome::Awaiting
    }
}

// Before the first.
impl Default for Ask {
    ghost is_default = { λ a. a ≡ never_asked };

    fn default() -> Ask {
        Ask {
            outcome: Outcome::Nothing,
            timer: Ticks(0),
            number: 0,
        }
    }
}

impl Ask {
    // A Marker goes out with the next number, to be awaited for so many ticks.
    pub fn ask(self, wait: u16) -> Ask
        ensures { result ≡ asked wait self }
    {
        Ask {
            outcome: Outcome::Awaiting,
            timer: Ticks(wait),
            number: one_more(self.number),
        }
    }

    // The transaction of the last Marker.
    pub fn awaited(self) -> u32
        ensures { result ≡ awaited self }
    {
        self.number.wrapping_sub(1)
    }

    // A Marker that is awaited comes to this end.
    #[tactic(auto, unfolding(crate::specs::Ask::ended))]
    pub fn end(self, outcome: Outcome) -> Ask
        ensures { result ≡ ended outcome self }
    {
        if self.outcome.is_awaiting() {
            Ask {
                outcome,
                timer: Ticks(0),
                ..self
            }
        } else {
            self
        }
    }

    // A tick has passed.
    #[tactic(auto, unfolding(crate::specs::Ask::ask_fallen))]
    pub fn fall(self) -> Ask
        ensures { result ≡ ask_fallen self }
    {
        let timer = self.timer.fallen();
        let a = Ask { timer, ..self };
        if timer == Ticks(0) {
            a.end(Outcome::TimedOut)
        } else {
            a
        }
    }
}
