// What an ask for a Marker answers.
ghost use Rattle.std.specs.Prelude.{◌≡◌};
ghost use Rattle.asked.specs.declared.said.AskRefusal.TheVariants.{Plain};
ghost use Rattle.asked.specs.Ask.{ask_number};

use control::answer::{Numbered, Reason};

// Why an ask was refused.
#[derive(Clone, Copy, PartialEq, Eq)]
pub enum AskRefusal {
    // Why other calls are refused too.
    Plain(Reason),
    // The waiting time is out of range.
    Wait,
    // The port does not distribute.
    NotDistributing,
    // The port awaits one already.
    Awaiting,
}

impl From<Reason> for AskRefusal {
    ghost from_gives = { λ reason refusal. refusal ≡ Plain reason };

    fn from(reason: Reason) -> AskRefusal {
        AskRefusal::Plain(reason)
    }
}

impl Numbered for AskRefusal {
    ghost number_of = { ask_number };

    fn number(self) -> u8 {
        match self {
            AskRefusal::Plain(reason) => reason.number(),
            AskRefusal::Wait => 4,
            AskRefusal::NotDistributing => 13,
            AskRefusal::Awaiting => 14,
        }
    }
}
