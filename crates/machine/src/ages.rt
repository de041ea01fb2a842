// The ages of up to three sends, for the limit of 43.4.16, and timers that fall.
ghost use Rattle.std.specs.Prelude.{◌≡◌};
ghost use Rattle.machine.specs.Time.{fallen as time_fallen, timers_fallen};
ghost use Rattle.machine.specs.Ages.{aged as ages_aged, sent_ages, barred, ages_ticked};

use crate::states::{Ages, Ticks, Timers};

// The age at which a send is forgotten: eleven ticks have ten whole intervals between them.
pub const FORGOTTEN_AGE: u8 = 11;

// One tick older; forgotten where that would reach FORGOTTEN_AGE.
fn aged(age: Option<u8>) -> Option<u8>
    ensures { result ≡ ages_aged age }
{
    match age {
        Some(a) if a < FORGOTTEN_AGE - 1 => Some(a + 1),
        _ => None,
    }
}

impl Ages {
    pub fn is_barred(self) -> bool
        ensures { result ≡ barred self }
    {
        self.first.is_some() & (self.second.is_some() & self.third.is_some())
    }

    // One send more: into the first free place, with those before it moved down by one.
    pub fn with_send(self) -> Self
        ensures { result ≡ sent_ages self }
    {
        let first = Some(0);
        if self.first.is_none() {
            Ages { first, ..self }
        } else if self.second.is_none() {
            Ages {
                first,
                second: self.first,
                ..self
            }
        } else {
            Ages {
                first,
                second: self.first,
                third: self.second,
            }
        }
    }

    // One tick later: each place by itself.
    pub fn tick(self) -> Self
        ensures { result ≡ ages_ticked self }
    {
        Ages {
            first: aged(self.first),
            second: aged(self.second),
            third: aged(self.third),
        }
    }
}

impl Ticks {
    // A running timer falls by one; a stopped one stays at 0.
    pub fn fallen(self) -> Self
        ensures { result ≡ time_fallen self }
    {
        Ticks(self.0.saturating_sub(1))
    }
}

impl Timers {
    // One tick later.
    pub fn tick(self) -> Self
        ensures { result ≡ timers_fallen self }
    {
        Timers {
            current: self.current.fallen(),
            periodic: self.periodic.fallen(),
            wait: self.wait.fallen(),
        }
    }
}
