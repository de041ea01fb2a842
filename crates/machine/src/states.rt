// The states and timers of which a port's machines are made, without the record that holds them.
ghost use Rattle.std.specs.Prelude.{◌≡◌};
ghost use Rattle.machine.specs.States.{quiet_on, silent_on};

// The states of 43.4.12. The constant beside a refusal is the first of each enum.
#[derive(Clone, Copy, PartialEq, Eq)]
pub enum Receive {
    Initialize,
    PortDisabled,
    Expired,
    LacpDisabled,
    Defaulted,
    Current,
}

// The states of 43.4.13.
#[derive(Clone, Copy, PartialEq, Eq)]
pub enum Periodic {
    NoPeriodic,
    FastPeriodic,
    SlowPeriodic,
    PeriodicTx,
}

// The states of 43.4.15, independent control.
#[derive(Clone, Copy, PartialEq, Eq)]
pub enum Mux {
    Detached,
    Waiting,
    Attached,
    Collecting,
    Distributing,
}

// The variable Selected of 43.4.8.
#[derive(Clone, Copy, PartialEq, Eq)]
pub enum Selection {
    Unselected,
    Selected,
}

// A time in ticks, ten to the second; a CollectorMaxDelay is another type.
#[derive(Clone, Copy, Default, PartialEq, Eq)]
pub struct Ticks(pub u16);

#[derive(Clone, Copy, PartialEq, Eq)]
pub struct Phase {
    pub receive: Receive,
    pub periodic: Periodic,
    pub mux: Mux,
    pub selected: Selection,
}

// Link up, and full duplex.
#[derive(Clone, Copy, PartialEq, Eq)]
pub struct Line {
    pub up: bool,
    pub full: bool,
}

// The three timers; each stands at 0 in a state that has no use for it (R3.13).
// Kept: no Option, since 0 in a state that uses the timer is another thing, a timer that has run out (R3.12).
#[derive(Clone, Copy, Default, PartialEq, Eq)]
pub struct Timers {
    pub current: Ticks,
    pub periodic: Ticks,
    pub wait: Ticks,
}

// How many ticks ago up to three LACPDUs were sent.
#[derive(Clone, Copy, Default, PartialEq, Eq)]
pub struct Ages {
    pub first: Option<u8>,
    pub second: Option<u8>,
    pub third: Option<u8>,
}

impl Line {
    // No periodic LACPDUs: LACP off, link down, or both ends passive.
    pub fn is_quiet(self, passive: bool) -> bool
        ensures { result ≡ quiet_on self passive }
    {
        !self.full | (!self.up | passive)
    }

    // No LACPDU at all is due: LACP off, or an up link with both ends passive.
    pub fn is_silent(self, passive: bool) -> bool
        ensures { result ≡ silent_on self passive }
    {
        !self.full | (self.up & passive)
    }
}
