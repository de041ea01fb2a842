// The state octet of an information block (43.4.2.2): eight bits, Activity in bit 0.
ghost use Rattle.std.specs.Prelude.{◌≡◌, ◌≤◌};
ghost use Rattle.frame.specs.State.{weighed, state_octet, port_state_of};

#[derive(Clone, Copy, Default, PartialEq, Eq)]
pub struct PortState {
    pub activity: bool,
    pub timeout: bool,
    pub aggregation: bool,
    pub synchronization: bool,
    pub collecting: bool,
    pub distributing: bool,
    pub defaulted: bool,
    pub expired: bool,
}

// What a bit that weighs n adds to the octet.
fn weigh(bit: bool, n: u8) -> u8
    ensures { (result ≡ weighed bit n) × (result ≤ n) }
{
    if bit { n } else { 0 }
}

// The bits of an octet.
impl From<u8> for PortState {
    ghost from_gives = { λ o state. state ≡ port_state_of o };

    fn from(o: u8) -> PortState {
        PortState {
            activity: o % 2 == 1,
            timeout: o / 2 % 2 == 1,
            aggregation: o / 4 % 2 == 1,
            synchronization: o / 8 % 2 == 1,
            collecting: o / 16 % 2 == 1,
            distributing: o / 32 % 2 == 1,
            defaulted: o / 64 % 2 == 1,
            expired: o / 128 % 2 == 1,
        }
    }
}

// The octet of the bits.
impl From<PortState> for u8 {
    ghost from_gives = { λ state o. o ≡ state_octet state };

    fn from(state: PortState) -> u8 {
        weigh(state.activity, 1)
            + weigh(state.timeout, 2)
            + weigh(state.aggregation, 4)
            + weigh(state.synchronization, 8)
            + weigh(state.collecting, 16)
            + weigh(state.distributing, 32)
            + weigh(state.defaulted, 64)
            + weigh(state.expired, 128)
    }
}
