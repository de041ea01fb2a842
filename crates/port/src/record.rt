// The record of a port (R3.1), in groups; a later field is a new group behind a setter.
ghost use Rattle.std.specs.Prelude.{◌≡◌};
ghost use Rattle.port.specs.Record.{with_receive, with_selected, with_current, actor_block};

use frame::block::{Address, Block, PortId, SystemId};
use frame::state::PortState;
use machine::states::{Ages, Line, Phase, Receive, Selection, Ticks, Timers};

// The settings but for own Activity, Timeout and Aggregation, which are kept in the actor's state alone.
#[derive(Clone, Copy, PartialEq, Eq)]
pub struct Own {
    pub address: Address,
    pub key: u16,
    pub priority: u16,
    pub default: Block,
}

#[derive(Clone, Copy, PartialEq, Eq)]
pub struct Port {
    pub phase: Phase,
    pub aggregator: u8,
    pub ntt: bool,
    pub line: Line,
    pub actor: PortState,
    pub timers: Timers,
    pub ages: Ages,
    pub own: Own,
    pub partner: Block,
}

impl Port {
    pub fn with_selected(mut self, selected: Selection) -> Self
        ensures { result ≡ with_selected self selected }
    {
        self.phase.selected = selected;
        self
    }

    // In a state of the receive machine, with the current-while timer started, or stopped with 0.
    pub fn in_state(mut self, receive: Receive, time: Ticks) -> Self
        ensures { result ≡ with_receive (with_current self time) receive }
    {
        self.phase.receive = receive;
        self.timers.current = time;
        self
    }

    // The actor's information block of an LACPDU (43.4.16): what this port says of itself, as port `number` of its system.
    pub fn actor_block(self, system: SystemId, number: u16) -> Block
        ensures { result ≡ actor_block system number self }
    {
        Block {
            system,
            key: self.own.key,
            port: PortId {
                priority: self.own.priority,
                number,
            },
            state: self.actor,
        }
    }
}
