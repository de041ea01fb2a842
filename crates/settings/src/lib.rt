// A port's settings: one set at start, with which every port begins, and changed by a call.
#![tactic(auto)]

ghost use Rattle.std.specs.Prelude.{◌≡◌};
ghost use Rattle.settings.specs.Settings.{regrouped, same_grouping, same_settings, configured, lawful, blank, started, own_of, own_bits};

use frame::block::{Address, Block};
use frame::state::PortState;
use machine::states::{Ages, Line, Mux, Periodic, Phase, Receive, Selection, Timers};
use port::record::{Own, Port};

#[derive(Clone, Copy, PartialEq, Eq)]
pub struct Settings {
    pub address: Address,
    pub key: u16,
    pub priority: u16,
    pub activity: bool,
    pub timeout: bool,
    pub aggregation: bool,
    pub default: Block,
}

impl From<Settings> for Own {
    ghost from_gives = { λ settings own. own ≡ own_of settings };

    fn from(settings: Settings) -> Own {
        Own {
            address: settings.address,
            key: settings.key,
            priority: settings.priority,
            default: settings.default,
        }
    }
}

impl Settings {
    // The default partner block has Collecting and Synchronization alike.
    #[tactic(auto, unfolding(crate::specs::Settings::lawful))]
    pub fn is_lawful(self) -> bool
        ensures { result ≡ lawful self }
    {
        self.default.state.collecting == self.default.state.synchronization
    }

    fn bits(self, old: PortState) -> PortState
        ensures { result ≡ own_bits self old }
    {
        PortState {
            activity: self.activity,
            timeout: self.timeout,
            aggregation: self.aggregation,
            ..old
        }
    }

    #[tactic(auto, unfolding(crate::specs::Settings::blank))]
    fn blank_port(self) -> Port
        ensures { result ≡ blank self }
    {
        Port {
            phase: Phase {
                receive: Receive::Initialize,
                periodic: Periodic::NoPeriodic,
                mux: Mux::Detached,
                selected: Selection::Unselected,
            },
            aggregator: 1,
            ntt: true,
            line: Line {
                up: false,
                full: true,
            },
            actor: self.bits(PortState::default()),
            timers: Timers::default(),
            ages: Ages::default(),
            own: Own::from(self),
            partner: self.default,
        }
    }

    // The record with which every port begins: INITIALIZE, then PORT_DISABLED.
    #[tactic(auto, unfolding(crate::specs::Settings::started))]
    pub fn start(self) -> Port
        ensures { result ≡ started self }
    {
        self.blank_port().moved_away()
    }

    // Key, port priority and Aggregation as the port has them.
    #[tactic(auto, unfolding(crate::specs::Settings::same_grouping))]
    fn has_grouping(self, p: Port) -> bool
        ensures { result ≡ same_grouping self p }
    {
        self.key == p.own.key
            && self.priority == p.own.priority
            && self.aggregation == p.actor.aggregation
    }

    // All settings as the port has them.
    pub fn is_held(self, p: Port) -> bool
        ensures { result ≡ same_settings self p }
    {
        self.has_grouping(p)
            & ((self.address == p.own.address)
                & ((self.activity == p.actor.activity)
                    & ((self.timeout == p.actor.timeout) & (self.default == p.own.default))))
    }

    // UNSELECTED where R12.2 says so.
    #[tactic(auto, unfolding(crate::specs::Settings::regrouped))]
    fn regroup(self, p: Port) -> Port
        ensures { result ≡ regrouped self p }
    {
        if self.has_grouping(p) {
            return p;
        }
        p.with_selected(Selection::Unselected)
    }

    // The port with these settings, which are other ones. The partner in force stays as it is (R12.4).
    #[tactic(auto, unfolding(crate::specs::Settings::configured))]
    pub fn configure(self, p: Port) -> Port
        ensures { result ≡ configured self p }
    {
        let mut q = self.regroup(p);
        q.actor = self.bits(p.actor);
        q.own = Own::from(self);
        q.ntt = true;
        q
    }
}
