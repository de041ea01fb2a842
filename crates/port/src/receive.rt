// The Receive machine (43.4.12), its functions (43.4.9), and what moves it: an LACPDU, a tick, a link or duplex change, a partner
// that has moved.
ghost use Rattle.std.specs.Prelude.{◌≡◌};
ghost use Rattle.frame.specs.Block.{block_of, block_octets};
ghost use Rattle.machine.specs.Time.{timeout_time};
ghost use Rattle.port.specs.Receive.{is_default, recorded, record_default, record_pdu, update_selected, update_ntt, initialized, port_disabled, expired, lacp_disabled, defaulted, current, receive_entered, receive_choice, receive_step, receive_run, moved, repeats, lined};

use crate::record::Port;
use frame::block::Block;
use frame::wire::{Source, recorded};
use machine::compare::{in_sync, same_party, same_view};
use machine::receive::{SHORT_TIMEOUT_TIME, timeout_time};
use machine::states::{Line, Receive, Selection, Ticks};

// Defaulted, by what is recorded.
fn is_default(source: Source) -> bool
    ensures { result ≡ is_default source }
{
    source == Source::Default
}

impl Port {
    // The default block as it is lent, in its 15 octets.
    fn default_octets(self) -> [u8; 15]
        ensures { result ≡ block_octets self.own.default }
    {
        let mut octets = [0u8; 15];
        self.own.default.write(&mut octets);
        octets
    }

    // Is lent the frame's block and the default one, and records the one that applies; Defaulted says which it was.
    // Kept: document 01 names this form, a step that is lent both blocks, and no Option of the frame's.
    fn record<'a>(mut self, source: Source, pdu: &'a [u8; 15], default: &'a [u8; 15]) -> Self
        ensures { result ≡ recorded source (block_of pdu.now) (block_of default.now) self }
    {
        self.partner = Block::read(octets::chunk(recorded(source, pdu, default), 0));
        self.actor.defaulted = is_default(source);
        self
    }

    // recordDefault: no frame is at hand, so 15 zeros are lent in its place.
    #[tactic(auto, using(frame::proofs::BlockLaws::block_back), unfolding(crate::specs::Receive::record_default))]
    fn record_default(self) -> Self
        ensures { result ≡ record_default self }
    {
        let default = self.default_octets();
        self.record(Source::Default, &[0u8; 15], &default)
    }

    // recordPDU: the frame's actor block, in sync or not.
    #[tactic(auto, unfolding(crate::specs::Receive::record_pdu))]
    fn record_pdu(self, us: Block, actor: &[u8; 15], b: Block) -> Self
        ensures { result ≡ record_pdu us (block_of actor.now) b self }
    {
        let default = self.default_octets();
        let mut p = self.record(Source::Pdu, actor, &default);
        p.partner.state.synchronization = in_sync(us, p.partner, b);
        p
    }

    // update_Selected, with the block that is about to be recorded.
    #[tactic(auto, unfolding(crate::specs::Receive::update_selected))]
    fn update_selected(self, block: Block) -> Self
        ensures { result ≡ update_selected block self }
    {
        if same_party(block, self.partner) {
            return self;
        }
        self.with_selected(Selection::Unselected)
    }

    // update_NTT: what the frame says of us, against what we say.
    #[tactic(auto, unfolding(crate::specs::Receive::update_ntt))]
    fn update_ntt(mut self, us: Block, b: Block) -> Self
        ensures { result ≡ update_ntt us b self }
    {
        self.ntt |= !same_view(b, us);
        self
    }

    #[tactic(auto, unfolding(crate::specs::Receive::initialized))]
    fn initialize(self) -> Self
        ensures { result ≡ initialized self }
    {
        let mut p = self.with_selected(Selection::Unselected).record_default();
        p.actor.expired = false;
        p.in_state(Receive::Initialize, Ticks(0))
    }

    #[tactic(auto, unfolding(crate::specs::Receive::port_disabled))]
    fn port_disabled(mut self) -> Self
        ensures { result ≡ port_disabled self }
    {
        self.partner.state.synchronization = false;
        self.in_state(Receive::PortDisabled, Ticks(0))
    }

    // EXPIRED: the learned partner survives, but for Synchronization and Timeout.
    fn expire(mut self) -> Self
        ensures { result ≡ expired self }
    {
        self.partner.state.synchronization = false;
        self.partner.state.timeout = true;
        self.actor.expired = true;
        self.in_state(Receive::Expired, SHORT_TIMEOUT_TIME)
    }

    #[tactic(auto, unfolding(crate::specs::Receive::lacp_disabled))]
    fn lacp_disabled(self) -> Self
        ensures { result ≡ lacp_disabled self }
    {
        let mut p = self.with_selected(Selection::Unselected).record_default();
        p.partner.state.aggregation = false;
        p.actor.expired = false;
        p.in_state(Receive::LacpDisabled, Ticks(0))
    }

    // DEFAULTED: compares before it records.
    #[tactic(auto, unfolding(crate::specs::Receive::defaulted, crate::specs::Receive::update_default_selected))]
    fn default_partner(self) -> Self
        ensures { result ≡ defaulted self }
    {
        let mut p = self.update_selected(self.own.default).record_default();
        p.actor.expired = false;
        p.in_state(Receive::Defaulted, Ticks(0))
    }

    fn enter_receive(self, state: Receive) -> Self
        ensures { result ≡ receive_entered state self }
    {
        match state {
            Receive::Initialize => self.initialize(),
            Receive::PortDisabled => self.port_disabled(),
            Receive::Expired => self.expire(),
            Receive::LacpDisabled => self.lacp_disabled(),
            Receive::Defaulted => self.default_partner(),
            Receive::Current => self,
        }
    }

    #[tactic(auto, unfolding(crate::specs::Receive::receive_choice))]
    fn receive_choice(self) -> Option<Receive>
        ensures { result ≡ receive_choice self }
    {
        machine::receive::next(
            self.phase.receive,
            self.line.up,
            self.line.full,
            self.timers.current == Ticks(0),
        )
    }

    #[tactic(auto, unfolding(crate::specs::Receive::receive_step))]
    fn receive_step(self) -> Self
        ensures { result ≡ receive_step self }
    {
        match self.receive_choice() {
            None => self,
            Some(s) => self.enter_receive(s),
        }
    }

    // The machine without an LACPDU, until no step applies: mostly none does, or one.
    #[tactic(auto, unfolding(crate::specs::Receive::receive_run, crate::specs::Receive::receive_step))]
    pub fn receive(self) -> Self
        ensures { result ≡ receive_run self }
    {
        let p = self.receive_step();
        match p.receive_choice() {
            None => p,
            Some(s) => p.enter_receive(s),
        }
    }

    // The partner of this port, which is disabled, was seen on another one.
    #[tactic(auto, unfolding(crate::specs::Receive::moved))]
    pub fn moved_away(self) -> Self
        ensures { result ≡ moved self }
    {
        self.initialize().port_disabled()
    }

    // CURRENT: what an accepted LACPDU does, which says `actor` of its sender and `b` of us; `us` is what we say of ourselves. Compares before it
    // records, so that a changed partner is seen. Our own Timeout bit sets the timer, not the partner's.
    #[tactic(auto, unfolding(crate::specs::Receive::current, crate::specs::Receive::pdu_recorded))]
    pub fn receive_lacpdu(self, us: Block, actor: &[u8; 15], b: Block) -> Self
        ensures { result ≡ current us (block_of actor.now) b self }
    {
        let mut p = self
            .update_selected(Block::read(actor))
            .update_ntt(us, b)
            .record_pdu(us, actor, b);
        p.actor.expired = false;
        p.in_state(Receive::Current, timeout_time(self.actor.timeout))
    }

    // Whether an accepted LACPDU, which says `a` of its sender and `b` of us, says nothing new, so that it only starts the current-while timer again.
    pub fn repeats(self, us: Block, a: Block, b: Block) -> bool
        ensures { result ≡ repeats us a b self }
    {
        let mut heard = a;
        heard.state.synchronization = in_sync(us, a, b);
        (self.phase.receive == Receive::Current)
            & (!(self.actor.defaulted | self.actor.expired)
                & ((heard == self.partner) & (same_view(b, us) | self.ntt)))
    }

    // What CURRENT starts the current-while timer with: by our own Timeout bit.
    pub fn timeout(self) -> Ticks
        ensures { result ≡ timeout_time self.actor.timeout }
    {
        timeout_time(self.actor.timeout)
    }

    // Another link and duplex. Every change goes by way of down.
    #[tactic(auto, unfolding(crate::specs::Receive::lined))]
    pub fn set_line(mut self, line: Line) -> Self
        ensures { result ≡ lined line self }
    {
        self.line.up = false;
        let mut p = self.receive();
        p.line = line;
        p.receive()
    }
}
