// What a fetch needs of one port (43.4.16), the ages of its sends, and a tick of one port.
ghost use Rattle.std.specs.Prelude.{◌≡◌};
ghost use Rattle.port.specs.Transmit.{due, sent, ntt_cleared, ticked};

use crate::record::Port;

// Why a fetch finds no LACPDU that is due: there is nothing to say, or three were sent of late.
#[derive(Clone, Copy, PartialEq, Eq)]
pub enum Undue {
    Nothing,
    Barred,
}

impl Port {
    // Whether an LACPDU is due: NTT, link, LACP on, then the limit of three sends.
    #[tactic(auto, unfolding(crate::specs::Transmit::due))]
    pub fn due(self) -> Result<(), Undue>
        ensures { result ≡ due self }
    {
        if !self.ntt | (!self.line.up | !self.line.full) {
            return Err(Undue::Nothing);
        }
        if self.ages.is_barred() {
            return Err(Undue::Barred);
        }
        Ok(())
    }

    // An LACPDU went: NTT is cleared and the send remembered.
    #[tactic(auto, unfolding(crate::specs::Transmit::sent))]
    pub fn sent(mut self) -> Self
        ensures { result ≡ sent self }
    {
        self.ages = self.ages.with_send();
        self.ntt = false;
        self
    }

    // The end of step 6: NTT is cleared where nothing may be sent for it.
    #[tactic(auto, unfolding(crate::specs::Transmit::ntt_cleared, crate::specs::Transmit::silent))]
    pub fn clear_ntt(mut self) -> Self
        ensures { result ≡ ntt_cleared self }
    {
        let passive = !self.actor.activity & !self.partner.state.activity;
        self.ntt &= !self.line.is_silent(passive);
        self
    }

    // Step 1 of a tick.
    #[tactic(auto, unfolding(crate::specs::Transmit::ticked))]
    pub fn tick(mut self) -> Self
        ensures { result ≡ ticked self }
    {
        self.timers = self.timers.tick();
        self.ages = self.ages.tick();
        self
    }
}
