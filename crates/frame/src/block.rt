// An information block: the 15 octets by which a system tells of one of its ports (43.4.2.2), as a value.
ghost use Rattle.std.specs.Prelude.{◌≡◌, length, ◌+◌, ◌≤◌};
ghost use Rattle.octets.specs.Octets.{put_at};
ghost use Rattle.frame.specs.Block.{address_at, address_octets, system_at, system_octets, block_of, block_octets};

use crate::state::PortState;
use octets::InOctets;

// Six octets, two at a time.
#[derive(Clone, Copy, Default, PartialEq, Eq)]
pub struct Address {
    pub high: u16,
    pub middle: u16,
    pub low: u16,
}

#[derive(Clone, Copy, Default, PartialEq, Eq)]
pub struct SystemId {
    pub priority: u16,
    pub address: Address,
}

#[derive(Clone, Copy, Default, PartialEq, Eq)]
pub struct PortId {
    pub priority: u16,
    pub number: u16,
}

#[derive(Clone, Copy, Default, PartialEq, Eq)]
pub struct Block {
    pub system: SystemId,
    pub key: u16,
    pub port: PortId,
    pub state: PortState,
}

impl InOctets for Address {
    ghost width = { 6 };

    ghost value_at = { address_at };

    ghost octets_of = { address_octets };

    fn read(s: &[u8], at: usize) -> Self {
        Address {
            high: octets::number(s, at),
            middle: octets::number(s, at + 2),
            low: octets::number(s, at + 4),
        }
    }

    fn write(self, out: &mut [u8], at: usize) {
        octets::put_number(out, at, self.high);
        octets::put_number(out, at + 2, self.middle);
        octets::put_number(out, at + 4, self.low);
    }
}

impl InOctets for SystemId {
    ghost width = { 8 };

    ghost value_at = { system_at };

    ghost octets_of = { system_octets };

    fn read(s: &[u8], at: usize) -> Self {
        SystemId {
            priority: octets::number(s, at),
            address: Address::read(s, at + 2),
        }
    }

    fn write(self, out: &mut [u8], at: usize) {
        octets::put_number(out, at, self.priority);
        self.address.write(out, at + 2);
    }
}

impl Block {
    // The block that 15 octets tell of.
    pub fn read(s: &[u8; 15]) -> Self
        ensures { result ≡ block_of s.now }
    {
        Block {
            system: SystemId::read(s, 0),
            key: octets::number(s, 8),
            port: PortId {
                priority: octets::number(s, 10),
                number: octets::number(s, 12),
            },
            state: PortState::from(s[14]),
        }
    }

    // Writes the block straight into the 15 octets that are its place in a frame.
    // Kept: out is a slice, since document 01 names the lent part `&mut out[18..33]` as what the writer gets.
    pub fn write(self, out: &mut [u8])
        requires { length out.old ≡ 15 }
        ensures { out.new ≡ block_octets self }
    {
        self.system.write(out, 0);
        octets::put_number(out, 8, self.key);
        octets::put_number(out, 10, self.port.priority);
        octets::put_number(out, 12, self.port.number);
        octets::put(out, 14, &[u8::from(self.state)]);
    }
}
