// Where things lie in a frame (R6): the parts of a received one, and writing one to be sent.
// Kept: frames are slices and `frame_size` a clause, since what follows octet 123 is lent too and stays (R5.5, R6).
ghost use Rattle.std.specs.Prelude.{◌≡◌, ◌++◌, ◌≤◌, length, drop};
ghost use Rattle.frame.specs.Class.{frame_size};
ghost use Rattle.octets.specs.Octets.{put_at};
ghost use Rattle.frame.specs.Wire.{actor_part, partner_part, request_part, applying, opening, marker_type_octet, lacpdu, marker, response};

use crate::block::{Address, Block};
use crate::class::{DESTINATION, SLOW_TYPE};
use octets::InOctets;

// CollectorMaxDelay counts tens of microseconds (43.2.3.1.1), and is never a number of ticks.
#[derive(Clone, Copy, PartialEq, Eq)]
pub struct TensOfMicroseconds(pub u16);

// The type octet of a Marker PDU.
#[derive(Clone, Copy, PartialEq, Eq)]
pub enum MarkerType {
    Marker = 1,
    Response = 2,
}

impl From<MarkerType> for u8 {
    ghost from_gives = { λ kind n. n ≡ marker_type_octet kind };

    fn from(kind: MarkerType) -> u8 {
        kind as u8
    }
}

// Which block gets recorded: recordPDU takes the frame's, recordDefault the default one (43.4.9).
#[derive(Clone, Copy, PartialEq, Eq)]
pub enum Source {
    Default,
    Pdu,
}

// The actor's information block of an LACPDU, as a part of the frame itself.
pub fn actor(frame: &[u8]) -> &[u8; 15]
    requires { frame_size ≤ length frame.now }
    ensures { result.now ≡ actor_part frame.now }
{
    octets::chunk(frame, 18)
}

// The partner's information block of an LACPDU, as a part of the frame itself.
pub fn partner(frame: &[u8]) -> &[u8; 15]
    requires { frame_size ≤ length frame.now }
    ensures { result.now ≡ partner_part frame.now }
{
    octets::chunk(frame, 38)
}

// Requester port, requester system and transaction of a Marker PDU, as a part of the frame itself.
pub fn request(frame: &[u8]) -> &[u8; 12]
    requires { frame_size ≤ length frame.now }
    ensures { result.now ≡ request_part frame.now }
{
    octets::chunk(frame, 18)
}

// Of two lent blocks, the frame's and the default, gives back the one to be recorded (R18.3).
// Kept: document 01 names this form, two slices with one lifetime, of which one is handed back.
pub fn recorded<'a>(source: Source, pdu: &'a [u8], default: &'a [u8]) -> &'a [u8]
    ensures { result.now ≡ applying source pdu.now default.now }
{
    match source {
        Source::Default => &default[0..],
        Source::Pdu => &pdu[0..],
    }
}

// Octets 0 to 17: destination, source, type 88-09, subtype, version 1, and the type and length of the first TLV.
fn write_opening(out: &mut [u8], source: Address, subtype: u8, first: u8, size: u8)
    requires { frame_size ≤ length out.old }
    ensures { out.new ≡ put_at 0 (opening source subtype first size) out.old }
{
    octets::put(out, 0, &DESTINATION);
    source.write(out, 6);
    octets::put_number(out, 12, SLOW_TYPE);
    octets::put(out, 14, &[subtype, 1, first, size]);
}

// Writes an LACPDU over the first 124 octets of out. A block's writer gets its own part of them (R18.1).
pub fn write_lacpdu(
    out: &mut [u8],
    source: Address,
    actor: Block,
    partner: Block,
    delay: TensOfMicroseconds,
)
    requires { frame_size ≤ length out.old }
    ensures { out.new ≡ lacpdu source actor partner delay ++ drop frame_size out.old }
{
    write_opening(out, source, 1, 1, 20);
    actor.write(&mut out[18..33]);
    octets::put(out, 33, &[0, 0, 0, 2, 20]);
    partner.write(&mut out[38..53]);
    octets::put(out, 53, &[0, 0, 0, 3, 16]);
    octets::put_number(out, 58, delay.0);
    octets::put(out, 60, &[0u8; 64]);
}

// Writes a Marker PDU over the first 124 octets of out; `request` is its octets 18 to 29.
pub fn write_marker(out: &mut [u8], source: Address, kind: MarkerType, request: &[u8; 12])
    requires { frame_size ≤ length out.old }
    ensures { out.new ≡ marker source kind request.now ++ drop frame_size out.old }
{
    write_opening(out, source, 2, u8::from(kind), 16);
    octets::put(out, 18, request);
    octets::put(out, 30, &[0u8; 94]);
}

// Writes the Response to a received Marker over the first 124 octets of out: the Marker's request, and nothing else of it.
pub fn write_response(out: &mut [u8], source: Address, received: &[u8])
    requires { (frame_size ≤ length out.old) × (frame_size ≤ length received.now) }
    ensures { out.new ≡ response source received.now ++ drop frame_size out.old }
{
    write_marker(out, source, MarkerType::Response, request(received));
}
