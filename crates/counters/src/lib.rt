// The counters of a port's page (30.7.3): a small record that is lent to the calls that receive and fetch, and is no part of the table.
#![tactic(auto)]

ghost use Rattle.std.specs.Prelude.{◌≡◌};
ghost use Rattle.counters.specs.Counters.{is_marker, as_lacpdu, as_marker, as_response, as_unknown, as_illegal, counted_if, received, fetched};

use control::answer::{Accepted, Answer, Reason};
use frame::class::Refusal;
use machine::count::one_more;

// Each in 32 bits. Received: LACPDUs, Markers, Marker Responses, unknown and illegal frames. Sent: LACPDUs, and Marker Responses, which answer a Marker.
#[repr(C)]
#[derive(Clone, Copy)]
pub struct Counters {
    pub lacpdus: u32,
    pub markers: u32,
    pub responses: u32,
    pub unknown: u32,
    pub illegal: u32,
    pub sent: u32,
    pub answered: u32,
}

fn counted_if(counts: bool, n: u32) -> u32
    ensures { result ≡ counted_if counts n }
{
    if counts {
        return one_more(n);
    }
    n
}

fn is_marker(a: Answer) -> bool
    ensures { result ≡ is_marker a }
{
    matches!(a, Ok(Accepted::Marker))
}

fn as_lacpdu(a: Answer) -> bool
    ensures { result ≡ as_lacpdu a }
{
    matches!(a, Ok(Accepted::Lacpdu) | Err(Reason::Disabled))
}

fn as_marker(a: Answer) -> bool
    ensures { result ≡ as_marker a }
{
    matches!(a, Ok(Accepted::Marker) | Err(Reason::NotCollecting))
}

fn as_response(a: Answer) -> bool
    ensures { result ≡ as_response a }
{
    matches!(a, Ok(Accepted::Done) | Err(Reason::Response))
}

fn as_unknown(a: Answer) -> bool
    ensures { result ≡ as_unknown a }
{
    matches!(a, Err(Reason::Frame(Refusal::Unknown)))
}

fn as_illegal(a: Answer) -> bool
    ensures { result ≡ as_illegal a }
{
    matches!(a, Err(Reason::Frame(Refusal::Illegal)))
}

impl Counters {
    // After a receive with this answer.
    pub fn received(self, a: Answer) -> Counters
        ensures { result ≡ received a self }
    {
        Counters {
            lacpdus: counted_if(as_lacpdu(a), self.lacpdus),
            markers: counted_if(as_marker(a), self.markers),
            responses: counted_if(as_response(a), self.responses),
            unknown: counted_if(as_unknown(a), self.unknown),
            illegal: counted_if(as_illegal(a), self.illegal),
            answered: counted_if(is_marker(a), self.answered),
            ..self
        }
    }

    // After a fetch with this answer.
    pub fn fetched(self, a: Answer) -> Counters
        ensures { result ≡ fetched a self }
    {
        Counters {
            sent: counted_if(a.is_ok(), self.sent),
            ..self
        }
    }
}
