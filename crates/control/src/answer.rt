// What a call answers.
ghost use Rattle.std.specs.Prelude.{◌≡◌, ℕ};
ghost use Rattle.frame.specs.declared.class.Refusal.{Refusal};
ghost use Rattle.control.specs.declared.answer.Reason.TheVariants.{Frame};
ghost use Rattle.control.specs.Accepted.{is_lacpdu};
ghost use Rattle.control.specs.Answer.{reason_number, number_by, length_sent, undue_reason};

use frame::class::{FRAME, Refusal};
use port::transmit::Undue;

// Why a call was refused; `reason_number` gives the answer number of each.
#[derive(Clone, Copy, PartialEq, Eq)]
pub enum Reason {
    // The memory is no table.
    Table,
    // No port, or no aggregator, has the number.
    Number,
    // The outgoing buffer has no room for a frame.
    Buffer,
    // Collecting and Synchronization differ in the default partner block.
    Default,
    // An LACPDU without fault on a port that is down or at half duplex.
    Disabled,
    // What the frame tests say.
    Frame(Refusal),
    // A Marker on a port that neither collects nor distributes.
    NotCollecting,
    // Nothing is due, or the port is down or at half duplex.
    NothingToSend,
    // Something is due, but three sends are not old yet.
    Barred,
    // A Marker Response, for which nobody here waits.
    Response,
}

// How a call was accepted.
#[derive(Clone, Copy, PartialEq, Eq)]
pub enum Accepted {
    Done,
    // A received LACPDU was done.
    Lacpdu,
    // A received Marker was done.
    Marker,
}

// What a call answers; `answer_number` gives the number of each, `length_sent` how much is to be sent for a frame.
pub type Answer = Result<Accepted, Reason>;

impl From<Undue> for Reason {
    ghost from_gives = { λ undue reason. reason ≡ undue_reason undue };

    fn from(undue: Undue) -> Reason {
        match undue {
            Undue::Nothing => Reason::NothingToSend,
            Undue::Barred => Reason::Barred,
        }
    }
}

impl From<Refusal> for Reason {
    ghost from_gives = { λ refusal reason. reason ≡ Frame refusal };

    fn from(refusal: Refusal) -> Reason {
        Reason::Frame(refusal)
    }
}

// What has an answer number (R2): a reason its own, and a result 0 or that of its error.
pub trait Numbered: Copy {
    ghost number_of: { Self → ℕ };

    fn number(self) -> u8
        ensures { result ≡ number_of self };
}

impl Numbered for Reason {
    ghost number_of = { reason_number };

    fn number(self) -> u8 {
        match self {
            Reason::Table => 1,
            Reason::Number => 2,
            Reason::Buffer => 3,
            Reason::Default => 4,
            Reason::Disabled => 5,
            Reason::Frame(refusal) => u8::from(refusal),
            Reason::NotCollecting => 9,
            Reason::NothingToSend => 10,
            Reason::Barred => 11,
            Reason::Response => 12,
        }
    }
}

impl<T: Copy, E: Numbered> Numbered for Result<T, E> {
    ghost number_of = { number_by E.number_of };

    fn number(self) -> u8 {
        match self {
            Ok(_) => 0,
            Err(why) => why.number(),
        }
    }
}

// Whether a call was accepted by doing a received LACPDU.
pub fn is_lacpdu(answer: Answer) -> bool
    ensures { result ≡ is_lacpdu answer }
{
    matches!(answer, Ok(Accepted::Lacpdu))
}

// The length that was sent for a received frame.
pub fn length_sent(answer: Answer) -> u8
    ensures { result ≡ length_sent answer }
{
    match answer {
        Ok(Accepted::Marker) => FRAME as u8,
        _ => 0,
    }
}
