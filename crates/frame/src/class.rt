// The frame tests (R5): what a received frame is, or why it is refused.
ghost use Rattle.std.specs.Prelude.{◌≡◌, ◌≤◌, length};
ghost use Rattle.frame.specs.Class.{refusal_number, class_of, foreign, unknown, wrong_length, wrong_marker_type, illegal, kind_of, frame_size};

// Why the frame tests refuse a frame; the definition `refusal_number` gives the answer number of each.
#[derive(Clone, Copy, PartialEq, Eq)]
pub enum Refusal {
    // Too short for a header, or not to the Slow Protocols address.
    Foreign,
    // Another type, or a subtype that other Slow Protocols may use.
    Unknown,
    // A Slow Protocols frame that breaks the rules of its subtype.
    Illegal,
}

// The answer number.
impl From<Refusal> for u8 {
    ghost from_gives = { λ refusal n. n ≡ refusal_number refusal };

    fn from(refusal: Refusal) -> u8 {
        match refusal {
            Refusal::Foreign => 6,
            Refusal::Unknown => 7,
            Refusal::Illegal => 8,
        }
    }
}

// What a frame is that the tests pass.
#[derive(Clone, Copy, PartialEq, Eq)]
pub enum Kind {
    Lacpdu,
    Marker,
    Response,
}

// The octets of an LACPDU, a Marker or a Response.
pub const FRAME: usize = 124;
// The type of the Slow Protocols.
pub(crate) const SLOW_TYPE: u16 = 0x8809;

pub(crate) const DESTINATION: [u8; 6] = [0x01, 0x80, 0xc2, 0x00, 0x00, 0x02];

// R5.1: too short for a header, or sent to somebody else.
#[tactic(auto, unfolding(crate::specs::Class::foreign))]
fn is_foreign(s: &[u8]) -> bool
    ensures { result ≡ foreign s.now }
{
    s.len() < 14 || !octets::same(&s[..6], &DESTINATION)
}

// R5.2: sent to us, but not of the Slow Protocols, or of a subtype that others may use.
#[tactic(auto, unfolding(crate::specs::Class::unknown))]
fn is_unknown(s: &[u8]) -> bool
    requires { 14 ≤ length s.now }
    ensures { result ≡ unknown s.now }
{
    octets::number::<u16>(s, 12) != SLOW_TYPE
        || s.get(14).is_some_and(|subtype| (3..=10).contains(subtype))
}

// Of R5.3: a length octet that is wrong, of an LACPDU, a Marker or a Response.
// Kept: `frame_size` is a clause of three functions, since their definitions speak of a frame and not of its first 124 octets.
#[tactic(auto, unfolding(crate::specs::Class::wrong_length))]
fn has_wrong_length(s: &[u8]) -> bool
    requires { frame_size ≤ length s.now }
    ensures { result ≡ wrong_length s.now }
{
    match s[14] {
        1 => [s[17], s[37], s[57]] != [20, 20, 16],
        _ => s[17] != 16,
    }
}

// Of R5.3: subtype 2, and neither a Marker nor a Response.
#[tactic(auto, unfolding(crate::specs::Class::wrong_marker_type))]
fn has_wrong_marker_type(s: &[u8]) -> bool
    requires { frame_size ≤ length s.now }
    ensures { result ≡ wrong_marker_type s.now }
{
    s[14] == 2 && !matches!(s[16], 1 | 2)
}

// R5.3: the frame ends before its subtype, has one that nobody may use, is too short, or one of the two above.
#[tactic(auto, unfolding(crate::specs::Class::illegal))]
fn is_illegal(s: &[u8]) -> bool
    ensures { result ≡ illegal s.now }
{
    s.len() < 15
        || matches!(s[14], 0 | 11..)
        || s.len() < FRAME
        || has_wrong_length(s)
        || has_wrong_marker_type(s)
}

// What a frame is that is not refused.
fn kind_of(s: &[u8]) -> Kind
    requires { frame_size ≤ length s.now }
    ensures { result ≡ kind_of s.now }
{
    match (s[14], s[16]) {
        (1, _) => Kind::Lacpdu,
        (_, 1) => Kind::Marker,
        _ => Kind::Response,
    }
}

// What a received frame is, or why it is refused. Octets after 124 are not looked at.
#[tactic(auto, using(crate::proofs::ClassLaws::foreign_clear, crate::proofs::ClassLaws::illegal_clear), unfolding(crate::specs::Class::class_of))]
pub fn classify(s: &[u8]) -> Result<Kind, Refusal>
    ensures { result ≡ class_of s.now }
{
    if is_foreign(s) {
        Err(Refusal::Foreign)
    } else if is_unknown(s) {
        Err(Refusal::Unknown)
    } else if is_illegal(s) {
        Err(Refusal::Illegal)
    } else {
        Ok(kind_of(s))
    }
}
