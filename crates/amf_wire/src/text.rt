ghost use Rattle.std.specs.Prelude.{◌≡◌, ℕ, ◌<◌, ◌≤◌, ◌↔◌, length, take, IsTrue, IsNone, IfSome, IfNone};
ghost use Rattle.std.specs.List.{AllZip};
ghost use Rattle.amf_wire.specs.Text.{IsText, EndsText, is_text, following, IsWithin, rest_byte};
ghost use Rattle.amf_wire.specs.Front.{IsFrontUnit, IsFrontText, ranges_of};

/// How many bytes are judged at once where they are ASCII.
const WORD: usize = 8;

/// Whether `bytes` are a text: UTF-8, and with it surrogates by three bytes each and `C0 80` for a zero (AMF 3
/// specification, 1.3.2; AMF 0 specification, 1.3.1; RFC 3629, section 4).
pub fn is_amf_text(bytes: &[u8]) -> bool
    ensures text { IsTrue result ↔ IsText bytes.now }
    ensures test { result ≡ is_text bytes.now }
{
    first_bad(bytes).is_none()
}

/// The offset, in bytes from 0, at which the longest front of whole characters ends, or `None` exactly where that is all of
/// `bytes` (AMF 3 specification, 1.3.2; RFC 3629, section 4).
pub fn first_bad(bytes: &[u8]) -> Option<usize>
    ensures whole { IsNone result ↔ IsText bytes.now }
    ensures front { IfSome result (λ n. (n < length bytes.now) × EndsText bytes.now n) }
{
    let mut at = 0;
    while at < bytes.len() {
        match front_length(&bytes[at..]) {
            Some(length) => at += length,
            None => return Some(at),
        }
    }
    None
}

/// How many bytes at the front of `bytes` are a text: a word of ASCII, or one unit. `None` where no unit stands there.
fn front_length(bytes: &[u8]) -> Option<usize>
    requires { 0 < length bytes.now }
    ensures text { IfSome result (IsFrontText bytes.now) }
    ensures none { IfNone result ((n : ℕ) → ¬ IsFrontUnit bytes.now n) }
{
    if bytes.len() >= WORD && bytes[..WORD].is_ascii() {
        return Some(WORD);
    }
    if bytes[0] < 0x80 {
        return Some(1);
    }
    unit_length(bytes)
}

/// How many bytes the unit at the front of `bytes` has, or `None` where no unit stands there.
fn unit_length(bytes: &[u8]) -> Option<usize>
    requires { 0 < length bytes.now }
    ensures unit { IfSome result (λ n. IsFrontUnit bytes.now n) }
    ensures none { IfNone result ((n : ℕ) → ¬ IsFrontUnit bytes.now n) }
{
    let following = Following::behind(bytes[0])?;
    if following.begin(&bytes[1..]) {
        Some(1 + following.count as usize)
    } else {
        None
    }
}

/// The bytes that follow the first one of a unit: none to three, of which the first is within `low` and `high`, and the
/// others within `80` and `BF`.
#[derive(Clone, Copy)]
struct Following {
    count: u8,
    low: u8,
    high: u8,
    ghost at_most_three: { count ≤ 3 },
}

impl Following {
    /// What follows `first` in its unit, or `None` where no unit begins with it.
    fn behind(first: u8) -> Option<Following>
        ensures some { IfSome result (λ f. following first ≡ Some (ranges_of f.count f.low f.high)) }
        ensures none { IfNone result (following first ≡ None) }
    {
        let (count, low, high) = match first {
            0x00..=0x7F => (0, 0, 0),
            0xC0 => (1, 0x80, 0x80),
            0xC2..=0xDF => (1, 0x80, 0xBF),
            0xE0 => (2, 0xA0, 0xBF),
            0xE1..=0xEF => (2, 0x80, 0xBF),
            0xF0 => (3, 0x90, 0xBF),
            0xF1..=0xF3 => (3, 0x80, 0xBF),
            0xF4 => (3, 0x80, 0x8F),
            _ => return None,
        };
        Some(Following { count, low, high })
    }

    /// Whether `bytes` begin with such bytes.
    fn begin(self, bytes: &[u8]) -> bool
        ensures { IsTrue result ↔ AllZip IsWithin (ranges_of self.count self.low self.high) (take self.count bytes.now) }
    {
        let count = self.count as usize;
        if count == 0 {
            return true;
        }
        if bytes.len() < count {
            return false;
        }
        if bytes[0] < self.low || self.high < bytes[0] {
            return false;
        }
        (count < 2 || is_rest(bytes[1])) && (count < 3 || is_rest(bytes[2]))
    }
}

/// Whether any byte behind the second of a unit may be this one.
fn is_rest(byte: u8) -> bool
    ensures { IsTrue result ↔ IsWithin rest_byte byte }
{
    0x80 <= byte && byte <= 0xBF
}
