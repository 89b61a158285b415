ghost use Rattle.std.specs.Prelude.{◌≡◌, ◌+◌, ◌%◌, ◌≤◌, take};
ghost use Rattle.amf_wire.specs.Style.{canonical};
ghost use Rattle.amf_wire.specs.U29.{IsU29};

use crate::u29::U29;

/// The bytes that spell a number: the first `len` of `bytes` (AMF 3 specification, 1.3.1).
#[derive(Clone, Copy)]
pub struct U29Bytes {
    /// The spelling, and behind it bytes that do not count.
    pub bytes: [u8; 4],
    /// How many of them count, from 1 to 4.
    pub len: u8,
    pub ghost not_empty: { 1 ≤ len },
    pub ghost at_most_four: { len ≤ 4 },
}

impl U29Bytes {
    /// The bytes that count.
    pub fn as_slice(&self) -> &[u8]
        ensures { result.now ≡ take self.now.len self.now.bytes }
    {
        &self.bytes[..self.len as usize]
    }
}

/// The shortest spelling of `n` (AMF 3 specification, 1.3.1).
pub fn write_u29(n: U29) -> U29Bytes
    ensures { IsU29 canonical n (take result.len result.bytes) }
{
    let n = n.get();
    if n < 0x80 {
        U29Bytes {
            bytes: [n as u8, 0, 0, 0],
            len: 1,
        }
    } else if n < 0x4000 {
        U29Bytes {
            bytes: [more(n / 0x80), last(n), 0, 0],
            len: 2,
        }
    } else if n < 0x20_0000 {
        U29Bytes {
            bytes: [more(n / 0x4000), more(n / 0x80), last(n), 0],
            len: 3,
        }
    } else {
        U29Bytes {
            bytes: [
                more(n / 0x40_0000),
                more(n / 0x8000),
                more(n / 0x100),
                (n % 0x100) as u8,
            ],
            len: 4,
        }
    }
}

/// The low seven bits of `n`, with the top bit set since another byte follows.
fn more(n: u32) -> u8
    ensures { result ≡ 128 + n % 128 }
{
    0x80 + (n % 0x80) as u8
}

/// The low seven bits of `n`.
fn last(n: u32) -> u8
    ensures { result ≡ n % 128 }
{
    (n % 0x80) as u8
}
