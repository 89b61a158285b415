use std::alloc::{AllocError, Global};

/// Where a reader of bytes stands.
#[derive(Clone, Copy)]
enum Place {
    Outside,
    /// Behind a first digit.
    Half(u8),
    Quoted,
}

/// The bytes that a text spells: two hexadecimal digits are a byte, what stands between two `'` is itself, and spaces
/// between these are nothing.
pub fn bytes_of(alloc: Global, text: &str) -> Result<Option<Vec<u8>>, AllocError> {
    let mut bytes = Vec::new(alloc);
    let mut place = Place::Outside;
    for byte in text.bytes() {
        match read_on(place, byte, &mut bytes)? {
            Some(next) => place = next,
            None => return Ok(None),
        }
    }
    match place {
        Place::Outside => Ok(Some(bytes)),
        _ => Ok(None),
    }
}

/// Where the reader stands behind a byte of the text, unless that is wrong there.
fn read_on(place: Place, byte: u8, bytes: &mut Vec<u8>) -> Result<Option<Place>, AllocError> {
    match place {
        Place::Outside => Ok(outside(byte)),
        Place::Half(high) => match digit(byte) {
            Some(low) => {
                bytes.push(high.wrapping_mul(16).wrapping_add(low))?;
                Ok(Some(Place::Outside))
            }
            None => Ok(None),
        },
        Place::Quoted if byte == b'\'' => Ok(Some(Place::Outside)),
        Place::Quoted => {
            bytes.push(byte)?;
            Ok(Some(Place::Quoted))
        }
    }
}

fn outside(byte: u8) -> Option<Place> {
    match byte {
        b' ' => Some(Place::Outside),
        b'\'' => Some(Place::Quoted),
        _ => digit(byte).map(Place::Half),
    }
}

fn digit(byte: u8) -> Option<u8> {
    match byte {
        b'0'..=b'9' => Some(byte - b'0'),
        b'a'..=b'f' => Some(byte - b'a' + 10),
        b'A'..=b'F' => Some(byte - b'A' + 10),
        _ => None,
    }
}
