//! The bytes that are the same in every shared object file.

/// What a file begins with.
pub(crate) const SIGNATURE: [u8; 2] = [0x00, 0xBF];

/// What stands between the length and the name.
pub(crate) const SECOND_SIGNATURE: [u8; 10] = [
    b'T', b'C', b'S', b'O', 0x00, 0x04, 0x00, 0x00, 0x00, 0x00,
];

/// What stands between the name and the version.
pub(crate) const PADDING: [u8; 3] = [0x00, 0x00, 0x00];
