ghost use Rattle.std.specs.Prelude.{◌≡◌, false, true, bytes_eq, MatchOption};
ghost use Rattle.flv_meta.specs.File.{Tag as FileTag, IsTag, tag_bytes, metadata_name, is_metadata, value_bytes};
ghost use Rattle.flv_meta.specs.FileAnswers.{IsStoredTag};

use crate::tag::Tag;

/// The name `onMetaData` as a value of AMF 0, with which the data of a metadata tag begin.
pub(crate) const NAME: [u8; 13] = [
    2, 0, 10, b'o', b'n', b'M', b'e', b't', b'a', b'D', b'a', b't', b'a',
];

/// The type of script data.
pub(crate) const SCRIPT: u8 = 0x12;

/// How many bytes of a tag stand before its data, and how many behind them.
const BEFORE: usize = 11;

const BEHIND: usize = 4;

/// Whether a tag is metadata: script data that begin with the name `onMetaData` (E.4.4 and E.5). It takes no memory.
///
/// The tag is a whole one, as `next_tag` gives it.
pub fn is_metadata(tag: &Tag) -> bool
    requires { IsStoredTag tag.now }
    ensures { (t : FileTag) → IsTag t → tag.now.bytes ≡ tag_bytes t → result ≡ is_metadata t }
{
    value_part(tag.bytes.as_slice()).is_some()
}

/// The bytes behind the name, where these are the bytes of a metadata tag.
pub(crate) fn value_part(bytes: &[u8]) -> Option<&[u8]>
    requires { (t : FileTag) × IsTag t × (bytes.now ≡ tag_bytes t) }
    ensures { (t : FileTag) → IsTag t → bytes.now ≡ tag_bytes t → MatchOption result (is_metadata t ≡ false) (λ part. (is_metadata t ≡ true) × (part.now ≡ value_bytes t)) }
{
    if bytes.len() < BEFORE + NAME.len() + BEHIND {
        return None;
    }
    if bytes[0] != SCRIPT {
        return None;
    }
    let data = &bytes[BEFORE..bytes.len() - BEHIND];
    let named = is_name(&data[..NAME.len()]);
    if named {
        Some(&data[NAME.len()..])
    } else {
        None
    }
}

/// Whether these bytes are the name.
fn is_name(bytes: &[u8]) -> bool
    ensures { result ≡ bytes_eq bytes.now metadata_name }
{
    bytes == NAME.as_slice()
}
