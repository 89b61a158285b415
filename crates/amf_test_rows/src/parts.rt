use crate::bytes::bytes_of;
use crate::row::Wrong;
use std::alloc::Global;

/// Appends the bytes of a text, as [`bytes_of`] reads them. The text may have `n*` before it: then they stand n times.
pub fn push_part(alloc: Global, out: &mut Vec<u8>, part: &str) -> Result<(), Wrong> {
    let (count, text) = part.split_once('*').unwrap_or(("1", part));
    let Ok(count) = count.trim().parse::<usize>() else {
        return Err(Wrong {
            line: 0,
            what: "no count",
        });
    };
    let Some(bytes) = bytes_of(alloc, text)? else {
        return Err(Wrong {
            line: 0,
            what: "no bytes",
        });
    };
    for _ in 0..count {
        out.extend_from_slice(&bytes)?;
    }
    Ok(())
}
