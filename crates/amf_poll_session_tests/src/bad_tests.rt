use crate::checks::holds_of;
use crate::dials::{Case, comes, dial_of_two, link_of};
use crate::replies::replies_at;
use amf_test_rows::{Row, Table};
use std::alloc::Global;
use std::process::Abort;
use std::test::Fail;

/// Bytes that answer a poll, and the number of the bad reply that they are. None of these polls is sent again.
static BAD: Table = Table {
    rows: 6,
    fields: 2,
    text: r"
'HTTP/1.1 2OO OK' 0D0A 'Content-Length: 0' 0D0A 0D0A | 1
'HTTP/1.1 200 OK' 0D0A 'Transfer-Encoding: identity' 0D0A 'Content-Length: 0' 0D0A 0D0A | 2
'HTTP/1.1 200 OK' 0D0A 'Content-Length: +1' 0D0A 0D0A 00 | 3
'HTTP/1.1 200 OK' 0D0A 'Content-Length: 1' 0D0A 0D0A 00 | 4
'HTTP/1.1 200 OK' 0D0A 'Content-Length: 6' 0D0A 0D0A 00 03 00 00 00 00 | 5
'HTTP/1.1 404 Not Found' 0D0A 'Content-Length: 0' 0D0A 0D0A | 8
",
};

fn bad_row(rt: &impl Abort, alloc: Global, row: Row<'_>) -> Result<(), Fail> {
    let case = Case {
        polls: 1,
        code: row.number(1)?,
        written: b"",
        dials: 1,
    };
    let mut bytes = replies_at(alloc, &[0, 1])?;
    bytes.extend_from_slice(&row.bytes(alloc, 0)?)?;
    let first = link_of(alloc, &bytes, &[], &[])?;
    let second = link_of(alloc, &replies_at(alloc, &[5, 4])?, &[], &[])?;
    let mut dial = dial_of_two(alloc, first, second)?;
    let right = comes(alloc, &mut dial, case, &[])?;
    holds_of(rt, row, right);
    Ok(())
}

#[test]
fn bad_replies(rt: HostRuntime) -> Result<(), Fail> {
    for row in BAD.rows(rt.alloc())? {
        bad_row(&rt, rt.alloc(), row)?;
    }
    Ok(())
}
