ghost use Rattle.std.specs.Prelude.{◌≡◌, false, IfOk};

use crate::checks::holds_of;
use crate::dials::{Case, comes, link_of};
use crate::replies::replies_at;
use amf_io::{MemoryDial, MemoryLink};
use amf_test_rows::{Row, Table};
use std::alloc::Global;
use std::process::Abort;
use std::test::Fail;

/// Sessions: how many polls; the replies that three links give, by their places; what comes of it, what is written, and how many dials are
/// made; which reads, and which writes and flushes of the first link fail, which dials, and which writes and flushes of the output.
static SESSIONS: Table = Table {
    rows: 34,
    fields: 11,
    text: r"
# A link that ends at the poll, and three that do.
1 | 00 01 | 05 04 | | 0 | 06 05 'hi' | 2 | | | |
1 | 00 01 | | | 7 | | 3 | | | |
1 | 00 01 05 04 | | | 0 | 06 05 'hi' | 1 | | | |
2 | 00 01 05 06 04 | | | 0 | 06 05 'hi' 04 05 | 1 | | | |
2 | 00 01 05 | 06 04 | | 0 | 06 05 'hi' 04 05 | 2 | | | |
1 | 00 01 07 04 | | | 0 | 03 | 1 | | | |
1 | 00 01 02 | 04 | | 0 | | 2 | | | |
# Another number than the one asked: an older one, or the next.
2 | 00 01 05 05 | | | 6 | 06 05 'hi' | 1 | | | |
1 | 00 01 06 | | | 6 | | 1 | | | |
# No answers.
1 | 00 01 08 | | | 6 | | 1 | | | |
1 | 00 01 09 | | | 6 | | 1 | | | |
1 | 00 01 0A | | | 6 | | 1 | | | |
1 | 00 01 0B | | | 6 | | 1 | | | |
1 | 00 01 0C | | | 6 | | 1 | | | |
1 | 00 01 0D | | | 6 | | 1 | | | |
1 | 00 01 0E | | | 6 | | 1 | | | |
1 | 00 01 0F | | | 6 | | 1 | | | |
1 | 00 01 10 | | | 6 | | 1 | | | |
1 | 11 | | | 6 | | 1 | | | |
1 | 12 | | | 6 | | 1 | | | |
1 | 00 13 | | | 6 | | 1 | | | |
1 | 00 01 14 | | | 20 | | 1 | | | |
1 | 15 | | | 20 | | 1 | | | |
# The ping and the subscribe are not sent again.
1 | 00 01 05 04 | 00 01 05 04 | | 30 | | 1 | 0 | | |
1 | 00 01 05 04 | 01 05 04 | | 30 | | 1 | | 2 | |
1 | 00 01 05 04 | | | 30 | | 1 | | | 0 |
# A poll and the disconnect are, whether a read fails, a write or a flush.
1 | 00 01 | 05 04 | | 0 | 06 05 'hi' | 2 | 1 | | |
1 | 00 01 | 05 04 | | 0 | 06 05 'hi' | 2 | | 4 | |
1 | 00 01 | 05 04 | | 0 | 06 05 'hi' | 2 | | 5 | |
1 | 00 01 05 04 | 04 | | 0 | 06 05 'hi' | 2 | | 6 | |
# Dials that fail count, and the last failure decides.
1 | 00 01 | 05 04 | | 30 | | 3 | | | 1 2 |
1 | 00 01 | | | 7 | | 3 | | | 1 |
1 | 00 01 | 05 04 | | 0 | 06 05 'hi' | 3 | 1 | | 1 |
# A write of the output fails.
2 | 00 01 05 06 04 | | | 40 | 06 05 'hi' | 1 | | | | 2
",
};

/// A dial of three links that give these replies.
fn dial_of(alloc: Global, row: Row<'_>) -> Result<MemoryDial<MemoryLink>, Fail>
    ensures { IfOk result (λ d. d.links.out ≡ false) }
{
    let first = replies_at(alloc, &row.bytes(alloc, 1)?)?;
    let second = replies_at(alloc, &row.bytes(alloc, 2)?)?;
    let third = replies_at(alloc, &row.bytes(alloc, 3)?)?;
    let reads = row.numbers(alloc, 7)?;
    let writes = row.numbers(alloc, 8)?;
    let mut links = Vec::new(alloc);
    links.push(link_of(alloc, &first, &reads, &writes)?)?;
    links.push(link_of(alloc, &second, &[], &[])?)?;
    links.push(link_of(alloc, &third, &[], &[])?)?;
    Ok(MemoryDial::new(alloc, links, &row.numbers(alloc, 9)?)?)
}

fn session_row(rt: &impl Abort, alloc: Global, row: Row<'_>) -> Result<(), Fail> {
    let written = row.bytes(alloc, 5)?;
    let case = Case {
        polls: u64::from(row.number(0)?),
        code: row.number(4)?,
        written: &written,
        dials: row.number(6)? as usize,
    };
    let failing = row.numbers(alloc, 10)?;
    let mut dial = dial_of(alloc, row)?;
    let right = comes(alloc, &mut dial, case, &failing)?;
    holds_of(rt, row, right);
    Ok(())
}

#[test]
fn sessions(rt: HostRuntime) -> Result<(), Fail> {
    for row in SESSIONS.rows(rt.alloc())? {
        session_row(&rt, rt.alloc(), row)?;
    }
    Ok(())
}
