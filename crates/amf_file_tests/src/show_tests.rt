use crate::checks::{bytes_of, holds_in, number};
use amf_fixtures::{graph0, rooted_at};
use amf_graph::Rooted;
use amf_listings::{file_laws, file_listing_rows, packet_laws, packet_listing_rows};
use amf_show::{count_nodes, listing_laws, listing_rows, show, show_text};
use amf_test_rows::{Row, Table};
use std::alloc::Global;
use std::process::Abort;

/// Bytes of AMF 0, the node that is the root, how many nodes it leads to, and the listing behind a first byte.
static SHOWN: Table = Table {
    rows: 3,
    fields: 4,
    text: "
# An object with a sealed member and two dynamic ones, in AMF 3.
11 0A 1B 01 03'b' 03 00 04 FFFFFFFF 03'a' 06 02 01 | 0 | 1 | '>root #0' 0A '#0 object \"\" sealed {\"b\"=true} dynamic {\"a\"=\"a\", \"b\"=-1}' 0A
# An array of a date, which is node 1, and of node 2: an array of a wrapper over that array, with a name. Node 2 does not
# lead to the first two.
11 09 05 01 08 01 0000000000000000 09 05 07'\"n' 5C 00 01 0A 07 37'flex.messaging.io.ArrayList' 09 04 01 | 2 | 2 | '>root #0' 0A '#0 array [#1, null] {\"\\22n\\5c\"=undefined}' 0A '#1 wrapper \"flex.messaging.io.ArrayList\" #0' 0A
# A dictionary of two nodes without parts.
11 11 05 00 0C 05 0AFF 05 4014000000000000 02 0D 05 01 FFFFFFFF 00000002 | 0 | 3 | '>root #0' 0A '#0 dict strong {#1=d4014000000000000, false=#2}' 0A '#1 bytes x0aff' 0A '#2 ints fixed [-1, 2]' 0A
",
};

#[test]
fn facts_and_laws_stand(_rt: HostRuntime) {
    listing_rows();
    listing_laws();
    packet_listing_rows();
    packet_laws();
    file_listing_rows();
    file_laws();
}

/// Compares a listing with that of a row.
fn is_listing(rt: &impl Abort, alloc: Global, row: Row<'_>, place: usize, listing: &[u8]) {
    let want = bytes_of(rt, alloc, row, place);
    holds_in(rt, row, listing == want.as_slice(), "the listing");
}

/// Compares the listing of a graph, behind a first byte, with that of a row.
fn is_shown(rt: &impl Abort, alloc: Global, row: Row<'_>, graph: &Rooted) {
    let count = count_nodes(alloc, graph).expect(rt, "memory");
    holds_in(rt, row, count == number(rt, row, 2), "how many nodes");
    let mut out = vec![in alloc; b'>'].expect(rt, "memory");
    show(alloc, graph, &mut out).expect(rt, "memory");
    is_listing(rt, alloc, row, 3, &out);
}

fn graph_in(rt: &impl Abort, alloc: Global, row: Row<'_>) -> Rooted {
    let bytes = bytes_of(rt, alloc, row, 0);
    let whole = graph0(alloc, &bytes).expect(rt, "a graph");
    rooted_at(whole, number(rt, row, 1)).expect(rt, "a node")
}

#[test]
fn shows_graphs(rt: HostRuntime) {
    for row in SHOWN.rows(rt.alloc()).expect(&rt, "rows").iter() {
        let graph = graph_in(&rt, rt.alloc(), *row);
        is_shown(&rt, rt.alloc(), *row, &graph);
    }
}

/// Bytes of texts, and their listings.
static TEXTS: Table = Table {
    rows: 3,
    fields: 2,
    text: "
 | '\"\"'
' ~' | '\" ~\"'
1F 7F C3A4 | '\"\\1f\\7f\\c3\\a4\"'
",
};

fn is_text_shown(rt: &impl Abort, alloc: Global, row: Row<'_>) {
    let bytes = bytes_of(rt, alloc, row, 0);
    let mut out = Vec::new(alloc);
    show_text(alloc, &bytes, &mut out).expect(rt, "memory");
    is_listing(rt, alloc, row, 1, &out);
}

#[test]
fn shows_texts(rt: HostRuntime) {
    for row in TEXTS.rows(rt.alloc()).expect(&rt, "rows").iter() {
        is_text_shown(&rt, rt.alloc(), *row);
    }
}
