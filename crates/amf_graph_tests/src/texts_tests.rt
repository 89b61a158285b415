use crate::checks::{bytes_of, holds, holds_in, number_in};
use amf_graph::{TextPool, Texts};
use amf_test_rows::{Row, Table};
use std::alloc::Global;
use std::process::Abort;

static KEPT: [&[u8]; 5] = [b"a", b"", b"b", b"a", b"ab"];

/// A content with its number, if a text has it.
static NUMBERS: Table = Table {
    rows: 6,
    fields: 2,
    text: "
'a' | 0
 | 1
'b' | 2
'ab' | 3
'abc' | -
'c' | -
",
};

fn kept_texts(rt: &impl Abort, alloc: Global) -> Texts {
    let mut texts = Texts::new(alloc, None);
    for text in KEPT.iter() {
        texts.push(text).expect(rt, "memory");
    }
    texts
}

fn is_found(rt: &impl Abort, alloc: Global, row: Row<'_>, texts: &Texts) {
    let text = bytes_of(rt, alloc, row, 0);
    let number = number_in(rt, row, 1);
    holds_in(rt, row, texts.find(&text) == number, "the number");
}

fn keeps_each_content_once(rt: &impl Abort, alloc: Global, texts: &Texts) {
    holds(
        rt,
        (texts.len(), texts.content_count()) == (5, 4),
        "how many",
    );
    for row in NUMBERS.rows(alloc).expect(rt, "rows").iter() {
        is_found(rt, alloc, *row, texts);
    }
}

fn gives_texts_by_place(rt: &impl Abort, texts: &Texts) {
    for (place, text) in KEPT.iter().enumerate() {
        holds(rt, texts.get(place) == *text, "a text");
    }
    holds(rt, texts.get(KEPT.len()) == b"".as_slice(), "no text");
}

/// Asks for a text, which is kept where it is not there.
fn ask(rt: &impl Abort, texts: &mut Texts, text: &[u8], place: Option<u32>) {
    let found = texts.find_or_push(text).expect(rt, "memory");
    holds(rt, found == place, "the place of a text");
}

fn keeps_what_is_not_there(rt: &impl Abort, texts: &mut Texts) {
    ask(rt, texts, b"b", Some(2));
    ask(rt, texts, b"c", None);
    ask(rt, texts, b"c", Some(4));
    holds(
        rt,
        (texts.len(), texts.content_count()) == (6, 5),
        "how many",
    );
}

#[test]
fn finds_and_keeps_texts(rt: HostRuntime) {
    let mut texts = kept_texts(&rt, rt.alloc());
    keeps_each_content_once(&rt, rt.alloc(), &texts);
    gives_texts_by_place(&rt, &texts);
    keeps_what_is_not_there(&rt, &mut texts);
}

fn kept_pool(rt: &impl Abort, alloc: Global) -> TextPool {
    let mut pool = TextPool::new(alloc);
    for text in KEPT.iter() {
        pool.push(text).expect(rt, "memory");
    }
    pool
}

#[test]
fn keeps_texts_without_hashes(rt: HostRuntime) {
    let pool = kept_pool(&rt, rt.alloc());
    holds(&rt, pool.len() == KEPT.len(), "how many");
    for (place, text) in KEPT.iter().enumerate() {
        if place < pool.len() {
            holds(&rt, pool.get(place) == *text, "a text");
        }
    }
}
