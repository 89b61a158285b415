mod rows;

use amf_options::options_of;
use rows::{COUNT, ROWS};
use std::alloc::{AllocError, Global};
use std::process::Abort;

static OPTIONS: [&str; 2] = ["from", "to"];

/// The words of a row, of which `%` stands for the empty one.
fn words_of<'a>(alloc: Global, text: &'a str) -> Result<Vec<&'a str>, AllocError> {
    let mut words = Vec::new(alloc);
    for word in text.split_whitespace() {
        words.push(if word == "%" { "" } else { word })?;
    }
    Ok(words)
}

/// What the words give `--from`, as a row says it.
fn from_of<'a>(alloc: Global, words: &'a [&'a str]) -> Result<&'a str, AllocError> {
    match options_of(alloc, "canon", OPTIONS.as_slice(), words)? {
        Some(matches) => Ok(matches.get_str("from").unwrap_or("no value")),
        None => Ok("no options"),
    }
}

fn check_row<R: Abort>(rt: &R, alloc: Global, line: &str, number: usize) {
    let (text, want) = line.split_once('|').expect(rt, "a bar");
    let words = words_of(alloc, text).expect(rt, "room for words");
    let given = from_of(alloc, &words).expect(rt, "room for options");
    assert!(rt; given == want.trim(), "row at line {number}: {given}");
}

#[test]
fn words_give_options(rt: HostRuntime) {
    let mut rows = 0usize;
    for (number, line) in ROWS.lines().enumerate() {
        if !line.is_empty() && !line.starts_with('#') {
            check_row(&rt, rt.alloc(), line, number);
            rows = rows.saturating_add(1);
        }
    }
    assert!(rt; rows > 0 && rows == COUNT, "{rows} rows");
}
