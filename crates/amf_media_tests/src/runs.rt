use crate::checks::{is, is_at};
use amf_io::{MemorySink, MemorySource};
use amf_media::{FlvJob, MediaEnd, flv};
use amf_test_rows::{Row, Table};
use std::alloc::Global;
use std::process::Abort;
use std::test::Fail;

/// How bytes are given and taken: how many at most in a piece, the offset past which no piece goes on, the numbers of the reads
/// that fail, and those of the writes.
#[derive(Clone, Copy, Debug)]
pub(crate) struct Link<'a> {
    pub(crate) most: usize,
    pub(crate) cut: usize,
    pub(crate) reads: &'a [u64],
    pub(crate) writes: &'a [u64],
}

/// In pieces of so many bytes at most, the first of which ends at the cut.
pub(crate) fn pieces(most: usize, cut: usize) -> Link<'static> {
    Link {
        most,
        cut,
        reads: &[],
        writes: &[],
    }
}

/// The job of a word.
pub(crate) fn job_of(word: &str) -> FlvJob {
    match word {
        "show" => FlvJob::Show,
        "set" => FlvJob::Set,
        _ => FlvJob::Drop,
    }
}

/// What came of a job: how it ended, and behind a line feed what the output took.
pub(crate) fn run(
    alloc: Global,
    job: FlvJob,
    bytes: &[u8],
    link: &Link<'_>,
) -> Result<Vec<u8>, Fail> {
    let mut source = MemorySource::new(alloc, bytes, link.most, link.cut, link.reads)?;
    let mut sink = MemorySink::new(alloc, link.most, link.writes)?;
    let end = flv(alloc, job, &mut source, &mut sink);
    told(alloc, end, sink.as_bytes())
}

/// An end and an output, as they are compared.
pub(crate) fn told(alloc: Global, end: MediaEnd, output: &[u8]) -> Result<Vec<u8>, Fail> {
    let text = end_told(alloc, end)?;
    wanted(alloc, &text, output)
}

/// The text of an end and an output, as they are compared.
pub(crate) fn wanted(alloc: Global, end: &str, output: &[u8]) -> Result<Vec<u8>, Fail> {
    let mut all = Vec::new(alloc);
    all.extend_from_slice(end.as_bytes())?;
    all.push(b'\n')?;
    all.extend_from_slice(output)?;
    Ok(all)
}

/// The reason and the place of a refusal, the lack of a value and its node, or the end itself.
fn end_told(alloc: Global, end: MediaEnd) -> Result<String, Fail> {
    match end {
        MediaEnd::Refused(refusal) => {
            let reason = refusal.reason;
            let at = refusal.at;
            Ok(format!(in alloc; "{reason:?} {at}")?)
        }
        MediaEnd::NoForm(lack) => {
            let kind = lack.kind;
            let node = lack.node;
            Ok(format!(in alloc; "{kind:?} {node}")?)
        }
        end => Ok(format!(in alloc; "{end:?}")?),
    }
}

/// Runs a job on bytes whole, a byte at a time, and in two pieces that meet at each place.
pub(crate) fn runs_in_any_pieces(
    rt: &impl Abort,
    alloc: Global,
    row: Row<'_>,
    job: FlvJob,
    bytes: &[u8],
    want: &[u8],
) -> Result<(), Fail> {
    is(rt, row, &run(alloc, job, bytes, &pieces(1, 0))?, want);
    for cut in 0..=bytes.len() {
        is(
            rt,
            row,
            &run(alloc, job, bytes, &pieces(65_536, cut))?,
            want,
        );
    }
    Ok(())
}

/// The first of some bytes.
pub(crate) fn front(bytes: &[u8], length: usize) -> &[u8] {
    match length < bytes.len() {
        true => &bytes[..length],
        false => bytes,
    }
}

/// In pieces of one byte, where these reads and these writes fail.
pub(crate) fn failing<'a>(reads: &'a [u64], writes: &'a [u64]) -> Link<'a> {
    Link {
        most: 1,
        cut: 0,
        reads,
        writes,
    }
}

/// Runs a job in which a read of one byte fails, by rows that say from which to which read, and how many bytes of the output are
/// written before.
pub(crate) fn reads_fail(
    rt: &impl Abort,
    alloc: Global,
    rows: &Table,
    job: FlvJob,
    input: &[u8],
    output: &[u8],
) -> Result<(), Fail> {
    for row in rows.rows(alloc)?.iter() {
        let want = wanted(alloc, "ReadFault", front(output, row.number(2)? as usize))?;
        for read in row.number(0)?..=row.number(1)? {
            let got = run(alloc, job, input, &failing(&[read as u64], &[]))?;
            is(rt, *row, &got, &want);
        }
    }
    Ok(())
}

/// Runs a job in which each of so many writes of one byte fails: the bytes before were written.
pub(crate) fn writes_fail(
    rt: &impl Abort,
    alloc: Global,
    writes: usize,
    job: FlvJob,
    input: &[u8],
    output: &[u8],
) -> Result<(), Fail> {
    for write in 0..writes {
        let want = wanted(alloc, "WriteFault", front(output, write))?;
        let got = run(alloc, job, input, &failing(&[], &[write as u64]))?;
        is_at(rt, write, &got, &want);
    }
    Ok(())
}
