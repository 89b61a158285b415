//! Labels that are called of which there is no row.

ghost use Rattle.std.specs.Prelude.{◌≡◌, ◌++◌, map, not, IfOk, OnOk};
ghost use Rattle.std.specs.List.{flat_map, position_from};
ghost use Rattle.amf_text.specs.Refused.{first_false};
ghost use Rattle.amf_text_trees.specs.Pages.{is_row, page_calls, pages_calls};
ghost use Rattle.amf_text_pages.specs.Entries.{pair_of};
ghost use Rattle.amf_text_pages.specs.Pages.{page_of, header_of, message_of, document_of};

use crate::lookup::Lookup;
use amf_text_pages::{Document, Entry, Header, Message, Page};
use amf_wire::Memory;
use std::alloc::Global;
use std::hash::RandomState;

/// Whether a row of a table has this label, by the names of its rows.
#[tactic(auto, using(crate::proofs::RowCalls::one_more_call))]
fn has_row(rows: &Lookup, table: &[(Vec<u8>, Entry)], label: &[u8]) -> bool
    requires { rows.now ≡ map (λ p. p.0.items) table.now }
    ensures { result ≡ is_row (map pair_of table.now) label.now }
{
    rows.place(label) < table.len()
}

/// Notes each call of a page, and whether a row has its label.
fn add_calls(
    alloc: Global,
    keys: Option<RandomState>,
    calls: &mut Vec<bool>,
    page: &Page,
) -> Result<(), Memory>
    ensures { OnOk result (calls.new.items ≡ calls.old.items ++ page_calls (page_of page.now)) }
{
    let rows = Lookup::of(alloc, keys, &page.table)?;
    for label in &page.sheet.calls {
        calls.push(has_row(&rows, &page.table, label))?;
    }
    Ok(())
}

/// Notes the calls of headers.
#[tactic(auto, using(crate::proofs::RowCalls::one_more_header))]
fn add_header_calls(
    alloc: Global,
    keys: Option<RandomState>,
    calls: &mut Vec<bool>,
    headers: &[Header],
) -> Result<(), Memory>
    ensures { OnOk result (calls.new.items ≡ calls.old.items ++ flat_map (λ h. page_calls h.graph) (map header_of headers.now)) }
{
    for header in headers {
        add_calls(alloc, keys, calls, &header.page)?;
    }
    Ok(())
}

/// Notes the calls of messages.
#[tactic(auto, using(crate::proofs::RowCalls::one_more_message))]
fn add_message_calls(
    alloc: Global,
    keys: Option<RandomState>,
    calls: &mut Vec<bool>,
    messages: &[Message],
) -> Result<(), Memory>
    ensures { OnOk result (calls.new.items ≡ calls.old.items ++ flat_map (λ m. page_calls m.graph) (map message_of messages.now)) }
{
    for message in messages {
        add_calls(alloc, keys, calls, &message.page)?;
    }
    Ok(())
}

/// The calls of a document in the order of its text, each with whether a row of its page has its label.
fn calls_of(
    alloc: Global,
    keys: Option<RandomState>,
    document: &Document,
) -> Result<Vec<bool>, Memory>
    ensures { IfOk result (λ calls. calls.items ≡ pages_calls (document_of document.now)) }
{
    let mut calls = Vec::new(alloc);
    match document {
        Document::Value3(page) => add_calls(alloc, keys, &mut calls, page)?,
        Document::Value0(page) => add_calls(alloc, keys, &mut calls, page)?,
        Document::File(_, _, page) => add_calls(alloc, keys, &mut calls, page)?,
        Document::Packet(_, headers, messages) => {
            add_header_calls(alloc, keys, &mut calls, headers)?;
            add_message_calls(alloc, keys, &mut calls, messages)?;
        }
    }
    Ok(calls)
}

/// Where the first stands that is false.
fn false_place(calls: &[bool]) -> Option<usize>
    ensures { result ≡ position_from (λ b. not b) 0 calls.now }
{
    calls.iter().position(|call| !*call)
}

/// The place of the first that is false.
#[tactic(auto, using(crate::proofs::RowCalls::is_position))]
fn first_false(calls: &[bool]) -> Option<usize>
    ensures { result ≡ first_false calls.now }
{
    false_place(calls)
}

/// The first call of a document of which its page has no row, by its place among all calls. It gives up where there is no
/// memory.
pub fn lost_call(
    alloc: Global,
    keys: Option<RandomState>,
    document: &Document,
) -> Result<Option<usize>, Memory>
    ensures { IfOk result (λ k. k ≡ first_false (pages_calls (document_of document.now))) }
{
    let calls = calls_of(alloc, keys, document)?;
    Ok(first_false(&calls))
}
