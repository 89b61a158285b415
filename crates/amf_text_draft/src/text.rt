//! Reads a text.

ghost use Rattle.std.specs.Prelude.{◌≡◌, ◌*◌, ◌≤◌, None, length, IfOk, IfSome, IfNone, MatchOption};
ghost use Rattle.std.specs.Str.{IsUtf8};
ghost use Rattle.std.specs.Result.{IsErrOf};
ghost use Rattle.json.specs.Lex.{tokens};
ghost use Rattle.amf_text.specs.Scalars.{read_number};
ghost use Rattle.amf_text.specs.Scan.{scan, ended};
ghost use Rattle.amf_text.specs.Refused.{IsTextAccepted, first_false, text_limit};
ghost use Rattle.amf_text_laws.specs.TextBounds.{graphs_weight};
ghost use Rattle.amf_text_trees.specs.Pages.{pages_calls};
ghost use Rattle.amf_text_trees.specs.TreeLaws.{Gathers};
ghost use Rattle.amf_text_read.specs.TextVerdicts.{IsAcceptedButLabels, IsRefusedSo};
ghost use Rattle.amf_text_draft.specs.declared.text.TextEnd.TheVariants.{Memory as NoMemory};
ghost use Rattle.amf_text_pages.specs.Pages.{document_of};
ghost use Rattle.amf_text_draft.specs.Results.{IsLost};
ghost use Rattle.amf_text_pages.specs.Written.{document_written};

use amf_text::{TextReason, whole_laws};
use amf_text_gather::gather_text;
use amf_text_graphs::{document_with_graphs, lost_call};
use amf_text_laws::{few_nodes, one_verdict};
use amf_text_pages::{Document, Written};
use amf_text_read::{Refusal, label_place, line_and_column, text_verdict};
use amf_text_trees::tree_laws;
use amf_wire::Memory;
use std::alloc::Global;
use std::hash::RandomState;
use std::str;

/// The most bytes of a text.
const MAX_BYTES: usize = 268_435_456;

/// Why nothing was read of a text.
#[derive(Clone, Copy, Debug)]
pub enum TextEnd {
    /// The text is refused.
    Refused(Refusal),
    /// There was no memory left.
    Memory,
}

impl From<Memory> for TextEnd {
    ghost from_gives = { λ _ e. e ≡ NoMemory };

    fn from(_error: Memory) -> TextEnd {
        TextEnd::Memory
    }
}

/// The refusal of a text that is right but for a call of which there is no row, by the number of that call.
fn no_label(
    alloc: Global,
    keys: Option<RandomState>,
    text: &str,
    label: usize,
) -> Result<Refusal, Memory>
    requires within { length text.now ≤ text_limit }
    requires ended { (scan text.now).stop ≡ ended }
    requires lost { IsLost text.now label }
    ensures { IfOk result (λ r. IsRefusedSo text.now r) }
{
    one_verdict();
    let Some(at) = label_place(alloc, keys, text, label)? else {
        unreachable!();
    };
    let (line, column) = line_and_column(text.as_bytes(), at);
    Ok(Refusal {
        reason: TextReason::NoLabel,
        at,
        line,
        column,
    })
}

/// The refusal of a text at the first label that is called and that no row of its part has, if there is one.
fn lost_label(
    alloc: Global,
    keys: Option<RandomState>,
    text: &str,
    document: &Document,
) -> Result<Option<Refusal>, Memory>
    requires within { length text.now ≤ text_limit }
    requires utf8 { IsUtf8 text.now }
    requires gathers { Gathers read_number (tokens text.now) (document_of document.now) }
    ensures { IfOk result (λ refusal. MatchOption refusal (first_false (pages_calls (document_of document.now)) ≡ None) (IsRefusedSo text.now)) }
{
    tree_laws();
    match lost_call(alloc, keys, document)? {
        Some(label) => Ok(Some(no_label(alloc, keys, text, label)?)),
        None => Ok(None),
    }
}

/// What a text means that says this document, or its refusal for a label that leads nowhere.
fn accepted(
    alloc: Global,
    keys: Option<RandomState>,
    text: &str,
    document: Document,
) -> Result<Written, TextEnd>
    requires within { length text.now ≤ text_limit }
    requires utf8 { IsUtf8 text.now }
    requires gathers { Gathers read_number (tokens text.now) (document_of document) }
    ensures written { IfOk result (λ w. IsTextAccepted read_number text.now (document_written w)) }
    ensures weighs { IfOk result (λ w. graphs_weight (document_written w) ≤ 4 * length text.now) }
    ensures refused { (r : Refusal) → IsErrOf result (TextEnd.Refused r) → IsRefusedSo text.now r }
{
    tree_laws();
    whole_laws();
    few_nodes();
    match lost_label(alloc, keys, text, &document)? {
        Some(refusal) => Err(TextEnd::Refused(refusal)),
        None => Ok(document_with_graphs(alloc, keys, document)?),
    }
}

/// A text in UTF-8 that is not too long.
fn readable(text: &[u8]) -> Option<&str>
    ensures some { IfSome result (λ whole. (whole.now ≡ text.now) × ((length text.now ≤ text_limit) × IsUtf8 text.now)) }
    ensures none { IfNone result (length text.now ≤ text_limit → IsUtf8 text.now → ⊥) }
{
    if text.len() > MAX_BYTES {
        return None;
    }
    match str::from_utf8(text) {
        Ok(whole) => Some(whole),
        Err(_) => None,
    }
}

/// Why a text that says nothing is refused.
fn refused(alloc: Global, keys: Option<RandomState>, text: &[u8]) -> TextEnd
    requires { IsAcceptedButLabels text.now → ⊥ }
    ensures { (r : Refusal) → result ≡ TextEnd.Refused r → IsRefusedSo text.now r }
{
    match text_verdict(alloc, keys, text) {
        Ok(Some(refusal)) => TextEnd::Refused(refusal),
        Ok(None) => unreachable!(),
        Err(_) => TextEnd::Memory,
    }
}

/// What a text means: a value of AMF 3 or AMF 0, a shared object file or a packet, with its graphs; or why it means nothing, and where.
/// A text is JSON in UTF-8 (RFC 8259) of at most 268,435,456 bytes; it is refused at its first token that is wrong, or, where all of them
/// are right, at the first label that is called and that no row of its part has. What is looked up is found by these keys.
/// The graphs that are read weigh together at most four times the bytes of the text. It gives up where there is no memory.
pub fn read_text(alloc: Global, keys: Option<RandomState>, text: &[u8]) -> Result<Written, TextEnd>
    ensures written { IfOk result (λ w. IsTextAccepted read_number text.now (document_written w)) }
    ensures weighs { IfOk result (λ w. graphs_weight (document_written w) ≤ 4 * length text.now) }
    ensures refused { (r : Refusal) → IsErrOf result (TextEnd.Refused r) → IsRefusedSo text.now r }
{
    let Some(whole) = readable(text) else {
        return Err(refused(alloc, keys, text));
    };
    match gather_text(alloc, keys, whole)? {
        Some(document) => accepted(alloc, keys, whole, document),
        None => {
            tree_laws();
            Err(refused(alloc, keys, text))
        }
    }
}
