//! The place of a label that is called.

ghost use Rattle.std.specs.Prelude.{◌≡◌, ◌<◌, ◌≤◌, ◌^◌, [], ◌∷◌, Some, length, slice_get, IfOk};
ghost use Rattle.amf_text.specs.Asks.{start};
ghost use Rattle.amf_text.specs.Scalars.{read_number};
ghost use Rattle.amf_text.specs.Scan.{scan, ended};
ghost use Rattle.amf_text.specs.Refused.{label_places, text_limit};
ghost use Rattle.amf_text_read.specs.Verdicts.{asked_of};
ghost use Rattle.amf_text_read.specs.LabelNumbers.{label_numbers};

use crate::asked::Asked;
use crate::place::place_of;
use amf_wire::Memory;
use json::{Reader, Scratch};
use std::alloc::Global;
use std::hash::RandomState;

/// The number of the token that is this label of those that are called, all from 0, where no token has been taken yet.
fn find_label(
    asked: &mut Asked,
    reader: &mut Reader<'_>,
    label: usize,
) -> Result<Option<usize>, Memory>
    requires few { length reader.old < 2 ^ 63 }
    requires all { asked_of asked.old ≡ start ∷ [] }
    ensures { IfOk result (λ token. token ≡ slice_get (label_numbers 0 (Some (start ∷ [])) reader.old) label) }
{
    let mut tokens = 0;
    let mut left = label;
    while let Some(token) = reader.next() {
        if asked.wants_label() {
            if left == 0 {
                return Ok(Some(tokens));
            }
            left -= 1;
        }
        if asked.take(&token)?.is_some() {
            return Ok(None);
        }
        tokens += 1;
    }
    Ok(None)
}

/// The number of the token that is this label of those that are called, all from 0. What is looked up is found by these keys.
fn label_token(
    alloc: Global,
    keys: Option<RandomState>,
    reader: &mut Reader<'_>,
    label: usize,
) -> Result<Option<usize>, Memory>
    requires { length reader.old < 2 ^ 63 }
    ensures { IfOk result (λ token. token ≡ slice_get (label_numbers 0 (Some (start ∷ [])) reader.old) label) }
{
    let mut asked = Asked::new(alloc, keys)?;
    find_label(&mut asked, reader, label)
}

/// The byte at which this label begins of those that are called in a text, both from 0, or `None` where fewer are called.
/// What is looked up is found by these keys.
pub fn label_place(
    alloc: Global,
    keys: Option<RandomState>,
    text: &str,
    label: usize,
) -> Result<Option<usize>, Memory>
    requires few { length text.now ≤ text_limit }
    requires ended { (scan text.now).stop ≡ ended }
    ensures { IfOk result (λ at. at ≡ slice_get (label_places read_number (Some (start ∷ [])) (scan text.now).tokens) label) }
{
    let mut scratch = Scratch::new(alloc);
    let mut reader = Reader::new(text, &mut scratch)?;
    match label_token(alloc, keys, &mut reader, label)? {
        Some(token) => Ok(Some(place_of(text.as_bytes(), token))),
        None => Ok(None),
    }
}
