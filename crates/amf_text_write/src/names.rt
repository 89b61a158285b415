ghost use Rattle.std.specs.Prelude.{◌≡◌, ◌&&◌};
ghost use Rattle.amf_wire.specs.Text.{IsText};
ghost use Rattle.amf_iso.specs.Contents.{ArePairs};
ghost use Rattle.amf_text.specs.Scalars.{is_plain};
ghost use Rattle.amf_text.specs.Tags.{begins_tag};
ghost use Rattle.amf_text.specs.Told.{no_tags, is_rising};
ghost use Rattle.amf_text_write.specs.Names.{all_plain, names_of};

use amf_graph::{Rooted, TextId, Value};

/// The first byte of a key that says what an object stands for.
const TAG: u8 = b'$';

/// Whether a text is UTF-8.
fn is_plain(text: &[u8]) -> bool
    requires { IsText text.now }
    ensures { result ≡ is_plain text.now }
{
    match str::from_utf8(text) {
        Ok(_) => true,
        Err(_) => false,
    }
}

/// Whether a name begins as a tag does.
fn begins_tag(name: &[u8]) -> bool
    ensures { result ≡ begins_tag name.now }
{
    match name.first() {
        Some(byte) => *byte == TAG,
        None => false,
    }
}

/// Whether all names of pairs are UTF-8.
fn are_plain(pairs: &[(TextId, Value)], graph: &Rooted) -> bool
    requires { ArePairs graph.now.arena pairs.now }
    ensures { result ≡ all_plain (names_of graph.now.arena pairs.now) }
{
    graph.is_finished();
    for (name, _) in pairs {
        if !is_plain(graph.text(*name)) {
            return false;
        }
    }
    true
}

/// Whether each name of pairs comes before the next, by their bytes.
pub(crate) fn is_rising(pairs: &[(TextId, Value)], graph: &Rooted) -> bool
    ensures { result ≡ is_rising (names_of graph.now.arena pairs.now) }
{
    for index in 1..pairs.len() {
        if !graph
            .compare_texts(pairs[index - 1].0, pairs[index].0)
            .is_lt()
        {
            return false;
        }
    }
    true
}

/// Whether the names of pairs in by-name order are keys: each is UTF-8, and none stands twice.
pub(crate) fn are_keys(pairs: &[(TextId, Value)], graph: &Rooted) -> bool
    requires { ArePairs graph.now.arena pairs.now }
    ensures { result ≡ (all_plain (names_of graph.now.arena pairs.now) && is_rising (names_of graph.now.arena pairs.now)) }
{
    are_plain(pairs, graph) && is_rising(pairs, graph)
}

/// Whether no name of pairs begins as a tag does.
pub(crate) fn have_no_tag(pairs: &[(TextId, Value)], graph: &Rooted) -> bool
    requires { ArePairs graph.now.arena pairs.now }
    ensures { result ≡ no_tags (names_of graph.now.arena pairs.now) }
{
    for (name, _) in pairs {
        if begins_tag(graph.text(*name)) {
            return false;
        }
    }
    true
}
