ghost use Rattle.std.specs.Prelude.{◌≡◌, ◌==◌, ◌&&◌, ◌<◌, length, OnOk};
ghost use Rattle.amf_graph.specs.Arena.{IsTextId, traits_at};
ghost use Rattle.amf_iso.specs.Contents.{pairs_of, AreValues, ArePairs};
ghost use Rattle.amf_text.specs.Told.{no_tags};
ghost use Rattle.amf_text_write.specs.Names.{names_of};
ghost use Rattle.amf_text_write.specs.Objects.{are_tested_keys, simple_test};
ghost use Rattle.amf_text_write.specs.OpenedNodes.{OpensSimple};
ghost use Rattle.amf_text_write.specs.Opening.{AreIds};
ghost use Rattle.amf_text_write.specs.PartsInWay.{OpensIn, class_in, object_in};
ghost use Rattle.amf_text_write.specs.Ways.{arena_in};

use crate::layout::Output;
use crate::names::{are_keys, have_no_tag};
use crate::sealed::{put_dynamic, put_sealed};
use crate::waiting::{Piece, put, put_members};
use crate::way::Way;
use amf_graph::{Rooted, TextId, TraitsId, TraitsView, Value};
use amf_iso::ids_by_name;
use amf_wire::Memory;
use json::Token;

/// Whether a class has no name and no sealed members, and takes further ones.
fn is_plain_class(name: &[u8], class: TraitsView<'_>) -> bool
    ensures { result ≡ (((length name.now == 0) && (length class.entry.sealed.now == 0)) && class.entry.dynamic) }
{
    name.is_empty() && class.sealed.is_empty() && class.dynamic
}

/// Whether the names of pairs in by-name order are keys, of which none begins as a tag does.
fn are_plain_keys(pairs: &[(TextId, Value)], graph: &Rooted) -> bool
    requires { ArePairs graph.now.arena pairs.now }
    ensures { result ≡ (are_tested_keys (pairs_of graph.now.arena pairs.now) && no_tags (names_of graph.now.arena pairs.now)) }
{
    are_keys(pairs, graph) && have_no_tag(pairs, graph)
}

/// Whether an object is told by the names of its members alone.
fn is_simple(name: &[u8], class: TraitsView<'_>, pairs: &[(TextId, Value)], graph: &Rooted) -> bool
    requires { ArePairs graph.now.arena pairs.now }
    ensures { result ≡ simple_test name.now class.entry.sealed.now class.entry.dynamic (pairs_of graph.now.arena pairs.now) }
{
    is_plain_class(name, class) && are_plain_keys(pairs, graph)
}

/// Objects, up to their first values.
impl Output {
    /// An object without a class, by the names of its members.
    fn simple_object(
        &mut self,
        pairs: &[(TextId, Value)],
        levels: u8,
        waiting: &mut Vec<Piece>,
    ) -> Result<(), Memory>
        ensures { OpensSimple levels pairs.now result waiting.old.items waiting.new.items self.old self.new }
    {
        put(Piece::Token(Token::EndObject), waiting)?;
        put_members(levels, pairs, waiting)?;
        self.token(Token::BeginObject)
    }

    /// An object by its class, its further members in by-name order.
    fn class_object(
        &mut self,
        class: TraitsView<'_>,
        sealed: &[Value],
        pairs: &[(TextId, Value)],
        levels: u8,
        way: &Way<'_>,
        waiting: &mut Vec<Piece>,
    ) -> Result<(), Memory>
        requires class { IsTextId (arena_in way.now) class.class.0 }
        requires names { AreIds (arena_in way.now) class.sealed.now }
        requires sealed { AreValues (arena_in way.now) sealed.now }
        requires each { length sealed.now ≡ length class.sealed.now }
        requires pairs { ArePairs (arena_in way.now) pairs.now }
        ensures { OnOk result (OpensIn way.now (class_in way.now levels class.entry sealed.now pairs.now) waiting.old.items waiting.new.items self.old self.new) }
    {
        way.graph.is_finished();
        put(Piece::Token(Token::EndObject), waiting)?;
        put_sealed(class.sealed, sealed, levels, way, waiting)?;
        let are_keys = are_keys(pairs, way.graph);
        put_dynamic(class.dynamic, are_keys, pairs, levels, waiting)?;
        self.token(Token::BeginObject)?;
        self.key("$class")?;
        self.text(way.alloc, way.graph.text(class.class))
    }

    pub(crate) fn object(
        &mut self,
        traits: TraitsId,
        sealed: &[Value],
        members: &[(TextId, Value)],
        levels: u8,
        way: &Way<'_>,
        waiting: &mut Vec<Piece>,
    ) -> Result<(), Memory>
        requires traits { traits.0 < length (arena_in way.now).traits }
        requires sealed { AreValues (arena_in way.now) sealed.now }
        requires each { length sealed.now ≡ length (traits_at (arena_in way.now) traits.0).sealed }
        requires members { ArePairs (arena_in way.now) members.now }
        ensures { OnOk result (OpensIn way.now (object_in way.now levels traits.0 members.now sealed.now) waiting.old.items waiting.new.items self.old self.new) }
    {
        way.graph.is_finished();
        let class = way.graph.traits(traits);
        let pairs = ids_by_name(way.alloc, members, way.graph)?;
        if is_simple(way.graph.text(class.class), class, &pairs, way.graph) {
            return self.simple_object(&pairs, levels, waiting);
        }
        self.class_object(class, sealed, &pairs, levels, way, waiting)
    }
}
