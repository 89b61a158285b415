ghost use Rattle.std.specs.Prelude.{[], ◌≡◌, ◌<◌, ◌≤◌, length, map, slice_get, get_or, nat_lt, true, false, IfOk, OnOk, OnErr, IsErrOf, MatchOption, Some};
ghost use Rattle.std.specs.List.{AllByRecursion, AllZip, list_any};
ghost use Rattle.std.specs.Cmp.Lexicographic.{slice_cmp};
ghost use Rattle.std.specs.Ordering.{nat_cmp};
ghost use Rattle.amf_graph.specs.Arena.{Arena, text_at, no_traits, HeadNames, IsNodeIn, IsFinished};
ghost use Rattle.amf_graph.specs.Building.{no_arena, no_stored, kept_text, kept_traits, kept_node, stored_traits, stored_at, changed, more_part, shut, closed, leaf_head, shape_head, begun, kind_of, size_of, IsFirstOpen};
ghost use Rattle.amf_graph.specs.Bodies.{TakesPart, body_node, HasParts};
ghost use Rattle.amf_graph.specs.Copying.{joined};
ghost use Rattle.amf_graph.specs.Renumbered.{numbers_of, renumbered_node, renumbered_arena, number_in, HaveNumbers};
ghost use Rattle.amf_graph.specs.Held.{form_head, held_node};
ghost use Rattle.amf_graph.specs.HaveStandIns.{NodeHasStandIns};
ghost use Rattle.amf_graph.specs.StandIns.{NodeStandsFor, opened_traits};
ghost use Rattle.amf_graph.specs.Views.{Shows, ShowsTraits, named};
ghost use Rattle.amf_graph.specs.TextNumbers.{contents_of};
ghost use Rattle.amf_graph.specs.Bounds.{count_end};
ghost use Rattle.amf_graph.specs.declared.part.Part.TheVariants.{Item};

use crate::body::{Body, renumbered_body};
use crate::classes::Classes;
use crate::held::{Form, Held};
use crate::limits::MAX_COMPARED;
use crate::name_marks::{mark_pairs, mark_sealed};
use crate::nodes::Nodes;
use crate::stand_ins::stand_in_nodes;
use crate::texts::Texts;
use crate::{Leaf, NodeId, NodeKind, NodeView, Part, Shape, TextId, TraitsId, TraitsView, Value};
use amf_wire::Memory;
use std::alloc::Global;
use std::cmp::Ordering;
use std::hash::RandomState;
use std::marker::Model;

/// Texts, traits and nodes by their places.
pub(crate) struct Store {
    texts: Texts,
    traits: Classes,
    nodes: Nodes,
}

impl Drop for Store {
    /// Lets its parts go. Written out, it is proved once; what is derived is proved at each place where one is let go.
    fn drop(self) {
        let Store {
            texts: _,
            traits: _,
            nodes: _,
        } = self;
    }
}

impl Model for Store {
    ghost use Rattle.amf_graph.specs.Arena.{Arena};

    ghost Value = { Arena };

    ghost view = { λ s. record { texts = s.texts; traits = s.traits; nodes = s.nodes } };
}

impl Store {
    /// Nothing yet. Texts are looked up by these keys.
    pub(crate) fn new(alloc: Global, keys: Option<RandomState>) -> Store
        ensures { result ≡ no_arena }
    {
        Store {
            texts: Texts::new(alloc, keys),
            traits: Classes::new(alloc),
            nodes: Nodes::new(alloc),
        }
    }

    /// Nothing yet. Texts are looked up as those here.
    pub(crate) fn beside(&self, alloc: Global) -> Store
        ensures { result ≡ no_arena }
    {
        Store {
            texts: self.texts.none(alloc),
            traits: Classes::new(alloc),
            nodes: Nodes::new(alloc),
        }
    }

    pub(crate) fn of(texts: Texts, traits: Classes, nodes: Nodes) -> Store
        ensures { result ≡ record { texts = texts; traits = traits; nodes = nodes } }
    {
        Store {
            texts,
            traits,
            nodes,
        }
    }

    /// Keeps what another store has, behind what is there. Its nodes are closed.
    pub(crate) fn append(&mut self, alloc: Global, more: &Store) -> Result<(), Memory>
        requires { AllByRecursion (λ n. n.is_open ≡ false) more.now.nodes }
        ensures ok { OnOk result (self.new ≡ joined self.old more.now) }
        ensures err { OnErr result (self.new ≡ self.old) }
    {
        let traits = self.traits.len();
        let nodes = self.nodes.len();
        self.nodes.append(alloc, &more.nodes)?;
        if let Err(end) = self.traits.append(&more.traits) {
            self.nodes.truncate(nodes);
            return Err(end);
        }
        if let Err(end) = self.texts.append(&more.texts) {
            self.nodes.truncate(nodes);
            self.traits.truncate(traits);
            return Err(end);
        }
        Ok(())
    }

    pub(crate) fn text_count(&self) -> usize
        ensures { result ≡ length self.now.texts }
    {
        self.texts.len()
    }

    pub(crate) fn traits_count(&self) -> usize
        ensures { result ≡ length self.now.traits }
    {
        self.traits.len()
    }

    pub(crate) fn node_count(&self) -> usize
        ensures { result ≡ length self.now.nodes }
    {
        self.nodes.len()
    }

    pub(crate) fn keep_text(&mut self, text: &[u8]) -> Result<(), Memory>
        ensures ok { OnOk result (self.new ≡ kept_text self.old text.now) }
        ensures err { OnErr result (self.new ≡ self.old) }
    {
        self.texts.push(text)?;
        Ok(())
    }

    pub(crate) fn keep_traits(
        &mut self,
        class: TextId,
        dynamic: bool,
        sealed: &[TextId],
    ) -> Result<(), Memory>
        ensures ok { OnOk result (self.new ≡ kept_traits self.old (stored_traits class dynamic sealed.now)) }
        ensures err { OnErr result (self.new ≡ self.old) }
    {
        self.traits.push(class, dynamic, sealed)?;
        Ok(())
    }

    /// Keeps a node that is closed.
    pub(crate) fn keep_node(&mut self, body: Body<'_>) -> Result<(), Memory>
        ensures ok { OnOk result (self.new ≡ kept_node self.old (body_node false body.entry)) }
        ensures err { OnErr result (self.new ≡ self.old) }
    {
        self.nodes.keep(body)
    }

    /// Keeps a node that is open and has no parts yet.
    pub(crate) fn open_node(&mut self, shape: Shape) -> Result<(), Memory>
        ensures ok { OnOk result (self.new ≡ kept_node self.old (begun (shape_head shape))) }
        ensures err { OnErr result (self.new ≡ self.old) }
    {
        self.nodes.open(shape)
    }

    /// How many items, names and parts a node that is open has together.
    #[inline(always)]
    pub(crate) fn size(&self, node: NodeId) -> usize
        requires there { node.0 < length self.now.nodes }
        requires opened { (stored_at self.now node.0).is_open ≡ true }
        requires within { size_of (stored_at self.now node.0) < count_end }
        ensures { result ≡ size_of (stored_at self.now node.0) }
    {
        self.nodes.size(node.0 as usize)
    }

    pub(crate) fn put(&mut self, node: NodeId, part: Part) -> Result<(), Memory>
        requires there { node.0 < length self.old.nodes }
        requires opened { (stored_at self.old node.0).is_open ≡ true }
        requires takes { TakesPart (stored_at self.old node.0) part }
        ensures ok { OnOk result (self.new ≡ changed (more_part part) node.0 self.old) }
        ensures err { OnErr result (self.new ≡ self.old) }
    {
        self.nodes.put(node.0 as usize, part)
    }

    #[inline(always)]
    pub(crate) fn put_item(&mut self, node: NodeId, item: Value) -> Result<(), Memory>
        requires there { node.0 < length self.old.nodes }
        requires opened { (stored_at self.old node.0).is_open ≡ true }
        requires takes { TakesPart (stored_at self.old node.0) (Item item) }
        ensures ok { OnOk result (self.new ≡ changed (more_part (Item item)) node.0 self.old) }
        ensures err { OnErr result (self.new ≡ self.old) }
    {
        self.nodes.put_item(node.0 as usize, item)
    }

    pub(crate) fn close(&mut self, node: NodeId)
        requires there { node.0 < length self.old.nodes }
        requires opened { (stored_at self.old node.0).is_open ≡ true }
        ensures { self.new ≡ changed shut node.0 self.old }
    {
        self.nodes.close(node.0 as usize);
    }

    /// Lets the room go that open nodes would use.
    pub(crate) fn drop_spare(&mut self)
        ensures { self.new ≡ self.old }
    {
        self.nodes.drop_spare();
    }

    pub(crate) fn kind(&self, node: NodeId) -> NodeKind
        requires { node.0 < length self.now.nodes }
        ensures { result ≡ kind_of (stored_at self.now node.0).head }
    {
        self.nodes.kind(node.0 as usize)
    }

    pub(crate) fn text(&self, text: TextId) -> &[u8]
        requires { text.0 < length self.now.texts }
        ensures { result.now ≡ text_at self.now text.0 }
    {
        self.texts.get(text.0 as usize)
    }

    /// How two texts stand to one another by their bytes. A place with no text counts as an empty one.
    pub(crate) fn compare_texts(&self, x: TextId, y: TextId) -> Ordering
        ensures { result ≡ slice_cmp nat_cmp (text_at self.now x.0) (text_at self.now y.0) }
    {
        let text = self.texts.get(x.0 as usize);
        text.cmp(self.texts.get(y.0 as usize))
    }

    /// Whether a text is too long to be compared byte by byte each time.
    pub(crate) fn has_long_text(&self) -> bool
        ensures { result ≡ list_any (λ x. nat_lt MAX_COMPARED (length x)) (contents_of self.now.texts) }
    {
        self.texts.has_longer(MAX_COMPARED)
    }

    /// The number of a text's content.
    pub(crate) fn text_number(&self, text: TextId) -> u32
        requires { text.0 < length self.now.texts }
        ensures { slice_get (contents_of self.now.texts) result ≡ Some (text_at self.now text.0) }
    {
        self.texts.number(text.0 as usize)
    }

    /// How many contents the texts have.
    pub(crate) fn content_count(&self) -> usize
        ensures { result ≡ length (contents_of self.now.texts) }
    {
        self.texts.content_count()
    }

    /// No texts yet, which are looked up as those here.
    pub(crate) fn no_texts(&self, alloc: Global) -> Texts
        ensures { result ≡ [] }
    {
        self.texts.none(alloc)
    }

    /// By text whether it names a pair of a node or a sealed member of traits.
    pub(crate) fn marked_names(&self, alloc: Global) -> Result<Vec<bool>, Memory>
        ensures { IfOk result (λ marks. length marks.items ≡ length self.now.texts) }
    {
        let mut marks = vec![in alloc; false; self.texts.len()]?;
        mark_pairs(&self.nodes, &mut marks);
        mark_sealed(&self.traits, &mut marks);
        Ok(marks)
    }

    pub(crate) fn traits(&self, traits: TraitsId) -> TraitsView<'_>
        requires { traits.0 < length self.now.traits }
        ensures { ShowsTraits (get_or self.now.traits traits.0 no_traits) result }
    {
        self.traits.get(traits.0 as usize)
    }

    /// The least place of a node that is open.
    pub(crate) fn first_open(&self) -> Option<usize>
        ensures { MatchOption result (AllByRecursion (λ n. n.is_open ≡ false) self.now.nodes) (λ i. IsFirstOpen self.now i) }
    {
        self.nodes.first_open()
    }

    /// What a closed node is and holds, as it is kept.
    pub(crate) fn held(&self, node: NodeId) -> Held<'_>
        requires there { node.0 < length self.now.nodes }
        requires closed { (stored_at self.now node.0).is_open ≡ false }
        ensures { stored_at self.now node.0 ≡ held_node false result }
    {
        self.nodes.held(node.0 as usize)
    }

    /// What a node without parts holds.
    fn leaf<'a>(&'a self, leaf: &'a Leaf) -> NodeView<'a>
        requires { HeadNames self.now (leaf_head leaf.now) }
        ensures { Shows self.now (closed (leaf_head leaf.now) [] []) result }
    {
        match leaf {
            Leaf::XmlDocument(text) => NodeView::XmlDocument(self.text(*text)),
            Leaf::Xml(text) => NodeView::Xml(self.text(*text)),
            Leaf::Date(time) => NodeView::Date(*time),
            Leaf::Bytes(bytes) => NodeView::Bytes(bytes),
            Leaf::Ints(fixed, items) => NodeView::Ints {
                fixed: *fixed,
                items,
            },
            Leaf::Uints(fixed, items) => NodeView::Uints {
                fixed: *fixed,
                items,
            },
            Leaf::Doubles(fixed, items) => NodeView::Doubles {
                fixed: *fixed,
                items,
            },
        }
    }

    /// What a closed node holds.
    pub(crate) fn node(&self, node: NodeId) -> NodeView<'_>
        requires there { node.0 < length self.now.nodes }
        requires closed { (stored_at self.now node.0).is_open ≡ false }
        requires whole { IsNodeIn self.now (stored_at self.now node.0) }
        ensures { Shows self.now (stored_at self.now node.0) result }
    {
        match self.held(node) {
            Held::Leaf(leaf) => self.leaf(leaf),
            Held::Bytes(bytes) => NodeView::Bytes(bytes),
            Held::Parts(form, values, names) => parts_view(form, values, names),
            Held::Dictionary(weak, entries) => NodeView::Dictionary { weak, entries },
        }
    }

    /// These nodes alone, in this order, each node in them under its number.
    pub(crate) fn renumbered(
        &self,
        alloc: Global,
        order: &[NodeId],
        numbers: &[u32],
    ) -> Result<Store, Memory>
        requires finished { IsFinished self.now }
        requires there { AllByRecursion (λ i. i < length self.now.nodes) (numbers_of order.now) }
        requires numbers { length numbers.now ≡ length self.now.nodes }
        ensures { IfOk result (λ store. store ≡ renumbered_arena (number_in numbers.now) (numbers_of order.now) self.now) }
    {
        let nodes = renumbered_nodes(alloc, &self.nodes, order, numbers)?;
        Ok(Store {
            texts: self.texts.copy(alloc)?,
            traits: self.traits.copy(alloc)?,
            nodes,
        })
    }

    /// The same texts and nodes, where each class is opened and each value is the one that stands for it.
    pub(crate) fn standing_in(&self, alloc: Global, stand_ins: &[Value]) -> Result<Store, Memory>
        requires stand_ins { AllByRecursion (NodeHasStandIns self.now.traits stand_ins.now) self.now.nodes }
        requires closed { AllByRecursion (λ n. n.is_open ≡ false) self.now.nodes }
        ensures texts { IfOk result (λ store. store.texts ≡ self.now.texts) }
        ensures traits { IfOk result (λ store. store.traits ≡ map opened_traits self.now.traits) }
        ensures nodes { IfOk result (λ store. AllZip (NodeStandsFor self.now.traits stand_ins.now) self.now.nodes store.nodes) }
    {
        let traits = self.traits.opened(alloc)?;
        let texts = self.texts.copy(alloc)?;
        let nodes = stand_in_nodes(alloc, &self.nodes, &self.traits, stand_ins)?;
        Ok(Store {
            texts,
            traits,
            nodes,
        })
    }
}

/// What a closed node of this form holds.
fn parts_view<'a>(form: Form, values: &'a [Value], names: &'a [(TextId, Value)]) -> NodeView<'a>
    requires { HasParts (form_head form) (named names.now) values.now }
    ensures { (a : Arena) → Shows a (closed (form_head form) (named names.now) values.now) result }
{
    match form {
        Form::Array => NodeView::Array {
            items: values,
            names,
        },
        Form::Object(traits) => NodeView::Object {
            traits,
            sealed: values,
            members: names,
        },
        Form::Wrapper(class) => NodeView::Wrapper {
            class,
            value: values[0],
        },
        Form::Values(fixed, of) => NodeView::Values {
            fixed,
            of,
            items: values,
        },
    }
}

/// Closed nodes alone, in this order, each node in them under its number.
fn renumbered_nodes(
    alloc: Global,
    nodes: &Nodes,
    order: &[NodeId],
    numbers: &[u32],
) -> Result<Nodes, Memory>
    requires closed { AllByRecursion (λ n. n.is_open ≡ false) nodes.now }
    requires there { AllByRecursion (λ i. i < length nodes.now) (numbers_of order.now) }
    requires numbers { AllByRecursion (HaveNumbers numbers.now) nodes.now }
    ensures { IfOk result (λ copies. copies ≡ map (λ i. renumbered_node (number_in numbers.now) (get_or nodes.now i no_stored)) (numbers_of order.now)) }
{
    let mut copies = Nodes::new(alloc);
    for node in order {
        let held = nodes.held(node.0 as usize);
        copies.keep(renumbered_body(alloc, held, numbers)?)?;
    }
    Ok(copies)
}
