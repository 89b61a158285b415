//! The nodes of a graph.

ghost use Rattle.std.specs.Prelude.{◌≡◌, ℕ, ◌<◌, ◌≤◌, [], ◌∷◌, ◌++◌, length, set, take, get_or, false, Some, None, is_ok, if◌then◌else◌, MatchOption, IfOk, OnOk, OnErr};
ghost use Rattle.std.specs.List.{AllByRecursion};
ghost use Rattle.amf_graph.specs.Bodies.{TakesPart, body_node};
ghost use Rattle.amf_graph.specs.Bounds.{count_end};
ghost use Rattle.amf_graph.specs.Building.{kind_of, shape_head, begun, closed, more_part, shut, size_of, no_stored};
ghost use Rattle.amf_graph.specs.Held.{form_head, held_node};
ghost use Rattle.amf_graph.specs.NodeRows.{IsOpenAt, IsClosedAt, IsFirstOf};
ghost use Rattle.amf_graph.specs.Pools.{Keeps, Grows};
ghost use Rattle.amf_graph.specs.Slots.{no_slot};
ghost use Rattle.amf_graph.specs.Views.{named};
ghost use Rattle.amf_graph.specs.declared.part.Part.TheVariants.{Item};

use crate::body::Body;
use crate::held::{Form, Held};
use crate::pools::Pools;
use crate::row::{Row, number_of};
use crate::slot::Slot;
use crate::{NodeKind, Part, Shape, TextId, Value};
use amf_wire::Memory;
use std::alloc::Global;
use std::marker::Model;

/// From so many parts on, they stay where they are when their node is closed.
const MANY: usize = 4096;

/// From so many slots on, those that are not used are let go.
const MANY_SLOTS: usize = 4096;

/// Nodes, most of them open in a slot and then closed in the pools.
pub(crate) struct Nodes {
    rows: Vec<Row>,
    /// The kind of each node. A reference asks for that alone, of any node: so it stands where many are close together.
    kinds: Vec<NodeKind>,
    pools: Pools,
    slots: Vec<Slot>,
    /// How many of the slots are used.
    used: usize,
}

impl Drop for Nodes {
    /// Lets its parts go. Written out, it is proved once; what is derived is proved at each place where one is let go.
    fn drop(self) {
        let Nodes {
            rows: _,
            kinds: _,
            pools: _,
            slots: _,
            used: _,
        } = self;
    }
}

impl Model for Nodes {
    ghost use Rattle.std.specs.Prelude.{List};
    ghost use Rattle.amf_graph.specs.Arena.{StoredNode};
    ghost use Rattle.amf_graph.specs.NodeRows.{row_nodes, AreNodes};

    ghost Value = { List StoredNode };

    ghost view = { λ n. row_nodes n.pools n.slots.items n.rows.items };

    ghost invariant = { λ n. AreNodes n.pools n.slots.items n.used n.rows.items n.kinds.items };
}

/// How many of the first slots are used, where the last ones may be none's.
fn used_of(slots: &[Slot], count: usize) -> usize
    requires { count ≤ length slots.now }
    ensures fewer { result ≤ count }
    ensures left { (k : ℕ) → result ≤ k → k < count → (get_or slots.now k no_slot).owner ≡ None }
{
    let mut used = count;
    while used > 0 {
        if slots[used - 1].owner().is_some() {
            return used;
        }
        used -= 1;
    }
    used
}

/// Whether a node is open in one of the first slots.
fn has_open(slots: &[Slot], count: usize) -> bool
    requires { count ≤ length slots.now }
    ensures { result ≡ false → (k : ℕ) → k < count → (get_or slots.now k no_slot).node.is_open ≡ false }
{
    slots[..count].iter().any(|slot| slot.is_open())
}

/// Begins a node in the slot behind those that are used.
fn next_slot(slots: &mut Vec<Slot>, used: usize, owner: u32, shape: Shape) -> Result<(), Memory>
    requires { used ≤ length slots.old.items }
    ensures there { OnOk result (used < length slots.new.items) }
    ensures room { used ≤ length slots.new.items }
    ensures begun { OnOk result (get_or slots.new.items used no_slot ≡ record { owner = Some owner; node = begun (shape_head shape) }) }
    ensures others { (k : ℕ) → k < used → get_or slots.new.items k no_slot ≡ get_or slots.old.items k no_slot }
{
    if used < slots.len() {
        slots[used].begin(owner, shape);
    } else {
        slots.push(Slot::new(owner, shape))?;
    }
    Ok(())
}

/// Puts where a node is kept, and its kind, behind the others. After an end nothing has changed.
fn push_row(
    rows: &mut Vec<Row>,
    kinds: &mut Vec<NodeKind>,
    row: Row,
    kind: NodeKind,
) -> Result<(), Memory>
    ensures rows { rows.new.items ≡ (if is_ok result then rows.old.items ++ row ∷ [] else rows.old.items) }
    ensures kinds { kinds.new.items ≡ (if is_ok result then kinds.old.items ++ kind ∷ [] else kinds.old.items) }
{
    rows.reserve(1)?;
    kinds.push(kind)?;
    rows.push_reserved(row);
    Ok(())
}

/// Keeps in the pools what a slot holds. It gives up where that is much.
fn keep_held(pools: &mut Pools, held: Held<'_>) -> Result<Row, Memory>
    ensures ok { IfOk result (λ row. Keeps pools.old pools.new (held_node false held.entry) row) }
    ensures grows { Grows pools.old pools.new }
{
    match held {
        Held::Parts(form, values, names) if values.len() < MANY && names.len() < MANY => {
            pools.keep_parts(form, values, names)
        }
        Held::Dictionary(weak, entries) if entries.len() < MANY => {
            pools.keep_dictionary(weak, entries)
        }
        _ => Err(Memory),
    }
}

/// Keeps a node that is closed in the pools.
fn keep_body(pools: &mut Pools, body: Body<'_>) -> Result<Row, Memory>
    ensures ok { IfOk result (λ row. Keeps pools.old pools.new (body_node false body.entry) row) }
    ensures grows { Grows pools.old pools.new }
{
    match body {
        Body::Leaf(leaf) => pools.keep_leaf(leaf),
        Body::Bytes(bytes) => pools.keep_array(bytes),
        Body::Parts(form, values, names) => pools.keep_parts(form, &values, &names),
        Body::Dictionary(weak, entries) => pools.keep_dictionary(weak, &entries),
    }
}

/// Keeps a copy of a closed node in the pools.
fn copy_held(alloc: Global, pools: &mut Pools, held: Held<'_>) -> Result<Row, Memory>
    ensures ok { IfOk result (λ row. Keeps pools.old pools.new (held_node false held.entry) row) }
    ensures grows { Grows pools.old pools.new }
{
    match held {
        Held::Leaf(leaf) => pools.keep_leaf(leaf.copy(alloc)?),
        Held::Bytes(bytes) => pools.keep_array(bytes),
        Held::Parts(form, values, names) => pools.keep_parts(form, values, names),
        Held::Dictionary(weak, entries) => pools.keep_dictionary(weak, entries),
    }
}

impl Nodes {
    pub(crate) fn new(alloc: Global) -> Nodes
        ensures { result ≡ [] }
    {
        Nodes {
            rows: Vec::new(alloc),
            kinds: Vec::new(alloc),
            pools: Pools::new(alloc),
            slots: Vec::new(alloc),
            used: 0,
        }
    }

    pub(crate) fn len(&self) -> usize
        ensures { result ≡ length self.now }
    {
        self.rows.len()
    }

    pub(crate) fn is_open(&self, place: usize) -> bool
        requires { place < length self.now }
        ensures { result ≡ (get_or self.now place no_stored).is_open }
    {
        match self.rows[place] {
            Row::Slot(slot) => self.slots[slot as usize].is_open(),
            _ => false,
        }
    }

    /// What a node is and holds.
    #[inline(always)]
    pub(crate) fn held(&self, place: usize) -> Held<'_>
        requires { place < length self.now }
        ensures { get_or self.now place no_stored ≡ held_node (get_or self.now place no_stored).is_open result }
    {
        match self.rows[place] {
            Row::Slot(slot) => self.slots[slot as usize].held(),
            row => self.pools.held(row),
        }
    }

    pub(crate) fn kind(&self, place: usize) -> NodeKind
        requires { place < length self.now }
        ensures { result ≡ kind_of (get_or self.now place no_stored).head }
    {
        self.kinds[place]
    }

    /// How many items, names and parts a node that is open has together.
    #[inline(always)]
    pub(crate) fn size(&self, place: usize) -> usize
        requires there { place < length self.now }
        requires opened { IsOpenAt self.now place }
        requires within { size_of (get_or self.now place no_stored) < count_end }
        ensures { result ≡ size_of (get_or self.now place no_stored) }
    {
        match self.rows[place] {
            Row::Slot(slot) => self.slots[slot as usize].size(),
            _ => unreachable!(),
        }
    }

    /// Keeps a node that is closed behind the others. After an end nothing has changed.
    pub(crate) fn keep(&mut self, body: Body<'_>) -> Result<(), Memory>
        ensures ok { OnOk result (self.new ≡ self.old ++ body_node false body.entry ∷ []) }
        ensures err { OnErr result (self.new ≡ self.old) }
    {
        let kind = body.kind();
        let row = keep_body(&mut self.pools, body)?;
        push_row(&mut self.rows, &mut self.kinds, row, kind)?;
        Ok(())
    }

    /// Keeps a node that is closed and has these values and pairs behind the others. After an end nothing has changed.
    pub(crate) fn keep_parts(
        &mut self,
        form: Form,
        values: &[Value],
        names: &[(TextId, Value)],
    ) -> Result<(), Memory>
        ensures ok { OnOk result (self.new ≡ self.old ++ closed (form_head form) (named names.now) values.now ∷ []) }
        ensures err { OnErr result (self.new ≡ self.old) }
    {
        let row = self.pools.keep_parts(form, values, names)?;
        push_row(&mut self.rows, &mut self.kinds, row, form.kind())?;
        Ok(())
    }

    /// Keeps a node that is open and has no parts yet behind the others. After an end nothing has changed.
    pub(crate) fn open(&mut self, shape: Shape) -> Result<(), Memory>
        ensures ok { OnOk result (self.new ≡ self.old ++ begun (shape_head shape) ∷ []) }
        ensures err { OnErr result (self.new ≡ self.old) }
    {
        let place = number_of(self.rows.len())?;
        let slot = number_of(self.used)?;
        self.rows.reserve(1)?;
        self.kinds.reserve(1)?;
        next_slot(&mut self.slots, self.used, place, shape)?;
        self.used += 1;
        self.kinds.push_reserved(shape.kind());
        self.rows.push_reserved(Row::Slot(slot));
        Ok(())
    }

    /// Adds a part to a node that is open. After an end nothing has changed.
    pub(crate) fn put(&mut self, place: usize, part: Part) -> Result<(), Memory>
        requires there { place < length self.old }
        requires opened { IsOpenAt self.old place }
        requires takes { TakesPart (get_or self.old place no_stored) part }
        ensures ok { OnOk result (self.new ≡ set self.old place (more_part part (get_or self.old place no_stored))) }
        ensures err { OnErr result (self.new ≡ self.old) }
    {
        let alloc = *self.rows.allocator();
        match self.rows[place] {
            Row::Slot(slot) => self.slots[slot as usize].put(alloc, part),
            _ => unreachable!(),
        }
    }

    /// Adds an item to a node that is open. After an end nothing has changed.
    #[inline(always)]
    pub(crate) fn put_item(&mut self, place: usize, item: Value) -> Result<(), Memory>
        requires there { place < length self.old }
        requires opened { IsOpenAt self.old place }
        requires takes { TakesPart (get_or self.old place no_stored) (Item item) }
        ensures ok { OnOk result (self.new ≡ set self.old place (more_part (Item item) (get_or self.old place no_stored))) }
        ensures err { OnErr result (self.new ≡ self.old) }
    {
        let alloc = *self.rows.allocator();
        match self.rows[place] {
            Row::Slot(slot) => self.slots[slot as usize].put_item(alloc, item),
            _ => unreachable!(),
        }
    }

    /// Moves what a closed node holds from its slot to the pools, where there is room.
    fn settle(&mut self, place: usize)
        requires there { place < length self.old }
        requires closed { IsClosedAt self.old place }
        ensures { self.new ≡ self.old }
    {
        if let Row::Slot(slot) = self.rows[place] {
            let held = self.slots[slot as usize].held();
            if let Ok(row) = keep_held(&mut self.pools, held) {
                self.rows[place] = row;
                self.slots[slot as usize].leave();
                self.used = used_of(&self.slots, self.used);
            }
        }
    }

    fn shut(&mut self, place: usize)
        requires there { place < length self.old }
        requires opened { IsOpenAt self.old place }
        ensures { self.new ≡ set self.old place (shut (get_or self.old place no_stored)) }
    {
        match self.rows[place] {
            Row::Slot(slot) => self.slots[slot as usize].close(),
            _ => unreachable!(),
        }
    }

    /// Hands the lists of the slot that was left to the one below, if that has none: so nodes within one another need lists once, and
    /// not each its own.
    fn hand_down(&mut self)
        ensures { self.new ≡ self.old }
    {
        let used = self.used;
        if used > 0 && used < self.slots.len() && self.slots[used - 1].is_bare() {
            let lists = self.slots[used].take_lists();
            self.slots[used - 1].use_lists(lists);
        }
    }

    /// Lets many slots go that no node has any more. Those of nodes within one another would stay until the graph is finished.
    fn give_back(&mut self)
        ensures { self.new ≡ self.old }
    {
        let count = self.slots.len();
        if count >= MANY_SLOTS && self.used <= count - count / 8 {
            self.drop_spare();
        }
    }

    /// Closes a node that is open.
    pub(crate) fn close(&mut self, place: usize)
        requires there { place < length self.old }
        requires opened { IsOpenAt self.old place }
        ensures { self.new ≡ set self.old place (shut (get_or self.old place no_stored)) }
    {
        self.shut(place);
        self.settle(place);
        self.hand_down();
        self.give_back();
    }

    /// Lets the lists go that no node has, and the room behind those that stay: a node that was deep within others leaves much of it.
    pub(crate) fn drop_spare(&mut self)
        ensures { self.new ≡ self.old }
    {
        self.slots.truncate(self.used);
        self.slots.shrink_to_fit();
    }

    /// The least place of a node that is open. Each of these is in a slot, and few slots are used: so the rows are read only where
    /// there is one.
    pub(crate) fn first_open(&self) -> Option<usize>
        ensures { MatchOption result ((k : ℕ) → k < length self.now → IsClosedAt self.now k) (λ i. IsFirstOf self.now i) }
    {
        if !has_open(&self.slots, self.used) {
            return None;
        }
        for place in 0..self.len() {
            if self.is_open(place) {
                return Some(place);
            }
        }
        None
    }

    /// Keeps a copy of a node that is closed behind the others. After an end nothing has changed.
    fn keep_copy(&mut self, alloc: Global, held: Held<'_>) -> Result<(), Memory>
        ensures ok { OnOk result (self.new ≡ self.old ++ held_node false held.entry ∷ []) }
        ensures err { OnErr result (self.new ≡ self.old) }
    {
        let row = copy_held(alloc, &mut self.pools, held)?;
        push_row(&mut self.rows, &mut self.kinds, row, held.kind())?;
        Ok(())
    }

    /// Keeps copies of closed nodes behind these. After an end some of them are there.
    fn append_all(&mut self, alloc: Global, more: &Nodes) -> Result<(), Memory>
        requires { AllByRecursion (λ n. n.is_open ≡ false) more.now }
        ensures ok { OnOk result (self.new ≡ self.old ++ more.now) }
        ensures front { take (length self.old) self.new ≡ self.old }
    {
        for place in 0..more.len() {
            self.keep_copy(alloc, more.held(place))?;
        }
        Ok(())
    }

    /// Keeps copies of closed nodes behind these. After an end nothing has changed.
    pub(crate) fn append(&mut self, alloc: Global, more: &Nodes) -> Result<(), Memory>
        requires { AllByRecursion (λ n. n.is_open ≡ false) more.now }
        ensures ok { OnOk result (self.new ≡ self.old ++ more.now) }
        ensures err { OnErr result (self.new ≡ self.old) }
    {
        let count = self.len();
        match self.append_all(alloc, more) {
            Ok(()) => Ok(()),
            Err(end) => {
                self.truncate(count);
                Err(end)
            }
        }
    }

    /// Keeps so many nodes alone.
    pub(crate) fn truncate(&mut self, count: usize)
        ensures { self.new ≡ take count self.old }
    {
        self.rows.truncate(count);
        self.kinds.truncate(count);
    }
}
