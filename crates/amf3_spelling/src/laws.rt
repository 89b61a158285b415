ghost use Rattle.amf3_spelling.specs.LawsByName.{SortIsByName};
ghost use Rattle.amf3_spelling.specs.LawsCanonical3.{CanonicalDecides, CanonicalExists, CanonicalIsAlone, IsomorphicHaveSameCanonical, SameBytesAreIsomorphic};
ghost use Rattle.amf3_spelling.specs.LawsHeight3.{MoreHeightSpells};
ghost use Rattle.amf3_spelling.specs.LawsIsomorphic.{IsomorphicIsEquivalence};
ghost use Rattle.amf3_spelling.specs.LawsLack3.{SpelledLacksNothing, SpellingOrLack};
ghost use Rattle.amf3_spelling.specs.LawsOrder.{OrderDecides};
ghost use Rattle.amf3_spelling.specs.LawsTable3.{TableIsOrder};

/// Isomorphic is reflexive over whole graphs, in which what is reached is there and as its kind wants it, and it is symmetric
/// and transitive.
pub fn isomorphic_is_equivalence()
    ensures { IsomorphicIsEquivalence }
{}

/// A whole graph has a canonical order, and no graph has two. Two graphs are isomorphic exactly if they read alike, number by
/// number.
pub fn order_decides()
    ensures { OrderDecides }
{}

/// No graph has two canonical spellings.
pub fn canonical_is_alone()
    ensures { CanonicalIsAlone }
{}

/// Isomorphic graphs have the same canonical spelling.
pub fn isomorphic_have_same_canonical()
    ensures { IsomorphicHaveSameCanonical }
{}

/// Two graphs that the same bytes spell are isomorphic.
pub fn same_bytes_are_isomorphic()
    ensures { SameBytesAreIsomorphic }
{}

/// Canonical bytes decide isomorphism: bytes that are canonical for a graph are so for exactly the graphs that are isomorphic
/// to it, whichever graph it is of those that an input spells.
pub fn canonical_decides()
    ensures { CanonicalDecides }
{}

/// A whole graph within bounds in which no dynamic or associative name is empty has a canonical spelling.
pub fn canonical_exists()
    ensures { CanonicalExists }
{}

/// The table of nodes at the end of a canonical spelling is the canonical order of the graph.
pub fn table_is_order()
    ensures { TableIsOrder }
{}

/// A whole graph within bounds has a canonical spelling or a first lack with its kind, and not both; isomorphic graphs have
/// the same first lack.
pub fn spelling_or_lack()
    ensures { SpellingOrLack }
{}

/// A graph that any bytes spell, canonically or not, has no reached node with an empty name, and so it lacks nothing.
pub fn spelled_lacks_nothing()
    ensures { SpelledLacksNothing }
{}

/// What is spelled in so many inline nodes within one another is spelled in more, by the same fields and bytes.
pub fn more_height_spells()
    ensures { MoreHeightSpells }
{}

/// What std's stable sort by the names' bytes gives is by-name order.
pub fn sort_is_by_name()
    ensures { SortIsByName }
{}
