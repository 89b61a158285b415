ghost use Rattle.amf0_spelling.specs.Form.{OneForm};
ghost use Rattle.amf0_spelling.specs.LawsCanonical0.{CanonicalConverts, CanonicalDecides0, CanonicalIsAlone0, IsomorphicHaveSameCanonical0, SameBytesAreIsomorphic0};
ghost use Rattle.amf0_spelling.specs.LawsLack0.{MetAgainIsTwice, SpellingOrLack0};
ghost use Rattle.amf0_spelling.specs.LawsLowering.{GraphsHaveOneLowering};

/// A graph whose values the formats have has one lowering, which is lowered; isomorphic graphs have isomorphic ones, and a
/// lowered graph is isomorphic to its own. What a builder finishes within its bounds has a lowering within them.
pub fn graphs_have_one_lowering()
    ensures { GraphsHaveOneLowering }
{}

/// No graph has two canonical spellings in AMF 0.
pub fn canonical0_is_alone()
    ensures { CanonicalIsAlone0 }
{}

/// Isomorphic graphs have the same canonical spelling in AMF 0, field by field.
pub fn isomorphic_have_same_canonical0()
    ensures { IsomorphicHaveSameCanonical0 }
{}

/// Two graphs that the same bytes spell in AMF 0 are isomorphic.
pub fn same_bytes0_are_isomorphic()
    ensures { SameBytesAreIsomorphic0 }
{}

/// Canonical bytes of AMF 0 decide isomorphism: bytes that are canonical for a graph are so for exactly the graphs that are
/// isomorphic to it.
pub fn canonical0_decides()
    ensures { CanonicalDecides0 }
{}

/// Where an input is converted between AMF 3 and AMF 0, or AMF 0 is made canonical, the bytes are canonical for exactly the
/// graphs that are isomorphic to what the input spells, or to its lowering, whichever graph it is of those.
pub fn canonical_converts()
    ensures { CanonicalConverts }
{}

/// A lowered graph within bounds has a canonical spelling in AMF 0 or a first lack with its kind, and not both; isomorphic
/// graphs have the same first lack.
pub fn spelling_or_lack0()
    ensures { SpellingOrLack0 }
{}

/// One walk finds what a lack is judged by: the canonical order, and the canonical numbers that are met again.
pub fn met_again_is_twice()
    ensures { MetAgainIsTwice }
{}

/// A value of AMF 0 that is spelled has one form.
pub fn values_have_one_form()
    ensures { OneForm }
{}
