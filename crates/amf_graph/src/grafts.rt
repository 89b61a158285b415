ghost use Rattle.amf_graph.specs.GraftKeeps.{GraftKeepsLaw};
ghost use Rattle.amf_graph.specs.GraftLaws.{GraftLaws};

/// What a graft copied stands to its values as isomorphic, sharing kept, in every finished graph that completes the
/// builder; and so does each of its values alone.
pub fn graft_laws()
    ensures { GraftLaws }
{}

/// A graft keeps what is true of a builder, and its values are the builder's.
pub fn graft_keeps()
    ensures { GraftKeepsLaw }
{}
