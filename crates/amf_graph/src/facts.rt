ghost use Rattle.amf_graph.specs.FinishedFacts.{FinishedFacts};
ghost use Rattle.amf_graph.specs.NumberFacts.{NumberFacts};
ghost use Rattle.amf_graph.specs.WorkedFits.{FitRows};
ghost use Rattle.amf_graph.specs.WorkedGraphs.{GraphRows};

/// Worked facts of graphs: an array that holds one array twice is another graph than one that holds two; it is the same in
/// other numbers, with its canonical order.
pub fn graph_rows()
    ensures { GraphRows }
{}

/// Worked facts of kinds: contents and parts that a kind does not have.
pub fn fit_rows()
    ensures { FitRows }
{}

/// What a builder finishes is a graph of which all that is reached is there and fits its kind. It is small where the builder
/// was within bounds, and it completes itself.
pub fn finished_facts()
    ensures { FinishedFacts }
{}

/// Two texts have one number exactly where they have the same bytes, and there are no more numbers than texts.
pub fn number_facts()
    ensures { NumberFacts }
{}
