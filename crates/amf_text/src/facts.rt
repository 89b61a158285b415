ghost use Rattle.amf_text.specs.AskLaws.{FaultLawsHold, GoalLawsHold};
ghost use Rattle.amf_text.specs.DigitLaws.{AnyDigits};
ghost use Rattle.amf_text.specs.DocumentLaws.{DocumentIsMeant};
ghost use Rattle.amf_text.specs.GraphLaws.{GraphIsRead};
ghost use Rattle.amf_text.specs.LeafLaws.{LeafLaws};
ghost use Rattle.amf_text.specs.LinkLaws.{LinkLaws};
ghost use Rattle.amf_text.specs.NumberLaws.{DigitsExist, NumberLaws};
ghost use Rattle.amf_text.specs.OneMeaning.{OneMeaning};
ghost use Rattle.amf_text.specs.ReadsBack.{ReadsBack};
ghost use Rattle.amf_text.specs.RoundTrip.{RoundTrip};
ghost use Rattle.amf_text.specs.TextLaws.{TextLaws};
ghost use Rattle.amf_text.specs.TextTheorems.{SameJson, JsonExists};
ghost use Rattle.amf_text.specs.TokenLaws.{TextIsJson};
ghost use Rattle.amf_text.specs.ToldTrees.{ToldIsMeant};
ghost use Rattle.amf_text.specs.ValueLaws.{ValueLaws};
ghost use Rattle.amf_text.specs.WholeLaws.{WholeLaws};
ghost use Rattle.amf_text.specs.WorkedDocuments.{DocumentRows};
ghost use Rattle.amf_text.specs.WorkedMeanings.{MeaningRows};
ghost use Rattle.amf_text.specs.WorkedRefusals.{RefusalRows};
ghost use Rattle.amf_text.specs.WorkedTexts.{TextRows};
ghost use Rattle.amf_text.specs.WorkedVerdicts.{VerdictRows};

/// Worked texts: a file, a packet, and values of each kind that differs.
pub fn text_rows()
    ensures { TextRows }
{}

/// Worked documents: their order, their table and their text.
pub fn document_rows()
    ensures { DocumentRows }
{}

/// What the worked texts mean.
pub fn meaning_rows()
    ensures { MeaningRows }
{}

/// Worked refusals: texts with one fault each, and where it is.
pub fn refusal_rows()
    ensures { RefusalRows }
{}

/// Worked verdicts: texts that are accepted, and a refusal of each kind.
pub fn verdict_rows()
    ensures { VerdictRows }
{}

/// What is laid out by lines is read as the JSON that was written, at any depth.
pub fn text_laws()
    ensures { TextLaws }
{}

/// The decimal digits of a whole number below 2^53 read as its double.
pub fn number_laws()
    ensures { NumberLaws }
{}

/// Each finite double has digits that read back.
pub fn digits_exist()
    ensures { DigitsExist }
{}

/// What is told of a leaf is meant: doubles by their digits or bits, integers and texts.
pub fn leaf_laws()
    ensures { LeafLaws }
{}

/// What is not asked for in a text cannot stand there: behind the tokens before it, no text that means something goes on so.
pub fn fault_laws()
    ensures { FaultLawsHold }
{}

/// Documents that match, as those of isomorphic graphs do, have one JSON when they are told by the same digits.
pub fn same_json()
    ensures { SameJson }
{}

/// Each document that can be told has a JSON, by any digits.
pub fn json_exists()
    ensures { JsonExists }
{}

/// What is asked for in a text can come, and tokens behind which nothing is asked for mean something.
pub fn goal_laws()
    ensures { GoalLawsHold }
{}

/// What is told of each value of a whole graph means that value, with labels for the nodes of the table.
pub fn told_meant()
    ensures { ToldIsMeant }
{}

/// The canonical JSON of a value means its table and its root, where labels may still lead nowhere.
pub fn value_laws()
    ensures { ValueLaws }
{}

/// The canonical JSON of each document means something, where labels may still lead nowhere.
pub fn document_laws()
    ensures { DocumentIsMeant }
{}

/// Each label in the canonical JSON of a value or a file is one of a row of its table.
pub fn link_laws()
    ensures { LinkLaws }
{}

/// In whatever digits its doubles are told, a text is that of JSON which means the same.
pub fn digit_laws()
    ensures { AnyDigits }
{}

/// A canonical text is UTF-8, and that of JSON which means what the canonical JSON does.
pub fn token_laws()
    ensures { TextIsJson }
{}

/// The graph that the canonical JSON of a value means is isomorphic to the one of which it is told; of one that is told bare, to the one with integers.
pub fn graph_laws()
    ensures { GraphIsRead }
{}

/// A canonical text reads back: it means a document whose graphs are isomorphic to those of which it is told; what is told bare is read with integers.
pub fn reads_back()
    ensures { ReadsBack }
{}

/// A text means at most one document; what a canonical text means matches the document of which it is told.
pub fn one_meaning()
    ensures { OneMeaning }
{}

/// The graphs that a text means are whole, and what a text means can be told.
pub fn whole_laws()
    ensures { WholeLaws }
{}

/// There and back: a canonical text of a document means one that matches it and can be told again, and so does a canonical text of what any text means.
pub fn round_trip()
    ensures { RoundTrip }
{}
