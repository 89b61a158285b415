ghost use Rattle.amf3_read.specs.VerdictLaws.{TextsReadOnce, TextsEnd, PairsJudgedOnce, PairsJudged};

/// A text in the middle of something, from an offset within the limit on, has one verdict and no
/// two: it ends at one offset, or is refused for one reason at one offset.
pub fn texts_have_one_verdict()
    ensures judged { TextsEnd }
    ensures once { TextsReadOnce }
{}

/// An input of two values, one after the other, has one verdict and no two: it is accepted, or refused for one
/// reason at one offset.
pub fn pairs_have_one_verdict()
    ensures judged { PairsJudged }
    ensures once { PairsJudgedOnce }
{}
