ghost use Rattle.amf_show.specs.ListingLaws.{ListingLaws};
ghost use Rattle.amf_show.specs.WorkedListings.{ListingRows};

/// Worked listings: members in by-name order, a wrapper, texts with bytes that do not stand for themselves, each kind of
/// node, and a node to which the root does not lead.
pub fn listing_rows()
    ensures { ListingRows }
{}

/// A whole graph has a listing, and no graph has two; isomorphic graphs have the same one.
pub fn listing_laws()
    ensures { ListingLaws }
{}
