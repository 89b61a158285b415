ghost use Rattle.amf_listings.specs.PacketLaws.{PacketLaws};
ghost use Rattle.amf_listings.specs.WorkedPacketListings.{PacketListingRows};
ghost use Rattle.amf_listings.specs.FileLaws.{FileLaws};
ghost use Rattle.amf_listings.specs.WorkedFileListings.{FileListingRows};

/// Worked listings of packets: a plain message, a header alone, and a header and a call with nodes of their own numbers.
pub fn packet_listing_rows()
    ensures { PacketListingRows }
{}

/// Two packets that the same bytes spell are the same; canonical bytes are so for exactly those that are the same once their
/// plain values are lowered; what has a canonical spelling lacks nothing; no packet has two listings or two numbers of nodes,
/// and the same packets have the same.
pub fn packet_laws()
    ensures { PacketLaws }
{}

/// Worked listings of shared object files: one pair, and one node that stands in two pairs.
pub fn file_listing_rows()
    ensures { FileListingRows }
{}

/// Two shared objects that the same bytes spell are the same; canonical bytes are so for exactly those that are the same once
/// their graph is lowered, where their version asks for it; what is spelled lacks nothing; and the same shared objects have one
/// listing.
pub fn file_laws()
    ensures { FileLaws }
{}
