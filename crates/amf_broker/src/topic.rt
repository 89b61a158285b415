ghost use Rattle.std.specs.Prelude.{◌≡◌};
ghost use Rattle.amf_broker.specs.Index.{topic_hash};

use amf_wire::Name;
use std::hash::{DefaultHasher, Hasher};

/// What a message is published to and a subscription listens to. An empty subtopic means none.
#[derive(Debug, Drop)]
pub struct Topic {
    pub destination: Name,
    pub subtopic: Name,
}

/// The hash of the topic, by the keys of the hasher that it begins with.
#[tactic(auto, unfolding(crate::specs::Index::topic_hash))]
pub(crate) fn hash_of(start: DefaultHasher, topic: &Topic) -> u64
    ensures { result ≡ topic_hash start topic.now }
{
    let mut state = start;
    state.write(topic.destination.as_bytes());
    state.write(&[255]);
    state.write(topic.subtopic.as_bytes());
    state.finish()
}
