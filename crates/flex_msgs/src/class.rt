ghost use Rattle.std.specs.Prelude.{◌≡◌, ◌<◌, ◌↔◌, [], length, get_or, map, IsTrue};
ghost use Rattle.std.specs.List.{AllByRecursion};
ghost use Rattle.amf_graph.specs.Arena.{IsTextId, text_at, traits_at};
ghost use Rattle.flex_msgs.specs.Classes.{served_class, class_traits};

use amf_graph::{Rooted, TextId, TraitsId};

/// The classes of requests.
#[derive(Clone, Copy, Debug, PartialEq, Eq)]
pub(crate) enum Served {
    Remoting,
    Command,
    Async,
}

impl Served {
    /// The class of this name, if it is served.
    pub(crate) fn named(name: &[u8]) -> Option<Served>
        ensures { result ≡ served_class name.now }
    {
        if b"flex.messaging.messages.RemotingMessage".as_slice() == name {
            Some(Served::Remoting)
        } else if b"flex.messaging.messages.CommandMessage".as_slice() == name {
            Some(Served::Command)
        } else if b"flex.messaging.messages.AsyncMessage".as_slice() == name {
            Some(Served::Async)
        } else {
            None
        }
    }
}

/// The classes of the messages that are written.
#[derive(Clone, Copy, Debug, PartialEq, Eq)]
pub enum Class {
    Acknowledge,
    Async,
    Command,
    Error,
}

impl Class {
    /// The name of the class.
    pub(crate) fn name(self) -> &'static [u8]
        ensures { result.now ≡ (class_traits self).class }
    {
        match self {
            Class::Acknowledge => b"flex.messaging.messages.AcknowledgeMessage",
            Class::Async => b"flex.messaging.messages.AsyncMessage",
            Class::Command => b"flex.messaging.messages.CommandMessage",
            Class::Error => b"flex.messaging.messages.ErrorMessage",
        }
    }

    /// How many members it has.
    pub(crate) fn count(self) -> usize
        ensures { result ≡ length (class_traits self).sealed }
    {
        match self {
            Class::Acknowledge | Class::Async => 8,
            Class::Command => 9,
            Class::Error => 13,
        }
    }

    /// The name of a member, in the order in which they are written.
    pub(crate) fn member(self, place: usize) -> &'static [u8]
        requires { place < length (class_traits self).sealed }
        ensures { result.now ≡ get_or (class_traits self).sealed place [] }
    {
        match place {
            0 => b"body",
            1 => b"clientId",
            2 => b"destination",
            3 => b"headers",
            4 => b"messageId",
            5 => b"timeToLive",
            6 => b"timestamp",
            7 => b"correlationId",
            8 => self.ninth(),
            9 => b"faultCode",
            10 => b"faultDetail",
            11 => b"faultString",
            _ => b"rootCause",
        }
    }

    /// The name of the member behind those that all messages have.
    fn ninth(self) -> &'static [u8]
        requires { 8 < length (class_traits self).sealed }
        ensures { result.now ≡ get_or (class_traits self).sealed 8 [] }
    {
        match self {
            Class::Command => b"operation",
            _ => b"extendedData",
        }
    }

    /// Whether these are the traits of the class, as it is written.
    pub(crate) fn has_traits(self, graph: &Rooted, traits: TraitsId) -> bool
        requires { traits.0 < length graph.now.arena.traits }
        ensures { IsTrue result ↔ (traits_at graph.now.arena traits.0 ≡ class_traits self) }
    {
        graph.is_finished();
        let view = graph.traits(traits);
        if view.dynamic {
            return false;
        }
        let named = graph.text(view.class) == self.name();
        if !named {
            return false;
        }
        self.has_members(graph, view.sealed)
    }

    /// Whether these are the names of its members, in their order.
    fn has_members(self, graph: &Rooted, names: &[TextId]) -> bool
        requires { AllByRecursion (λ x. IsTextId graph.now.arena x.0) names.now }
        ensures { IsTrue result ↔ (map (λ x. text_at graph.now.arena x.0) names.now ≡ (class_traits self).sealed) }
    {
        if names.len() != self.count() {
            return false;
        }
        for (place, name) in names.iter().enumerate() {
            let same = graph.text(*name) == self.member(place);
            if !same {
                return false;
            }
        }
        true
    }
}
