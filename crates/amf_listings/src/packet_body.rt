ghost use Rattle.std.specs.Prelude.{◌≡◌};
ghost use Rattle.amf_graph.specs.Rooted.{content};
ghost use Rattle.amf_packet.specs.Content.{body_of};

use amf_graph::Rooted;
use amf_packet::Body;

/// The graph of a value.
pub(crate) fn graph(body: &Body) -> &Rooted
    ensures { content result.now ≡ (body_of body.now).graph }
{
    match body {
        Body::Call(graph) => graph,
        Body::Amf3(graph) => graph,
        Body::Plain(graph) => graph,
    }
}
