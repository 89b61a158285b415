ghost use Rattle.amf_graph.specs.Arena.{Names, value_content};
ghost use Rattle.amf_text_write.specs.TellsLeaves.{TellsLeaf};

use crate::layout::Output;
use amf_graph::{Rooted, Value};
use amf_wire::Memory;
use json::Token;
use std::alloc::Global;

/// Values that are no nodes.
impl Output {
    /// A value that stands for itself, or a text. Of a node nothing is written here.
    pub(crate) fn leaf(
        &mut self,
        alloc: Global,
        bare: bool,
        graph: &Rooted,
        value: Value,
    ) -> Result<(), Memory>
        requires { Names graph.now.arena value }
        ensures { TellsLeaf bare (value_content graph.now.arena value) result self.old self.new }
    {
        graph.is_finished();
        match value {
            Value::Undefined => self.undefined(),
            Value::Null => self.token(Token::Null),
            Value::Bool(flag) => self.flag(flag),
            Value::Integer(integer) => self.int(i64::from(integer)),
            Value::Double(double) => self.double(alloc, bare, double),
            Value::Text(text) => self.text(alloc, graph.text(text)),
            Value::Node(_) => Ok(()),
        }
    }
}
