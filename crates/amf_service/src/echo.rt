ghost use Rattle.std.specs.Prelude.{bytes_eq};
ghost use Rattle.amf_service.specs.Shipped.{echo_name, echoed};

use crate::{Service, ServiceEnd, copied, fault, is_named, one_item};
use amf_graph::Rooted;
use amf_wire::Name;
use std::alloc::Global;

/// The operation `echo` gives its one item, with what it shares. Other arguments are the fault `wrong arguments`.
#[derive(Drop)]
pub struct Echo;

impl Service for Echo {
    ghost knows = { λ _. bytes_eq echo_name };

    ghost gives = { λ _ operation args. echoed args };

    fn answers(
        &self,
        alloc: Global,
        operation: &Name,
        args: &Rooted,
    ) -> Result<Rooted, ServiceEnd> {
        if !is_named(operation, b"echo") {
            return Err(ServiceEnd::Unknown);
        }
        match one_item(args) {
            Some(item) => Ok(copied(alloc, args, item)?),
            None => Err(fault(alloc, b"wrong arguments")),
        }
    }

    fn is_lawful(&self) {}
}
