ghost use Rattle.std.specs.Prelude.{◌≡◌, IfOk};
ghost use Rattle.amf_answer_plan.specs.Kept.{context_in, ContextFits, CommonFits, names_told};
ghost use Rattle.amf_answer_plan.specs.Replies.{context_of, or_nil, no_context, with_client};

use amf_wire::{Memory, Name};
use flex_msgs::Common;
use std::alloc::Global;

/// What a reply says of its request.
pub struct Context {
    pub destination: Name,
    pub ds_id: Name,
    /// The `messageId` of the request.
    pub correlation: Name,
}

impl Drop for Context {
    /// Lets its parts go. Written out, it is proved once; what is derived is proved at each place where one is let go.
    fn drop(self) {
        let Context {
            destination: _,
            ds_id: _,
            correlation: _,
        } = self;
    }
}

/// The number of a client, or `nil` where there is none.
fn or_nil(alloc: Global, ds_id: &Name) -> Result<Name, Memory>
    ensures { IfOk result (λ name. name ≡ or_nil ds_id.now) }
{
    match ds_id.as_bytes() {
        [] => Name::of_bytes(alloc, b"nil"),
        _ => ds_id.copy(alloc),
    }
}

impl Context {
    /// The destination of a request, its number of a client and its `messageId`. It gives up where there is no memory.
    pub fn of(alloc: Global, common: &Common) -> Result<Context, Memory>
        requires { CommonFits common.now }
        ensures context { IfOk result (λ k. context_in k ≡ context_of (names_told common.now)) }
        ensures fits { IfOk result (λ k. ContextFits (context_in k)) }
    {
        Ok(Context {
            destination: common.destination.copy(alloc)?,
            ds_id: or_nil(alloc, &common.ds_id)?,
            correlation: common.message.copy(alloc)?,
        })
    }

    /// The context of what is no message that is served. It gives up where there is no memory.
    pub fn none(alloc: Global) -> Result<Context, Memory>
        ensures context { IfOk result (λ k. context_in k ≡ no_context) }
        ensures fits { IfOk result (λ k. ContextFits (context_in k)) }
    {
        Ok(Context {
            destination: Name::of_bytes(alloc, b"")?,
            ds_id: Name::of_bytes(alloc, b"nil")?,
            correlation: Name::of_bytes(alloc, b"")?,
        })
    }

    /// The same with the number of a new client.
    pub fn with_client(self, ds_id: Name) -> Context
        ensures { context_in result ≡ with_client ds_id (context_in self) }
    {
        let Context {
            destination,
            ds_id: _,
            correlation,
        } = self;
        Context {
            destination,
            ds_id,
            correlation,
        }
    }
}
