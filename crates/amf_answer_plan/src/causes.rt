//! Why a request fails, as its fault says it.

ghost use Rattle.std.specs.Prelude.{◌≡◌, true, IfOk, IfSome, IsNone, Some, None, length, ◌<◌};
ghost use Rattle.amf_wire.specs.Text.{is_text};
ghost use Rattle.amf_answer_plan.specs.Causes.{refusal, no_form as no_form_cause, not_served as not_served_cause};
ghost use Rattle.amf_service.specs.Meaning.{IsFault};
ghost use Rattle.amf_answer_plan.specs.Causes.{bad_message as bad_message_cause, no_service as no_service_cause, no_operation as no_operation_cause, service_fault as service_fault_cause};
ghost use Rattle.amf_answer_plan.specs.Kept.{FaultFits};

use amf_broker::Reply;
use amf_wire::{Memory, Name};
use flex_msgs::FaultText;
use std::alloc::Global;

/// A cause. It gives up where there is no memory.
fn cause(alloc: Global, code: &[u8], text: &[u8]) -> Result<FaultText, Memory>
    ensures { IfOk result (λ f. f ≡ record { code = code.now; text = text.now }) }
{
    Ok(FaultText {
        code: Name::of_bytes(alloc, code)?,
        text: Name::of_bytes(alloc, text)?,
    })
}

/// The cause of an answer, or of a message to publish, that has no spelling. It gives up where there is no memory.
pub fn no_form(alloc: Global) -> Result<FaultText, Memory>
    ensures cause { IfOk result (λ f. f ≡ no_form_cause) }
    ensures fits { IfOk result (λ f. FaultFits f) }
{
    cause(alloc, b"Server.NoForm", b"no form")
}

/// The cause of an operation that is not served. It gives up where there is no memory.
pub fn not_served(alloc: Global) -> Result<FaultText, Memory>
    ensures cause { IfOk result (λ f. f ≡ not_served_cause) }
    ensures fits { IfOk result (λ f. FaultFits f) }
{
    cause(alloc, b"Client.NotServed", b"operation not served")
}

/// The cause of what is no message, or has no list of arguments. It gives up where there is no memory.
pub fn bad_message(alloc: Global) -> Result<FaultText, Memory>
    ensures cause { IfOk result (λ f. f ≡ bad_message_cause) }
    ensures fits { IfOk result (λ f. FaultFits f) }
{
    cause(alloc, b"Client.BadMessage", b"not a message")
}

/// The cause of a call of a service that there is not. It gives up where there is no memory.
pub fn no_service(alloc: Global) -> Result<FaultText, Memory>
    ensures cause { IfOk result (λ f. f ≡ no_service_cause) }
    ensures fits { IfOk result (λ f. FaultFits f) }
{
    cause(alloc, b"Client.NoService", b"no such service")
}

/// The cause of a call of an operation that its service does not know. It gives up where there is no memory.
pub fn no_operation(alloc: Global) -> Result<FaultText, Memory>
    ensures cause { IfOk result (λ f. f ≡ no_operation_cause) }
    ensures fits { IfOk result (λ f. FaultFits f) }
{
    cause(alloc, b"Client.NoOperation", b"no such operation")
}

/// The cause that a service gives. It gives up where there is no memory.
pub fn service_fault(alloc: Global, text: Name) -> Result<FaultText, Memory>
    ensures cause { IfOk result (λ f. f ≡ service_fault_cause text) }
    ensures fits { IfOk result (λ f. IsFault text → FaultFits f) }
{
    Ok(FaultText {
        code: Name::of_bytes(alloc, b"Service.Fault")?,
        text,
    })
}

/// The code and the text of a refusal of the desk.
fn refusal_texts(reply: &Reply) -> Option<(&'static [u8], &'static [u8])>
    ensures some { IfSome result (λ p. refusal reply.now ≡ Some (record { code = p.0.now; text = p.1.now })) }
    ensures texts { IfSome result (λ p. (is_text p.0.now ≡ true) × (is_text p.1.now ≡ true)) }
    ensures short { IfSome result (λ p. (length p.0.now < 64) × (length p.1.now < 64)) }
    ensures none { IsNone result → refusal reply.now ≡ None }
{
    match reply {
        Reply::Full(_) => Some((b"Server.Full", b"too many clients")),
        Reply::TooManySubs(_) => Some((b"Client.TooManySubs", b"too many subscriptions")),
        Reply::NoClient(_) => Some((b"Client.NoClient", b"no such client")),
        Reply::NoSub(_) => Some((b"Client.NoSub", b"no such subscription")),
        Reply::NoTopic(_) => Some((b"Client.NoTopic", b"no such destination")),
        Reply::TooLong(_) => Some((b"Client.TooLong", b"too long")),
        Reply::BadNumber(_) => Some((b"Client.BadNumber", b"bad poll number")),
        Reply::Client(_) | Reply::Subscribed(_) | Reply::Unsubscribed(_) => None,
        Reply::Published { .. } | Reply::Batch { .. } | Reply::Numbered { .. } => None,
        Reply::Again { .. } | Reply::Bye => None,
    }
}

/// The cause of a refusal of the desk, if the reply is one. It gives up where there is no memory.
pub fn refusal(alloc: Global, reply: &Reply) -> Result<Option<FaultText>, Memory>
    ensures cause { IfOk result (λ f. f ≡ refusal reply.now) }
    ensures fits { IfOk result (λ f. IfSome f (λ f. FaultFits f)) }
{
    match refusal_texts(reply) {
        Some((code, text)) => Ok(Some(cause(alloc, code, text)?)),
        None => Ok(None),
    }
}
