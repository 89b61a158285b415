ghost use Rattle.amf_poll_session.specs.Laws.{AllSessions};
ghost use Rattle.amf_poll_session.specs.Delivered.{AllDelivered};
ghost use Rattle.amf_poll_session.specs.Batches.{BatchesAreRead};
ghost use Rattle.amf_poll_session.specs.Rows.{WorkedSessions};

use amf_broker::delivery_holds;
use amf_once::each_is_taken_once;

/// No request of a listener has more than three dials, and it ends by the link only where the last dial failed or a call of the last link.
pub fn each_session()
    ensures { AllSessions }
{}

/// Worked requests, replies and sessions.
pub fn worked_sessions()
    ensures { WorkedSessions }
{}

/// Both ends of a subscription, whatever is lost, repeated or late between them. If the replies to a listener's polls are the batches that the
/// broker gave to them, the listener has written the bodies of what was published while it was subscribed, each once and in order, but for
/// what is on its way, or still waits at the broker.
pub fn what_was_published_is_written()
    ensures { AllDelivered }
{
    each_is_taken_once();
    delivery_holds();
}

/// What our own gateway answers to a numbered poll is a reply to it, with the bodies of the messages of its batch.
pub fn batches_are_read()
    ensures { BatchesAreRead }
{}
