ghost use Rattle.flex_msgs.specs.FlexLaws.{AcknowledgeLaw, AnswersAlike, BatchLaw, DeliveredLaw, ErrorLaw, InvalidateLaw, JoinLaw, PublishedLaw, SyncLaw, ViewLaw};
ghost use Rattle.flex_msgs.specs.WorkedFlex.{FlexRows};

/// Worked facts of messages.
pub fn flex_rows()
    ensures { FlexRows }
{}

/// Isomorphic graphs are viewed alike: as the same request over values that are paired, or for the same reason as none.
pub fn view_law()
    ensures { ViewLaw }
{}

/// A graph that holds an acknowledge is isomorphic to the one that is said of what came.
pub fn acknowledge_law()
    ensures { AcknowledgeLaw }
{}

/// A graph that holds a stored message is isomorphic to the one that is said of the request.
pub fn published_law()
    ensures { PublishedLaw }
{}

/// A graph that holds an error is isomorphic to the one that is said of its texts.
pub fn error_law()
    ensures { ErrorLaw }
{}

/// A graph that holds an invalidate is isomorphic to the one that is said of its texts, among the nodes that the call added.
pub fn invalidate_law()
    ensures { InvalidateLaw }
{}

/// A graph that holds a delivered message is isomorphic to the one that is said of the stored message, likewise.
pub fn delivered_law()
    ensures { DeliveredLaw }
{}

/// Delivered messages and invalidates that are added one after another stand so in each graph that completes the builder.
pub fn batch_law()
    ensures { BatchLaw }
{}

/// A graph that holds a sync is isomorphic to the one that is said of the messages of its batch.
pub fn sync_law()
    ensures { SyncLaw }
{}

/// What is answered for isomorphic graphs is isomorphic.
pub fn answers_alike()
    ensures { AnswersAlike }
{}

/// Two graphs that stand apart in one are there as the second behind the first.
pub fn join_law()
    ensures { JoinLaw }
{}
