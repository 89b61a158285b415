use amf_broker::Call;

/// What happens between a taker and a broker. Requests and answers are kept in lists and named by their place there, from 0, so
/// that one may come late, often or never. A place that is not in its list does nothing. Moments are in milliseconds.
#[derive(Debug, Drop)]
pub enum Event {
    /// The taker asks: the number that it wants next joins the requests, and nothing reaches the broker yet.
    Ask,
    /// The request at this place reaches the broker at this moment, as client 1's poll of that number. The answer joins the
    /// answers, and does not reach the taker yet.
    Arrive(u64, u32),
    /// The answer at this place reaches the taker, which looks at it where it is a numbered batch, and takes it if it is new.
    Answer(u32),
    /// Another call reaches the broker at this moment. A poll, a numbered poll and a Disconnect of client 1 do nothing: client 1
    /// is the taker's own, which polls by number alone and stays.
    Other(u64, Call),
}
