ghost use Rattle.amf_self_call_laws.specs.Exchange.{ExchangeHolds};
ghost use Rattle.amf_self_call_laws.specs.Parts.{AnswerIsReply, AskIsPacket, AskIsRequest};
ghost use Rattle.amf_self_call_laws.specs.WorkedRounds.{WorkedRounds};
ghost use Rattle.amf_self_call_laws.specs.Quiet.{CallIsQuiet};
ghost use Rattle.amf_self_call_laws.specs.Round.{CallIsAnswered, EchoComesBack, RoundHolds};

/// The bytes of a call are one request that the gateway takes whole, and its body spells that call alone.
pub fn a_call_is_one_request()
    ensures request { AskIsRequest }
    ensures packet { AskIsPacket }
{}

/// An answer of the gateway is one reply that the calling end takes whole.
pub fn an_answer_is_one_reply()
    ensures { AnswerIsReply }
{}

/// Of what the calling end sends and our own gateway answers there comes back what the call of the service means: its result,
/// where that has a spelling, or the fault with its code and text; of a packet that is too long a bad reply, by its number.
pub fn a_call_comes_back()
    ensures { RoundHolds }
{}

/// What `write_call` writes, the gateway answers, and `read_result` reads: the answer tells what comes back of the call.
pub fn an_exchange_tells()
    ensures { ExchangeHolds }
{}

/// A call is answered, once, whatever moments, words and replies of the desk there are: nothing of these is taken, and no call
/// of the desk is made.
pub fn a_call_is_answered()
    ensures { CallIsAnswered }
{}

/// On the way to its answer no step is a call of the desk, or takes a moment or a word.
pub fn a_call_is_quiet()
    ensures { CallIsQuiet }
{}

/// Of the echo service comes back its one argument, whatever graph that is, up to the numbers of its nodes.
pub fn an_echo_comes_back()
    ensures { EchoComesBack }
{}

/// Worked rounds, byte for byte: a call with a result, and one of a service that there is not.
pub fn worked_rounds()
    ensures { WorkedRounds }
{}
