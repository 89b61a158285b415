ghost use Rattle.amf_answer_plan.specs.RespondLaws.{AnswersAreFixed, BegunIsBeginning};
ghost use Rattle.amf_answer_plan.specs.Serving.{ServedIsBeginning};
ghost use Rattle.amf_answer_laws.specs.Tried.{TriedIsRun};
ghost use Rattle.amf_answer_laws.specs.WorkedBytes.{ByteRows};
ghost use Rattle.amf_answer_laws.specs.WorkedClient.{ClientRows};
ghost use Rattle.amf_answer_laws.specs.WorkedLinks.{LinkRows};
ghost use Rattle.amf_answer_laws.specs.WorkedOrder.{FormRows, OrderRows, PollRows, RunOutRows};
ghost use Rattle.amf_answer_laws.specs.WorkedPlain.{PlainRows};
ghost use Rattle.amf_answer_laws.specs.WorkedRemoting.{RemotingRows};
ghost use Rattle.amf_answer_laws.specs.WorkedTexts.{TextRows};

/// Worked facts of numbers, identifiers and targets.
pub fn text_rows()
    ensures { TextRows }
{}

/// The first requests of a Flex client, with the calls that they make and their answers.
pub fn client_rows()
    ensures { ClientRows }
{}

/// The first requests of a Flex client and their answers, byte for byte.
pub fn byte_rows()
    ensures { ByteRows }
{}

/// Which calls commands and messages make, and in which order moments and words are taken.
pub fn order_rows()
    ensures { OrderRows }
{}

/// Polls with a number and without one, and batches with subscriptions that ended.
pub fn poll_rows()
    ensures { PollRows }
{}

/// Messages to publish and answers that have no spelling.
pub fn form_rows()
    ensures { FormRows }
{}

/// Where moments, words or replies run out.
pub fn run_out_rows()
    ensures { RunOutRows }
{}

/// Plain remoting: results and faults, and their forms.
pub fn plain_rows()
    ensures { PlainRows }
{}

/// Calls by RemotingMessages.
pub fn remoting_rows()
    ensures { RemotingRows }
{}

/// The requests of a link, and its end.
pub fn link_rows()
    ensures { LinkRows }
{}

/// What is computed of a plan is what comes of it, where each step on the way gets what is right.
pub fn tried_is_run()
    ensures { TriedIsRun }
{}

/// What a link is answered is a function of the bytes, the services, the moments, the words and the replies; and what was
/// done so far is a beginning of it.
pub fn answers_are_fixed()
    ensures fixed { AnswersAreFixed }
    ensures begun { BegunIsBeginning }
{}

/// However the serving of a link ends, its calls and what it wrote are a beginning of what the link is answered.
pub fn served_is_beginning()
    ensures { ServedIsBeginning }
{}
