ghost use Rattle.std.specs.Prelude.{◌≡◌, ◌++◌, ℕ, List};
ghost use Rattle.amf_client.specs.Laws.{FixedStands, OneReply, OneResult};
ghost use Rattle.amf_client.specs.Reply.{BeginsWithReply, IsRefused};
ghost use Rattle.amf_client.specs.Rows.{WorkedRows};

/// What a front of the bytes fixes stands, whatever follows: a bad head, a whole reply, and Result but for one that comes of
/// the end of the bytes. No bytes have a bad head and a whole reply.
pub fn an_answer_stands()
    ensures refused { (front more : List ℕ) (number : ℕ) → IsRefused front number → IsRefused (front ++ more) number }
    ensures whole { (front more body : List ℕ) (code : ℕ) (rest : List ℕ) → BeginsWithReply front body code rest → BeginsWithReply (front ++ more) body code (rest ++ more) }
    ensures not_both { (bytes body : List ℕ) (code : ℕ) (rest : List ℕ) (number : ℕ) → BeginsWithReply bytes body code rest → IsRefused bytes number → ⊥ }
    ensures fixed { FixedStands }
{}

/// No bytes begin with two replies, or have two numbers of a bad head; and none have two results, but for the numbers of
/// the nodes of a graph.
pub fn one_answer()
    ensures reply { OneReply }
    ensures number { (bytes : List ℕ) (number other : ℕ) → IsRefused bytes number → IsRefused bytes other → number ≡ other }
    ensures outcome { OneResult }
{}

/// Worked heads, bodies, faults and requests.
pub fn worked_rows()
    ensures { WorkedRows }
{}
