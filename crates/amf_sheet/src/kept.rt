ghost use Rattle.std.specs.Prelude.{◌≡◌, Ok, Err, IfOk, OnErr};
ghost use Rattle.std.specs.Result.{IsErrOf};

use amf_graph::BuildEnd;
use amf_wire::Memory;

/// What a builder kept that has room for it. It gives up where there is no memory.
pub(crate) fn kept<T: Drop>(answer: Result<T, BuildEnd>) -> Result<T, Memory>
    requires { IsErrOf answer BuildEnd.Full → ⊥ }
    ensures ok { IfOk result (λ x. answer ≡ Ok x) }
    ensures err { OnErr result (answer ≡ Err BuildEnd.Memory) }
{
    match answer {
        Ok(kept) => Ok(kept),
        Err(BuildEnd::Memory) => Err(Memory),
        Err(BuildEnd::Full) => unreachable!(),
    }
}
