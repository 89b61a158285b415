ghost use Rattle.std.specs.Prelude.{◌≡◌, Ok, IfOk, IfErr};
ghost use Rattle.std.specs.Result.{IsErrOf};

use amf_graph::BuildEnd;
use amf_io::ReadEnd;

/// What a builder kept, which was not full: `Memory` is the one end.
pub fn kept<T: Drop>(answer: Result<T, BuildEnd>) -> Result<T, ReadEnd>
    requires { IsErrOf answer BuildEnd.Full → ⊥ }
    ensures ok { IfOk result (λ x. answer ≡ Ok x) }
    ensures err { IfErr result (λ e. e ≡ ReadEnd.Memory) }
{
    match answer {
        Ok(kept) => Ok(kept),
        Err(BuildEnd::Memory) => Err(ReadEnd::Memory),
        Err(BuildEnd::Full) => unreachable!(),
    }
}
