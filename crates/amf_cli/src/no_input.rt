use amf_io::{Failed, Source};

/// An input that has nothing, and says so.
#[derive(Drop)]
pub struct NoInput;

impl Source for NoInput {
    ghost use Rattle.std.specs.Prelude.{[]};

    ghost tells = { λ _. Unit {0} };

    ghost left = { λ _. [] };

    ghost faults = { λ _. 0 };

    fn read(&mut self, _buf: &mut [u8]) -> Result<usize, Failed> {
        Ok(0)
    }
}
