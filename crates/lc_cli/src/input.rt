//! Reading an input of limited length.
ghost use Rattle.std.specs.Prelude.{◌≡◌, ◌<◌, ◌≤◌, ◌↔◌, Err, IfErr, IfOk, IfSome, vec_len};
ghost use Rattle.lc_cli.specs.Fault.{IsOfReading};
ghost use Rattle.lc_cli.specs.Input.{TakesMore};

use crate::fault::Fault;
use std::alloc::Global;
use std::io::Read;

/// The longest input, in bytes.
pub const MAX_INPUT: usize = 16_777_216;

/// The bytes that one read asks for.
pub const PIECE: usize = 65_536;

/// The whole input. A read that fails is not tried again, and no more is read than tells that the
/// input is too long: that is answered exactly where more than `MAX_INPUT` bytes were read.
pub fn read_all<R: Read>(alloc: Global, input: &mut R) -> Result<Vec<u8>, Fault>
    ensures whole { IfOk result (λ bytes. IfSome (R.remaining input.old) (λ all. bytes.items ≡ all)) }
    ensures short { IfOk result (λ bytes. vec_len bytes ≤ MAX_INPUT) }
    ensures fault { IfErr result IsOfReading }
    ensures long { IfSome (R.remaining input.old) (λ all. (result ≡ Err Fault.InputTooLong) ↔ TakesMore MAX_INPUT all (R.remaining input.new)) }
{
    let mut bytes = Vec::new(alloc);
    let mut piece = [0u8; PIECE];
    loop {
        let count = input.read(&mut piece).or(Err(Fault::ReadFailed))?;
        if count == 0 {
            return Ok(bytes);
        }
        if count > MAX_INPUT - bytes.len() {
            return Err(Fault::InputTooLong);
        }
        bytes.extend_from_slice(&piece[..count])?;
    }
}
