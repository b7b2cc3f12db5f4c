//! Reading the input. `read_input` is the call for a command: it takes the input until its end, or until it is too long.
ghost use Rattle.std.specs.Prelude.{◌≡◌, ◌≤◌, ◌<◌, length, IfOk, IfErr, true, false};
ghost use Rattle.st_main.specs.Answer.{intake_of, IsInput};
ghost use Rattle.st_main.specs.Input.{IsInputFault, IsUntaken, Moves};
ghost use Rattle.st_main.specs.Making.{MemoryOr};

use st_base::limits::LimitKind;
use st_base::map::MOST_INPUT;
use st_base::outside::Source;
use st_print::Fault;
use std::alloc::Global;

/// Takes the input until its end, or until more than 16,777,216 bytes are taken.
pub fn read_input<S: Source>(alloc: Global, input: &mut S) -> Result<Vec<u8>, Fault>
    ensures fails { IfErr result (MemoryOr (IsInputFault (intake_of (S.left input.old) (S.left input.new) (S.faults input.old) (S.faults input.new)))) }
    ensures input { IfOk result (λ bytes. IsInput (intake_of (S.left input.old) (S.left input.new) (S.faults input.old) (S.faults input.new)) bytes.items) }
    ensures few { IfOk result (λ bytes. length bytes.items ≤ 16777216) }
{
    let mut bytes = Vec::new(alloc);
    while bytes.len() <= MOST_INPUT {
        if !take_piece(input, &mut bytes)? {
            return Ok(bytes);
        }
    }
    Err(Fault::Limit(LimitKind::Input))
}

/// Takes the next bytes of the input behind those that were taken; false where there are no more.
fn take_piece<S: Source>(input: &mut S, bytes: &mut Vec<u8>) -> Result<bool, Fault>
    ensures faults { S.faults input.old ≤ S.faults input.new }
    ensures fails { IfErr result (MemoryOr (IsUntaken (S.faults input.old) (S.faults input.new))) }
    ensures more { IfOk result (λ more. more ≡ true → length bytes.old.items < length bytes.new.items) }
    ensures same { IfOk result (λ more. more ≡ false → bytes.new.items ≡ bytes.old.items) }
    ensures moves { IfOk result (Moves (S.left input.old) (S.left input.new) bytes.old.items bytes.new.items) }
{
    let mut buffer = [0; 65536];
    let Ok(count) = input.take(&mut buffer) else {
        return Err(Fault::ReadInput);
    };
    bytes.extend_from_slice(&buffer[..count])?;
    Ok(count > 0)
}
