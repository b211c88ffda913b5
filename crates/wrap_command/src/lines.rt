//! The line of input that is a key.

ghost use Rattle.std.specs.Prelude.{◌≡◌, ℕ, List};
ghost use Rattle.wrap_command.specs.Wrapping.{IsFoundIn, EndsLine};

use hex::FromHex;

/// The key that the input spells. There is one exactly where the input is 64 hexadecimal digits of
/// either case, and at most one LF or CR LF after them.
pub(crate) fn key_in(input: &[u8]) -> Option<[u8; 32]>
    ensures { IsFoundIn result input.now }
{
    <[u8; 32] as FromHex>::from_hex(without_line_end(input)).ok()
}

/// The input without one LF or CR LF at its end, where it has one.
fn without_line_end(input: &[u8]) -> &[u8]
    ensures { EndsLine result.now input.now }
{
    match input {
        [line @ .., b'\r', b'\n'] => line,
        [line @ .., b'\n'] => line,
        _ => input,
    }
}
