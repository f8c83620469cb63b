ghost use Rattle.std.specs.Prelude.{List, ℕ, IfSome, OnOk};
ghost use Rattle.std.specs.List.{FoldsTo};
ghost use Rattle.lines.specs.Input.{TakesLine, lines_in};

use crate::buffer::LineBuffer;
use std::io;
use std::io::Read;

// Gives `f` each line of the input, until it refuses one.
pub fn each_line<R: Read + Drop, F: FnMut(&LineBuffer) -> io::Result<()>>(
    input: R,
    mut f: F,
) -> io::Result<()>
    requires { F.IsAlwaysCallable f }
    ensures { OnOk result (IfSome (R.remaining input) (λ bytes. (last : F) × FoldsTo (TakesLine F.FnMut) f (lines_in bytes) last)) }
{
    let mut line = LineBuffer::new();
    for byte in input.bytes() {
        match byte? {
            b'\n' => {
                f(&line)?;
                line.clear();
            }
            other => line.push(other),
        }
    }
    if line.is_empty() {
        return Ok(());
    }
    f(&line)
}
