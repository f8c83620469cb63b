// Octets, typed lines and numbers as lines of a page.
ghost use Rattle.std.specs.Prelude.{◌≡◌, ◌<◌, true, [], ◌∷◌, ◌++◌, length, IfOk, string_bytes, Decides, OnOk, ◌≢◌};
ghost use Rattle.account.specs.Pages.{Printed, Plain, bracketed};

use std::alloc::{AllocError, Global};
use std::fmt;

// How many bytes of a line of pairs, three to a pair, stand in one line of the page.
const WIDTH: usize = 96;

// How many numbers stand in one line of the page: those of a phase.
const NUMBERS: usize = 21;

// What begins a further line.
const FURTHER: &str = "\n    ";

fn is_printed(byte: u8) -> bool
    ensures { Decides result (Printed byte) }
{
    matches!(byte, b' '..=b'~')
}

// A byte as a pair in angle brackets.
fn push_pair(text: &mut String, byte: u8) -> Result<(), AllocError>
    ensures { OnOk result (string_bytes text.new ≡ string_bytes text.old ++ bracketed byte) }
{
    write!(text, "<{byte:02X}>")
}

// A byte of a line, which stands at `i`: the space that ends a full line of the page leads on to a further one; a space
// at the line's end and what cannot be printed are shown as pairs, as `<09>` for a tab.
fn push_byte(text: &mut String, i: usize, byte: u8, last: bool) -> Result<(), AllocError>
    ensures { OnOk result ((i < 95 → Printed byte → (last ≡ true → byte ≢ 32) → string_bytes text.new ≡ string_bytes text.old ++ byte ∷ [])) }
{
    if !is_printed(byte) || (last && byte == b' ') {
        push_pair(text, byte)
    } else if i % WIDTH == WIDTH - 1 && byte == b' ' {
        text.push_str(FURTHER)
    } else {
        text.push(char::from(byte))
    }
}

// A line as it was typed; one of many pairs goes on in further lines.
pub fn laid_out(heap: Global, line: &[u8]) -> Result<String, AllocError>
    ensures { IfOk result (λ text. (length line.now < 96 → Plain line.now → string_bytes text ≡ line.now)) }
{
    let mut text = String::new(heap);
    for (i, byte) in line.iter().enumerate() {
        let last = i + 1 == line.len();
        push_byte(&mut text, i, *byte, last)?;
    }
    Ok(text)
}

// How many numbers, and which.
#[derive(Drop)]
pub struct NumberList<'a> {
    pub numbers: &'a [u16],
}

impl fmt::Display for NumberList<'_> {
    fn fmt<W: fmt::Write>(&self, f: &mut fmt::Formatter<W>) -> fmt::Result {
        let count = self.numbers.len();
        if count == 1 {
            f.write_str("1 number:")?;
        } else {
            write!(f, "{count} numbers:")?;
        }
        for (i, number) in self.numbers.iter().enumerate() {
            let gap = if i > 0 && i % NUMBERS == 0 {
                FURTHER
            } else {
                " "
            };
            write!(f, "{gap}{number}")?;
        }
        Ok(())
    }
}
