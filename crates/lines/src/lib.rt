#![tactic(auto)]

ghost use Rattle.std.specs.Prelude.{◌≡◌, ℕ, ◌/◌, ◌%◌, ◌<◌, ◌≤◌, [], ◌∷◌, ◌++◌, IfSome, IfOk, string_bytes, MatchOption, OnOk, ◌≢◌};
ghost use Rattle.arrayvec.specs.ArrayVec.{array_vec_len};
ghost use Rattle.lines.specs.Spelling.{digit_of, spelled, longest_line, Legible};

use arrayvec::ArrayVec;
use std::alloc::{AllocError, Global};

pub mod buffer;
pub mod input;

// The most octets that a line may spell.
pub const LONGEST_LINE: usize = 1024;

// What a capital hexadecimal digit stands for; no plainer by `char::to_digit`, which takes small letters too.
fn digit_value(digit: u8) -> Option<u8>
    ensures { MatchOption result ((d : ℕ) → d < 16 → digit ≢ digit_of d) (λ d. (d < 16) × (digit ≡ digit_of d)) }
{
    match digit {
        b'0'..=b'9' => Some(digit - b'0'),
        b'A'..=b'F' => Some(digit - b'A' + 10),
        _ => None,
    }
}

// The octet that two digits spell.
fn pair_value(high: u8, low: u8) -> Option<u8>
    ensures { MatchOption result ((x : ℕ) → x < 256 → high ≡ digit_of (x / 16) → low ≢ digit_of (x % 16)) (λ x. (high ≡ digit_of (x / 16)) × (low ≡ digit_of (x % 16))) }
{
    Some(digit_value(high)? * 16 + digit_value(low)?)
}

// The octets that a line spells. A bad byte is met where it stands: `split` would look on for a space first.
pub fn octets_of_line(line: &[u8]) -> Option<ArrayVec<u8, LONGEST_LINE>>
    ensures cases { MatchOption result (Legible line.now → ⊥) (λ octets. line.now ≡ spelled octets.items) }
    ensures bound { IfSome result (λ octets. array_vec_len octets ≤ longest_line) }
{
    let mut octets = ArrayVec::new();
    if line.is_empty() {
        return Some(octets);
    }
    let mut rest = line;
    for _ in 0..LONGEST_LINE {
        let [high, low, after @ ..] = rest else {
            return None;
        };
        octets.push(pair_value(*high, *low)?);
        match after {
            [] => return Some(octets),
            [b' ', more @ ..] => rest = more,
            _ => return None,
        }
    }
    None
}

// The digit of a number below sixteen.
fn digit_of(value: u8) -> char
    requires { value < 16 }
    ensures { result ≡ digit_of value }
{
    if value < 10 {
        char::from(b'0' + value)
    } else {
        char::from(b'A' + (value - 10))
    }
}

// Adds the two digits of an octet, which costs less than `write!` for each.
fn push_pair(text: &mut String, octet: u8) -> Result<(), AllocError>
    ensures { OnOk result (string_bytes text.new ≡ string_bytes text.old ++ (digit_of (octet / 16) ∷ digit_of (octet % 16) ∷ [])) }
{
    text.push(digit_of(octet / 16))?;
    text.push(digit_of(octet % 16))?;
    Ok(())
}

// Octets as capital hexadecimal pairs parted by one space.
pub fn spell(heap: Global, octets: &[u8]) -> Result<String, AllocError>
    ensures { IfOk result (λ text. string_bytes text ≡ spelled octets.now) }
{
    let mut text = String::new(heap);
    for (i, octet) in octets.iter().enumerate() {
        if i > 0 {
            text.push(' ')?;
        }
        push_pair(&mut text, *octet)?;
    }
    Ok(text)
}

#[cfg(test)]
mod tests;
