ghost use Rattle.std.specs.Prelude.{◌≡◌, ℕ, ◌≤◌};

use tables::place::Indices;

// The index of a row of a family: a number, or a pair of them.
pub trait RowIndex: Copy {
    ghost first_of: { Self → ℕ };

    // the second number, 0 where there is one
    ghost second_of: { Self → ℕ };

    // the last second number that such an index can be of
    ghost seconds: { ℕ };

    fn at(first: u8, second: u8) -> Self
        requires { second ≤ seconds }
        ensures first { first_of result ≡ first }
        ensures second { second_of result ≡ second };

    fn first(self) -> u8
        ensures { result ≡ first_of self };

    fn second(self) -> u8
        ensures { result ≡ second_of self };
}

impl RowIndex for u8 {
    ghost first_of = { λ i. i };

    ghost second_of = { λ i. 0 };

    ghost seconds = { 0 };

    fn at(first: u8, _second: u8) -> u8 {
        first
    }

    fn first(self) -> u8 {
        self
    }

    fn second(self) -> u8 {
        0
    }
}

impl RowIndex for Indices {
    ghost first_of = { λ i. i.first };

    ghost second_of = { λ i. i.second };

    ghost seconds = { 255 };

    fn at(first: u8, second: u8) -> Indices {
        Indices { first, second }
    }

    fn first(self) -> u8 {
        self.first
    }

    fn second(self) -> u8 {
        self.second
    }
}
