//! The numbers of unique keys.

ghost use Rattle.std.specs.Prelude.{◌≡◌, ◌↔◌, IfSome, IsSome};
ghost use Rattle.ae_base.specs.Versions.{IsUniqueNumber};

use crate::limits::MOST_UNIQUE_KEYS;
use std::marker::Model;

/// The number of a unique key of a table, in text order from 1 to 8.
#[derive(Clone, Copy, PartialEq, Eq, Debug)]
pub struct UniqueNumber {
    number: u8,
}

impl Model for UniqueNumber {
    ghost use Rattle.std.specs.Prelude.{ℕ};
    ghost use Rattle.ae_base.specs.Versions.{IsUniqueNumber};

    ghost Value = { ℕ };

    ghost view = { λ k. k.number };

    ghost invariant = { λ k. IsUniqueNumber k.number };

    ghost inverse = { λ n. record { number = n } };
}

impl UniqueNumber {
    /// The most unique keys of a table.
    pub const MOST: u8 = MOST_UNIQUE_KEYS as u8;

    /// The key of a number, where there is one.
    pub fn from_number(number: u8) -> Option<UniqueNumber>
        ensures value { IfSome result (λ key. key ≡ number) }
        ensures exactly { IsSome result ↔ IsUniqueNumber number }
    {
        if number == 0 || number > UniqueNumber::MOST {
            return None;
        }
        Some(UniqueNumber { number })
    }

    /// The number.
    pub fn number(self) -> u8
        ensures value { result ≡ self }
        ensures within { IsUniqueNumber result }
    {
        self.number
    }
}
