//! Whole numbers.
ghost use Rattle.std.specs.Prelude.{◌≡◌, ◌≤ℤ◌, pos, IsSome, IfSome, ◌↔◌};
ghost use Rattle.room_json.specs.Limits.{max_whole, min_whole};
ghost use Rattle.room_json.specs.Profile.{IsWhole};

use std::marker::Model;

/// The greatest whole number: 2^53-1.
pub const MAX_WHOLE: u64 = (1 << 53) - 1;

/// A whole number from -(2^53-1) to 2^53-1.
#[derive(Clone, Copy, Debug, PartialEq, Eq)]
pub struct Whole {
    value: i64,
}

impl Model for Whole {
    ghost use Rattle.std.specs.Prelude.{ℤ};
    ghost use Rattle.room_json.specs.Profile.{IsWhole};

    ghost Value = { ℤ };

    ghost view = { λ w. w.value };

    ghost invariant = { λ w. IsWhole w.value };

    ghost inverse = { λ z. record { value = z } };
}

impl Whole {
    /// The number, None exactly where it is outside the range.
    pub fn new(v: i64) -> Option<Whole>
        ensures exact { IsSome result ↔ IsWhole v }
        ensures value { IfSome result (λ w. w ≡ v) }
    {
        if v.unsigned_abs() <= MAX_WHOLE {
            Some(Whole { value: v })
        } else {
            None
        }
    }

    /// The number.
    pub fn get(&self) -> i64
        ensures value { result ≡ self.now }
        ensures low { min_whole ≤ℤ result }
        ensures high { result ≤ℤ pos max_whole }
    {
        self.value
    }
}
