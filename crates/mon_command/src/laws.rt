//! What holds of the line of a magic number.
ghost use Rattle.std.specs.Prelude.{◌≡◌, ◌<◌, ◌^◌, ℕ, length};
ghost use Rattle.std.specs.Str.Parse.{digits_value};
ghost use Rattle.mon_command.specs.Status.{eight_digits};

/// The eight digits of a number of 32 bits are eight, and to the base 16 they write that number.
pub fn digits_of_a_magic_number()
    ensures eight { (number : ℕ) → number < 2 ^ 32 → length (eight_digits number) ≡ 8 }
    ensures value { (number : ℕ) → number < 2 ^ 32 → digits_value 16 (eight_digits number) ≡ number }
{}
