// What is numbered by a u8: nodes and transactions. Not by `From` and `Into`: each would say by itself what it gives, and here
// one law ties the two.
ghost use Rattle.std.specs.Prelude.{◌≡◌, ℕ};

pub trait Numbered: Copy {
    // The value of a number, and the number of a value.
    ghost numbered: { ℕ → Self };

    ghost number: { Self → ℕ };

    fn of_number(n: u8) -> Self
        ensures { result ≡ numbered n };

    fn number(self) -> u8
        ensures { result ≡ number self };

    // A value made of a number has that number.
    ghost same_number: { (n : ℕ) → number (numbered n) ≡ n };
}
