//! Rows are known by numbers.
ghost use Rattle.std.specs.Prelude.{◌≡◌, ℕ};

/// A type of numbers: as small as it is, an index of rows keeps one for each row.
pub trait Number: Copy + Drop {
    ghost value: { Self → ℕ };

    fn value(self) -> u64
        ensures { result ≡ value self };
}

impl Number for u32 {
    ghost value = { λ number. number };

    fn value(self) -> u64 {
        self as u64
    }
}

impl Number for u64 {
    ghost value = { λ number. number };

    fn value(self) -> u64 {
        self
    }
}

/// A row that is known by a number at its place.
pub trait Numbered {
    type Number: Number;

    ghost number: { Self → ℕ };

    fn number(&self) -> Self::Number
        ensures { Self.Number.value result ≡ number self.now };
}
