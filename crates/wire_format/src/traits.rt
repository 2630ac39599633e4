//! Sources and sinks of bytes.
ghost use Rattle.std.specs.Prelude.{◌≡◌, ℕ, List, Option, Bool, IsOk, true, false};
ghost use Rattle.std.specs.Io.{ReadsAtMost, WritesAtMost};
ghost use Rattle.std.specs.Io.KnownBytes.{ReadConsumes, WriteAppends};
ghost use Rattle.wire_format.specs.Counts.{CountsCalls, CountsErrors, CountsGiven, CountsWrite};

/// The answer of a source or a sink whose device failed.
#[derive(Clone, Copy, PartialEq, Eq)]
pub struct Failed;

/// Where bytes come from.
pub trait Source {
    // The bytes that it still has to give, where they are known.
    ghost left: { Self → Option (List ℕ) };

    // How often it was asked for bytes.
    ghost calls: { Self → ℕ };

    // How often it gave bytes.
    ghost gave: { Self → ℕ };

    // How often it failed.
    ghost failures: { Self → ℕ };

    // Whether it is known that none of its reads fails.
    ghost infallible: { Self → Bool } = { λ _. false };

    /// Puts the next bytes at the front of `buffer`, and answers how many it put there.
    ///
    /// A source may give fewer bytes than there is room for. It gives none only at its end, or where
    /// there is no room, as far as its bytes are known.
    ///
    /// # Errors
    ///
    /// `Failed` where the device failed. Of known bytes none is lost then: a further read gives those
    /// that this one would have given.
    fn read(&mut self, buffer: &mut [u8]) -> Result<usize, Failed>
        ensures bound { ReadsAtMost result buffer.new }
        ensures bytes { ReadConsumes (left self.old) (left self.new) result buffer.new }
        ensures asked { CountsCalls 1 (calls self.old) (calls self.new) }
        ensures gave { CountsGiven (gave self.old) (gave self.new) result }
        ensures counted { CountsErrors (failures self.old) (failures self.new) result }
        ensures sure { infallible self.old ≡ true → IsOk result × (infallible self.new ≡ true) };
}

/// Where bytes go.
pub trait Sink {
    // The bytes that it has taken, where they are known.
    ghost held: { Self → Option (List ℕ) };

    // How often it failed.
    ghost failures: { Self → ℕ };

    /// Takes bytes from the front of `buffer`, and answers how many it took.
    ///
    /// A sink may take fewer bytes than it is given. To take none of some bytes is a failure, and
    /// counts as one.
    ///
    /// # Errors
    ///
    /// `Failed` where the device failed. It took nothing then, as far as its bytes are known.
    fn write(&mut self, buffer: &[u8]) -> Result<usize, Failed>
        ensures bound { WritesAtMost result buffer.now }
        ensures bytes { WriteAppends (held self.old) (held self.new) result buffer.now }
        ensures counted { CountsWrite (failures self.old) (failures self.new) result buffer.now };
}
