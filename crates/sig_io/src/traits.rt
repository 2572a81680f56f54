// A source and a sink, by the bytes that they tell and the counts of their faults.
ghost use Rattle.std.specs.Prelude.{◌≡◌, ◌<◌, List, ℕ, length, IfOk};
ghost use Rattle.std.specs.declared.option.Option.{Option};
ghost use Rattle.std.specs.Io.{ReadsAtMost, WritesAtMost};
ghost use Rattle.std.specs.Io.KnownBytes.{ReadConsumes, WriteAppends};
ghost use Rattle.sig_io.specs.Counts.{Gives, HasCause};

use sig_base::Failed;

/// Where bytes come from.
pub trait Source {
    /// The bytes still to come, where it tells them.
    ghost left: { Self → Option (List ℕ) };

    /// How many bytes it has given, up to the last value of a u64.
    ghost given: { Self → ℕ };

    /// How often it has failed, up to the last value of a u64.
    ghost faults: { Self → ℕ };

    /// Puts the next bytes at the front of the buffer and answers how many these are: none only at the
    /// end, or where the buffer has no room. After `Failed` the bytes still to come are as before.
    fn take(&mut self, buf: &mut [u8]) -> Result<usize, Failed>
        ensures bound { ReadsAtMost result buf.new }
        ensures bytes { ReadConsumes (left self.old) (left self.new) result buf.new }
        ensures count { Gives (given self.old) (given self.new) result }
        ensures cause { HasCause (faults self.old) (faults self.new) result };
}

/// Where bytes go.
pub trait Sink {
    /// The bytes taken so far, where it tells them.
    ghost held: { Self → Option (List ℕ) };

    /// How often it has failed, up to the last value of a u64.
    ghost faults: { Self → ℕ };

    /// Takes a front of the piece and answers its length, at least one byte where there is one.
    /// After `Failed` the bytes taken so far are as before.
    fn put(&mut self, piece: &[u8]) -> Result<usize, Failed>
        ensures bound { WritesAtMost result piece.now }
        ensures some { IfOk result (λ n. 0 < length piece.now → 0 < n) }
        ensures bytes { WriteAppends (held self.old) (held self.new) result piece.now }
        ensures cause { HasCause (faults self.old) (faults self.new) result };
}
