// Where text goes.
ghost use Rattle.std.specs.Prelude.{ℕ, List};
ghost use Rattle.formula_text.specs.inner.Puts.{Puts, at_once};

/// Where text goes, piece by piece.
pub trait Sink {
    /// What it may be when a piece was put behind what it had.
    ghost has_put: { Self → List ℕ → Self → Type 0 };

    /// Puts a piece behind what it has.
    fn put(&mut self, bytes: &[u8])
        ensures { has_put self.old bytes.now self.new };
}

// Puts a text in one piece.
pub fn put<S: Sink>(out: &mut S, bytes: &[u8])
    ensures { Puts S.has_put out.old bytes.now out.new }
{
    out.put(bytes);
}
