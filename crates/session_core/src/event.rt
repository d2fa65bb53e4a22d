// Steps.
ghost use Rattle.std.specs.Prelude.{◌≡◌, false, true};

use key_words::Key;

/// What a step takes: a key, or the next unit of a running macro.
#[derive(Clone, Copy)]
pub enum Event {
    Key(Key),
    Unit,
}

/// What a step answers.
#[derive(Clone, Copy)]
pub enum Stepped {
    /// The step was made.
    More,
    /// The step was made, and ends the run.
    Quit,
    /// Memory ran out; the session is spent.
    Memory,
}

impl Stepped {
    // What a step answers that was made, where it ends the run or doesn't.
    pub(crate) fn of(ends: bool) -> Stepped
        ensures more { result ≡ Stepped.More → ends ≡ false }
        ensures quit { result ≡ Stepped.Quit → ends ≡ true }
        ensures goes_on { ends ≡ false → result ≡ Stepped.More }
        ensures made { result ≡ Stepped.Memory → ⊥ }
    {
        if ends { Stepped::Quit } else { Stepped::More }
    }
}
