//! Clocks.
ghost use Rattle.std.specs.Prelude.{ℕ, List, [], ◌∷◌, ◌++◌};

/// What a clock waits for.
#[derive(Clone, Copy)]
pub enum Pause {
    /// What is served goes on. At the moment `due`, if there is one, its time is over for somebody.
    Playing { due: Option<u64> },
    /// What is served is over, and a line has not taken all that is queued for it.
    Ending,
}

/// A clock.
pub trait Clock {
    /// Whether these may be all the moments that the clock has told so far. A clock that keeps no record may have told
    /// any: `λ _ _. Unit {0}`.
    ghost told: { Self → List ℕ → Type 0 };

    /// The moment, in milliseconds. It may stand still between two waits.
    fn now(&mut self) -> u64
        ensures { (so_far : List ℕ) → told self.old so_far
            → told self.new (so_far ++ result ∷ []) };

    /// Waits until a line may have something to say, or may take what it didn't take before, but not for long: at most
    /// until the due moment and at most a second. A clock over memory returns at once.
    fn wait(&mut self, pause: Pause)
        ensures { (so_far : List ℕ) → told self.old so_far → told self.new so_far };
}
