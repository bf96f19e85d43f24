//! How a player chooses among its legal moves.
ghost use Rattle.std.specs.Prelude.{◌≡◌, ◌<◌};

/// Chooses among legal moves.
pub trait Chooser {
    /// Chooses one of `n` moves, which are counted from 0. There is at least one.
    fn choose(&mut self, n: usize) -> usize
        requires { 0 < n }
        ensures { result < n };
}

/// Chooses the first move.
#[derive(Clone, Copy)]
pub struct FirstChooser;

impl Chooser for FirstChooser {
    fn choose(&mut self, _n: usize) -> usize
        requires { 0 < _n }
        ensures below { result < _n }
        ensures first { result ≡ 0 }
    {
        0
    }
}
