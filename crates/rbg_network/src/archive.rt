//! Archives: where the records of matches are kept.
ghost use Rattle.std.specs.Prelude.{◌≡◌, List, [], ◌∷◌, ◌++◌, Bool};
ghost use Rattle.rbg_network.specs.Archives.{Handed, handed_as, lost};

use std::io;

/// Where the records of matches are kept. Matches are numbered from 1.
pub trait Archive: Drop {
    /// Whether this may be all that the archive was handed so far, in order. One that keeps no account, as one in files of
    /// the system, may have been handed anything: `λ _ _. Unit {0}`.
    ghost handed: { Self → List Handed → Type 0 };

    /// Whether records are wanted.
    ghost wants: { Self → Bool };

    /// Whether records are wanted. If not, none has to be written for it.
    fn wants_records(&self) -> bool
        ensures { result ≡ wants self.now };

    /// Makes ready for the record of the match of this number. A record of that number that is there already is an error,
    /// unless the match goes on. What fails is reported at once.
    fn begin(&mut self, number: u64, goes_on: bool) -> io::Result<()>
        ensures handed { (so_far : List Handed) → handed self.old so_far → handed self.new so_far }
        ensures wants { wants self.new ≡ wants self.old };

    /// Keeps the record of the match of this number: it is there whole then, or isn't there. Where there is one of that
    /// number, it isn't kept, unless it is the same. Returns whether it is kept; if not, that is reported at once.
    fn keep(&mut self, number: u64, bytes: &[u8]) -> bool
        ensures { (so_far : List Handed) → handed self.old so_far
            → handed self.new (so_far ++ handed_as number bytes.now result ∷ []) };

    /// Reports at once that there was no memory for the record of the match of this number.
    fn lose(&mut self, number: u64)
        ensures { (so_far : List Handed) → handed self.old so_far
            → handed self.new (so_far ++ lost number ∷ []) };
}

/// Where there is no archive, no record is wanted.
impl<A: Archive> Archive for Option<A> {
    ghost use Rattle.std.specs.Prelude.{IfSome, is_some};

    ghost handed = { λ archive so_far. IfSome archive (λ one. A.handed one so_far) };

    ghost wants = { λ archive. is_some archive };

    fn wants_records(&self) -> bool {
        self.is_some()
    }

    fn begin(&mut self, number: u64, goes_on: bool) -> io::Result<()> {
        match self {
            Some(archive) => archive.begin(number, goes_on),
            None => Ok(()),
        }
    }

    fn keep(&mut self, number: u64, bytes: &[u8]) -> bool {
        match self {
            Some(archive) => archive.keep(number, bytes),
            None => true,
        }
    }

    fn lose(&mut self, number: u64) {
        if let Some(archive) = self {
            archive.lose(number);
        }
    }
}
