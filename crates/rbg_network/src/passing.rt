//! Which bytes of a player are passed on.
ghost use Rattle.std.specs.Prelude.{◌≡◌, ◌≤◌, length, take, drop, ◌++◌, [], ◌∷◌, if◌then◌else◌};
ghost use Rattle.rbg_network.specs.Passing.{passed, begun_after};

/// How many bytes of a message are passed on: one more than a message may have, so that a longer one is refused.
const PASSED: usize = 4_097;

/// What is passed on of a stream: all of it, but of a message that is too long the first bytes and the zero byte alone,
/// since no others matter. So a player that sends without an end fills no log.
#[derive(Drop)]
pub(crate) struct Passing {
    /// How many bytes of the message at hand were passed on.
    begun: usize,
}

impl Passing {
    /// Nothing has come yet.
    pub(crate) fn new() -> Passing
        ensures { result.begun ≡ 0 }
    {
        Passing { begun: 0 }
    }

    /// Takes the first bytes of the buffer, so many of them, as the next ones of the stream. Those that are passed on
    /// stand at its start then. Returns how many they are.
    pub(crate) fn pass(&mut self, buffer: &mut [u8], count: usize) -> usize
        requires { count ≤ length buffer.old }
        ensures result { result ≡ length (passed self.old.begun (take count buffer.old)) }
        ensures buffer { buffer.new
            ≡ passed self.old.begun (take count buffer.old) ++ drop result buffer.old }
        ensures begun { self.new.begun ≡ begun_after self.old.begun (take count buffer.old) }
    {
        let mut kept = 0;
        for index in 0..count {
            let byte = buffer[index];
            if self.takes(byte) {
                buffer[kept] = byte;
                kept += 1;
            }
        }
        kept
    }

    /// Whether the next byte is passed on.
    fn takes(&mut self, byte: u8) -> bool
        ensures passed { passed self.old.begun (byte ∷ []) ≡ if result then byte ∷ [] else [] }
        ensures begun { self.new.begun ≡ begun_after self.old.begun (byte ∷ []) }
    {
        if byte == 0 {
            self.begun = 0;
            return true;
        }
        let short = self.begun < PASSED;
        if short {
            self.begun += 1;
        }
        short
    }
}
