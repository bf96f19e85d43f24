//! How a player of this process chooses its moves.
ghost use Rattle.std.specs.Prelude.{◌<◌};

use rand_core::Rng;
use rand_pcg::Pcg32;
use rbg_player::Chooser;

/// How a player of this process chooses its moves.
#[derive(Drop)]
pub enum SeatChooser {
    /// The first of them.
    First,
    /// By chance.
    Random(Pcg32),
}

impl SeatChooser {
    /// How the player of a seat chooses: by chance, if there is a seed for it. A seed gives each seat other numbers.
    pub fn of_seat(seed: Option<u64>, seat: u64) -> SeatChooser {
        match seed {
            Some(seed) => SeatChooser::Random(Pcg32::new(seed, seat)),
            None => SeatChooser::First,
        }
    }
}

impl Chooser for SeatChooser {
    fn choose(&mut self, n: usize) -> usize {
        match self {
            SeatChooser::First => 0,
            SeatChooser::Random(chance) => below(n, chance),
        }
    }
}

/// A number below another one, by chance.
fn below(n: usize, chance: &mut Pcg32) -> usize
    requires { 0 < n }
    ensures { result < n }
{
    (chance.next_u64() % n as u64) as usize
}
