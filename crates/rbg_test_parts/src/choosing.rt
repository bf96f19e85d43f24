//! A player that receives its stream byte by byte sends the move that its chooser chooses. It is proved that the move
//! is legal, and that each error is returned again. Cases of rbg_cases have what a player sends after a whole piece.
ghost use Rattle.std.specs.Prelude.{◌<◌};

use rbg_player::{Chooser, Heard, MAX_CHOICES, Player};
use std::alloc::Global;

/// The stream of white up to its turn, in a game in which it has 70 moves. The least one, with the off, is found last.
/// The macros repeat their argument nine times, and six times ten times.
const STREAM: &[u8] = b"W1 white\0G#players = white(100), black(100)
#pieces = e, w
#board = rectangle(up,down,left,right,[e])
#nine(x) = x x x x x x x x x
#sixty(x) = six(x) six(x) six(x) six(x) six(x) six(x) six(x) six(x) six(x) six(x)
#six(x) = x x x x x x
#rules = ->white ([w] ->black sixty(+ ->black) nine(+ ->black)) {}
\0L1000 3\0M0 1\0";

/// Which move is chosen, and what white sends. The moves are those of the 64 that are found first, in order of their
/// pairs.
const CHOICES: [(usize, &[u8]); 4] = [
    (0, b"M0 4\0"),
    (40, b"M0 44\0"),
    (63, b"M0 67\0"),
    (64, b"M0 67\0"),
];

/// Chooses the move of a number, and keeps how many it had to choose from.
#[derive(Drop)]
struct Nth {
    chosen: usize,
    choices: usize,
}

impl Chooser for Nth {
    fn choose(&mut self, n: usize) -> usize
        requires { 0 < n }
        ensures { result < n }
    {
        self.choices = n;
        self.chosen.min(n - 1)
    }
}

/// Whether play continues after each byte of the stream, for a new player. What it sends is appended to `said`.
fn goes_on(alloc: Global, chooser: &mut Nth, said: &mut Vec<u8>) -> bool {
    let mut player = Player::new(alloc);
    let mut going = true;
    for byte in STREAM {
        let heard = player.hear(&[*byte], chooser, said);
        going = going && matches!(heard, Ok(Heard::Going));
    }
    going
}

/// Whether white sends this if the move of a number is chosen, out of the maximum number of choices.
fn is_said(alloc: Global, chosen: usize, says: &[u8]) -> bool {
    let mut chooser = Nth { chosen, choices: 0 };
    let mut said = Vec::new(alloc);
    let going = goes_on(alloc, &mut chooser, &mut said);
    going && said.as_slice() == says && chooser.choices == MAX_CHOICES
}

#[test]
fn the_chosen_move_is_said(rt: HostRuntime) {
    for choice in &CHOICES {
        let (chosen, says) = *choice;
        assert!(rt; is_said(rt.alloc(), chosen, says), "at {chosen}");
    }
}
