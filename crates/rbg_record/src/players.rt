//! The line of the players.
ghost use Rattle.std.specs.Prelude.{◌≡◌, ◌++◌, ◌-◌, ◌<◌, ◌≤◌, OnOk, Some, codes, length, slice_get};
ghost use Rattle.std.specs.List.{flat_map};
ghost use Rattle.rbg_wire.specs.Lines.{line_of};
ghost use Rattle.rbg_rules.specs.Meaning.{IsGame, AbstractGame};
ghost use Rattle.rbg_record.specs.Heading.{players_text};

use crate::heading_writer::{begin_players, end_line, write_player};
use rbg_base::Memory;
use rbg_match::Match;
use rbg_rules::Game;

/// What has the players of a game: the game itself, or a match of it.
pub(crate) trait HasPlayers {
    /// The game.
    ghost game: { Self → AbstractGame };

    /// How many players there are. They are numbered from 1.
    fn count(&self) -> usize
        ensures count { result ≡ length (game self.now).players }
        ensures lawful { IsGame (game self.now) };

    /// The name of a player.
    fn name(&self, player: u16) -> &str
        requires from_one { 0 < player }
        requires there { player ≤ length (game self.now).players }
        ensures { slice_get (game self.now).players (player - 1) ≡ Some result.now };
}

impl HasPlayers for Game {
    ghost game = { λ game. game };

    fn count(&self) -> usize {
        self.players()
    }

    fn name(&self, player: u16) -> &str {
        self.player_name(player)
    }
}

impl HasPlayers for Match {
    ghost game = { λ played. played.game };

    fn count(&self) -> usize {
        self.players()
    }

    fn name(&self, player: u16) -> &str {
        self.player_name(player)
    }
}

/// Appends the line of the players.
pub(crate) fn write_players<G: HasPlayers>(game: &G, out: &mut Vec<u8>) -> Result<(), Memory>
    ensures { OnOk result
        (out.new.items ≡ out.old.items ++ line_of (players_text (G.game game.now).players)) }
{
    begin_players(out)?;
    write_names(game, out)?;
    end_line(out)
}

/// Appends the players' names, with a space before each.
fn write_names<G: HasPlayers>(game: &G, out: &mut Vec<u8>) -> Result<(), Memory>
    ensures { OnOk result
        (out.new.items ≡ out.old.items
        ++ flat_map (λ name. codes " " ++ name) (G.game game.now).players) }
{
    for index in 0..game.count() {
        write_player(game.name(index as u16 + 1).as_bytes(), out)?;
    }
    Ok(())
}
