//! The command line: the words of each command, and how help tells of them.

use clap::Command;
use rbg_console::{Argument, CommandWords, GAME, Kind, RECORD, Value, add_commands};
use std::alloc::{AllocError, Global};

const GAMES: Argument = Argument {
    name: "FILE",
    kind: Kind::Several,
    value: Value::Text,
    help: "The descriptions of 1 to 16 games, one for each match",
};

const PORT: Argument = Argument {
    name: "port",
    kind: Kind::NeededNamed("PORT"),
    value: Value::Port,
    help: "The port, 1 to 65535",
};

const WAIT: Argument = Argument {
    name: "wait",
    kind: Kind::Named("SECONDS", None),
    value: Value::Number(0, u32::MAX),
    help: "Give up unless all players connect within SECONDS, 0 to 4294967295 [default: no limit]",
};

const QUIET: Argument = Argument {
    name: "quiet",
    kind: Kind::Flag(None),
    value: Value::Text,
    help: "No news of the players and the match on standard error",
};

const SYNC: Argument = Argument {
    name: "sync",
    kind: Kind::Flag(None),
    value: Value::Text,
    help: "Flush the log to disk before each event is handled",
};

const RECORDS: Argument = Argument {
    name: "records",
    kind: Kind::Named("DIR", None),
    value: Value::Text,
    help: "A folder for the record of each match, DIR/1.record and so on, written when the match has ended",
};

const TURN: Argument = Argument {
    name: "turn",
    kind: Kind::Named("MS", None),
    value: Value::Number(1, 3_600_000),
    help: "The time for a turn in milliseconds, 1 to 3600000 [default: 60000]",
};

const REFUSALS: Argument = Argument {
    name: "refusals",
    kind: Kind::Named("COUNT", None),
    value: Value::Small(0, 100),
    help: "How many refusals a player is allowed, 0 to 100 [default: 3]",
};

const ROUNDS: Argument = Argument {
    name: "rounds",
    kind: Kind::Named("COUNT", None),
    value: Value::Number(0, u32::MAX),
    help: "The most rounds in which the connections are read, 0 to 4294967295 [default: 100000]",
};

const MINUTES: Argument = Argument {
    name: "minutes",
    kind: Kind::Named("MINUTES", None),
    value: Value::Number(1, u32::MAX),
    help: "How long the match may take, 1 to 4294967295, in place of a bound on rounds",
};

const CHECK: CommandWords = CommandWords {
    name: "check",
    about: "Check a description: print its counts, or its first error (rbg_author explain shows where)",
    example: "Example: rbg check game.rbg",
    arguments: &[GAME],
};

const MOVES: CommandWords = CommandWords {
    name: "moves",
    about: "Print the keeper's first moves, and the legal moves after them or after a record",
    example: "Example: rbg moves game.rbg",
    arguments: &[
        GAME,
        Argument {
            name: "RECORD",
            kind: Kind::Free,
            value: Value::Text,
            help: "A record: the legal moves after its moves are printed",
        },
    ],
};

const ASK: CommandWords = CommandWords {
    name: "ask",
    about: "Answer questions about a game, one on each line of standard input",
    example: "Example: echo moves | rbg ask game.rbg

Questions:
  moves [MAX]          the legal moves, by their pairs
  make PAIRS           makes a move, and the keeper's moves after it
  back [N]             undoes the last move, or the last N
  heard PAIRS          makes a move that the referee of a match sends
  place                who is to move, or the scores
  board, values        the piece on each vertex, the value of each variable
  key, state           a number that tells places apart; all of these in one
  pack, unpack DIGITS  the place as digits; stands at the place of such digits
  names, shape         the names of the game; its bounds, directions, edges and actions
  random SEED MATCHES  plays random matches, and counts their endings
  search SEED MATCHES  plays them after each legal move
  sample SEED MOVES    plays one, and prints its moves
  quit                 ends",
    arguments: &[GAME],
};

const REFEREE: CommandWords = CommandWords {
    name: "referee",
    about: "Referee the match whose script is on standard input, and print what each seat is sent",
    example: "Example: rbg referee game.rbg < script",
    arguments: &[
        Argument {
            name: "FILE",
            kind: Kind::Free,
            value: Value::Text,
            help: "The description of a game; without it standard input holds the description, a line `%%` and the script",
        },
        Argument {
            name: "record",
            kind: Kind::Named("RECORD", None),
            value: Value::Text,
            help: "A new file for the match's record",
        },
        Argument {
            name: "cut",
            kind: Kind::Flag(Some("record")),
            value: Value::Text,
            help: "Leave out a last line of the script that has no line feed",
        },
    ],
};

const REPLAY: CommandWords = CommandWords {
    name: "replay",
    about: "Check that a record is a legal match of the game",
    example: "Example: rbg replay game.rbg record",
    arguments: &[GAME, RECORD],
};

const MIGRATE: CommandWords = CommandWords {
    name: "migrate",
    about: "Print a record of version 1 as one of version 2",
    example: "Example: rbg migrate game.rbg record > new.record",
    arguments: &[
        GAME,
        Argument {
            name: "RECORD",
            kind: Kind::Needed,
            value: Value::Text,
            help: "The record of version 1",
        },
    ],
};

const SCRIPT: CommandWords = CommandWords {
    name: "script",
    about: "Turn a record into a script that replays it",
    example: "Example: rbg script record | rbg referee game.rbg",
    arguments: &[Argument {
        name: "RECORD",
        kind: Kind::Needed,
        value: Value::Text,
        help: "A record of a match, of either version",
    }],
};

const DEMO: CommandWords = CommandWords {
    name: "demo",
    about: "Referee a match between players of its own, and print its record",
    example: "Example: rbg demo game.rbg > record",
    arguments: &[
        GAME,
        Argument {
            name: "random",
            kind: Kind::Named("SEED", None),
            value: Value::AnyNumber,
            help: "Choose each move at random; a SEED, 0 to 18446744073709551615, always gives the same match",
        },
        TURN,
        REFUSALS,
        ROUNDS,
    ],
};

const SERVE: CommandWords = CommandWords {
    name: "serve",
    about: "Referee a match between the players that connect to a port, and print its record",
    example: "Example: rbg serve game.rbg --port 4000 --minutes 60 > record",
    arguments: &[
        GAME,
        Argument {
            name: "log",
            kind: Kind::Named("LOG", Some("resume")),
            value: Value::Text,
            help: "A new file for the events of the match, each written before it is handled; LOG.game beside it names the game",
        },
        Argument {
            name: "resume",
            kind: Kind::Named("LOG", None),
            value: Value::Text,
            help: "The log of a stopped match to go on with; its time for a turn and its refusals hold",
        },
        SYNC,
        RECORDS,
        MINUTES,
        Argument {
            name: "names",
            kind: Kind::Named("NAMES", None),
            value: Value::Text,
            help: "Who sits where, seat 1 first, separated by commas: printed on standard error, and written to LOG.game",
        },
        PORT,
        WAIT,
        QUIET,
        TURN,
        REFUSALS,
        ROUNDS,
    ],
};

const PLAY: CommandWords = CommandWords {
    name: "play",
    about: "Play in a match that is served at a port, by first legal moves, and print the last message",
    example: "Example: rbg play --port 4000",
    arguments: &[
        PORT,
        Argument {
            name: "match",
            kind: Kind::Named("MATCH", None),
            value: Value::Number(1, u32::MAX),
            help: "The match of a hall to join, 1 to 4294967295",
        },
        MINUTES,
        ROUNDS,
    ],
};

const HALL: CommandWords = CommandWords {
    name: "hall",
    about: "Referee a match of each game at once between the players that connect to a port, and print the records",
    example: "Example: rbg hall one.rbg two.rbg --port 4000",
    arguments: &[
        GAMES,
        Argument {
            name: "log",
            kind: Kind::Named("LOG", Some("resume")),
            value: Value::Text,
            help: "A new file for the events of each match, LOG.1 and so on, each written before it is handled; LOG.1.game and so on name the games",
        },
        Argument {
            name: "resume",
            kind: Kind::Named("LOG", None),
            value: Value::Text,
            help: "The logs of a stopped hall to go on with, LOG.1 and so on; their time for a turn and their refusals hold",
        },
        SYNC,
        RECORDS,
        MINUTES,
        Argument {
            name: "names",
            kind: Kind::Named("NAMES", None),
            value: Value::Text,
            help: "Who sits where, as for `serve`, with a semicolon between two matches: printed on standard error, and written to LOG.1.game and so on",
        },
        PORT,
        WAIT,
        QUIET,
        TURN,
        REFUSALS,
        ROUNDS,
    ],
};

const HALL_SCRIPT: CommandWords = CommandWords {
    name: "hallscript",
    about: "Run a hall on the script on standard input, and print the messages to each connection",
    example: "Example: rbg hallscript one.rbg two.rbg < script",
    arguments: &[GAMES],
};

/// The commands, in the order in which help lists them.
const COMMANDS: &[CommandWords] = &[
    CHECK,
    MOVES,
    ASK,
    REFEREE,
    REPLAY,
    MIGRATE,
    SCRIPT,
    DEMO,
    SERVE,
    PLAY,
    HALL,
    HALL_SCRIPT,
];

/// The program's command line.
pub fn rbg_command<'a>(alloc: Global) -> Result<Command<'a>, AllocError> {
    let program = Command::new(alloc, "rbg")
        .version("1.0.0")
        .about("A referee for games of Regular Boardgames")
        .after_help(
            "Without a command it does what `referee` does without FILE. The program rbg_author helps to write games.
The help of each command has an example: rbg serve --help",
        );
    add_commands(alloc, program, COMMANDS)
}
