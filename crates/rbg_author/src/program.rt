//! What the author's program does with its words and the file that they name.
ghost use Rattle.rbg_questions.specs.Limits.{IsCount};

use crate::board::board_file;
use crate::explain::{Lists, check_file, explain_file};
use crate::game_files::{Read, read_game};
use crate::import::import_file;
use crate::lsp::serve_editor;
use crate::moves::moves_file;
use crate::page::page_file;
use crate::perft::{Counted, perft};
use crate::play::no_network;
use crate::playouts::{Wanted, playouts_file};
use crate::position::position_file;
use crate::report::{Report, print};
use crate::show::{Shown, show_file};
use clap::{ArgMatches, Command};
use rbg_console::{
    Argument, CommandWords, Files, GAME, Kind, Status, Value, WordsError, add_commands, match_words,
};
use rbg_questions::{Extent, MAX_COUNT};
use std::alloc::{AllocError, Global};
use std::io::{self, Write};

/// The depth of `perft` where its words name none.
const USUAL_DEPTH: u8 = 3;

/// The seed of `playouts` where its words name none.
const USUAL_SEED: u64 = 1;

/// Runs the program: reads the file that its words name, and its input where they ask for it, writes what is said, and
/// returns the status.
pub fn run<F: Files, R: io::Read, W: Write>(
    alloc: Global,
    words: &[String],
    files: &mut F,
    input: &mut R,
    output: &mut W,
) -> Status {
    let outcome = obey(alloc, words, files, input, output);
    print(files, output, &outcome)
}

/// Does what the words say. What is returned is still to be written.
fn obey<F: Files, R: io::Read, W: Write>(
    alloc: Global,
    words: &[String],
    files: &mut F,
    input: &mut R,
    output: &mut W,
) -> Result<Report, WordsError> {
    let matches = match_words(alloc, author_command(alloc)?, words)?;
    Ok(answer(alloc, &matches, files, input, output)?)
}

/// Does what a command asks for.
fn answer<F: Files, R: io::Read, W: Write>(
    alloc: Global,
    matches: &ArgMatches<'_>,
    files: &mut F,
    input: &mut R,
    output: &mut W,
) -> Result<Report, AllocError> {
    // the parse refuses words without a command and its file
    match matches.subcommand() {
        Some(("perft", words)) => perft_of(alloc, words, files, output),
        Some(("playouts", words)) => playouts_of(alloc, words, files),
        Some(("check" | "lint", words)) => {
            let strict = words.get_flag("strict");
            check_file(alloc, files, input, file_of(words), strict)
        }
        Some(("lsp", _)) => serve_editor(alloc, files, input, output),
        Some(("import", words)) => import_file(alloc, files, input, file_of(words)),
        Some(("board", words)) => board_file(alloc, files, input, file_of(words)),
        // (the program serves it before it comes here)
        Some(("play", _)) => no_network(alloc),
        Some(("explain", words)) => explain_of(alloc, words, files, input),
        Some((command, words)) => answer_of_moves(alloc, command, words, files, input),
        None => check_file(alloc, files, input, "", false),
    }
}

/// Does what a command asks for that reads a record or a list of moves.
fn answer_of_moves<F: Files, R: io::Read>(
    alloc: Global,
    command: &str,
    words: &ArgMatches<'_>,
    files: &mut F,
    input: &mut R,
) -> Result<Report, AllocError> {
    let file = file_of(words);
    let record = words.get_str("RECORD");
    match command {
        "show" => {
            let only_last = words.get_flag("last");
            show_file(alloc, files, file, Shown { record, only_last }, input)
        }
        "page" => page_file(alloc, files, file, record, input),
        "moves" => moves_file(alloc, files, file, record, input),
        _ => position_file(alloc, files, file, record, input),
    }
}

/// Plays matches as the words of `playouts` say.
fn playouts_of<F: Files>(
    alloc: Global,
    words: &ArgMatches<'_>,
    files: &mut F,
) -> Result<Report, AllocError> {
    let wanted = Wanted {
        seed: words.get_one::<u64>("seed").unwrap_or(USUAL_SEED),
        count: count_of(words),
        records: words.get_str("record"),
    };
    playouts_file(alloc, files, file_of(words), wanted)
}

/// Explains what the words of `explain` say.
fn explain_of<F: Files, R: io::Read>(
    alloc: Global,
    words: &ArgMatches<'_>,
    files: &mut F,
    input: &mut R,
) -> Result<Report, AllocError> {
    let lists = Lists {
        vertices: words.get_flag("vertices"),
        positions: words.get_flag("positions"),
        is_for_tools: words.get_flag("json"),
    };
    explain_file(alloc, files, input, file_of(words), lists)
}

/// Counts as the words of `perft` say.
fn perft_of<F: Files, W: Write>(
    alloc: Global,
    words: &ArgMatches<'_>,
    files: &mut F,
    output: &mut W,
) -> Result<Report, AllocError> {
    let depth = words.get_one::<u8>("DEPTH").unwrap_or(USUAL_DEPTH);
    let extent = if words.get_flag("count") {
        Extent::Moves
    } else {
        Extent::Ends
    };
    perft_file(
        alloc,
        files,
        file_of(words),
        Counted { depth, extent },
        output,
    )
}

/// The file that words name.
pub(crate) fn file_of<'a>(words: &ArgMatches<'a>) -> &'a str {
    words.get_str("FILE").unwrap_or("")
}

/// How many matches words ask for.
fn count_of(words: &ArgMatches<'_>) -> u64
    ensures { IsCount result }
{
    match words.get_one::<u64>("MATCHES") {
        Some(count) if 0 < count && count <= MAX_COUNT => count,
        // the parse refuses other words
        _ => 1,
    }
}

/// The file of a game, or the standard input.
const GAME_OR_INPUT: Argument = Argument {
    name: "FILE",
    kind: Kind::Needed,
    value: Value::Text,
    help: "The description of a game, `-` for standard input",
};

/// The file of a record, or the standard input.
const RECORD_OR_INPUT: Argument = Argument {
    name: "RECORD",
    kind: Kind::Needed,
    value: Value::Text,
    help: "The record of a match, `-` for standard input",
};

/// The file of moves, or the standard input.
const MOVES_OR_INPUT: Argument = Argument {
    name: "RECORD",
    kind: Kind::Free,
    value: Value::Text,
    help: "A record, a script or a list of moves as pairs [default: standard input]",
};

/// The arguments of `check`.
const CHECK: &[Argument] = &[
    GAME_OR_INPUT,
    Argument {
        name: "strict",
        kind: Kind::Flag(None),
        value: Value::Text,
        help: "End with status 2 if there are warnings",
    },
];

/// The commands, in the order in which help lists them.
const COMMANDS: &[CommandWords] = &[
    CommandWords {
        name: "explain",
        about: "Explain why a description is refused and where, or list what its game has",
        example: "Example: rbg_author explain game.rbg --positions",
        arguments: &[
            GAME_OR_INPUT,
            Argument {
                name: "vertices",
                kind: Kind::Flag(None),
                value: Value::Text,
                help: "List each vertex too",
            },
            Argument {
                name: "positions",
                kind: Kind::Flag(None),
                value: Value::Text,
                help: "List each position too, with its place and its action",
            },
            Argument {
                name: "json",
                kind: Kind::Flag(None),
                value: Value::Text,
                help: "List the faults or the warnings as JSON",
            },
        ],
    },
    CommandWords {
        name: "lint",
        about: "Warn about likely mistakes in a description",
        example: "Example: rbg_author lint game.rbg",
        arguments: CHECK,
    },
    CommandWords {
        name: "check",
        about: "The old word for lint",
        example: "Example: rbg_author check game.rbg",
        arguments: CHECK,
    },
    CommandWords {
        name: "perft",
        about: "Count move sequences: a line DEPTH SEQUENCES ENDED for each depth from 1 on",
        example: "Example: rbg_author perft game.rbg 4",
        arguments: &[
            GAME,
            Argument {
                name: "DEPTH",
                kind: Kind::Free,
                value: Value::Byte(1, 20),
                help: "The most moves, 1 to 20 [default: 3]",
            },
            Argument {
                name: "count",
                kind: Kind::Flag(None),
                value: Value::Text,
                help: "List the last moves without making them, which is faster: the lines are DEPTH SEQUENCES",
            },
        ],
    },
    CommandWords {
        name: "playouts",
        about: "Play random matches: print their length, mean scores and endings",
        example: "Example: rbg_author playouts game.rbg 1000",
        arguments: &[
            GAME,
            Argument {
                name: "MATCHES",
                kind: Kind::Needed,
                value: Value::Number(1, 1_000_000),
                help: "How many matches, 1 to 1000000",
            },
            Argument {
                name: "seed",
                kind: Kind::Named("SEED", None),
                value: Value::AnyNumber,
                help: "The seed of the first match, 0 to 18446744073709551615; each other one has the next [default: 1]",
            },
            Argument {
                name: "record",
                kind: Kind::Named("DIR", None),
                value: Value::Text,
                help: "A folder that is there, for a record of one match of each way of ending, DIR/seed-SEED.record",
            },
        ],
    },
    CommandWords {
        name: "moves",
        about: "List the legal moves by what they change, first moves or those after a record",
        example: "Example: rbg_author moves game.rbg",
        arguments: &[
            GAME,
            Argument {
                name: "RECORD",
                kind: Kind::Free,
                value: Value::Text,
                help: "A record of a match, `-` for standard input",
            },
        ],
    },
    CommandWords {
        name: "show",
        about: "Show the moves of a record, a script or a list, each with the board after it",
        example: "Example: rbg_author show game.rbg record",
        arguments: &[
            GAME,
            MOVES_OR_INPUT,
            Argument {
                name: "last",
                kind: Kind::Flag(None),
                value: Value::Text,
                help: "Show only the last move and the board after it",
            },
        ],
    },
    CommandWords {
        name: "board",
        about: "Print a picture of the empty board, an SVG with numbers, names and directions",
        example: "Example: rbg_author board game.rbg > board.svg",
        arguments: &[GAME_OR_INPUT],
    },
    CommandWords {
        name: "page",
        about: "Make a page for a browser of a record, a script or a list of moves",
        example: "Example: rbg_author page game.rbg record > match.html",
        arguments: &[GAME, MOVES_OR_INPUT],
    },
    CommandWords {
        name: "play",
        about: "Serve a page to play the game by hand in a browser, and print its link",
        example: "Example: rbg_author play game.rbg",
        arguments: &[
            GAME,
            Argument {
                name: "port",
                kind: Kind::Named("PORT", None),
                value: Value::Port,
                help: "The port of 127.0.0.1 [default: one that is free]",
            },
        ],
    },
    CommandWords {
        name: "setup",
        about: "Print the description with the board after a record's moves, or say why not",
        example: "Example: rbg_author setup game.rbg record > later.rbg",
        arguments: &[GAME, RECORD_OR_INPUT],
    },
    CommandWords {
        name: "position",
        about: "The old word for setup",
        example: "Example: rbg_author position game.rbg record > later.rbg",
        arguments: &[GAME, RECORD_OR_INPUT],
    },
    CommandWords {
        name: "import",
        about: "Print a description of the paper's language as this one spells it, or say by line what can't be rewritten",
        example: "Example: rbg_author import paper.rbg > game.rbg",
        arguments: &[GAME_OR_INPUT],
    },
    CommandWords {
        name: "lsp",
        about: "Serve an editor by the Language Server Protocol, on standard input and output",
        example: "Example: rbg_author lsp",
        arguments: &[],
    },
];

pub(crate) fn author_command<'a>(alloc: Global) -> Result<Command<'a>, AllocError> {
    let program = Command::new(alloc, "rbg_author")
        .version("1.0.0")
        .about("Help for authors of games of Regular Boardgames")
        .after_help("The help of each command has an example: rbg_author lint --help")
        .subcommand_required(true);
    add_commands(alloc, program, COMMANDS)
}

fn perft_file<F: Files, W: Write>(
    alloc: Global,
    files: &mut F,
    file: &str,
    counted: Counted,
    output: &mut W,
) -> Result<Report, AllocError> {
    match read_game(alloc, files, file)? {
        Read::Found(loaded) => perft(alloc, loaded.game, counted, output),
        Read::Other(report) => Ok(report),
    }
}
