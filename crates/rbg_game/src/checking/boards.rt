//! The board of a description by numbers: its cells by those of their pieces, its directions by those of their names.
ghost use Rattle.std.specs.Prelude.{◌≡◌, ◌<◌, ◌≤◌, ◌^◌, length, map, flat_map, IfOk, IfErr};
ghost use Rattle.std.specs.List.{AllZip};
ghost use Rattle.rbg_board.specs.Cells.{rows_of};
ghost use Rattle.rbg_grammar.specs.Views.{name_of, names_of, board_of};
ghost use Rattle.rbg_rules.specs.Meaning.{AreLawfulNames};
ghost use Rattle.rbg_game.specs.NameNumbers.{IsNumberOf};
ghost use Rattle.rbg_game.specs.NameTables.{HasLookUpFault};
ghost use Rattle.rbg_game.specs.Faults.{HasBoardFault};
ghost use Rattle.rbg_game.specs.internal.Boards.{MakesBoard, HasVertices, NumbersDirections, IsNamed, IsRefusedFor, refusal_of};

use crate::checking::directions::number_directions;
use crate::checking::graphs::make_graph;
use crate::game_error::GameError;
use crate::name_table::NameTable;
use rbg_board::{Board, BoardError, MAX_VERTICES, hexagon, rectangle};
use rbg_grammar::{Name, ParsedBoard};
use rbg_rules::limits::{MAX_DIRECTIONS, MAX_PIECES};
use std::alloc::Global;

/// A board, and the names of its directions in order of their numbers.
#[derive(Drop)]
pub(crate) struct NamedBoard {
    pub directions: NameTable,
    pub board: Board,
}

/// The numbers of the pieces on rows of cells.
fn number_rows(
    alloc: Global,
    pieces: &NameTable,
    rows: &[Vec<Name<'_>>],
) -> Result<Vec<Vec<u16>>, GameError>
    requires { length pieces.now ≤ 2 ^ 16 }
    ensures numbers { IfOk result (λ ns.
        AllZip (AllZip (IsNumberOf pieces.now)) (map names_of rows.now) (rows_of ns.items)) }
    ensures fault { IfErr result (HasLookUpFault pieces.now (flat_map (λ row.
        row) (map names_of rows.now))) }
{
    let mut numbers = Vec::with_capacity(alloc, rows.len())?;
    for row in rows {
        numbers.push(pieces.find_all(alloc, row)?)?;
    }
    Ok(numbers)
}

/// The error of a board that is refused. A refused allocation becomes `Memory`, as in every layer.
fn refusal_of(error: BoardError) -> GameError
    ensures { result ≡ refusal_of error }
{
    match error {
        BoardError::Memory => GameError::Memory,
        error => GameError::Board { error },
    }
}

/// A board with the names of its directions.
fn name_board(directions: NameTable, board: Board) -> NamedBoard
    ensures directions { result.directions ≡ directions }
    ensures board { result.board ≡ board }
    ensures names { AreLawfulNames directions }
    ensures vertices { HasVertices board }
{
    prove!(directions.len() <= usize::MAX);
    prove!(board.len() <= MAX_VERTICES);
    NamedBoard { directions, board }
}

/// The board that a generator made, with the names of its directions, or the error of the generator.
pub(crate) fn named(
    directions: NameTable,
    made: Result<Board, BoardError>,
) -> Result<NamedBoard, GameError>
    ensures board { IfOk result (IsNamed directions made) }
    ensures refusal { IfErr result (IsRefusedFor made) }
{
    match made {
        Ok(board) => Ok(name_board(directions, board)),
        Err(error) => Err(refusal_of(error)),
    }
}

/// Rows by the numbers of their pieces, and directions in order of their numbers.
#[derive(Drop)]
struct NumberedRows {
    cells: Vec<Vec<u16>>,
    directions: NameTable,
}

/// The numbers of the pieces on rows of cells and of the names of their directions.
fn number_parts(
    alloc: Global,
    pieces: &NameTable,
    names: &[Name<'_>],
    numbers: &mut [u16],
    rows: &[Vec<Name<'_>>],
) -> Result<NumberedRows, GameError>
    requires pieces { length pieces.now ≤ 2 ^ 16 }
    requires one_each { length numbers.old ≡ length names.now }
    requires few { length names.now ≤ MAX_DIRECTIONS }
    ensures cells { IfOk result (λ parts. AllZip (AllZip (IsNumberOf pieces.now)) (map names_of rows.now)
        (rows_of parts.cells.items)) }
    ensures directions { IfOk result (λ parts.
        NumbersDirections (map name_of names.now) numbers.new parts.directions) }
    ensures fault { IfErr result (HasLookUpFault pieces.now (flat_map (λ row.
        row) (map names_of rows.now))) }
{
    let cells = number_rows(alloc, pieces, rows)?;
    let directions = number_directions(alloc, names, numbers)?;
    Ok(NumberedRows { cells, directions })
}

/// The board of a description, with its pieces by their numbers. An unknown piece of a cell is refused before
/// what is wrong with the board itself.
pub(crate) fn make_board(
    alloc: Global,
    pieces: &NameTable,
    board: &ParsedBoard<'_>,
) -> Result<NamedBoard, GameError>
    requires { length pieces.now ≤ MAX_PIECES }
    ensures board { IfOk result (λ b.
        MakesBoard pieces.now (board_of board.now) b.directions b.board) }
    ensures fault { IfErr result (HasBoardFault pieces.now (board_of board.now)) }
{
    match board {
        ParsedBoard::Rectangle { directions, rows } => {
            let mut numbers = [0; 4];
            let parts = number_parts(alloc, pieces, &directions.names, &mut numbers, rows)?;
            named(parts.directions, rectangle(alloc, numbers, &parts.cells))
        }
        ParsedBoard::Hexagon { directions, rows } => {
            let mut numbers = [0; 6];
            let parts = number_parts(alloc, pieces, &directions.names, &mut numbers, rows)?;
            named(parts.directions, hexagon(alloc, numbers, &parts.cells))
        }
        ParsedBoard::Graph { vertices } => make_graph(alloc, pieces, vertices),
    }
}
