//! The section of a board, written with other pieces on its vertices.
ghost use Rattle.std.specs.Prelude.{◌≡◌, ◌<◌, ◌&&◌, ◌++◌, List, [], IfOk, IfSome, IsSomeAnd, OnOk, Some, codes, if◌then◌else◌, length, slice_get, slice_index_or};
ghost use Rattle.rbg_grammar.specs.Sections.{same_kind};
ghost use Rattle.rbg_grammar.specs.Spells.{HasSection};
ghost use Rattle.rbg_macro.specs.Expansion.{HasSections};
ghost use Rattle.rbg_macro.specs.declared.source.SectionKind.TheVariants.{Board};
ghost use Rattle.rbg_macro.specs.Kinds.{is_name_kind};
ghost use Rattle.rbg_macro.specs.Token.{Lexeme};
ghost use Rattle.rbg_position.specs.Sections.{ExpandsBoard, name_of, section_text, space_between};
ghost use Rattle.rbg_position.specs.internal.Walking.{
  IsSectionAt,
  begins_line,
  is_inside_after,
  is_spaced,
};

use rbg_base::{Memory, Piece};
use rbg_macro::{Section, SectionKind, Source, Symbol, TokenKind, Tokens, expand};
use rbg_rules::Game;
use std::alloc::Global;

/// The section of the board, with these pieces on the vertices. Its macros are expanded.
pub(crate) fn board_section(
    alloc: Global,
    tokens: &Tokens<'_>,
    game: &Game,
    pieces: &[Piece],
) -> Result<Vec<u8>, Memory>
    ensures { (ts : List Lexeme) → ExpandsBoard tokens.now ts → IfOk result (λ section.
        section.items ≡ codes "#board = " ++ section_text game.now pieces.now ts) }
{
    let source = expanded(alloc, tokens)?;
    let mut out = Vec::new(alloc);
    out.extend_from_slice(b"#board = ")?;
    put_board(&source, game, pieces, &mut out)?;
    Ok(out)
}

/// The expanded sections of a text that is a game's. The only error is refused memory.
fn expanded<'t>(alloc: Global, tokens: &Tokens<'t>) -> Result<Source<'t>, Memory>
    ensures { IfOk result (HasSections tokens.now) }
{
    match expand(alloc, tokens) {
        Ok(source) => Ok(source),
        Err(_) => Err(Memory),
    }
}

fn put_board(
    source: &Source<'_>,
    game: &Game,
    pieces: &[Piece],
    out: &mut Vec<u8>,
) -> Result<(), Memory>
    ensures { (ts : List Lexeme) → HasSection source.now Board ts → OnOk result (out.new.items
        ≡ out.old.items ++ section_text game.now pieces.now ts) }
{
    match find_board(source) {
        Some(index) => put_section(&source.section(index), game, pieces, out),
        None => Ok(()),
    }
}

/// The index of the first section of a board.
fn find_board(source: &Source<'_>) -> Option<usize>
    ensures found { (ts : List Lexeme) → HasSection source.now Board ts
        → IsSomeAnd result (IsSectionAt source.now ts) }
    ensures within { IfSome result (λ index. index < length source.now) }
{
    for index in 0..source.len() {
        if is_board(source.section(index).kind()) {
            return Some(index);
        }
    }
    None
}

fn is_board(kind: SectionKind) -> bool
    ensures { result ≡ same_kind kind Board }
{
    matches!(kind, SectionKind::Board)
}

/// Appends the tokens of the section. The names between `[` and `]` are those of the pieces, in order of the vertices.
fn put_section(
    section: &Section<'_>,
    game: &Game,
    pieces: &[Piece],
    out: &mut Vec<u8>,
) -> Result<(), Memory>
    ensures { OnOk result (out.new.items
        ≡ out.old.items ++ section_text game.now pieces.now section.now.tokens) }
{
    let mut vertex = 0usize;
    let mut is_inside = false;
    let mut last = None;
    for index in 0..section.len() {
        let token = section.token(index);
        let is_piece = is_piece_name(is_inside, token.kind);
        put_space(last, token.kind, out)?;
        let word = word_of(is_piece, game, pieces, vertex, token.text);
        put_word(word, out)?;
        if is_piece {
            vertex += 1;
        }
        is_inside = is_inside_after(is_inside, token.kind);
        last = Some(token.kind);
    }
    Ok(())
}

/// Whether a token is the name of a piece: a name in brackets.
fn is_piece_name(is_inside: bool, kind: TokenKind) -> bool
    ensures { result ≡ is_inside && is_name_kind kind }
{
    is_inside && kind.is_name()
}

/// The text of a token, or the name of the piece on a vertex in its place.
fn word_of<'a>(
    is_piece: bool,
    game: &'a Game,
    pieces: &[Piece],
    vertex: usize,
    text: &'a [u8],
) -> &'a [u8]
    ensures { result.now
        ≡ (if is_piece then name_of game.now (slice_get pieces.now vertex) else text.now) }
{
    if is_piece {
        name_on(game, pieces, vertex)
    } else {
        text
    }
}

/// The name of the piece on a vertex.
fn name_on<'a>(game: &'a Game, pieces: &[Piece], vertex: usize) -> &'a [u8]
    ensures { result.now ≡ name_of game.now (slice_get pieces.now vertex) }
{
    match pieces.get(vertex) {
        Some(piece) => piece_name(game, *piece),
        None => &[],
    }
}

/// Appends a word.
fn put_word(word: &[u8], out: &mut Vec<u8>) -> Result<(), Memory>
    ensures { OnOk result (out.new.items ≡ out.old.items ++ word.now) }
{
    out.extend_from_slice(word)
}

/// The name of a piece.
fn piece_name(game: &Game, piece: Piece) -> &[u8]
    ensures { result.now ≡ slice_index_or game.now.pieces piece [] }
{
    if (piece as usize) < game.pieces() {
        game.piece_name(piece).as_bytes()
    } else {
        &[]
    }
}

/// Whether the token after this one is in brackets, if this one is or isn't.
fn is_inside_after(is_inside: bool, kind: TokenKind) -> bool
    ensures { result ≡ is_inside_after is_inside kind }
{
    match kind {
        TokenKind::Symbol(Symbol::OpenBracket) => true,
        TokenKind::Symbol(Symbol::CloseBracket) => false,
        _ => is_inside,
    }
}

/// Appends the space between two tokens.
#[tactic(auto, unfolding(crate::specs::Sections::space_between))]
fn put_space(last: Option<TokenKind>, next: TokenKind, out: &mut Vec<u8>) -> Result<(), Memory>
    ensures { OnOk result (out.new.items ≡ out.old.items ++ space_between last next) }
{
    match last {
        Some(last) => out.extend_from_slice(space_between(last, next)),
        None => Ok(()),
    }
}

/// The space between two tokens: a space after a `,` and a `:`, and a new line before a row and after a vertex of a
/// graph.
fn space_between(last: TokenKind, next: TokenKind) -> &'static [u8]
    ensures { result.now ≡ space_between (Some last) next }
{
    if begins_line(last, next) {
        b"\n    "
    } else if is_spaced(last) {
        b" "
    } else {
        b""
    }
}

fn begins_line(last: TokenKind, next: TokenKind) -> bool
    ensures { result ≡ begins_line last next }
{
    let ends_row = last.is(Symbol::Comma) || last.is(Symbol::CloseBracket);
    let ends_vertex = last.is(Symbol::CloseBrace);
    ends_row && next.is(Symbol::OpenBracket) || ends_vertex && next.is_name()
}

fn is_spaced(kind: TokenKind) -> bool
    ensures { result ≡ is_spaced kind }
{
    kind.is(Symbol::Comma) || kind.is(Symbol::Colon)
}
