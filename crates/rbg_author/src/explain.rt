//! What `explain` and `check` print of a game.

use crate::game_files::{Loaded, Read, load_with_tokens, read_source};
use crate::listing::listing;
use crate::opening::push_opening;
use crate::report::Report;
use rbg_console::{Files, Status};
use rbg_explain::{
    Diagnostic, File, Severity, diagnostics, game_warnings, push_diagnostics, push_json,
    push_positions, push_vertices,
};
use rbg_game::LoadedGame;
use rbg_macro::Tokens;
use std::alloc::{AllocError, Global};
use std::io;

/// What `explain` lists besides the names.
#[derive(Clone, Copy)]
pub(crate) struct Lists {
    pub vertices: bool,
    pub positions: bool,
    /// Whether the faults and warnings are listed in JSON, and nothing else.
    pub is_for_tools: bool,
}

/// What the game of a file has, or why its text is refused.
pub(crate) fn explain_file<F: Files, R: io::Read>(
    alloc: Global,
    files: &mut F,
    input: &mut R,
    file: &str,
    lists: Lists,
) -> Result<Report, AllocError> {
    match read_source(alloc, files, input, file)? {
        Read::Found(text) if lists.is_for_tools => tool_lines(alloc, file, &text),
        Read::Found(text) => explain_text(alloc, file, &text, lists),
        Read::Other(report) => Ok(report),
    }
}

/// The faults or warnings of a text in JSON.
fn tool_lines(alloc: Global, name: &str, text: &[u8]) -> Result<Report, AllocError> {
    let found = diagnostics(alloc, text)?;
    let mut output = Vec::new(alloc);
    push_json(alloc, &mut output, File { name, text }, &found)?;
    let status = match found.first() {
        Some(first) if first.severity == Severity::Fault => Status::Refused,
        _ => Status::Success,
    };
    Ok(Report {
        text: output,
        status,
    })
}

fn explain_text(
    alloc: Global,
    file: &str,
    text: &[u8],
    lists: Lists,
) -> Result<Report, AllocError> {
    match load_with_tokens(alloc, file, text)? {
        Read::Found(loaded) => Ok(Report {
            text: lists_of(alloc, text, &loaded, lists)?,
            status: Status::Success,
        }),
        Read::Other(report) => Ok(report),
    }
}

fn lists_of(
    alloc: Global,
    text: &[u8],
    loaded: &Loaded<'_>,
    lists: Lists,
) -> Result<Vec<u8>, AllocError> {
    let mut output = listing(alloc, &loaded.game.game)?.into_bytes();
    if lists.vertices {
        push_vertices(alloc, &mut output, &loaded.game.layout)?;
    }
    if lists.positions {
        push_positions(alloc, &mut output, text, &loaded.tokens)?;
    }
    Ok(output)
}

/// What an author is warned of in the game of a file, or why its text is refused. Where the status is to be strict, it
/// says whether there are warnings.
pub(crate) fn check_file<F: Files, R: io::Read>(
    alloc: Global,
    files: &mut F,
    input: &mut R,
    file: &str,
    strict: bool,
) -> Result<Report, AllocError> {
    match read_source(alloc, files, input, file)? {
        Read::Found(text) => check_text(alloc, file, &text, strict),
        Read::Other(report) => Ok(report),
    }
}

/// The same of a text.
pub(crate) fn check_text(
    alloc: Global,
    file: &str,
    text: &[u8],
    strict: bool,
) -> Result<Report, AllocError> {
    match load_with_tokens(alloc, file, text)? {
        Read::Found(loaded) => {
            let Loaded { tokens, game } = loaded;
            check_game(alloc, File { name: file, text }, &tokens, game, strict)
        }
        Read::Other(report) => Ok(report),
    }
}

/// What an author is warned of in a game.
fn check_game(
    alloc: Global,
    file: File<'_>,
    tokens: &Tokens<'_>,
    loaded: LoadedGame,
    strict: bool,
) -> Result<Report, AllocError> {
    let mut found = game_warnings(alloc, file.text, tokens, &loaded.game)?;
    push_opening(alloc, tokens.as_slice(), loaded.game, &mut found)?;
    report_of(alloc, file, &found, strict)
}

/// What is printed of warnings.
fn report_of(
    alloc: Global,
    file: File<'_>,
    found: &[Diagnostic],
    strict: bool,
) -> Result<Report, AllocError> {
    let mut output = Vec::new(alloc);
    push_diagnostics(alloc, &mut output, file, found)?;
    if found.is_empty() {
        output.extend_from_slice(b"no warnings\n")?;
    }
    let is_warned = strict && !found.is_empty();
    Ok(Report {
        text: output,
        status: if is_warned {
            Status::BadInput
        } else {
            Status::Success
        },
    })
}
