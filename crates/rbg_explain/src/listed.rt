//! What a game's positions and vertices are: a line for each.

use rbg_game::Layout;
use rbg_lint::{MessageWriter, expanded, line_and_column, section_tokens, start_of};
use rbg_macro::{SectionKind, Token, Tokens};
use rbg_warnings::actions;
use std::alloc::{AllocError, Global};

/// Adds a line for each position of the rules: its number, the line and the column of its action, and the action. The
/// tokens are those of the text.
pub fn push_positions(
    alloc: Global,
    output: &mut Vec<u8>,
    text: &[u8],
    tokens: &Tokens<'_>,
) -> Result<(), AllocError> {
    let Some(source) = expanded(alloc, tokens)? else {
        return Ok(());
    };
    let rules = section_tokens(alloc, &source, SectionKind::Rules)?;
    push_actions(alloc, output, text, &rules)
}

/// Adds a line for each action of the rules.
fn push_actions(
    alloc: Global,
    output: &mut Vec<u8>,
    text: &[u8],
    rules: &[Token<'_>],
) -> Result<(), AllocError> {
    let actions = actions(alloc, rules)?;
    let mut writer = MessageWriter::new(alloc, output);
    write_actions(&mut writer, text, &actions);
    writer.end()
}

/// Writes each action of the rules in a line.
fn write_actions(writer: &mut MessageWriter<'_>, text: &[u8], actions: &[&[Token<'_>]]) {
    for (index, action) in actions.iter().enumerate() {
        let at = start_of(action).unwrap_or(0);
        writer.number("position ", index.saturating_add(1), " ");
        writer.place("", line_and_column(text, at), " ");
        writer.action(action);
        writer.text("\n");
    }
}

/// Adds a line for each vertex: its number and its name, or its row and its cell there, which are counted from 0.
pub fn push_vertices(
    alloc: Global,
    output: &mut Vec<u8>,
    layout: &Layout,
) -> Result<(), AllocError> {
    let mut writer = MessageWriter::new(alloc, output);
    write_vertices(&mut writer, layout);
    writer.end()
}

fn write_vertices(writer: &mut MessageWriter<'_>, layout: &Layout) {
    match layout {
        Layout::Rectangle { rows } => write_rows(writer, rows),
        Layout::Hexagon { rows } => write_rows(writer, rows),
        Layout::Graph { names } => write_names(writer, names),
    }
}

fn write_rows(writer: &mut MessageWriter<'_>, rows: &[usize]) {
    let mut vertex = 0usize;
    for (row, length) in rows.iter().enumerate() {
        write_row(writer, vertex, row, *length);
        vertex = vertex.saturating_add(*length);
    }
}

/// Writes the cells of a row, which begins with this vertex.
fn write_row(writer: &mut MessageWriter<'_>, vertex: usize, row: usize, length: usize) {
    for cell in 0..length {
        writer.number("vertex ", vertex.saturating_add(cell), "");
        writer.number(" row ", row, "");
        writer.number(" cell ", cell, "\n");
    }
}

fn write_names(writer: &mut MessageWriter<'_>, names: &[Vec<u8>]) {
    for (vertex, name) in names.iter().enumerate() {
        writer.number("vertex ", vertex, " ");
        writer.bytes(name);
        writer.text("\n");
    }
}
