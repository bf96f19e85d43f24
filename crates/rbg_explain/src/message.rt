//! What is said of a refusal: what was expected, and what stands there.

use crate::boards::row_lengths;
use crate::brackets::CallForm;
use crate::foreign_comments::is_in_comment;
use crate::spot::{Needed, Spot};
use crate::traced::Trace;
use crate::words::{UsedName, expectation_words, head_words, most_of, needed_words, write_use};
use rbg_board::BoardError;
use rbg_game::limits::{MAX_BOUND, MAX_NESTED_PATTERNS, MAX_VERTICES};
use rbg_game::{GameError, LoadError};
use rbg_lint::{
    MessageWriter, NameKind, TokenOrigin, Unrolled, kind_of, line_and_column, stray_character_at,
};
use rbg_macro::{
    MAX_JOINED, MAX_KEPT, MAX_LEVEL, MAX_READ, MAX_TEXT, MacroError, SectionKind, Symbol,
    TextError, Token,
};
use rbg_syntax::{Expectation, SyntaxError};
use std::alloc::{AllocError, Global};

/// What is known of the calls from which the refusal's token comes.
#[derive(Clone, Copy)]
pub(crate) enum Known<'a> {
    Nothing,
    /// Where it is the name in a call, from which the text is expanded no further.
    Call(&'a Unrolled, TokenOrigin),
    /// What stands at the refusal's place where the macros are written out.
    Token(Trace<'a>),
}

/// A refusal in words. Its text is one line without a line feed.
#[derive(Drop)]
pub(crate) struct Message<'a, 'k> {
    pub error: &'a LoadError,
    /// The text that is refused.
    pub text: &'a [u8],
    /// What stands at the refusal's place.
    pub spot: Option<Spot<'a>>,
    pub known: Known<'k>,
    /// Whether the section ends after the refusal's place, where more of it is needed.
    pub has_ended: bool,
    /// The name that is probably meant.
    pub meant: Option<Vec<u8>>,
}

impl<'a, 'k> Message<'a, 'k> {
    /// Where the section ends too early: remembers that, and goes to the comma with which it ends, if it does.
    pub fn go_to_end(&mut self, tokens: &'a [Token<'a>]) {
        let is_expected = matches!(self.error, LoadError::Syntax(SyntaxError::Expected { .. }));
        if !is_expected || !self.is_at_section() {
            return;
        }
        self.has_ended = true;
        if let Some(comma) = self.last_comma() {
            self.spot = Spot::find(tokens, comma.origin.at);
            self.known = Known::Token(comma);
        }
    }

    /// Whether the place is the `#` of a section.
    fn is_at_section(&self) -> bool {
        match self.spot {
            Some(spot) => spot.token.is(Symbol::Hash),
            None => false,
        }
    }

    /// The comma with which the section ends that begins here, where the macros are written out.
    fn last_comma(&self) -> Option<Trace<'k>> {
        let trace = self.trace()?;
        let last = trace.spot.after().last()?;
        if last.is(Symbol::Comma) {
            trace.flat.trace(last.at)
        } else {
            None
        }
    }

    /// What stands at the refusal's place where the macros are written out, if that is known.
    pub fn trace(&self) -> Option<Trace<'k>> {
        match self.known {
            Known::Token(trace) => Some(trace),
            _ => None,
        }
    }

    /// The offset of the call of the macro with this name from whose body the refusal's token comes.
    pub fn call_of(&self, name: &[u8]) -> Option<usize> {
        match self.known {
            Known::Nothing => None,
            Known::Call(unrolled, origin) => unrolled.named_call(self.text, origin, name),
            Known::Token(trace) => {
                trace
                    .flat
                    .unrolled
                    .named_call(self.text, trace.origin, name)
            }
        }
    }

    /// Adds the refusal in words.
    pub fn write(&self, alloc: Global, output: &mut Vec<u8>) -> Result<(), AllocError> {
        let mut writer = MessageWriter::new(alloc, output);
        self.write_error(&mut writer);
        if let Some(name) = &self.meant {
            self.write_meant(&mut writer, name);
        }
        writer.end()
    }

    /// Which name is probably meant, and by what, where that isn't what stands here.
    fn write_meant(&self, writer: &mut MessageWriter<'_>, name: &[u8]) {
        match self.error {
            LoadError::Syntax(SyntaxError::MissingSection { which }) => {
                writer.named(", found the macro ", name, "");
                write_section(writer, "; did you mean `#", *which);
                writer.text("?");
            }
            LoadError::Syntax(_) => {
                writer.named("; did you mean ", name, " by ");
                writer.name(self.called_name());
                writer.text("?");
            }
            _ => writer.named("; did you mean ", name, "?"),
        }
    }

    /// The name before the parenthesis that is open here.
    fn called_name(&self) -> &'k [u8] {
        match self.trace() {
            Some(trace) => match trace.spot.called_name() {
                Some(name) => name.text,
                None => &[],
            },
            None => &[],
        }
    }

    fn write_error(&self, writer: &mut MessageWriter<'_>) {
        match self.error {
            LoadError::Text(error) => self.write_text(writer, error),
            LoadError::Macro(error) => self.write_macro(writer, error),
            LoadError::Syntax(error) => self.write_syntax(writer, error),
            LoadError::Game(error) => self.write_game(writer, error),
        }
    }

    /// The text of the token at the refusal's place, if `~` has joined it.
    pub fn joined(&self) -> Option<&'k [u8]> {
        let trace = self.trace()?;
        let is_shown = !self.has_ended && !trace.is_parameter;
        if !is_shown || !self.is_of_token() || trace.text() == self.spot?.token.text {
            None
        } else {
            Some(trace.text())
        }
    }

    /// Whether the refusal names the token at its place.
    fn is_of_token(&self) -> bool {
        matches!(
            self.error,
            LoadError::Syntax(_)
                | LoadError::Game(
                    GameError::UnknownName { .. }
                        | GameError::SameName { .. }
                        | GameError::Bound { .. }
                )
        )
    }

    /// How many bytes stand at the refusal's place.
    pub fn width(&self) -> usize {
        match (self.spot, self.error) {
            (Some(spot), _) => spot.token.text.len(),
            (None, LoadError::Text(TextError::BadByte { at })) => {
                stray_character_at(self.text, *at).bytes.len().max(1)
            }
            (None, _) => 1,
        }
    }

    fn write_text(&self, writer: &mut MessageWriter<'_>, error: &TextError) {
        match error {
            TextError::TooLong => writer.number("the text has more than ", MAX_TEXT, " bytes"),
            TextError::ZeroByte => writer.text("expected no zero byte in the text"),
            TextError::BadByte { at } => self.write_byte(writer, *at),
            TextError::Memory => writer.text("out of memory"),
        }
    }

    /// What stands where no token begins.
    fn write_byte(&self, writer: &mut MessageWriter<'_>, at: usize) {
        if at == 0 && self.text.starts_with(b"\xef\xbb\xbf") {
            writer.text("expected a token, found a byte order mark");
            return;
        }
        let shown = stray_character_at(self.text, at);
        writer.text("expected a token, found ");
        match shown.number {
            Some(number) if number < 0x80 => writer.name(shown.bytes),
            Some(number) => {
                writer.named("", shown.bytes, " (U+");
                writer.hexadecimal(number);
                writer.text(")");
            }
            None => writer.text("a byte that begins none"),
        }
        writer.text(if is_in_comment(self.text, at) {
            ": comments begin with `//`"
        } else {
            shown.meant
        });
    }

    fn write_macro(&self, writer: &mut MessageWriter<'_>, error: &MacroError) {
        match error {
            MacroError::BadDefinition { .. } => self.write_head(writer),
            MacroError::Twice { .. } => self.write_around(
                writer,
                "a second macro has the name ",
                "",
            ),
            MacroError::ArgumentCount { .. } => self.write_call(writer),
            MacroError::Depth { .. } => {
                self.write_around(writer, "the call of ", " is more than ");
                writer.number("", MAX_LEVEL, " levels deep");
            }
            MacroError::TooManyTokens => {
                writer.number("the macros expand to more than ", MAX_KEPT, " tokens, or");
                writer.number(" more than ", MAX_READ, " are read");
                if self.spot.is_some() {
                    self.write_around(writer, ", at ", "");
                }
            }
            MacroError::BadJoin { .. } => writer.number(
                "expected two tokens beside `~` that make a name or a number of at most ",
                MAX_JOINED,
                " bytes",
            ),
            MacroError::Memory => writer.text("out of memory"),
        }
    }

    /// Writes what was found, between these words.
    fn write_around(&self, writer: &mut MessageWriter<'_>, before: &str, after: &str) {
        writer.text(before);
        self.write_found(writer);
        writer.text(after);
    }

    /// Writes what was found: the token at the refusal's place, joined if `~` has joined it; or the parameter that is shown.
    fn write_found(&self, writer: &mut MessageWriter<'_>) {
        match (self.trace(), self.spot) {
            (Some(trace), _) if !self.has_ended && !trace.is_parameter => writer.name(trace.text()),
            (_, Some(spot)) => writer.name(spot.token.text),
            (_, None) => writer.text("nothing"),
        }
    }

    /// How many parameters the macro has that is called here, and what stands after its name.
    fn call(&self) -> Option<(usize, CallForm)> {
        let spot = self.spot?;
        Some((spot.parameters()?, spot.call_form()))
    }

    /// What is wrong with the arguments of a call.
    fn write_call(&self, writer: &mut MessageWriter<'_>) {
        match self.call() {
            Some((wanted, CallForm::NoParenthesis)) => {
                write_arguments(writer, "expected `(` and ", wanted);
                self.write_around(writer, " after the macro's name ", "");
            }
            Some((_, CallForm::Open)) => {
                self.write_around(writer, "expected a `)` after the arguments of ", "");
            }
            Some((wanted, CallForm::Arguments(count))) if count != wanted => {
                write_arguments(writer, "expected ", wanted);
                self.write_around(writer, " of ", ", separated by `;`");
                writer.number(", found ", count, "");
            }
            _ => self.write_around(
                writer,
                "expected a call of ",
                " with as many arguments as it has parameters",
            ),
        }
    }

    /// What is wrong with the head of a definition.
    fn write_head(&self, writer: &mut MessageWriter<'_>) {
        match self.spot {
            None => writer.text("expected a definition"),
            Some(spot) if spot.starts_definition() => {
                writer.text("expected a whole head of a definition, found the end of the text");
            }
            Some(spot) => {
                self.write_mismatch(writer, head_words(spot.definition()), spot.comment_words());
            }
        }
    }

    /// What was expected, and what was found in its place.
    fn write_mismatch(&self, writer: &mut MessageWriter<'_>, expected: &str, after: &str) {
        writer.text("expected ");
        writer.text(expected);
        self.write_parameter(writer);
        self.write_around(writer, ", found ", after);
    }

    /// In place of which parameter the token stands.
    fn write_parameter(&self, writer: &mut MessageWriter<'_>) {
        if let Some(parameter) = self.parameter() {
            writer.named(" in place of ", parameter.token.text, "");
            if let Some(head) = parameter.macro_name() {
                writer.named(" in the body of ", head.text, "");
            }
            writer.place(" at ", line_and_column(self.text, parameter.token.at), "");
        }
    }

    /// The parameter in whose place the token stands, in the body of its macro.
    pub fn parameter(&self) -> Option<Spot<'a>> {
        let origin = self.trace()?.origin;
        if self.has_ended || origin.place == origin.at {
            return None;
        }
        self.spot?.beside(origin.place)
    }

    fn write_syntax(&self, writer: &mut MessageWriter<'_>, error: &SyntaxError) {
        match error {
            SyntaxError::Expected { what, .. } => self.write_expected(writer, *what),
            SyntaxError::MissingSection { which } => {
                write_section(writer, "expected a section `#", *which);
            }
            SyntaxError::SectionTwice { which } => {
                write_section(writer, "a second section has the name `", *which);
            }
            SyntaxError::TooDeep { .. } => {
                self.write_around(writer, "more than 128 brackets are open at ", "");
            }
            SyntaxError::Memory => writer.text("out of memory"),
        }
    }

    fn write_expected(&self, writer: &mut MessageWriter<'_>, what: Expectation) {
        match (self.trace(), self.spot) {
            (Some(trace), _) => self.write_expected_at(writer, what, trace.spot),
            (None, Some(spot)) => self.write_expected_at(writer, what, spot),
            (None, None) => self.write_mismatch(writer, expectation_words(what, None), ""),
        }
    }

    /// What was expected in place of a token, where the macros are written out if that is known.
    fn write_expected_at(&self, writer: &mut MessageWriter<'_>, what: Expectation, spot: Spot<'_>) {
        let expected = expectation_words(what, Some(spot));
        if !self.has_ended {
            self.write_mismatch(writer, expected, spot.hint(what));
            return;
        }
        writer.text("expected ");
        writer.text(expected);
        writer.text(if spot.token.is(Symbol::Comma) {
            " after this comma, found the end of the section"
        } else {
            ", found the end of the section"
        });
    }

    fn write_game(&self, writer: &mut MessageWriter<'_>, error: &GameError) {
        match error {
            GameError::UnknownName { .. } => self.write_unknown(writer),
            GameError::SameName { .. } => self.write_mismatch(writer, "a new name", " again"),
            GameError::Bound { .. } => self.write_bound(writer),
            GameError::SwitchInPattern { .. } => self.write_around(
                writer,
                "expected an action that may be in a pattern, found the switch ",
                "",
            ),
            GameError::PatternTooDeep { .. } => writer.number(
                "more than ",
                MAX_NESTED_PATTERNS,
                " patterns are one inside the other",
            ),
            GameError::TooMany { what } => {
                writer.number("expected at most ", most_of(*what), " ");
                writer.text(what.name());
            }
            GameError::Board { error } => self.write_board(writer, error),
            GameError::Memory => writer.text("out of memory"),
        }
    }

    /// What a name must be here.
    pub fn needed(&self) -> Needed {
        match (self.trace(), self.spot) {
            (Some(trace), _) => trace.spot.needed(),
            (None, Some(spot)) => spot.needed(),
            (None, None) => Needed::Anything,
        }
    }

    /// What was expected in place of a name, and of what kind the name is.
    fn write_unknown(&self, writer: &mut MessageWriter<'_>) {
        writer.text("expected ");
        writer.text(needed_words(self.needed()));
        self.write_parameter(writer);
        writer.text(", found ");
        let Some(kind) = self.kind_found() else {
            self.write_found(writer);
            return;
        };
        writer.text("the ");
        writer.text(kind.words());
        writer.text(" ");
        self.write_found(writer);
        if let Some(used) = self.used_name() {
            write_use(writer, self.needed(), kind, used);
        }
    }

    /// The name that was found, as the body of its macro spells it. None in place of a parameter where no direction is
    /// needed: another argument is meant there.
    fn used_name(&self) -> Option<UsedName<'_>> {
        let name = self.trace()?.text();
        let is_direction = matches!(self.needed(), Needed::Direction);
        let spelt = match self.parameter() {
            Some(_) if !is_direction => return None,
            Some(parameter) if self.joined().is_none() => parameter.token.text,
            _ => name,
        };
        Some(UsedName { spelt, name })
    }

    /// Of what kind the name is that was found.
    fn kind_found(&self) -> Option<NameKind> {
        let trace = self.trace()?;
        kind_of(trace.flat.tokens, trace.text())
    }

    /// What is said of too great a number.
    fn write_bound(&self, writer: &mut MessageWriter<'_>) {
        writer.text("expected a bound of at most ");
        writer.shown(&MAX_BOUND);
        writer.text(", or in arithmetic a number of at most ");
        writer.shown(&i64::MAX);
        self.write_around(writer, ", found ", "");
    }

    fn write_board(&self, writer: &mut MessageWriter<'_>, error: &BoardError) {
        match error {
            BoardError::SameDirection => self.write_mismatch(writer, "another direction", " again"),
            BoardError::UnknownVertex => self.write_mismatch(writer, "the name of a vertex", ""),
            BoardError::SameVertex => self.write_mismatch(
                writer,
                "a new name of a vertex",
                " again",
            ),
            BoardError::RowLength { row } => self.write_row(writer, *row),
            BoardError::TooManyVertices => {
                writer.number("expected at most ", MAX_VERTICES, " vertices");
            }
            BoardError::NoCell => {
                writer.text("expected a cell, found a board or a row without one");
            }
            BoardError::Memory => writer.text("out of memory"),
        }
    }

    /// What is said of a row with a wrong length.
    fn write_row(&self, writer: &mut MessageWriter<'_>, row: usize) {
        writer.number("row ", row, ", counted from 0, has");
        match self.row_lengths(row) {
            Some((own, other, true)) => {
                write_cells(writer, own);
                writer.number(", and row 0 has ", other, "");
            }
            Some((own, other, false)) => {
                write_cells(writer, own);
                writer.number(", and the row before it ", other, "");
                writer.text(": the lengths of a hexagon's rows grow by one and then shrink by one");
            }
            None => writer.text(" a length that doesn't fit"),
        }
    }

    /// How many cells a row has, and the row that it is measured by; and whether that is the first one.
    fn row_lengths(&self, row: usize) -> Option<(usize, usize, bool)> {
        row_lengths(self.trace()?.flat.tokens, row)
    }
}

/// Writes how many cells there are.
fn write_cells(writer: &mut MessageWriter<'_>, count: usize) {
    writer.number(" ", count, if count == 1 { " cell" } else { " cells" });
}

/// Writes how many arguments there are.
fn write_arguments(writer: &mut MessageWriter<'_>, before: &str, count: usize) {
    writer.number(before, count, " argument");
    if count != 1 {
        writer.text("s");
    }
}

/// Writes the name of a section.
fn write_section(writer: &mut MessageWriter<'_>, before: &str, section: SectionKind) {
    writer.text(before);
    writer.text(section.name());
    writer.text("`");
}
