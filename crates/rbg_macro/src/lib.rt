//! The tokens of a game's text, and the sections that they define: a text is cut into its tokens, or refused at its
//! first fault, and its macros are expanded.
#![tactic(auto)]

mod buffer;
mod call;
mod definition;
mod error;
mod expansion;
mod filling;
mod joining;
pub mod laws;
mod lexer;
mod limits;
mod line;
mod macros;
mod marking;
mod read_token;
mod source;
mod text_error;
pub mod text_laws;
mod text_limits;
mod token;

pub use error::MacroError;
pub use expansion::expand;
pub use lexer::tokens;
pub use limits::{MAX_JOINED, MAX_KEPT, MAX_LEVEL, MAX_READ};
pub use line::{TextLine, count_line_feeds};
pub use source::{Section, SectionKind, Source};
pub use text_error::TextError;
pub use text_limits::MAX_TEXT;
pub use token::{Symbol, Token, TokenKind, Tokens};
