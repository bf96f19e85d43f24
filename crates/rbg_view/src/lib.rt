//! A match to look at: a game followed on its board as text, and a page with the board after each move of a record.
#![tactic(auto)]

mod board_lines;
mod board_text;
mod drawing;
mod ending;
mod followed_record;
mod game_lines;
mod head;
pub mod laws;
mod line;
mod move_readings;
mod move_text;
mod places;
mod record_page;
mod scene;
mod script;
mod sheet;
mod shown_moves;
mod signs;
mod stop;
mod style;
mod tail;
mod texts;

pub use game_lines::push_game;
pub use move_text::MoveSpeller;
pub use record_page::page;
pub use script::BOARD_SCRIPT;
pub use shown_moves::{ShownMoves, show};
pub use style::BOARD_STYLE;
