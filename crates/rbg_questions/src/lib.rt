//! Questions about a game, and their answers: sessions that hold the places which play has reached, sequences of moves
//! that are counted, and matches that are played by chance.
#![tactic(auto)]

mod answer_writer;
mod beginning;
mod chance;
mod chosen;
mod counting;
mod details;
mod draw;
mod error;
mod extent;
mod keys;
pub mod laws;
mod misfit;
mod names_writer;
mod number_writer;
mod ordering;
mod packing;
mod packing_writer;
mod play_standing;
mod playing;
mod question;
mod question_error;
mod question_reader;
mod sampling;
mod searching;
mod session;
mod shape_writer;
mod stepping;
mod summary_writer;
mod sums;
mod survey;
mod tally;

pub use answer_writer::{
    put_scores, write_board, write_matches, write_moves, write_refusal, write_standing,
    write_values,
};
pub use beginning::count_from_start;
pub use chance::{MAX_PLAYED, play_matches};
pub use chosen::Chosen;
pub use counting::{Counts, count_sequences};
pub use details::put_details;
pub use draw::Draw;
pub use error::CountError;
pub use extent::Extent;
pub use keys::key_of;
pub use names_writer::write_names;
pub use packing::{pack, unpack};
pub use play_standing::PlayStanding;
pub use playing::{Matches, moves_of, playouts};
pub use question::{MAX_COUNT, Question};
pub use question_error::QuestionError;
pub use question_reader::read_question;
pub use rbg_moves::{GamePlace, PlayedGame, Unsettled, Workspace};
pub use session::{MAX_LINE, Session, first_place};
pub use stepping::{follow, lead, moves_at, step};
pub use survey::Survey;
pub use tally::{Ending, EndingTally};
