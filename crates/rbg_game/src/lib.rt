//! Which game a description is: tables of names, boards, rules and actions by numbers in order of text, the checks, and
//! `load` from a text to its game.
#![tactic(auto)]

mod actions;
mod arithmetic;
mod checking;
mod error;
mod game_error;
pub mod laws;
mod layout;
mod loading;
mod name_table;
pub mod numbering_laws;
mod rules;
mod tables;

pub use checking::check;
pub use error::LoadError;
pub use game_error::{GameError, Thing};
pub use layout::Layout;
pub use loading::{LoadedGame, load, load_with_layout};
pub use name_table::NameTable;
pub use rbg_rules::{Action, Arithmetic, Game, Operation, Operator, Relation, Rule, Rules, limits};
pub use rules::number_rules;
pub use tables::NameTables;
