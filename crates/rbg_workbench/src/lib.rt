//! A game that is played on a page: a server of pages for one person, and the play that it shows.
#![tactic(auto)]

mod answer;
mod bench;
mod browser;
mod connection;
mod move_list;
mod page;
mod page_moves;
mod page_script;
mod reader;
mod request;
mod request_fields;
mod server;
mod text_record;

pub use browser::play;
pub use reader::{Described, Reader, Reading};
pub use request_fields::{is_own_host, is_own_origin};
pub use text_record::record_text;
