//! Where the squares of a board are in its drawing, what they are called, and a picture of the empty board. Pages and the
//! picture take places and names from here.
#![tactic(auto)]

mod arrow;
mod edges;
mod graph;
mod named_turns;
mod picture;
mod plan;
mod plan_lines;
mod point;
mod ranks;
mod rows;
mod squares;
mod ways;
mod wishes;

pub use picture::push_picture;
pub use plan_lines::push_plan;
pub use squares::push_square;
pub use wishes::Wishes;
