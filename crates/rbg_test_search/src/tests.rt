//! The tests, by subject.
mod agreement;
mod asked;
mod board;
mod budgets;
mod comparing;
mod generated;
mod lines;
mod meaning;
mod odd;
mod playing;
mod table;
mod tree;
mod undoing;
mod words;
mod world;
