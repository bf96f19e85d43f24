//! The names that rules may use.

use crate::name_table::NameTable;

/// The names that rules may use.
#[derive(Drop)]
pub struct NameTables<'a> {
    pub players: &'a NameTable,
    /// The players, and then the other variables.
    pub variables: &'a NameTable,
    pub pieces: &'a NameTable,
    pub directions: &'a NameTable,
}
