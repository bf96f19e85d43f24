//! What the entries of a table are filled from.
use crate::ground::Ground;
use crate::lists::Lists;

/// The nodes with their lists, and the ground on which shifts step. Inlined functions are lent it whole, which costs
/// nothing; others are lent its parts.
#[derive(Drop)]
pub(crate) struct Setting<'a> {
    pub lists: &'a Lists,
    pub ground: &'a Ground<'a>,
}
