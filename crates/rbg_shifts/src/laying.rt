//! The leaps as they are asked for: the entries after each position, side by side.
ghost use Rattle.std.specs.Prelude.{◌+◌, ◌*◌, ◌<◌, ◌≤◌, length, All, IfOk};
ghost use Rattle.rbg_rules.specs.Meaning.{IsGame};
ghost use Rattle.rbg_shifts.specs.Made.{AreLeapsOf};
ghost use Rattle.rbg_shifts.specs.internal.Interned.{AreListsOf};
ghost use Rattle.rbg_shifts.specs.internal.Tables.{AreLaid, IsFilled};

use crate::asking::Leaps;
use crate::ground::Ground;
use crate::lists::Lists;
use crate::table::{Entry, Table};
use rbg_base::Memory;
use std::alloc::{AllocError, Global};

/// Entries of nodes, side by side, out of those of all nodes.
fn lay(alloc: Global, all: &[Entry], vertices: usize, nodes: &[usize]) -> Result<Vec<Entry>, Memory>
    requires { All (λ n. n * vertices + vertices ≤ length all.now) nodes.now }
    ensures { IfOk result (λ entries. AreLaid vertices all.now nodes.now entries.items) }
{
    let Some(places) = nodes.len().checked_mul(vertices) else {
        return Err(AllocError);
    };
    let mut entries = Vec::with_capacity(alloc, places)?;
    for node in nodes {
        let start = *node * vertices;
        entries.extend_from_slice(&all[start..start + vertices])?;
    }
    Ok(entries)
}

/// The leaps of a filled table. A position is asked for often, so its entries are found by one multiplication, without
/// its node.
pub(crate) fn laid_out(
    alloc: Global,
    lists: Lists,
    table: Table,
    ground: &Ground<'_>,
) -> Result<Leaps, Memory>
    requires lists { AreListsOf ground.now.rules lists }
    requires filled { IsFilled ground.now lists table }
    requires lawful { IsGame ground.now }
    ensures { IfOk result (AreLeapsOf ground.now) }
{
    let Table {
        vertices,
        entries,
        targets,
    } = table;
    let afters = lay(alloc, &entries, vertices, &lists.afters)?;
    Ok(Leaps {
        afters,
        rules: lists.rules,
        insides: lists.insides,
        vertices,
        entries,
        targets,
    })
}
