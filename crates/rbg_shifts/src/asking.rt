//! The leaps of a game, and the queries for them.
ghost use Rattle.std.specs.Prelude.{◌*◌, ◌<◌, ◌≤◌, ◌^◌, All, length};
ghost use Rattle.rbg_shifts.specs.Entries.{IsWithin};

use crate::entries::find_entry;
use crate::origin::Origin;
use crate::table::Entry;
use crate::target::Target;
use rbg_auto::{Expr, at_or};
use rbg_base::{Position, Vertex};

/// The leaps of a game: where shifts alone lead from each place in the rules and each vertex. `leaps` makes them once.
/// A query doesn't allocate.
#[derive(Drop)]
pub struct Leaps {
    /// For each position, from 0 on, and each vertex, the entry of what comes after the position.
    pub(crate) afters: Vec<Entry>,
    /// The node at the beginning of the rules.
    pub(crate) rules: usize,
    /// The node at the beginning of what is inside each position.
    pub(crate) insides: Vec<usize>,
    pub(crate) vertices: usize,
    /// An entry for each node and each vertex.
    pub(crate) entries: Vec<Entry>,
    pub(crate) targets: Vec<Target>,
    ghost few: { vertices < 2 ^ 32 },
    ghost within: { All (IsWithin (length targets.items)) afters.items },
    ghost begins: { All (IsWithin (length targets.items)) entries.items },
    ghost first: { rules * vertices ≤ length entries.items },
    ghost nodes: { All (λ n. n * vertices ≤ length entries.items) insides.items },
}

impl Leaps {
    ghost use Rattle.std.specs.Prelude.{◌≡◌, ◌+◌, ◌*◌, ◌<◌, ◌≤◌, ◌↔◌, slice_range, IfSome, IfNone, IsTrue};
    ghost use Rattle.rbg_rules.specs.Meaning.{IsStart, AbstractGame};
    ghost use Rattle.rbg_shifts.specs.declared.origin.Origin.TheVariants.{Begin, After};
    ghost use Rattle.rbg_shifts.specs.Leaps.{EndsAcross};
    ghost use Rattle.rbg_shifts.specs.Origin.{start_of};
    ghost use Rattle.rbg_shifts.specs.Asked.{AreTargetsFrom};
    ghost use Rattle.rbg_shifts.specs.Made.{no_entry, node_of, entry_of, AreLeapsOf};

    /// The entry of what comes after a position, and of a vertex, if it is there.
    #[inline(always)]
    fn after(&self, position: Position, vertex: Vertex) -> Option<&Entry>
        ensures some { IfSome result (λ entry. entry.now ≡ entry_of self.now (After position) vertex) }
        ensures within { IfSome result (λ entry. IsWithin (length self.now.targets.items) entry.now) }
        ensures none { IfNone result (entry_of self.now (After position) vertex ≡ no_entry) }
    {
        let row = position as usize * self.vertices;
        find_entry(&self.afters, row + vertex as usize)
    }

    /// The node at the beginning of an expression.
    #[inline(always)]
    fn node(&self, expr: Expr) -> usize
        ensures node { result ≡ node_of self.now expr }
        ensures there { result * self.now.vertices ≤ length self.now.entries.items }
    {
        match expr {
            Expr::Rules => self.rules,
            Expr::Inside(position) => at_or(&self.insides, position, 0),
        }
    }

    /// The entry of the beginning of an expression, and of a vertex, if it is there.
    #[inline(always)]
    fn begin(&self, expr: Expr, vertex: Vertex) -> Option<&Entry>
        ensures some { IfSome result (λ entry. entry.now ≡ entry_of self.now (Begin expr) vertex) }
        ensures within { IfSome result (λ entry. IsWithin (length self.now.targets.items) entry.now) }
        ensures none { IfNone result (entry_of self.now (Begin expr) vertex ≡ no_entry) }
    {
        let row = self.node(expr) * self.vertices;
        find_entry(&self.entries, row + vertex as usize)
    }

    /// The entry of an origin and a vertex, if it is there.
    #[inline(always)]
    fn entry(&self, origin: Origin, vertex: Vertex) -> Option<&Entry>
        ensures some { IfSome result (λ entry. entry.now ≡ entry_of self.now origin vertex) }
        ensures within { IfSome result (λ entry. IsWithin (length self.now.targets.items) entry.now) }
        ensures none { IfNone result (entry_of self.now origin vertex ≡ no_entry) }
    {
        match origin {
            Origin::After(position) => self.after(position, vertex),
            Origin::Begin(expr) => self.begin(expr, vertex),
        }
    }

    /// `many` targets from `start` on.
    #[inline(always)]
    fn targets_from(&self, start: u32, many: u16) -> &[Target]
        requires { start + many ≤ length self.now.targets.items }
        ensures { result.now ≡ slice_range self.now.targets.items start (start + many) }
    {
        let start = start as usize;
        &self.targets[start..start + many as usize]
    }

    /// The positions to which leaps lead from an origin and a vertex, with their vertices, and whether words may end with
    /// shifts alone, or with nothing, from there.
    #[inline(always)]
    pub fn leads(&self, origin: Origin, vertex: Vertex) -> (&[Target], bool)
        ensures from { (game : AbstractGame) → AreLeapsOf game self.now → vertex < length game.board.first
            → IsStart game.rules (start_of origin)
            → AreTargetsFrom game (start_of origin) vertex result.0.now }
        ensures ends { (game : AbstractGame) → AreLeapsOf game self.now → vertex < length game.board.first
            → IsStart game.rules (start_of origin)
            → IsTrue result.1 ↔ EndsAcross game (start_of origin) vertex }
    {
        match self.entry(origin, vertex) {
            Some(entry) => (self.targets_from(entry.start, entry.many), entry.ends),
            None => (self.targets_from(0, 0), false),
        }
    }
}
