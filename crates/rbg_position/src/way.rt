//! The way of shifts from the first vertex to another one.

use rbg_base::{Direction, Memory, Vertex};
use rbg_board::Board;
use std::alloc::Global;

/// A step by which a vertex is reached.
#[derive(Clone, Copy, Drop)]
struct Step {
    from: Vertex,
    direction: Direction,
}

/// The vertices that were reached from vertex 0, in order, and for each vertex the step that reached it.
#[derive(Drop)]
struct Reached {
    steps: Vec<Option<Step>>,
    order: Vec<Vertex>,
}

/// Directions that lead one after the other from vertex 0 to a vertex, as few as possible, or None if there are none.
pub(crate) fn way_to(
    alloc: Global,
    board: &Board,
    goal: Vertex,
) -> Result<Option<Vec<Direction>>, Memory> {
    let width = board.lend().width().min(Direction::MAX as usize);
    let mut reached = Reached::new(alloc, board.len())?;
    for index in 0..board.len() {
        let Some(vertex) = reached.vertex(index) else {
            break;
        };
        for direction in 0..width {
            reached.leave(board, vertex, direction as Direction)?;
        }
    }
    reached.way_to(alloc, goal)
}

impl Reached {
    fn new(alloc: Global, vertices: usize) -> Result<Reached, Memory> {
        let mut steps = Vec::with_capacity(alloc, vertices)?;
        for _ in 0..vertices {
            steps.push(None)?;
        }
        let mut order = Vec::with_capacity(alloc, vertices)?;
        order.push(0)?;
        Ok(Reached { steps, order })
    }

    /// The vertex that was reached as the one of this index.
    fn vertex(&self, index: usize) -> Option<Vertex> {
        match self.order.get(index) {
            Some(vertex) => Some(*vertex),
            None => None,
        }
    }

    /// Goes from a vertex in a direction, if that leads to a vertex that wasn't reached yet.
    fn leave(&mut self, board: &Board, from: Vertex, direction: Direction) -> Result<(), Memory> {
        if from as usize >= board.len() {
            return Ok(());
        }
        match board.step(from, direction) {
            Some(to) => self.reach(to, Step { from, direction }),
            None => Ok(()),
        }
    }

    fn reach(&mut self, to: Vertex, step: Step) -> Result<(), Memory> {
        if to == 0 {
            return Ok(());
        }
        if let Some(slot) = self.steps.get_mut(to as usize) {
            if slot.is_none() {
                *slot = Some(step);
                self.order.push(to)?;
            }
        }
        Ok(())
    }

    /// The way to a vertex, by the steps back from it.
    fn way_to(&self, alloc: Global, goal: Vertex) -> Result<Option<Vec<Direction>>, Memory> {
        let mut way = Vec::new(alloc);
        let mut vertex = goal;
        for _ in 0..self.steps.len() {
            if vertex == 0 {
                break;
            }
            match self.steps.get(vertex as usize) {
                Some(Some(step)) => {
                    way.push(step.direction)?;
                    vertex = step.from;
                }
                _ => return Ok(None),
            }
        }
        way.reverse();
        Ok(Some(way))
    }
}
