//! What the words of a text are: names of macros and parameters, names that are declared, and what they are used for.

use crate::definitions::{
    Definition, definition_around, has_parameters, macro_named, parameter_named, push_definitions,
};
use crate::expansion::expand_into;
use crate::kinds::{Kind, Kinds, Needed};
use crate::sections::{Body, Step, push_written, written_steps};
use crate::walk::{Inside, Walk};
use crate::words::{Word, push_words, word_bytes};
use rbg_macro::{SectionKind, Symbol, TokenKind};
use std::alloc::{AllocError, Global};

/// What a word is to the macros of its text.
#[derive(Clone, Copy, PartialEq, Eq)]
pub(crate) enum Role {
    /// Nothing.
    Plain,
    /// The name in the head of a definition.
    Head,
    /// A parameter in the head of a macro.
    HeadParameter,
    /// A parameter in the body of its macro.
    Parameter,
    /// The name of a macro without parameters, in a body.
    Replaced,
    /// The name of a macro with parameters, in a body.
    Called,
}

/// What a word is.
#[derive(Clone, Copy)]
pub(crate) struct Mark {
    pub role: Role,
    /// What a thing of this name is declared as.
    pub declared: Kinds,
    /// What the name is used or declared as here.
    pub used: Kinds,
}

/// A thing that a section declares.
#[derive(Clone, Copy)]
pub(crate) struct Thing {
    pub kind: Kind,
    /// The word with its name.
    pub word: usize,
    /// Its number among those of its kind. Players are numbered from 1, and others from 0.
    pub number: usize,
    /// The word with its bound.
    pub bound: Option<usize>,
}

/// A text, as far as it can be understood.
pub(crate) struct Analysis<'t> {
    pub(crate) text: &'t [u8],
    pub(crate) words: Vec<Word>,
    pub(crate) definitions: Vec<Definition>,
    pub(crate) marks: Vec<Mark>,
    pub(crate) things: Vec<Thing>,
    bodies: Vec<Body>,
    alloc: Global,
}

/// Written by hand: dropping an analysis is then one call in the proofs of its owners, not a step for each part.
impl Drop for Analysis<'_> {
    fn drop(self) {
        let Analysis {
            text: _,
            words: _,
            definitions: _,
            marks: _,
            things: _,
            bodies: _,
            alloc: _,
        } = self;
    }
}

impl<'t> Analysis<'t> {
    /// The analysis of a text, whether it describes a game or not.
    pub(crate) fn of(alloc: Global, text: &'t [u8]) -> Result<Analysis<'t>, AllocError> {
        let mut analysis = Analysis {
            text,
            words: Vec::new(alloc),
            definitions: Vec::new(alloc),
            marks: Vec::new(alloc),
            things: Vec::new(alloc),
            bodies: Vec::new(alloc),
            alloc,
        };
        analysis.read()?;
        Ok(analysis)
    }

    fn read(&mut self) -> Result<(), AllocError> {
        push_words(self.alloc, self.text, &mut self.words)?;
        push_definitions(self.text, &self.words, &mut self.definitions)?;
        self.mark_roles()?;
        if !expand_into(self.alloc, self.text, &self.words, &mut self.bodies)? {
            push_written(self.alloc, &self.words, &self.definitions, &mut self.bodies)?;
        }
        self.declare_all()?;
        self.mark_declared();
        self.mark_used()
    }

    /// What the word with this index is.
    pub(crate) fn mark(&self, index: usize) -> Mark {
        self.marks.as_slice().get(index).copied().unwrap_or(Mark {
            role: Role::Plain,
            declared: Kinds::NONE,
            used: Kinds::NONE,
        })
    }

    /// The word with this index.
    pub(crate) fn word(&self, index: usize) -> Option<Word> {
        self.words.as_slice().get(index).copied()
    }

    /// The bytes of the word with this index, none if there is no such word.
    pub(crate) fn bytes(&self, index: usize) -> &'t [u8] {
        word_bytes(self.text, &self.words, index)
    }

    /// Finds what each word is to the macros.
    fn mark_roles(&mut self) -> Result<(), AllocError> {
        for index in 0..self.words.len() {
            let role = self.role_of(index);
            self.marks.push(Mark {
                role,
                declared: Kinds::NONE,
                used: Kinds::NONE,
            })?;
        }
        Ok(())
    }

    fn role_of(&self, index: usize) -> Role {
        match self.word(index) {
            Some(word) if word.kind.is_name() => {
                match definition_around(&self.definitions, index) {
                    Some(definition) => self.role_in(index, definition),
                    None => Role::Plain,
                }
            }
            _ => Role::Plain,
        }
    }

    /// What a name in a definition is to the macros.
    fn role_in(&self, index: usize, definition: Definition) -> Role {
        if index < definition.body {
            return if definition.name == Some(index) {
                Role::Head
            } else {
                Role::HeadParameter
            };
        }
        let name = self.bytes(index);
        if parameter_named(self.text, &self.words, definition, name).is_some() {
            return Role::Parameter;
        }
        match macro_named(self.text, &self.words, &self.definitions, name) {
            Some(called) if has_parameters(&self.words, called) => Role::Called,
            Some(_) => Role::Replaced,
            None => Role::Plain,
        }
    }

    /// Declares what the sections declare.
    fn declare_all(&mut self) -> Result<(), AllocError> {
        for index in 0..self.bodies.len() {
            self.declare(index)?;
        }
        Ok(())
    }

    /// Declares what the section with this index declares.
    fn declare(&mut self, index: usize) -> Result<(), AllocError> {
        let bodies = self.bodies.as_slice();
        let Some(body) = bodies.get(index) else {
            return Ok(());
        };
        let mut declaring = Declaring {
            text: self.text,
            words: &self.words,
            things: &mut self.things,
        };
        match body.section {
            SectionKind::Players => declaring.list(&body.steps, Kind::Player),
            SectionKind::Pieces => declaring.list(&body.steps, Kind::Piece),
            SectionKind::Variables => declaring.list(&body.steps, Kind::Variable),
            SectionKind::Board => declaring.board(self.alloc, &body.steps),
            SectionKind::Rules => Ok(()),
        }
    }

    /// Finds what each name is declared as.
    fn mark_declared(&mut self) {
        for index in 0..self.marks.len() {
            let declared = self.declared_as(index);
            if let Some(mark) = self.marks.as_mut_slice().get_mut(index) {
                mark.declared = declared;
            }
        }
    }

    /// What the name that is the word with this index is declared as.
    fn declared_as(&self, index: usize) -> Kinds {
        match self.word(index) {
            Some(word) if word.kind.is_name() => { self.kinds_named(self.bytes(index)) }
            _ => Kinds::NONE,
        }
    }

    /// What this name is declared as.
    pub(crate) fn kinds_named(&self, name: &[u8]) -> Kinds {
        let mut kinds = Kinds::NONE;
        for thing in &self.things {
            if self.bytes(thing.word) == name {
                kinds = kinds.with(Kinds::of(thing.kind));
            }
        }
        kinds
    }

    /// Finds what each name is used for: by the sections, and then by the bodies that no section calls.
    fn mark_used(&mut self) -> Result<(), AllocError> {
        for index in 0..self.things.len() {
            self.use_thing(index);
        }
        for index in 0..self.bodies.len() {
            self.use_body(index)?;
        }
        for index in 0..self.definitions.len() {
            self.use_definition(index)?;
        }
        Ok(())
    }

    /// Records that a thing's name is used at its declaration.
    fn use_thing(&mut self, index: usize) {
        let things = self.things.as_slice();
        if let Some(thing) = things.get(index).copied() {
            self.add_use(thing.word, Kinds::of(thing.kind));
        }
    }

    fn add_use(&mut self, word: usize, kinds: Kinds) {
        if let Some(mark) = self.marks.as_mut_slice().get_mut(word) {
            mark.used = mark.used.with(kinds);
        }
    }

    /// Finds what the names of the section with this index are used for.
    fn use_body(&mut self, index: usize) -> Result<(), AllocError> {
        let bodies = self.bodies.as_slice();
        let Some(body) = bodies.get(index) else {
            return Ok(());
        };
        let outside = match body.section {
            SectionKind::Rules => Inside::Rules,
            SectionKind::Board => Inside::Edges,
            _ => return Ok(()),
        };
        let mut walk = Walk::new(self.alloc, outside);
        use_steps(&mut walk, &body.steps, &mut self.marks, false)
    }

    /// Finds what the names of a macro's body are used for, if no section has shown it.
    fn use_definition(&mut self, index: usize) -> Result<(), AllocError> {
        let definitions = self.definitions.as_slice();
        let Some(definition) = definitions.get(index).copied() else {
            return Ok(());
        };
        let outside = match definition.section {
            Some(SectionKind::Rules) => Inside::Rules,
            None => Inside::Anything,
            _ => return Ok(()),
        };
        let steps = written_steps(self.alloc, &self.words, definition)?;
        let mut walk = Walk::new(self.alloc, outside);
        use_steps(&mut walk, &steps, &mut self.marks, true)
    }
}

/// Walks over words, and records what their names are used for. If they are the words as they are written, only those
/// without a use get one.
fn use_steps(
    walk: &mut Walk,
    steps: &[Step],
    marks: &mut Vec<Mark>,
    is_written: bool,
) -> Result<(), AllocError> {
    for (index, step) in steps.iter().enumerate() {
        let next = kind_at(steps, index.saturating_add(1));
        use_step(walk, *step, next, marks, is_written)?;
    }
    Ok(())
}

/// The kind of the word with this index.
fn kind_at(steps: &[Step], index: usize) -> Option<TokenKind> {
    Some(steps.get(index)?.kind)
}

/// Records what a name is used for at this point of the walk, and moves past it.
fn use_step(
    walk: &mut Walk,
    step: Step,
    next: Option<TokenKind>,
    marks: &mut Vec<Mark>,
    is_written: bool,
) -> Result<(), AllocError> {
    if let Some(mark) = marks.as_mut_slice().get_mut(step.word) {
        if is_written && mark.role == Role::Called {
            walk.pass_call();
            return Ok(());
        }
        let is_open = !is_written || mark.role == Role::Plain && mark.used.is_none();
        if step.kind.is_name() && !step.is_joined && is_open {
            let needed = if begins_vertex(walk, next) {
                Needed::Vertex
            } else {
                walk.needed()
            };
            mark.used = mark.used.with(mark.declared.where_needed(needed));
        }
    }
    walk.pass(step.kind, next)
}

/// Whether a name at this point of the walk, with this word after it, is that of a vertex.
fn begins_vertex(walk: &Walk, next: Option<TokenKind>) -> bool {
    walk.inside() == Inside::Edges && is_kind(next, Symbol::OpenBracket)
}

fn is_kind(kind: Option<TokenKind>, symbol: Symbol) -> bool {
    match kind {
        Some(kind) => kind.is(symbol),
        None => false,
    }
}

/// What is needed to declare things of a text.
#[derive(Drop)]
struct Declaring<'a> {
    text: &'a [u8],
    words: &'a Vec<Word>,
    things: &'a mut Vec<Thing>,
}

impl Declaring<'_> {
    /// Declares the names of a list outside of brackets, each with the bound in its brackets.
    fn list(&mut self, steps: &[Step], kind: Kind) -> Result<(), AllocError> {
        let mut number = first_number(kind, self.things);
        let mut depth = 0usize;
        for (index, step) in steps.iter().enumerate() {
            if step.kind.opens() {
                depth = depth.saturating_add(1);
            } else if step.kind.closes() {
                depth = depth.saturating_sub(1);
            } else if step.kind.is_name() && depth == 0 {
                self.declare(*step, kind, number, bound_after(steps, index))?;
                number = number.saturating_add(1);
            }
        }
        Ok(())
    }

    /// Declares a thing. One whose name is joined has no word in the text.
    fn declare(
        &mut self,
        step: Step,
        kind: Kind,
        number: usize,
        bound: Option<usize>,
    ) -> Result<(), AllocError> {
        if !step.is_joined {
            self.things.push(Thing {
                kind,
                word: step.word,
                number,
                bound,
            })?;
        }
        Ok(())
    }

    /// Declares the directions and the vertices of a board.
    fn board(&mut self, alloc: Global, steps: &[Step]) -> Result<(), AllocError> {
        let mut walk = Walk::new(alloc, Inside::Edges);
        self.board_steps(&mut walk, steps)
    }

    fn board_steps(&mut self, walk: &mut Walk, steps: &[Step]) -> Result<(), AllocError> {
        let mut directions = 0usize;
        let mut vertices = 0usize;
        for (index, step) in steps.iter().enumerate() {
            let next = kind_at(steps, index.saturating_add(1));
            if step.kind.is_name() && walk.depth() > 0 {
                if begins_vertex(walk, next) {
                    self.declare(*step, Kind::Vertex, vertices, None)?;
                    vertices = vertices.saturating_add(1);
                } else if walk.needed() == Needed::Direction && !self.is_direction(*step) {
                    self.declare(*step, Kind::Direction, directions, None)?;
                    directions = directions.saturating_add(1);
                }
            }
            walk.pass(step.kind, next)?;
        }
        Ok(())
    }

    /// Whether a direction of this name is declared already.
    fn is_direction(&self, step: Step) -> bool {
        let name = word_bytes(self.text, self.words, step.word);
        for thing in self.things.iter() {
            if thing.kind == Kind::Direction
                && word_bytes(self.text, self.words, thing.word) == name
            {
                return true;
            }
        }
        false
    }
}

/// The number of the first thing of a kind. The variables follow the players, which are the first ones.
fn first_number(kind: Kind, things: &[Thing]) -> usize {
    match kind {
        Kind::Player => 1,
        Kind::Variable => count_players(things),
        Kind::Direction | Kind::Piece | Kind::Vertex => 0,
    }
}

fn count_players(things: &[Thing]) -> usize {
    let mut count = 0usize;
    for thing in things {
        if thing.kind == Kind::Player {
            count = count.saturating_add(1);
        }
    }
    count
}

/// The word with the bound in the brackets after a name.
fn bound_after(steps: &[Step], index: usize) -> Option<usize> {
    let open = kind_at(steps, index.saturating_add(1))?;
    let bound = steps.get(index.saturating_add(2))?;
    if open.is(Symbol::OpenParenthesis) && bound.kind == TokenKind::Number {
        Some(bound.word)
    } else {
        None
    }
}
