//! Expands macros, and keeps where each token comes from.

use crate::definition::Definition;
use crate::item::{Arguments, Item};
use crate::unrolled::{TokenOrigin, Unrolled};
use rbg_macro::{MAX_KEPT, MAX_READ, Symbol, Token};
use std::alloc::{AllocError, Global};

/// The maximum number of tokens that are kept: those that a description may have, and the heads of five sections.
const MOST_KEPT: usize = MAX_KEPT + 15;

/// How far an expansion has come.
pub(crate) struct Unroller {
    alloc: Global,
    /// The bytes of the text, and after them those of joined tokens.
    bytes: Vec<u8>,
    /// The tokens that are still to be read, the next one last.
    pending: Vec<Item>,
    /// The tokens that stay.
    kept: Vec<Item>,
    calls: Vec<TokenOrigin>,
    /// How many tokens were read.
    read: usize,
    too_long: Option<TokenOrigin>,
}

/// Written by hand: dropping it is then one call in the proofs of its owners, not a step for each part.
impl Drop for Unroller {
    fn drop(self) {
        let Unroller {
            alloc: _,
            bytes: _,
            pending: _,
            kept: _,
            calls: _,
            read: _,
            too_long: _,
        } = self;
    }
}

impl Unroller {
    /// Nothing was expanded yet of a text with these bytes.
    pub fn new(alloc: Global, bytes: Vec<u8>) -> Unroller {
        Unroller {
            alloc,
            bytes,
            pending: Vec::new(alloc),
            kept: Vec::new(alloc),
            calls: Vec::new(alloc),
            read: 0,
            too_long: None,
        }
    }

    /// Expands a section.
    pub fn unroll_section(
        &mut self,
        definitions: &[Definition<'_>],
        section: &Definition<'_>,
    ) -> Result<(), AllocError> {
        for token in [section.hash, section.name, section.equals] {
            self.kept.push(Item::of(&token, None))?;
        }
        let list = items_of(self.alloc, section.body)?;
        self.lay(&list)?;
        self.read_pending(definitions)
    }

    /// Reads tokens as long as some are pending.
    fn read_pending(&mut self, definitions: &[Definition<'_>]) -> Result<(), AllocError> {
        for _ in 0..MAX_READ {
            match self.pending.pop() {
                Some(item) => self.read_item(definitions, item)?,
                None => return Ok(()),
            }
        }
        Ok(())
    }

    /// Keeps a token, or expands the call that it begins.
    fn read_item(&mut self, definitions: &[Definition<'_>], item: Item) -> Result<(), AllocError> {
        match macro_named(definitions, self.bytes_of(&item)) {
            Some(definition) if item.kind.is_name() => self.expand(item, &definition),
            _ => self.keep(item),
        }
    }

    /// Keeps a token, if the limits allow it.
    fn keep(&mut self, item: Item) -> Result<(), AllocError> {
        if self.kept.len() < MOST_KEPT {
            self.kept.push(item)?;
        } else {
            self.stop(self.last_call(item));
        }
        Ok(())
    }

    /// Keeps where the limits were reached first, and reads no further.
    fn stop(&mut self, origin: TokenOrigin) {
        if self.too_long.is_none() {
            self.too_long = Some(origin);
        }
        self.pending.clear();
    }

    /// Where the call comes from that put a token, or the token itself.
    fn last_call(&self, item: Item) -> TokenOrigin {
        match item.origin.call {
            Some(call) => self.calls.get(call).copied().unwrap_or(item.origin),
            None => item.origin,
        }
    }

    /// Puts the body of a macro that a name calls.
    fn expand(&mut self, name: Item, definition: &Definition<'_>) -> Result<(), AllocError> {
        let call = self.calls.len();
        self.calls.push(name.origin)?;
        let mut arguments = Arguments::new(self.alloc);
        if definition.has_parameters() {
            self.take_arguments(&mut arguments)?;
        }
        let list = filled(self.alloc, definition, &arguments, call)?;
        if self.read.saturating_add(list.len()) > MAX_READ {
            self.stop(name.origin);
            return Ok(());
        }
        self.lay(&list)
    }

    /// Takes the arguments of a call, with its parentheses.
    fn take_arguments(&mut self, arguments: &mut Arguments) -> Result<(), AllocError> {
        let mut further = 0usize;
        for index in 0..self.pending.len() {
            let Some(item) = self.pending.pop() else {
                return Ok(());
            };
            // the first one is the call's own `(`
            if index > 0 && further == 0 && item.kind.closes() {
                return arguments.cut();
            }
            if index > 0 {
                push_argument_item(arguments, item, &mut further)?;
            }
        }
        Ok(())
    }

    /// Joins a list of tokens, and puts it before those that are pending.
    fn lay(&mut self, list: &[Item]) -> Result<(), AllocError> {
        self.read = self.read.saturating_add(list.len());
        let joined = self.join_list(list)?;
        for item in joined.iter().rev() {
            self.pending.push(*item)?;
        }
        Ok(())
    }

    /// A list of tokens in which each `~` has joined its neighbours.
    fn join_list(&mut self, list: &[Item]) -> Result<Vec<Item>, AllocError> {
        let mut joined = Vec::new(self.alloc);
        let mut is_joining = false;
        for item in list {
            if item.kind.is(Symbol::Tilde) {
                is_joining = true;
            } else {
                self.push_joined(&mut joined, *item, is_joining)?;
                is_joining = false;
            }
        }
        Ok(joined)
    }

    /// Adds a token, or joins it to the last one.
    fn push_joined(
        &mut self,
        joined: &mut Vec<Item>,
        item: Item,
        is_joining: bool,
    ) -> Result<(), AllocError> {
        if !is_joining {
            joined.push(item)?;
            return Ok(());
        }
        let Some(mut left) = joined.pop() else {
            return Ok(());
        };
        let start = self.bytes.len();
        self.push_copy(&left)?;
        self.push_copy(&item)?;
        left.start = start;
        left.len = left.len.saturating_add(item.len);
        joined.push(left)?;
        Ok(())
    }

    /// Adds the bytes of a token to those of joined tokens.
    fn push_copy(&mut self, item: &Item) -> Result<(), AllocError> {
        for index in item.start..item.start.saturating_add(item.len) {
            let byte = self.bytes.get(index).copied().unwrap_or(b' ');
            self.bytes.push(byte)?;
        }
        Ok(())
    }

    /// The bytes of a token.
    fn bytes_of(&self, item: &Item) -> &[u8] {
        let end = item.start.saturating_add(item.len);
        self.bytes.get(item.start..end).unwrap_or(&[])
    }

    /// The description that was expanded.
    pub fn finish(self) -> Result<Unrolled, AllocError> {
        let mut unrolled = Unrolled {
            text: Vec::new(self.alloc),
            origins: Vec::new(self.alloc),
            calls: Vec::new(self.alloc),
            too_long: self.too_long,
        };
        unrolled.calls.extend_from_slice(&self.calls)?;
        self.write(&mut unrolled)?;
        Ok(unrolled)
    }

    /// Writes the tokens that stay.
    fn write(&self, unrolled: &mut Unrolled) -> Result<(), AllocError> {
        for item in &self.kept {
            unrolled.text.extend_from_slice(self.bytes_of(item))?;
            unrolled.text.push(b' ')?;
            unrolled.origins.push(item.origin)?;
        }
        Ok(())
    }
}

/// Adds a token to the arguments of a call, or cuts them at it, if this many further brackets are open.
fn push_argument_item(
    arguments: &mut Arguments,
    item: Item,
    further: &mut usize,
) -> Result<(), AllocError> {
    if item.kind.opens() {
        *further = further.saturating_add(1);
    } else if item.kind.closes() {
        *further = further.saturating_sub(1);
    } else if *further == 0 && item.kind.is(Symbol::Semicolon) {
        return arguments.cut();
    }
    arguments.push(item)
}

/// The macro of this name.
fn macro_named<'a>(definitions: &[Definition<'a>], name: &[u8]) -> Option<Definition<'a>> {
    for definition in definitions {
        if definition.name.text == name && !definition.is_section() {
            return Some(*definition);
        }
    }
    None
}

/// The tokens of a section's body.
fn items_of(alloc: Global, body: &[Token<'_>]) -> Result<Vec<Item>, AllocError> {
    let mut list = Vec::new(alloc);
    for token in body {
        list.push(Item::of(token, None))?;
    }
    Ok(list)
}

/// The body of a macro with the arguments of a call.
fn filled(
    alloc: Global,
    definition: &Definition<'_>,
    arguments: &Arguments,
    call: usize,
) -> Result<Vec<Item>, AllocError> {
    let mut list = Vec::new(alloc);
    for token in definition.body {
        match definition.parameter_index(token) {
            Some(index) => push_argument(&mut list, arguments.get(index), token, call)?,
            None => list.push(Item::of(token, Some(call)))?,
        }
    }
    Ok(list)
}

/// Adds an argument in place of a parameter.
fn push_argument(
    list: &mut Vec<Item>,
    argument: &[Item],
    parameter: &Token<'_>,
    call: usize,
) -> Result<(), AllocError> {
    for item in argument {
        list.push(item.placed(parameter, call))?;
    }
    Ok(())
}
