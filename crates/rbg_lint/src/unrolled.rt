//! A description without macros.

use crate::definition::{Definition, definitions};
use crate::unroller::Unroller;
use rbg_macro::Token;
use std::alloc::{AllocError, Global};

/// Where a token of an expanded section comes from.
#[derive(Clone, Copy)]
pub struct TokenOrigin {
    /// The offset in the text of the token itself; of a joined one that of its left part.
    pub at: usize,
    /// The offset of the parameter in a macro's body that it replaces; otherwise its own offset.
    pub place: usize,
    /// The index of the call whose body was put where `place` is. None in a section.
    pub call: Option<usize>,
}

/// A description whose sections are written out without macros.
pub struct Unrolled {
    /// The sections in order of the text, a space after each token.
    pub text: Vec<u8>,
    /// Where each token of `text` comes from.
    pub origins: Vec<TokenOrigin>,
    /// Where the names in calls of macros come from. A call inside another one's body has the larger index.
    pub calls: Vec<TokenOrigin>,
    /// The last call, if the macros expand to more tokens than the limits allow. The rest is left out then.
    pub too_long: Option<TokenOrigin>,
}

/// Written by hand: dropping it is then one call in the proofs of its owners, not a step for each part.
impl Drop for Unrolled {
    fn drop(self) {
        let Unrolled {
            text: _,
            origins: _,
            calls: _,
            too_long: _,
        } = self;
    }
}

impl Unrolled {
    /// Where the call comes from whose body has a token.
    pub fn call_of(&self, origin: TokenOrigin) -> Option<TokenOrigin> {
        self.calls.get(origin.call?).copied()
    }

    /// Where the first call comes from whose name is at an offset of the text.
    pub fn call_at(&self, at: usize) -> Option<TokenOrigin> {
        for call in &self.calls {
            if call.at == at {
                return Some(*call);
            }
        }
        None
    }

    /// Whether a call whose name is at an offset of the text is put by another call at that offset.
    pub fn repeats(&self, at: usize) -> bool {
        let mut next = self.last_call_at(at);
        for _ in 0..self.calls.len() {
            let Some(origin) = next else {
                return false;
            };
            next = self.call_of(origin);
            if is_at(next, at) {
                return true;
            }
        }
        false
    }

    /// Where the last call comes from whose name is at an offset of the text.
    fn last_call_at(&self, at: usize) -> Option<TokenOrigin> {
        let mut last = None;
        for call in &self.calls {
            if call.at == at {
                last = Some(*call);
            }
        }
        last
    }

    /// Where the call in a section comes from that puts a token; or the token itself, if it is in a section.
    pub fn root(&self, origin: TokenOrigin) -> TokenOrigin {
        let mut root = origin;
        for _ in 0..self.calls.len() {
            match self.call_of(root) {
                Some(call) => root = call,
                None => return root,
            }
        }
        root
    }

    /// The offset of the innermost call that has put a token and whose name in the text is this one.
    pub fn named_call(&self, text: &[u8], origin: TokenOrigin, name: &[u8]) -> Option<usize> {
        let mut call = origin;
        for _ in 0..self.calls.len() {
            call = self.call_of(call)?;
            let end = call.at.saturating_add(name.len());
            if text.get(call.at..end).unwrap_or(&[]) == name {
                return Some(call.at);
            }
        }
        None
    }

    /// Where the token with this index comes from.
    pub fn origin(&self, index: usize) -> Option<TokenOrigin> {
        self.origins.get(index).copied()
    }
}

fn is_at(origin: Option<TokenOrigin>, at: usize) -> bool {
    match origin {
        Some(origin) => origin.at == at,
        None => false,
    }
}

/// The sections of a text without macros. These tokens are those of the text, and its heads and calls are right; else some
/// of it is left out.
pub fn unroll(alloc: Global, text: &[u8], tokens: &[Token<'_>]) -> Result<Unrolled, AllocError> {
    let definitions = definitions(alloc, tokens)?;
    let mut unroller = Unroller::new(alloc, text.to_vec(alloc)?);
    unroll_sections(&mut unroller, &definitions)?;
    unroller.finish()
}

/// Unrolls each section.
fn unroll_sections(
    unroller: &mut Unroller,
    definitions: &[Definition<'_>],
) -> Result<(), AllocError> {
    for definition in definitions {
        if definition.is_section() {
            unroller.unroll_section(definitions, definition)?;
        }
    }
    Ok(())
}
