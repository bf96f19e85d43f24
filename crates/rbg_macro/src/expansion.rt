//! Expansion: the sections, with the calls of macros replaced.
ghost use Rattle.std.specs.Prelude.{All, ℕ, ◌≡◌, ◌+◌, ◌-◌, ◌<◌, ◌≤◌, [], ◌∷◌, ◌++◌, length, map, Ok, Err};
ghost use Rattle.std.specs.Prelude.{IfOk, IfErr, IfSome, OnOk, MatchOption};
ghost use Rattle.std.specs.List.{list_any};
ghost use Rattle.rbg_macro.specs.Call.{Stays, meets};
ghost use Rattle.rbg_macro.specs.Expansion.{ExpandsWithin, Fails, FailsReading, FailsAll, HasSections, HasMacroFault};
ghost use Rattle.rbg_macro.specs.internal.Defines.{section_of};
ghost use Rattle.rbg_macro.specs.Errors.{UnlessMemory};
ghost use Rattle.rbg_macro.specs.Kinds.{is_symbol};
ghost use Rattle.rbg_macro.specs.declared.token.Symbol.TheVariants as symbols;
ghost use Rattle.rbg_macro.specs.internal.Marks.{IsMarked};
ghost use Rattle.rbg_macro.specs.internal.ExpandedTokens.{ReadsOn, ReadsJoined, ReadsSection, FailsJoined, GivesWay};
ghost use Rattle.rbg_macro.specs.internal.ExpandedTokens.{IsTooMany, IsWithinLimits};
ghost use Rattle.rbg_macro.specs.internal.Span.{section_in, IsSectionWithin};
ghost use Rattle.rbg_macro.specs.internal.ReadTokens.{read_lexeme};

use crate::buffer::TokenBuffer;
use crate::call::{Call, read_arguments};
use crate::definition::{SectionBody, read_definitions};
use crate::error::MacroError;
use crate::filling::{fill, filled_len};
use crate::joining::join;
use crate::limits::{MAX_KEPT, MAX_LEVEL, MAX_READ};
use crate::marking::MarkedMacros;
use crate::read_token::ReadToken;
use crate::source::{SectionSpan, Source};
use crate::token::{Symbol, Tokens};
use smallvec::SmallVec;
use std::alloc::Global;

/// How far an expansion has come: how many tokens were read, and which were kept.
#[derive(Drop)]
struct ExpandedTokens<'t> {
    read: usize,
    kept: TokenBuffer<'t>,
}

impl<'t> ExpandedTokens<'t> {
    /// Counts the tokens of a list.
    fn count(&mut self, len: usize)
        requires { self.old.read + len ≤ MAX_READ }
        ensures { self.new ≡ record self.old { read = self.old.read + len } }
    {
        self.read += len;
    }

    /// Keeps a token that stays.
    fn keep(&mut self, token: &ReadToken<'t, '_>) -> Result<(), MacroError>
        ensures ok { OnOk result (self.new
            ≡ record self.old { kept = self.old.kept ++ read_lexeme token.now ∷ [] }) }
        ensures fits { OnOk result (length self.old.kept < MAX_KEPT) }
        ensures err { IfErr result (UnlessMemory (λ e.
            IsTooMany e (MAX_KEPT ≤ length self.old.kept))) }
    {
        if self.kept.len() >= MAX_KEPT {
            return Err(MacroError::TooManyTokens);
        }
        self.kept.push(token)?;
        Ok(())
    }
}

/// A token of a list, which may be the name of a macro, and the tokens after it.
#[derive(Clone, Copy)]
struct Site<'t, 'j> {
    name: &'j ReadToken<'t, 'j>,
    beyond: &'j [ReadToken<'t, 'j>],
}

/// The tokens that replace a call, and the number of tokens of the call after the macro's name. Returns `None` if the
/// token isn't the name of a macro.
fn body_of_call<'t, 'j>(
    alloc: Global,
    macros: &MarkedMacros<'t>,
    level: usize,
    site: Site<'t, 'j>,
    read: usize,
) -> Result<Option<(Vec<ReadToken<'t, 'j>>, usize)>, MacroError>
    requires within { read ≤ MAX_READ }
    requires named { IsMarked macros.now site.name.now }
    requires beyond { All (IsMarked macros.now) site.beyond.now }
    ensures ok { IfOk result (λ o. MatchOption o
        (meets macros.now (read_lexeme site.entry.name.now) (map read_lexeme site.entry.beyond.now) ≡ Stays)
        (λ x. GivesWay macros.now level (read_lexeme site.entry.name.now) (map read_lexeme site.entry.beyond.now) read
        (map read_lexeme x.0.items) x.1)) }
    ensures marked { IfOk result (λ o. IfSome o (λ x. All (IsMarked macros.now) x.0.items)) }
    ensures err { IfErr result (UnlessMemory (λ e. (k : ℕ) →
        FailsReading macros.now level read k (read_lexeme site.entry.name.now
        ∷ map read_lexeme site.entry.beyond.now) e)) }
{
    let Some(template) = macros.get(site.name) else {
        return Ok(None);
    };
    let mut call = Call {
        body: template.body.as_slice(),
        arguments: SmallVec::new(alloc),
    };
    let len = read_arguments(&mut call.arguments, template, site.name.at, site.beyond)?;
    if level >= MAX_LEVEL {
        return Err(MacroError::Depth { at: site.name.at });
    }
    let Some(count) = filled_len(call.body, &call.arguments, MAX_READ - read) else {
        return Err(MacroError::TooManyTokens);
    };
    let filled = fill(alloc, call.body, &call.arguments, count)?;
    Ok(Some((filled, len)))
}

/// Whether the list has a `~`. A list without one is joined already.
fn has_tilde(list: &[ReadToken<'_, '_>]) -> bool
    ensures { result ≡ list_any (λ t. is_symbol symbols.Tilde t.kind) list.now }
{
    list.iter().any(|t| t.kind.is(Symbol::Tilde))
}

/// Joins a list that was counted, and reads it.
#[cycle(expansion)]
fn read_list<'t, 'j>(
    alloc: Global,
    macros: &MarkedMacros<'t>,
    level: usize,
    list: &'j [ReadToken<'t, 'j>],
    expanded: &mut ExpandedTokens<'t>,
) -> Result<(), MacroError>
    requires level { level ≤ MAX_LEVEL }
    requires within { IsWithinLimits expanded.old }
    requires marked { All (IsMarked macros.now) list.now }
    ensures ok { OnOk result (ReadsJoined macros.now level (map read_lexeme list.now) expanded.old
        expanded.new) }
    ensures err { IfErr result (UnlessMemory
        (FailsJoined macros.now level (map read_lexeme list.now) expanded.old)) }
{
    if !has_tilde(list) {
        return read_joined(alloc, macros, level, list, expanded);
    }
    let joined = join(alloc, macros, list)?;
    let tokens = joined.tokens(alloc)?;
    read_joined(alloc, macros, level, &tokens, expanded)
}

/// Reads a joined list: keeps the tokens that stay, and expands the calls.
#[cycle(expansion)]
fn read_joined<'t, 'j>(
    alloc: Global,
    macros: &MarkedMacros<'t>,
    level: usize,
    list: &'j [ReadToken<'t, 'j>],
    expanded: &mut ExpandedTokens<'t>,
) -> Result<(), MacroError>
    requires level { level ≤ MAX_LEVEL }
    requires within { IsWithinLimits expanded.old }
    requires marked { All (IsMarked macros.now) list.now }
    ensures ok { OnOk result (ReadsOn macros.now level (map read_lexeme list.now) expanded.old
        expanded.new) }
    ensures err { IfErr result (UnlessMemory (FailsReading macros.now level expanded.old.read
        (length expanded.old.kept) (map read_lexeme list.now))) }
{
    let mut at = 0;
    while at < list.len() {
        let site = Site {
            name: &list[at],
            beyond: &list[at + 1..],
        };
        match body_of_call(alloc, macros, level, site, expanded.read)? {
            None => {
                expanded.keep(&list[at])?;
                at += 1;
            }
            Some((body, len)) => {
                expanded.count(body.len());
                read_list(alloc, macros, level + 1, &body, expanded)?;
                at += len + 1;
            }
        }
    }
    Ok(())
}

/// Expands a section. Its tokens are kept after those of the earlier sections.
fn read_section<'t>(
    alloc: Global,
    macros: &MarkedMacros<'t>,
    section: &SectionBody<'t, '_>,
    expanded: &mut ExpandedTokens<'t>,
) -> Result<SectionSpan, MacroError>
    requires { IsWithinLimits expanded.old }
    ensures ok { IfOk result (ReadsSection macros.now (section_of section.now) expanded.old
        expanded.new) }
    ensures err { IfErr result (UnlessMemory
        (Fails macros.now 0 expanded.old.read (length expanded.old.kept)
        (section_of section.now).tokens)) }
{
    if section.tokens.len() > MAX_READ - expanded.read {
        return Err(MacroError::TooManyTokens);
    }
    let tokens = macros.mark_all(alloc, section.tokens)?;
    let start = expanded.kept.len();
    expanded.count(tokens.len());
    read_list(alloc, macros, 0, &tokens, expanded)?;
    Ok(SectionSpan {
        kind: section.kind,
        at: section.at,
        start,
        end: expanded.kept.len(),
    })
}

/// Expands the sections one by one. Returns the tokens that were kept, and where each section's tokens are among them.
/// Only the bytes of joined tokens are copied.
fn expand_sections<'t>(
    alloc: Global,
    macros: &MarkedMacros<'t>,
    bodies: &[SectionBody<'t, '_>],
) -> Result<(TokenBuffer<'t>, Vec<SectionSpan>), MacroError>
    ensures within { IfOk result (λ x. All (IsSectionWithin (length x.0)) x.1.items) }
    ensures ok { IfOk result (λ x. ExpandsWithin macros.now (map section_of bodies.now)
        (map (section_in x.0) x.1.items)) }
    ensures err { IfErr result (UnlessMemory
        (FailsAll macros.now 0 0 (map section_of bodies.now))) }
{
    let mut expanded = ExpandedTokens {
        read: 0,
        kept: TokenBuffer::new(alloc),
    };
    let mut sections = Vec::with_capacity(alloc, bodies.len())?;
    for body in bodies {
        let section = read_section(alloc, macros, body, &mut expanded)?;
        sections.push(section)?;
    }
    Ok((expanded.kept, sections))
}

/// The sections that the tokens define, expanded: each macro call is replaced by the macro's body with the call's
/// arguments, and `~` joins its two neighbours. The source borrows the text, and not the tokens.
pub fn expand<'t>(alloc: Global, tokens: &Tokens<'t>) -> Result<Source<'t>, MacroError>
    ensures sections { IfOk result (HasSections tokens.now) }
    ensures fault { IfErr result (HasMacroFault tokens.now) }
{
    let definitions = read_definitions(alloc, tokens.as_slice())?;
    let macros = MarkedMacros::new(alloc, definitions.macros)?;
    let (kept, sections) = expand_sections(alloc, &macros, &definitions.sections)?;
    Ok(Source::new(kept, sections))
}
