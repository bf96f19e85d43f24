//! Fills a macro's body with the arguments of a call.
ghost use Rattle.std.specs.Prelude.{◌≡◌, ◌+◌, ◌<◌, ◌≤◌, ◌++◌, List, [], length, map, slice_get, unwrap_or};
ghost use Rattle.std.specs.Prelude.{All, MatchOption, IfOk, OnOk};
ghost use Rattle.rbg_macro.specs.Macro.{Macro, filled, filled_item};
ghost use Rattle.rbg_macro.specs.internal.Marks.{AreMarkedLists, FillsMarks, IsMarked, IsMarkedItem};
ghost use Rattle.rbg_macro.specs.internal.ReadTokens.{read_lexeme};
ghost use Rattle.rbg_macro.specs.internal.Template.{item_in, lists_in};

use crate::macros::BodyItem;
use crate::read_token::ReadToken;
use rbg_base::Memory;
use std::alloc::Global;

/// The argument with this index, or no tokens.
fn argument_at<'t, 'j>(
    arguments: &[&'j [ReadToken<'t, 'j>]],
    index: usize,
) -> &'j [ReadToken<'t, 'j>]
    ensures tokens { map read_lexeme result.now
        ≡ unwrap_or (slice_get (lists_in arguments.now) index) [] }
    ensures marks { (macros : List Macro) → AreMarkedLists macros arguments.now
        → All (IsMarked macros) result.now }
{
    if index < arguments.len() {
        return arguments[index];
    }
    &[]
}

/// How many tokens an item becomes.
fn item_len<'t, 'j>(item: &BodyItem<'t>, arguments: &[&'j [ReadToken<'t, 'j>]]) -> usize
    ensures { result ≡ length (filled_item (lists_in arguments.now) (item_in item.now)) }
{
    match item {
        BodyItem::Word(_) => 1,
        BodyItem::Place(index) => argument_at(arguments, *index).len(),
    }
}

/// How many tokens the body becomes, if there is room for them.
pub(crate) fn filled_len<'t, 'j>(
    body: &[BodyItem<'t>],
    arguments: &[&'j [ReadToken<'t, 'j>]],
    room: usize,
) -> Option<usize>
    ensures { MatchOption result (room
        < length (filled (map item_in body.now) (lists_in arguments.now)))
        (λ n. (n ≡ length (filled (map item_in body.now) (lists_in arguments.now))) × (n ≤ room)) }
{
    let mut len = 0;
    for item in body {
        let more = item_len(item, arguments);
        if more > room - len {
            return None;
        }
        len += more;
    }
    Some(len)
}

/// Adds what an item becomes.
fn push_item<'t, 'j>(
    tokens: &mut Vec<ReadToken<'t, 'j>>,
    item: &BodyItem<'t>,
    arguments: &[&'j [ReadToken<'t, 'j>]],
) -> Result<(), Memory>
    ensures tokens { OnOk result (map read_lexeme tokens.new.items
        ≡ map read_lexeme tokens.old.items ++ filled_item
        (lists_in arguments.now) (item_in item.now)) }
    ensures marks { OnOk result ((macros : List Macro) → All (IsMarked macros) tokens.old.items →
        IsMarkedItem macros item.now → AreMarkedLists macros arguments.now
        → All (IsMarked macros) tokens.new.items) }
{
    match item {
        BodyItem::Word(token) => tokens.push(*token)?,
        BodyItem::Place(index) => tokens.extend_from_slice(argument_at(arguments, *index))?,
    }
    Ok(())
}

/// The body with the arguments put in, which has `len` tokens.
pub(crate) fn fill<'t, 'j>(
    alloc: Global,
    body: &[BodyItem<'t>],
    arguments: &[&'j [ReadToken<'t, 'j>]],
    len: usize,
) -> Result<Vec<ReadToken<'t, 'j>>, Memory>
    ensures tokens { IfOk result (λ v.
        map read_lexeme v.items ≡ filled (map item_in body.now) (lists_in arguments.now)) }
    ensures marks { IfOk result (λ v. FillsMarks body.now arguments.now v.items) }
{
    let mut tokens = Vec::with_capacity(alloc, len)?;
    for item in body {
        push_item(&mut tokens, item, arguments)?;
    }
    Ok(tokens)
}
