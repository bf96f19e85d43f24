//! Which sections a source has.
ghost use Rattle.std.specs.Prelude.{◌≡◌, ◌≤◌, ◌<◌, ◌↔◌, length, slice_get, take, IfErr, IsTrue, OnOk};
ghost use Rattle.rbg_grammar.specs.Sections.{AreDifferent, count_of, sections_of};
ghost use Rattle.rbg_syntax.specs.Faults.{IsTwice};

use crate::error::SyntaxError;
use rbg_macro::{Section, SectionKind, Source};

/// The first section of this kind.
pub(crate) fn find<'a>(source: &'a Source<'_>, kind: SectionKind) -> Option<Section<'a>>
    ensures { result ≡ slice_get (sections_of kind source.now) 0 }
{
    for index in 0..source.len() {
        let section = source.section(index);
        if section.kind() == kind {
            return Some(section);
        }
    }
    None
}

/// Whether one of the first `end` sections is of this kind.
fn stands_before(source: &Source<'_>, kind: SectionKind, end: usize) -> bool
    requires { end ≤ length source.now }
    ensures { IsTrue result ↔ (0 < count_of kind (take end source.now)) }
{
    for index in 0..end {
        if source.section(index).kind() == kind {
            return true;
        }
    }
    false
}

/// Returns an error if there are two sections of one kind. It names the first section, in order of the text, whose
/// kind came before.
pub(crate) fn refuse_twice(source: &Source<'_>) -> Result<(), SyntaxError>
    ensures once { OnOk result (AreDifferent source.now) }
    ensures twice { IfErr result (IsTwice source.now) }
{
    for index in 0..source.len() {
        let which = source.section(index).kind();
        if stands_before(source, which, index) {
            return Err(SyntaxError::SectionTwice { which });
        }
    }
    Ok(())
}
