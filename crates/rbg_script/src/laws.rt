//! Laws of the lines of a script. The contract of each function is a law; its body does nothing.
ghost use Rattle.rbg_script.specs.Laws.{InputsAreApart, ScriptsAreApart, SpellingsAreApart, WrittenIsRead};

/// A text spells at most one config or one event.
pub fn spellings_are_apart()
    ensures { SpellingsAreApart }
{}

/// What is written is read back.
pub fn written_is_read()
    ensures { WrittenIsRead }
{}

/// A text spells at most one script, and none if a line of it isn't of its form.
pub fn scripts_are_apart()
    ensures { ScriptsAreApart }
{}

/// An input is cut in one way at most.
pub fn inputs_are_apart()
    ensures { InputsAreApart }
{}
