//! Laws of pages. The contract of each function is a law; its body does nothing.
ghost use Rattle.rbg_view.specs.Laws.{ChangesLeadOn, EscapedIsPlain};

/// No text can begin or end a tag or an attribute of the page in which it stands.
pub fn escaped_is_plain()
    ensures { EscapedIsPlain }
{}

/// What has changed on the vertices, or in the variables, leads from a place to the next one.
pub fn changes_lead_on()
    ensures { ChangesLeadOn }
{}
