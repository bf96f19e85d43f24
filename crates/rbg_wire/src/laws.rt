//! Laws of messages and streams. The contract of each function is a law; its body does nothing.
ghost use Rattle.rbg_wire.specs.Laws.{SpellingsAreApart, CutsAsItsPieces, ItemsAreTexts, SpellingsAreItems, TooLongComesOnce, RestsStayShort};
ghost use Rattle.rbg_wire.specs.Whole.{ItemsAreCutAgain};

/// No spelling is the beginning of another, so two messages with the same spelling are equal.
pub fn spellings_are_apart()
    ensures { SpellingsAreApart }
{}

/// How a stream is cut into pieces does not matter.
pub fn cuts_as_its_pieces()
    ensures { CutsAsItsPieces }
{}

/// The items of a stream are the texts before its zero bytes, or `TooLong` for a text with more bytes than the limit.
pub fn items_are_texts()
    ensures { ItemsAreTexts }
{}

/// The items of a stream of spelled messages are the texts of the messages.
pub fn spellings_are_items()
    ensures { SpellingsAreItems }
{}

/// A message is too long as soon as it has one byte more than the limit, and gives one `TooLong`.
pub fn too_long_comes_once()
    ensures { TooLongComesOnce }
{}

/// The part that is kept of an incomplete message is never longer than the limit.
pub fn rests_stay_short()
    ensures { RestsStayShort }
{}

/// Each item of a stream, handed on as a piece of its own, completes itself alone.
pub fn items_are_cut_again()
    ensures { ItemsAreCutAgain }
{}
