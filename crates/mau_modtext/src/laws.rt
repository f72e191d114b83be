//! What holds of the items of every text: the function's contract is a law, and its body is empty.
ghost use Rattle.mau_modtext.specs.Laws.{EveryTextHasItems};

/// Words of any kind have items: each fault is that of an item, and none is a fault of the whole text.
pub fn every_text_has_items()
    ensures { EveryTextHasItems }
{}
