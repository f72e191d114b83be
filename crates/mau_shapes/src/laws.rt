//! What is proved of texts of strategies: each function's contract is a law, and its body is empty.
ghost use Rattle.mau_shapes.specs.Laws.{TextsAreRead, EveryTextHasAnAnswer, FaultsAreOne};

/// No text has two shapes.
pub fn texts_are_read()
    ensures { TextsAreRead }
{}

/// Words are the text of a shape, or one of them is the first at fault.
pub fn every_text_has_an_answer()
    ensures { EveryTextHasAnAnswer }
{}

/// Not both, and not two of them.
pub fn faults_are_one()
    ensures { FaultsAreOne }
{}
