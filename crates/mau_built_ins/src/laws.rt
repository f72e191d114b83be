//! What is proved of built-ins. Each function does nothing and has a law for its contract; the laws are stated in `specs/Laws.antt`.
ghost use Rattle.mau_built_ins.specs.Laws.{BuiltInsGiveTheirKind, LiteralsGiveNumerals, NativesGiveNumerals};

/// What is built in gives terms of the kind of its operator, and normal forms but for an argument or a whole list.
pub fn built_ins_give_their_kind()
    ensures { BuiltInsGiveTheirKind }
{}

/// A formula over numerals gives numerals for numerals.
pub fn literals_give_numerals()
    ensures { LiteralsGiveNumerals }
{}

/// So do the native operators.
pub fn natives_give_numerals()
    ensures { NativesGiveNumerals }
{}
