//! What is proved of the definitions. Each function does nothing and has a law for its contract; the laws are stated in `specs/Laws.antt`.
ghost use Rattle.mau_numerals.specs.Laws.{DecimalsAreNumerals, NumeralsAreDecimals};

/// The decimal of a number is a numeral, and has the number for its value.
pub fn decimals_are_numerals()
    ensures { DecimalsAreNumerals }
{}

/// A numeral is the decimal of its value.
pub fn numerals_are_decimals()
    ensures { NumeralsAreDecimals }
{}
