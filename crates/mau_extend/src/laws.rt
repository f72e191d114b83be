//! What is proved of widened patterns. Each function does nothing and has a law for its contract; the laws are stated in `specs/Laws.antt`.
ghost use Rattle.mau_extend.specs.Laws.{WideOnesAreParts, PartsAreWideOnes};

/// Solutions of a widened pattern are solutions with contexts.
pub fn wide_ones_are_parts()
    ensures { WideOnesAreParts }
{}

/// Solutions with contexts are solutions of a widened pattern.
pub fn parts_are_wide_ones()
    ensures { PartsAreWideOnes }
{}
