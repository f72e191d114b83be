//! What is proved of the definitions of this crate. Each function does nothing and has a law for its contract; the laws are stated in `specs/Laws.antt`.
ghost use Rattle.mau_logic.specs.Laws.{RunsAreLed, SortsAreShown, SectionsAreDerivable, FactsAreWritten, FactsHold, SectionsAreSound, LedIsSo, AxiomsAloneHold};

/// A sort by declarations, and by what facts tell of other terms, is shown by these facts.
pub fn sorts_are_shown()
    ensures { SortsAreShown }
{}

/// Each told run is led by one derivable fact from its start to its end.
pub fn runs_are_led()
    ensures { RunsAreLed }
{}

/// All that a justified section says is derivable.
pub fn sections_are_derivable()
    ensures { SectionsAreDerivable }
{}

/// What is derivable can be said by the last of some justified facts, over terms that have all which it names.
pub fn facts_are_written()
    ensures { FactsAreWritten }
{}

/// What a derivable fact says holds in rewriting logic.
pub fn facts_hold()
    ensures { FactsHold }
{}

/// All that a justified section says holds in rewriting logic.
pub fn sections_are_sound()
    ensures { SectionsAreSound }
{}

/// What is led to by a derivable fact is equal, or rewritten to, in rewriting logic; with `runs_are_led` so is the end of each told run.
pub fn led_is_so()
    ensures { LedIsSo }
{}

/// Without statements and built-ins, equal in rewriting logic are just the terms that are equal modulo the axioms.
pub fn axioms_alone_hold()
    ensures { AxiomsAloneHold }
{}
