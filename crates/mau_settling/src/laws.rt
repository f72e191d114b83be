//! What is proved of settling. Each function does nothing and has a law for its contract.
ghost use Rattle.mau_settling.specs.Laws.{DueStays, DueEndSorts, SettlingStays, DerivingStays, SettledIsKnown, EntriesHaveDerivations, EntriesAreKnown, ValuesAreTested};
ghost use Rattle.mau_settling.specs.Solving.{ConditionsMayEnd};

/// What is due stays due in a store and a table that grow.
pub fn due_stays()
    ensures { DueStays }
{}

/// Where the sorts of a term end that is due, those of the term end so in which it is due.
pub fn due_end_sorts()
    ensures { DueEndSorts }
{}

/// Settling stands where the store and the table have grown.
pub fn settling_stays()
    ensures { SettlingStays }
{}

/// And what it derives is derived.
pub fn deriving_stays()
    ensures { DerivingStays }
{}

/// Where all is settled, the settling of the term is known.
pub fn settled_is_known()
    ensures { SettledIsKnown }
{}

/// Each sort that an entry tells has a finite derivation.
pub fn entries_have_derivations()
    ensures { EntriesHaveDerivations }
{}

/// Where the condition that is asked ends, settling may end so.
pub fn conditions_may_end()
    ensures { ConditionsMayEnd }
{}

/// The sorts of a term that has an entry are known, and are those of the entry.
pub fn entries_are_known()
    ensures { EntriesAreKnown }
{}

/// Whether settled values have the sorts of variables is known.
pub fn values_are_tested()
    ensures { ValuesAreTested }
{}
