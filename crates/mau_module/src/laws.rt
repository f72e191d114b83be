//! What holds of whole modules and of the prelude: each function's contract is a law, and its body is empty.
ghost use Rattle.mau_module.specs.Laws.{ModulesAreOne, PreludeIsLawful, RowsAreNative};

/// Over a library the text of a module says one module, or has one fault, but for the two trees of an ambiguity.
pub fn modules_are_one()
    ensures { ModulesAreOne }
{}

/// A row of the prelude's module of numbers is native by the name that the table of what is built in has for its form.
pub fn rows_are_native()
    ensures { RowsAreNative }
{}

/// The modules of the prelude are lawful: their signatures are accepted, and so is all else that is asked of a program.
pub fn prelude_is_lawful()
    ensures { PreludeIsLawful }
{}
