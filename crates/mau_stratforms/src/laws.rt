//! What is proved of leaves by numbers. The function does nothing and has a law for its contract, which is stated in `specs/Tables.antt`.
ghost use Rattle.mau_stratforms.specs.Tables.{TablesTellApart};

/// Numbers of leaves stand for one only if they are one, and for leaves.
pub fn tables_tell_apart()
    ensures { TablesTellApart }
{}
