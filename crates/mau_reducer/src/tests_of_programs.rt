//! What a program has to be so that it is evaluated here.
ghost use Rattle.std.specs.Prelude.{◌↔◌, IsTrue};
ghost use Rattle.mau_reducer.specs.Basis.{DerivesNothing};

use mau_api::Program;

/// Whether no membership is executable.
pub fn derives_nothing(program: &Program) -> bool
    ensures { IsTrue result ↔ DerivesNothing program.now }
{
    for membership in program.memberships.items() {
        if membership.exec {
            return false;
        }
    }
    true
}
