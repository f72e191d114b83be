//! What is known of who gives results behind calls that say nothing of it.
ghost use Rattle.std.specs.Prelude.{List};
ghost use Rattle.mau_store.specs.Node.{Node, Extends};
ghost use Rattle.mau_program.specs.declared.program.Program as Typed;
ghost use Rattle.mau_program.specs.Trees.{StrategyOf};
ghost use Rattle.mau_api.specs.Meanings.{Meanings};

use std::marker::Brand;

/// What stays while a run is asked. Who asks picks it.
pub trait Watch {
    /// It is said of the program, the meanings, the leaves and the nodes of the store.
    ghost stays: { Typed.Program → Meanings → List StrategyOf → List Node → Type 0 };

    /// It stays as the store grows.
    ghost stays_on: { (p : Typed.Program) (m : Meanings) (leaves : List StrategyOf) (old new : List Node) → Extends old new → stays p m leaves old → stays p m leaves new };
}

impl Watch for Brand {
    ghost stays = { λ p m leaves nodes. Unit {0} };

    ghost stays_on = { λ p m leaves old new e s. s };
}
