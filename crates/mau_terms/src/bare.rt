//! Bare terms.
ghost use Rattle.std.specs.Prelude.{◌≡◌, ◌↔◌, map, IfOk, IsTrue};
ghost use Rattle.mau_terms.specs.View.{tree_of};

use crate::{Duplicate, NoMemory, OpId, Seq, VarId};
use std::alloc::Global;
use std::marker::Model;

/// A term as it is written: a variable, a numeral, or an operator over its arguments.
#[cycle(bare)]
#[derive(Drop, Debug)]
pub enum Bare {
    Var(VarId),
    Num(u128),
    App(OpId, Args),
}

/// The arguments of an operator, seen as the list of their trees.
#[cycle(bare)]
#[derive(Drop, Debug)]
pub struct Args {
    items: Vec<Bare>,
}

/// A substitution: variables with their values.
pub type Subst = Seq<(VarId, Bare)>;

impl Model for Args {
    ghost use Rattle.std.specs.Prelude.{List};
    ghost use Rattle.std.specs.Coded.{coded_list};
    ghost use Rattle.mau_terms.specs.Tree.{Tree};
    ghost use Rattle.mau_terms.specs.Code.{tree_code};
    ghost use Rattle.mau_terms.specs.Depth.{list_depth};

    ghost Value = { List Tree };

    ghost coded = { coded_list tree_code };

    ghost use Rattle.mau_terms.specs.View.{argument_trees};

    ghost view = { argument_trees };

    ghost size = { list_depth };

    ghost use Rattle.std.proofs.Common.{arith};
    ghost use Rattle.mau_terms.specs.Falls.{most_le-list_depth};

    ghost size_decreases = { λ a h. Prim.omega (arith, most_le-list_depth a.items.items) };
}

impl Args {
    /// The arguments of this list.
    pub fn new(items: Vec<Bare>) -> Args
        ensures { result ≡ map tree_of items.items }
    {
        Args { items }
    }

    /// The arguments in order.
    pub fn items(&self) -> &[Bare]
        ensures { map tree_of result.now ≡ self.now }
    {
        &self.items
    }

    /// An equal list of arguments.
    #[cycle(copy)]
    pub fn copy(&self, alloc: Global) -> Result<Args, NoMemory>
        ensures { IfOk result (λ a. a ≡ self.now) }
    {
        let mut copies = Vec::with_capacity(alloc, self.items.len())?;
        for item in &self.items {
            copies.push(item.copy(alloc)?)?;
        }
        Ok(Args { items: copies })
    }

    /// Whether the two lists are one.
    #[cycle(same)]
    pub fn same(&self, other: &Args) -> bool
        ensures { IsTrue result ↔ self.now ≡ other.now }
    {
        if self.items.len() != other.items.len() {
            return false;
        }
        for i in 0..self.items.len() {
            if !self.items[i].same(&other.items[i]) {
                return false;
            }
        }
        true
    }
}

impl Bare {
    /// An equal term.
    #[cycle(copy)]
    pub fn copy(&self, alloc: Global) -> Result<Bare, NoMemory>
        ensures { IfOk result (λ b. b ≡ self.now) }
    {
        match self {
            Bare::Var(v) => Ok(Bare::Var(*v)),
            Bare::Num(n) => Ok(Bare::Num(*n)),
            Bare::App(op, args) => Ok(Bare::App(*op, args.copy(alloc)?)),
        }
    }

    /// Whether the two are one tree.
    #[cycle(same)]
    pub fn same(&self, other: &Bare) -> bool
        ensures { IsTrue result ↔ tree_of self.now ≡ tree_of other.now }
    {
        match (self, other) {
            (Bare::Var(v), Bare::Var(w)) => v == w,
            (Bare::Num(m), Bare::Num(n)) => m == n,
            (Bare::App(f, ts), Bare::App(g, us)) => f == g && ts.same(us),
            _ => false,
        }
    }
}

impl Duplicate for Bare {
    fn copy(&self, alloc: Global) -> Result<Bare, NoMemory> {
        self.copy(alloc)
    }
}
