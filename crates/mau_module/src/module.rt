//! Accepted modules.
ghost use Rattle.std.specs.Prelude.{◌≡◌, drop};

use crate::context::texts_of;
use crate::frame::Frame;
use crate::signing::Signed;
use crate::statements::{Counts, Statements};
use mau_declare::{Names, kind_names, write_sort};
use mau_grammar::Grammar;
use mau_program::{Equation, Membership, Program, Rule, StratDecl, StratDef};
use mau_signature::{Decl, Signature};
use mau_terms::{NoMemory, Seq, Text};
use std::alloc::Global;
use std::marker::Model;

/// A module that was accepted, with all that it includes: its name, its sorts by their names, its signature, how its terms are written,
/// its statements, and the strategies that are declared.
#[derive(Drop)]
pub struct Module {
    name: Text,
    depth: u32,
    parts: Vec<usize>,
    sorts: Names,
    // whether a subsort pair makes a sort the lower one
    lower: Vec<bool>,
    grammar: Grammar,
    program: Program,
    // the strategies that are declared
    strats: Vec<StratDecl>,
    // what the module itself declares
    pairs: Vec<(u32, u32)>,
    declarations: Vec<Decl>,
    // how many of the statements and declared strategies are those of modules that it includes
    included: Counts,
}

impl Model for Module {
    ghost use Rattle.std.specs.Coded.{codes};
    ghost use Rattle.mau_program.specs.contracts.statements.Equation as equation;
    ghost use Rattle.mau_program.specs.contracts.statements.Membership as membership;
    ghost use Rattle.mau_program.specs.contracts.statements.Rule as rule;
    ghost use Rattle.mau_program.specs.contracts.definitions.StratDef as definition;
    ghost use Rattle.mau_program.specs.contracts.definitions.StratDecl as strat;
    ghost use Rattle.mau_module.specs.Modules.{ModuleOf, StatementsOf};
    ghost use Rattle.mau_module.specs.Behind.{behind};
    ghost use Rattle.std.specs.Prelude.{◌≡◌};
    ghost use Rattle.mau_module.specs.Kept.{IsKept};

    ghost Value = { ModuleOf };

    ghost coded = { Prim.hlevel (codes, equation.the_row.coded, membership.the_row.coded, rule.the_row.coded, definition.the_row.coded, strat.the_row.coded) };

    ghost view = { λ m. let all : StatementsOf = record { equations = m.program.equations; memberships = m.program.memberships; rules = m.program.rules; strategies = m.program.strategies; strats = m.strats.items } in record {
      name = m.name;
      depth = m.depth;
      parts = m.parts.items;
      sorts = m.sorts;
      signature = m.program.sig;
      grammar = m.grammar;
      statements = all;
      own = record { pairs = m.pairs.items; declarations = m.declarations.items; statements = behind m.included all };
    } };

    ghost invariant = { λ m. IsKept m.sorts m.lower.items m.program.sig m.grammar m.pairs.items m.declarations.items m.depth × (m.program.sorts ≡ m.sorts) };
}

/// The items from a number on; none behind the last one.
fn rest<T>(items: &[T], from: usize) -> &[T]
    ensures { result.now ≡ drop from items.now }
{
    if from < items.len() {
        &items[from..]
    } else {
        &[]
    }
}

impl Module {
    ghost use Rattle.std.specs.Prelude.{◌≡◌, ◌≤◌, ◌++◌, ◌∷◌, [], length, All, IfOk, OnOk};
    ghost use Rattle.mau_poset.specs.Order.{IsWithin};
    ghost use Rattle.mau_poset.specs.declared.TheConstants.{MAX_SORTS};
    ghost use Rattle.mau_signature.specs.Faults.{HasSorts};
    ghost use Rattle.mau_declare.specs.Flattened.{sort_name, kind_names};
    ghost use Rattle.mau_statement.specs.Context.{IsItsGrammar};
    ghost use Rattle.mau_program.specs.BuiltIns.{HasTruth};
    ghost use Rattle.mau_module.specs.declared.TheConstants.{MAX_DEPTH};
    ghost use Rattle.mau_module.specs.Kept.{AreKept, IsOver};
    ghost use Rattle.mau_module.specs.Behind.{behind};
    ghost use Rattle.mau_module.specs.Lawful.{program_of};

    /// The module with this number, which includes the parts of a frame and itself. Of its statements, so many are those of its parts.
    pub fn new(
        alloc: Global,
        number: usize,
        name: Text,
        frame: Frame,
        signed: Signed,
        grammar: Grammar,
        pairs: Vec<(u32, u32)>,
        included: Counts,
        statements: Statements,
    ) -> Result<Module, NoMemory>
        requires depth { frame.depth ≤ MAX_DEPTH }
        requires kept { AreKept frame.names signed.lower.items signed.signature }
        requires grammar { IsItsGrammar frame.names signed.signature grammar }
        requires over { IsOver signed.signature pairs.items signed.own.items }
        requires truth { HasTruth frame.names signed.signature }
        ensures { IfOk result (λ m. m ≡ record {
          name = name;
          depth = frame.depth;
          parts = frame.parts ++ number ∷ [];
          sorts = frame.names;
          signature = signed.signature;
          grammar = grammar;
          statements = statements;
          own = record { pairs = pairs.items; declarations = signed.own.items; statements = behind included statements };
        }) }
    {
        let sorts = texts_of(alloc, &frame.names)?;
        let mut parts = frame.parts;
        parts.push(number)?;
        Ok(Module {
            name,
            depth: frame.depth,
            parts,
            sorts: frame.names,
            lower: signed.lower,
            grammar,
            program: Program {
                sig: signed.signature,
                sorts: Seq::new(sorts),
                equations: Seq::new(statements.equations),
                memberships: Seq::new(statements.memberships),
                rules: Seq::new(statements.rules),
                strategies: Seq::new(statements.strategies),
            },
            strats: statements.strats,
            pairs,
            declarations: signed.own,
            included,
        })
    }

    /// The name.
    pub fn name(&self) -> &str
        ensures { result.now ≡ self.now.name }
    {
        self.name.as_str()
    }

    /// The depth of its imports.
    pub fn depth(&self) -> u32
        ensures depth { result ≡ self.now.depth }
        ensures limit { result ≤ MAX_DEPTH }
    {
        self.depth
    }

    /// The numbers of the modules that it includes, its own last.
    pub fn parts(&self) -> &[usize]
        ensures { result.now ≡ self.now.parts }
    {
        &self.parts
    }

    /// The names of the sorts, in the order of their numbers.
    pub fn sorts(&self) -> &Names
        ensures names { result.now ≡ self.now.sorts }
        ensures named { length result.now ≡ self.now.signature.hierarchy.sorts }
        ensures few { length result.now ≤ MAX_SORTS }
        ensures truth { HasTruth self.now.sorts self.now.signature }
    {
        &self.sorts
    }

    /// The signature.
    pub fn signature(&self) -> &Signature
        ensures value { result.now ≡ self.now.signature }
        ensures named { length self.now.sorts ≡ self.now.signature.hierarchy.sorts }
    {
        &self.program.sig
    }

    /// What it says to those that run it.
    pub fn program(&self) -> &Program
        ensures { result.now ≡ program_of self.now }
    {
        &self.program
    }

    /// How the terms are written.
    pub fn grammar(&self) -> &Grammar
        ensures value { result.now ≡ self.now.grammar }
        ensures its { IsItsGrammar self.now.sorts self.now.signature self.now.grammar }
    {
        &self.grammar
    }

    /// All equations, in order.
    pub fn equations(&self) -> &[Equation]
        ensures { result.now ≡ self.now.statements.equations }
    {
        self.program.equations.items()
    }

    /// All memberships, in order.
    pub fn memberships(&self) -> &[Membership]
        ensures { result.now ≡ self.now.statements.memberships }
    {
        self.program.memberships.items()
    }

    /// All rules, in order.
    pub fn rules(&self) -> &[Rule]
        ensures { result.now ≡ self.now.statements.rules }
    {
        self.program.rules.items()
    }

    /// The definitions of all strategies, in order.
    pub fn strategies(&self) -> &[StratDef]
        ensures { result.now ≡ self.now.statements.strategies }
    {
        self.program.strategies.items()
    }

    /// All strategies that are declared, in order.
    pub fn strats(&self) -> &[StratDecl]
        ensures { result.now ≡ self.now.statements.strats }
    {
        &self.strats
    }

    /// The subsort pairs that the module itself declares.
    pub fn own_pairs(&self) -> &[(u32, u32)]
        ensures pairs { result.now ≡ self.now.own.pairs }
        ensures within { IsWithin result.now self.now.signature.hierarchy.sorts }
    {
        &self.pairs
    }

    /// The operators that the module itself declares.
    pub fn own_declarations(&self) -> &[Decl]
        ensures declarations { result.now ≡ self.now.own.declarations }
        ensures sorts { All (HasSorts self.now.signature.hierarchy) result.now }
    {
        &self.declarations
    }

    /// The equations of the module itself.
    pub fn own_equations(&self) -> &[Equation]
        ensures { result.now ≡ self.now.own.statements.equations }
    {
        rest(self.program.equations.items(), self.included.equations)
    }

    /// The memberships of the module itself.
    pub fn own_memberships(&self) -> &[Membership]
        ensures { result.now ≡ self.now.own.statements.memberships }
    {
        rest(self.program.memberships.items(), self.included.memberships)
    }

    /// The rules of the module itself.
    pub fn own_rules(&self) -> &[Rule]
        ensures { result.now ≡ self.now.own.statements.rules }
    {
        rest(self.program.rules.items(), self.included.rules)
    }

    /// The definitions of strategies of the module itself.
    pub fn own_strategies(&self) -> &[StratDef]
        ensures { result.now ≡ self.now.own.statements.strategies }
    {
        rest(self.program.strategies.items(), self.included.strategies)
    }

    /// The strategies that the module itself declares.
    pub fn own_strats(&self) -> &[StratDecl]
        ensures { result.now ≡ self.now.own.statements.strats }
    {
        rest(&self.strats, self.included.strats)
    }

    /// The names of the kinds, in the order of their numbers.
    pub fn kind_names(&self, alloc: Global) -> Result<Vec<Text>, NoMemory>
        ensures { IfOk result (λ names. names.items ≡ kind_names self.now.sorts self.now.signature.hierarchy) }
    {
        kind_names(alloc, &self.sorts, self.signature().poset(), &self.lower)
    }

    /// Writes the name of a sort or of a kind.
    pub fn write_sort(&self, out: &mut Vec<u8>, sort: u32) -> Result<(), NoMemory>
        ensures { OnOk result (out.new.items ≡ out.old.items ++ sort_name self.now.sorts self.now.signature.hierarchy sort) }
    {
        write_sort(
            out,
            &self.sorts,
            self.signature().poset(),
            &self.lower,
            sort,
        )
    }
}
