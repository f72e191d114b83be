//! What statements are read over.
ghost use Rattle.std.specs.Prelude.{◌≡◌, ◌+◌, length};
ghost use Rattle.mau_poset.specs.Order.{kinds};
ghost use Rattle.std.specs.Option.{ForSome};
ghost use Rattle.mau_terms.specs.Bare.{IsBare};
ghost use Rattle.mau_signature.specs.Signature.{terms_over};
ghost use Rattle.mau_statement.specs.Context.{IsItsGrammar};
ghost use Rattle.mau_statement.specs.Context.{constant, terms_in};

use mau_declare::Names;
use mau_grammar::Grammar;
use mau_signature::Signature;
use mau_terms::OpId;
use std::marker::Model;

/// A signature, how its terms are written, the names of its sorts, and the constant `true`, if it has one.
#[derive(Drop)]
pub struct Context<'a> {
    signature: &'a Signature,
    grammar: &'a Grammar,
    sorts: &'a Names,
    truth: Option<OpId>,
}

impl<'a> Model for Context<'a> {
    ghost use Rattle.mau_statement.specs.Context.{ContextOf, IsWhole};

    ghost Value = { ContextOf };

    ghost view = { λ c. record { signature = c.signature.now; grammar = c.grammar.now; sorts = c.sorts.now; truth = c.truth } };

    ghost invariant = { λ c. IsWhole (record { signature = c.signature.now; grammar = c.grammar.now; sorts = c.sorts.now; truth = c.truth }) };
}

impl<'a> Context<'a> {
    /// What statements are read over that have these sorts, operators and forms.
    pub fn new(
        signature: &'a Signature,
        grammar: &'a Grammar,
        sorts: &'a Names,
        truth: Option<OpId>,
    ) -> Context<'a>
        requires grammar { IsItsGrammar sorts.now signature.now grammar.now }
        requires truth { ForSome truth (λ f. IsBare (terms_over signature.now) (constant f)) }
        ensures { result ≡ record { signature = signature.now; grammar = grammar.now; sorts = sorts.now; truth = truth } }
    {
        Context {
            signature,
            grammar,
            sorts,
            truth,
        }
    }

    /// The sorts and operators.
    pub fn signature(&self) -> &'a Signature
        ensures value { result.now ≡ self.now.signature }
        ensures kinds { self.now.grammar.last_kind ≡ self.now.signature.hierarchy.sorts + kinds self.now.signature.hierarchy }
    {
        self.signature
    }

    /// How the terms are written.
    pub fn grammar(&self) -> &'a Grammar
        ensures value { result.now ≡ self.now.grammar }
        ensures its { IsItsGrammar self.now.sorts self.now.signature self.now.grammar }
    {
        self.grammar
    }

    /// The names of the sorts.
    pub fn sorts(&self) -> &'a Names
        ensures value { result.now ≡ self.now.sorts }
        ensures named { length self.now.sorts ≡ self.now.signature.hierarchy.sorts }
    {
        self.sorts
    }

    /// The constant `true`.
    pub fn truth(&self) -> Option<OpId>
        ensures value { result ≡ self.now.truth }
        ensures bare { ForSome result (λ f. IsBare (terms_in self.now) (constant f)) }
    {
        self.truth
    }
}
