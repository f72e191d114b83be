//! What strategies are read over.
ghost use Rattle.std.specs.Prelude.{◌≡◌, ◌≤◌, ◌+◌, ◌==◌, ◌&&◌, length, MatchOption, None, Some, bytes_eq, nat_lt};
ghost use Rattle.std.specs.List.{list_any};
ghost use Rattle.mau_signature.specs.Faults.{IsSort};
ghost use Rattle.mau_strattext.specs.Setting as Over;
ghost use Rattle.mau_strattext.specs.Reads.{kind_in};
ghost use Rattle.mau_strattext.specs.Strategies.{IfTold};

use crate::fault::StratFault;
use mau_declare::Words;
use mau_program::StratDecl;
use mau_shapes::Part;
use mau_statement::Context;
use mau_terms::{Seq, Text};
use mau_tokens::Token;
use std::marker::Model;

/// The words of a strategy, a signature with its grammar, the labels of rules, and the strategies that are declared.
#[derive(Drop)]
pub struct Setting<'a> {
    pub words: &'a Words<'a>,
    pub context: &'a Context<'a>,
    pub labels: &'a [Text],
    pub names: &'a [StratDecl],
}

impl<'a> Model for Setting<'a> {
    ghost use Rattle.mau_strattext.specs.Setting.{SettingOf};

    ghost Value = { SettingOf };

    ghost view = { λ s. record { words = s.words.now; context = s.context.now; labels = s.labels.now; names = s.names.now } };
}

impl<'a> Setting<'a> {
    /// The words of the strategy.
    pub fn words(&self) -> &'a Words<'a>
        ensures { result.now ≡ self.now.words }
    {
        self.words
    }

    /// The signature with its grammar.
    pub fn context(&self) -> &'a Context<'a>
        ensures { result.now ≡ self.now.context }
    {
        self.context
    }

    /// Whether a word stands at a place.
    pub fn has_word(&self, place: usize) -> bool
        ensures { result ≡ nat_lt place (length self.now.words) }
    {
        let (_, tokens) = self.words().part(place, 1);
        tokens.len() > 0
    }

    /// The kind of a sort.
    pub fn kind_of(&self, sort: u32) -> u32
        requires { IsSort self.now.context.signature.hierarchy sort }
        ensures value { result ≡ kind_in self.now sort }
        ensures below { result + 1 ≤ self.now.context.grammar.last_kind }
    {
        self.context().signature().poset().kind_of(sort)
    }

    /// What the word at a place reads.
    pub fn word(&self, place: usize) -> &'a str
        ensures { result.now ≡ Over.word_at self.now place }
    {
        self.words.text(place)
    }

    /// Where the word at a place stands in the text.
    pub fn start(&self, place: usize) -> u32
        ensures { result ≡ Over.start_at self.now place }
    {
        self.words.place(place)
    }

    /// The tokens of a part.
    pub fn tokens(&self, part: Part) -> &'a [Token]
        ensures { result.now ≡ Over.tokens_of self.now part }
    {
        let (_, tokens) = self
            .words
            .part(part.start, part.end.saturating_sub(part.start));
        tokens
    }

    /// Whether a strategy of this name is declared.
    pub fn is_declared(&self, name: &str) -> bool
        ensures { result ≡ Over.is_declared self.now name.now }
    {
        self.names.iter().any(|decl| decl.name.as_str() == name)
    }

    /// Whether rules have this label.
    fn has_label(&self, name: &str) -> bool
        ensures { result ≡ list_any (bytes_eq name.now) self.now.labels }
    {
        self.labels.iter().any(|label| name == label.as_str())
    }

    /// Whether rules have this label, and no strategy is declared that hides it.
    pub fn is_label(&self, name: &str) -> bool
        ensures { result ≡ Over.is_label self.now name.now }
    {
        !self.is_declared(name) && self.has_label(name)
    }

    /// The sorts of the arguments of the strategy with this name and number of arguments.
    pub fn declared(&self, name: &str, count: usize) -> Option<&'a StratDecl>
        ensures { MatchOption result (Over.declared self.now name.now count ≡ None) (λ d. Over.declared self.now name.now count ≡ Some d.now) }
    {
        let mut rest = self.names;
        while let Some((decl, more)) = rest.split_first() {
            if has_count(decl, name, count) {
                return Some(decl);
            }
            rest = more;
        }
        None
    }
}

/// The fault of the word behind a place.
pub fn unexpected_behind(setting: &Setting, place: usize) -> StratFault
    ensures { IfTold (λ f. f ≡ StratFault.Unexpected (Over.start_at setting.now (place + 1))) result }
{
    match place.checked_add(1) {
        Some(next) => StratFault::Unexpected(setting.start(next)),
        None => StratFault::NoMemory,
    }
}

/// Whether a declaration has this name and number of arguments.
fn has_count(decl: &StratDecl, name: &str, count: usize) -> bool
    ensures { result ≡ (Over.has_name name.now decl.now && length decl.now.args == count) }
{
    decl.name.as_str() == name && decl.args.items().len() == count
}

/// Whether a word is a strategy by itself, and never a name.
pub fn is_form(word: &str) -> bool
    ensures { result ≡ Over.is_form word.now }
{
    matches!(word, "idle" | "fail" | "all")
}
