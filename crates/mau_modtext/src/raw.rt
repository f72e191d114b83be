//! What a text says, each part with its own tokens. A sort, a form, a term, a side or a strategy is the list of its tokens.
//! `at` is the place of the first byte of the keyword.

use crate::word::TokenList;
use mau_terms::{Seq, Text};
use mau_tokens::Token;

/// What an item says, or why it says nothing.
#[derive(Drop, Debug)]
pub struct RawItem {
    pub at: u32,
    pub body: Result<RawBody, TextFault>,
}

/// An item.
#[derive(Drop, Debug)]
pub enum RawBody {
    Module(RawModule),
    Command(RawCommand),
    Setting(Setting),
    Quit,
}

/// Why an item says nothing: its first fault, with its place in the text.
#[derive(Drop, Debug)]
pub enum TextFault {
    /// No end of the item that begins here.
    Unended(u32),
    /// The token here leaves the grammar.
    Unexpected(u32),
    /// A form that is known by its name alone.
    Unsupported(Text, u32),
}

/// `fmod`, `mod` and `smod`.
#[derive(Clone, Copy, Debug, PartialEq, Eq)]
pub enum ModuleKind {
    Functional,
    System,
    StrategyModule,
}

/// A module.
#[derive(Drop, Debug)]
pub struct RawModule {
    pub at: u32,
    pub kind: ModuleKind,
    pub name: Token,
    pub elements: Seq<RawElement>,
}

/// An element of a module.
#[derive(Drop, Debug)]
pub enum RawElement {
    Import(TokenList),
    Sorts(Seq<TokenList>),
    /// The lists that `<` parts.
    Subsorts(Seq<Seq<TokenList>>),
    Ops(RawOps),
    Vars(RawVars),
    Statement(RawStatement),
    Strats(RawStrats),
}

/// Operators of several forms. `partial` is true exactly with `~>`.
#[derive(Drop, Debug)]
pub struct RawOps {
    pub at: u32,
    pub forms: Seq<TokenList>,
    pub args: Seq<TokenList>,
    pub result: TokenList,
    pub partial: bool,
    pub attrs: Seq<RawAttr>,
}

/// An attribute. The value is the tokens that follow the name, parentheses included.
#[derive(Drop, Debug)]
pub struct RawAttr {
    pub name: TokenList,
    pub value: TokenList,
}

/// Variables of one sort or kind.
#[derive(Drop, Debug)]
pub struct RawVars {
    pub at: u32,
    pub names: TokenList,
    pub sort: TokenList,
}

/// A definition is `sd` or `csd`.
#[derive(Clone, Copy, Debug, PartialEq, Eq)]
pub enum StatementKind {
    Equation,
    Membership,
    Rule,
    Definition,
}

/// A statement. `cond` is empty exactly where it is unconditional. The label is the one directly behind the keyword, or else
/// the first that an attribute gives.
#[derive(Drop, Debug)]
pub struct RawStatement {
    pub at: u32,
    pub kind: StatementKind,
    pub label: Option<Token>,
    pub left: TokenList,
    pub right: TokenList,
    pub cond: Seq<RawFragment>,
    pub attrs: Seq<RawAttr>,
}

/// `=`, `:=`, `:`, `=>`, and a term of truth values.
#[derive(Clone, Copy, Debug, PartialEq, Eq)]
pub enum FragmentKind {
    Equal,
    Match,
    Sort,
    Reach,
    Bool,
}

/// A part of a condition. `right` is empty exactly under `Bool`.
#[derive(Drop, Debug)]
pub struct RawFragment {
    pub kind: FragmentKind,
    pub left: TokenList,
    pub right: TokenList,
}

/// Names of strategies, with their arguments' sorts and the sort that they work on.
#[derive(Drop, Debug)]
pub struct RawStrats {
    pub at: u32,
    pub names: TokenList,
    pub args: Seq<TokenList>,
    pub sort: TokenList,
}

/// What a command does.
#[derive(Clone, Copy, Debug, PartialEq, Eq)]
pub enum CommandKind {
    Match,
    Xmatch,
    Reduce,
    Rewrite,
    Frewrite,
    Dsrewrite,
    Continue,
}

/// A command. `bound` is also the number of `continue`, and `gas` the second number of `frewrite`. `first` is the pattern or
/// the term, and `second` the subject or the strategy; it is empty for the other commands.
#[derive(Drop, Debug)]
pub struct RawCommand {
    pub at: u32,
    pub kind: CommandKind,
    pub bound: Option<Token>,
    pub gas: Option<Token>,
    pub module: Option<Token>,
    pub first: TokenList,
    pub second: TokenList,
    pub cond: Seq<RawFragment>,
}

/// A setting of the session.
#[derive(Drop, Debug)]
pub enum Setting {
    Trace(bool),
    Select(Text),
    Ignored,
}
