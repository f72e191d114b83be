//! The sorts that statements name: that of a membership, and those in a condition; and those that declarations of strategies name.
ghost use Rattle.std.specs.Prelude.{◌≡◌};
ghost use Rattle.mau_declare.specs.Statements;

use crate::names::Names;
use crate::words::Words;
use mau_modtext::{FragmentKind, RawFragment, RawStatement, RawStrats, StatementKind, TokenList};
use mau_tokens::Token;

/// The place at fault in a side that is to be a sort: one token that names one.
fn unknown_sort(words: &Words, sorts: &Names, side: &[Token]) -> Option<u32>
    ensures { result ≡ Statements.unknown_sort words.now sorts.now side.now }
{
    match side.split_first() {
        Some((token, rest)) => {
            let is_sort = rest.is_empty() && sorts.number(words.token_text(*token)).is_some();
            if is_sort { None } else { Some(token.start) }
        }
        None => Some(0),
    }
}

/// The place at fault in a fragment.
fn unknown_in_fragment(words: &Words, sorts: &Names, fragment: &RawFragment) -> Option<u32>
    ensures { result ≡ Statements.unknown_in_kind fragment.now.kind words.now sorts.now fragment.now.right }
{
    match fragment.kind {
        FragmentKind::Sort => unknown_sort(words, sorts, fragment.right.items()),
        _ => None,
    }
}

/// The first place at fault in a condition.
fn unknown_in_condition(words: &Words, sorts: &Names, condition: &[RawFragment]) -> Option<u32>
    ensures { result ≡ Statements.unknown_in_condition words.now sorts.now condition.now }
{
    for fragment in condition {
        match unknown_in_fragment(words, sorts, fragment) {
            Some(at) => return Some(at),
            None => (),
        }
    }
    None
}

/// The place at fault in the head of a statement.
fn unknown_in_head(words: &Words, sorts: &Names, statement: &RawStatement) -> Option<u32>
    ensures { result ≡ Statements.unknown_in_head statement.now.kind words.now sorts.now statement.now.right }
{
    match statement.kind {
        StatementKind::Membership => unknown_sort(words, sorts, statement.right.items()),
        _ => None,
    }
}

/// The first place in a statement where a token is to name a sort, and names none.
pub fn unknown_in_statement(words: &Words, sorts: &Names, statement: &RawStatement) -> Option<u32>
    ensures { result ≡ Statements.unknown_in_statement words.now sorts.now statement.now }
{
    match unknown_in_head(words, sorts, statement) {
        Some(at) => Some(at),
        None => unknown_in_condition(words, sorts, statement.cond.items()),
    }
}

/// The first place at fault in some sorts.
fn unknown_in_sorts(words: &Words, sorts: &Names, named: &[TokenList]) -> Option<u32>
    ensures { result ≡ Statements.unknown_in_sorts words.now sorts.now named.now }
{
    for tokens in named {
        match unknown_sort(words, sorts, tokens.items()) {
            Some(at) => return Some(at),
            None => (),
        }
    }
    None
}

/// The first place in a declaration of strategies where a token is to name a sort, and names none.
pub fn unknown_in_strats(words: &Words, sorts: &Names, strats: &RawStrats) -> Option<u32>
    ensures { result ≡ Statements.unknown_in_strats words.now sorts.now strats.now }
{
    match unknown_in_sorts(words, sorts, strats.args.items()) {
        Some(at) => Some(at),
        None => unknown_sort(words, sorts, strats.sort.items()),
    }
}
