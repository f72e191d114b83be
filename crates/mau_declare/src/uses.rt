//! Sorts that declarations name.
ghost use Rattle.std.specs.Prelude.{◌≡◌, ◌<◌, ◌≤◌, length, All, [], IfOk, IfSome};
ghost use Rattle.mau_poset.specs.declared.TheConstants.{MAX_SORTS};
ghost use Rattle.mau_declare.specs.Faults.{Reads};
ghost use Rattle.mau_declare.specs.Readings.{read_all};
ghost use Rattle.mau_declare.specs.Elements.{sort_token, sort_number, place_of, sort_use, argument_step};

use crate::element::SortUse;
use crate::fault::ElementFault;
use crate::names::Names;
use crate::words::Words;
use mau_modtext::TokenList;
use mau_terms::Seq;
use mau_tokens::Token;
use std::alloc::Global;

/// The token that names the sort: alone, or behind the bracket of a kind.
fn sort_token(tokens: &[Token]) -> Option<Token>
    ensures { result ≡ sort_token tokens.now }
{
    match tokens.len() {
        0 => None,
        1 => Some(tokens[0]),
        _ => Some(tokens[1]),
    }
}

/// The number of the sort that a token names.
fn sort_number(words: &Words, sorts: &Names, token: Option<Token>) -> Option<u32>
    requires { length sorts.now ≤ MAX_SORTS }
    ensures number { result ≡ sort_number words.now sorts.now token }
    ensures within { IfSome result (λ number. number < length sorts.now) }
{
    match token {
        Some(token) => match sorts.number(words.token_text(token)) {
            Some(number) => Some(number as u32),
            None => None,
        },
        None => None,
    }
}

/// The place of a token; 0, where there is none.
fn place_of(token: Option<Token>) -> u32
    ensures { result ≡ place_of token }
{
    match token {
        Some(token) => token.start,
        None => 0,
    }
}

/// The sort that tokens name, or the kind of the sort in brackets. An error is the place of the token that names no sort.
pub fn read_sort_use(words: &Words, sorts: &Names, tokens: &[Token]) -> Result<SortUse, u32>
    requires { length sorts.now ≤ MAX_SORTS }
    ensures reads { result ≡ sort_use words.now sorts.now tokens.now }
    ensures within { IfOk result (λ u. u.sort < length sorts.now) }
{
    let token = sort_token(tokens);
    match sort_number(words, sorts, token) {
        Some(sort) => Ok(SortUse {
            sort,
            whole_kind: tokens.len() > 1,
        }),
        None => Err(place_of(token)),
    }
}

/// The sorts of arguments.
pub fn read_arguments(
    alloc: Global,
    words: &Words,
    sorts: &Names,
    args: &[TokenList],
) -> Result<Seq<SortUse>, ElementFault>
    requires { length sorts.now ≤ MAX_SORTS }
    ensures reads { Reads result (read_all (argument_step words.now sorts.now) [] args.now) }
    ensures within { IfOk result (λ uses. All (λ u. u.sort < length sorts.now) uses) }
{
    let mut uses = Vec::with_capacity(alloc, args.len())?;
    for arg in args {
        match read_sort_use(words, sorts, arg.items()) {
            Ok(used) => uses.push(used)?,
            Err(at) => return Err(ElementFault::UnknownSort(at)),
        }
    }
    Ok(Seq::new(uses))
}
