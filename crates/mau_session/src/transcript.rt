//! The transcript of a text.
ghost use Rattle.std.specs.Prelude.{◌≡◌, ◌≢◌, ◌≤◌, length, false, All, IfOk};
ghost use Rattle.mau_formula.specs.Operators.{operators};
ghost use Rattle.mau_built_ins.specs.NativeNumerals.{GivesNumerals};
ghost use Rattle.mau_tokens.specs.Spans.{AreSpans};
ghost use Rattle.mau_modtext.specs.Words.{words_of};
ghost use Rattle.mau_session.specs.Environment.{environment_of};
ghost use Rattle.mau_session.specs.State.{at_first};
ghost use Rattle.mau_session.specs.Transcript.{ItemsAnswer, Transcript};

use crate::answer::answer_items;
use crate::refusal::write_fault;
use crate::session::Session;
use mau_declare::Words;
use mau_formula::HookTable;
use mau_modtext::{RawItem, items};
use mau_terms::NoMemory;
use mau_tokens::{Token, TokenFault, tokens};
use std::alloc::Global;

/// Whether memory was wanting.
fn is_no_memory(fault: TokenFault) -> bool
    ensures { result ≡ false → fault ≢ TokenFault.NoMemory }
{
    match fault {
        TokenFault::NoMemory => true,
        TokenFault::NotUtf8(_) => false,
        TokenFault::OpenComment(_) => false,
        TokenFault::OpenString(_) => false,
        TokenFault::TokenTooLong(_) => false,
    }
}

/// The answers of the items of a text, with native operators and a budget for each item, and whether one of them was refused.
fn answers(
    alloc: Global,
    hooks: &HookTable,
    limit: u64,
    text: &str,
    tokens: &[Token],
    items: &[RawItem],
) -> Result<(Vec<u8>, bool), NoMemory>
    requires spans { AreSpans text.now tokens.now }
    requires few { length tokens.now ≤ 16777216 }
    requires numerals { All GivesNumerals (operators hooks.now) }
    ensures { IfOk result (λ r. ItemsAnswer (environment_of (operators hooks.now) limit) (words_of text.now tokens.now)
        at_first 1 items.now r.0.items r.1) }
{
    let words = Words::new(text, tokens);
    let session = Session {
        alloc,
        words: &words,
        hooks,
        limit,
    };
    answer_items(&session, items)
}

/// The transcript of a text, with native operators and a budget for each item, and whether the text or one of its items was refused.
pub fn transcript_of(
    alloc: Global,
    hooks: &HookTable,
    limit: u64,
    text: &[u8],
) -> Result<(Vec<u8>, bool), NoMemory>
    requires few { length text.now ≤ 16777216 }
    requires numerals { All GivesNumerals (operators hooks.now) }
    ensures { IfOk result (λ r. Transcript (environment_of (operators hooks.now) limit) text.now r.0.items r.1) }
{
    match tokens(alloc, text) {
        Ok(found) => {
            let items = items(alloc, text, &found)?;
            match std::str::from_utf8(text) {
                Ok(text) => answers(alloc, hooks, limit, text, &found, &items),
                Err(_) => unreachable!(),
            }
        }
        Err(fault) => {
            if is_no_memory(fault) {
                return Err(NoMemory);
            }
            let mut out = Vec::new(alloc);
            write_fault(&mut out, fault)?;
            Ok((out, true))
        }
    }
}
