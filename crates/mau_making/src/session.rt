//! A session that is made by its number.
ghost use Rattle.std.specs.Prelude.{◌≡◌, ◌≤◌, ◌<◌, ◌++◌, IfOk, OnOk};
ghost use Rattle.mau_making.specs.MadeSession;

use mau_declare::{write_number, write_text};
use mau_terms::NoMemory;
use std::alloc::Global;

/// Writes the first elements, each behind a space.
fn write_elements(out: &mut Vec<u8>, count: u32) -> Result<(), NoMemory>
    ensures { OnOk result (out.new.items ≡ out.old.items ++ MadeSession.elements count) }
{
    for i in 0..count {
        write_text(out, " e")?;
        write_number(out, u128::from(i) + 1)?;
    }
    Ok(())
}

/// Writes the modules of a session.
fn write_modules(out: &mut Vec<u8>, number: u32) -> Result<(), NoMemory>
    ensures { OnOk result (out.new.items ≡ out.old.items ++ MadeSession.made_modules number) }
{
    write_text(
        out,
        "fmod MADE is\nsorts Elt Set .\nsubsort Elt < Set .\nops",
    )?;
    write_elements(out, number)?;
    write_text(
        out,
        " : -> Elt .\nop none : -> Set .\nop __ : Set Set -> Set [assoc comm id: none] .\nendfm\n",
    )?;
    write_text(
        out,
        "fmod MADE-SUM is\nprotecting NAT .\nop sum : Nat -> Nat .\nvar N : Nat .\neq sum(0) = 0 .\neq sum(s N) = s N + sum(N) .\nendfm\n",
    )
}

/// Writes two commands of a session.
fn write_pair(out: &mut Vec<u8>, number: u32) -> Result<(), NoMemory>
    ensures { OnOk result (out.new.items ≡ out.old.items ++ MadeSession.made_pair number) }
{
    write_text(out, "match in MADE : X:Set Y:Set <=?")?;
    write_elements(out, number)?;
    write_text(out, " .\nreduce in MADE-SUM : sum(")?;
    write_number(out, 100 * u128::from(number))?;
    write_text(out, ") .\n")
}

/// Writes the commands of a session.
fn write_pairs(out: &mut Vec<u8>, number: u32) -> Result<(), NoMemory>
    requires { number < 4294967295 }
    ensures { OnOk result (out.new.items ≡ out.old.items ++ MadeSession.made_pairs number) }
{
    for j in 0..number {
        write_pair(out, j + 1)?;
    }
    Ok(())
}

/// The text of the session with a number.
pub fn made_text(alloc: Global, number: u32) -> Result<Vec<u8>, NoMemory>
    requires { number ≤ 16 }
    ensures { IfOk result (λ text. text.items ≡ MadeSession.made_text number) }
{
    let mut out = Vec::new(alloc);
    write_modules(&mut out, number)?;
    write_pairs(&mut out, number)?;
    Ok(out)
}

/// Writes the summary of the transcript of the session with a number: how many items it has, how many matchers are listed, and the sum of the counts that are
/// shown.
pub fn write_summary(
    out: &mut Vec<u8>,
    number: u32,
    items: u64,
    matchers: u64,
    rewrites: u64,
) -> Result<(), NoMemory>
    ensures { OnOk result (out.new.items ≡ out.old.items ++ MadeSession.summary_lines number items matchers rewrites) }
{
    write_line(out, "session ", u64::from(number))?;
    write_line(out, "items ", items)?;
    write_line(out, "matchers ", matchers)?;
    write_line(out, "rewrites ", rewrites)
}

/// Writes a number behind its name.
fn write_line(out: &mut Vec<u8>, name: &str, number: u64) -> Result<(), NoMemory>
    ensures { OnOk result (out.new.items ≡ out.old.items ++ MadeSession.count_line name.now number) }
{
    write_text(out, name)?;
    write_number(out, u128::from(number))?;
    write_text(out, "\n")
}
