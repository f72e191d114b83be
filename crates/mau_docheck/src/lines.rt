//! The lines of answers.
ghost use Rattle.std.specs.Prelude.{◌≡◌, ◌++◌, OnOk};
ghost use Rattle.mau_docheck.specs.Answers.{item_head, unknown_line, accepted_line, rejected_line, fault_line};

use mau_declare::{write_number, write_text};
use mau_terms::NoMemory;

/// Writes what the answer of a section begins with, which is for the item with this number.
fn write_head(out: &mut Vec<u8>, item: u32) -> Result<(), NoMemory>
    ensures { OnOk result (out.new.items ≡ out.old.items ++ item_head item) }
{
    write_text(out, "[")?;
    write_number(out, u128::from(item))?;
    write_text(out, "] ")
}

/// Writes that no module of a name is known.
pub fn write_unknown(out: &mut Vec<u8>, item: u32, name: &str) -> Result<(), NoMemory>
    ensures { OnOk result (out.new.items ≡ out.old.items ++ unknown_line item name.now) }
{
    write_head(out, item)?;
    write_text(out, "refused: UnknownModule ")?;
    write_text(out, name)?;
    write_text(out, "\n")
}

/// Writes that all facts of a section are justified, and how many they are.
pub fn write_accepted(out: &mut Vec<u8>, item: u32, count: u64) -> Result<(), NoMemory>
    ensures { OnOk result (out.new.items ≡ out.old.items ++ accepted_line item count) }
{
    write_head(out, item)?;
    write_text(out, "accepted ")?;
    write_number(out, u128::from(count))?;
    write_text(out, "\n")
}

/// Writes which fact of a section is the first that is not justified.
pub fn write_rejected(out: &mut Vec<u8>, item: u32, fact: u64) -> Result<(), NoMemory>
    ensures { OnOk result (out.new.items ≡ out.old.items ++ rejected_line item fact) }
{
    write_head(out, item)?;
    write_text(out, "rejected ")?;
    write_number(out, u128::from(fact))?;
    write_text(out, "\n")
}

/// Writes which line of a document is the first at fault.
pub fn write_fault(out: &mut Vec<u8>, name: &str, line: u64) -> Result<(), NoMemory>
    ensures { OnOk result (out.new.items ≡ out.old.items ++ fault_line name.now line) }
{
    write_text(out, "refused: ")?;
    write_text(out, name)?;
    write_text(out, " ")?;
    write_number(out, u128::from(line))?;
    write_text(out, "\n")
}
