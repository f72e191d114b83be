//! What the answers of match commands begin with.
ghost use Rattle.std.specs.Prelude.{◌≡◌, ◌++◌, OnOk};
ghost use Rattle.mau_session.specs.Answers.{match_name, match_head, continue_head};

use crate::refusal::write_head;
use mau_declare::write_text;
use mau_module::Module;
use mau_terms::NoMemory;

/// What a command is called, by whether its solutions have contexts.
fn match_name_of(with_context: bool) -> &'static str
    ensures { result.now ≡ match_name with_context }
{
    if with_context { "xmatch" } else { "match" }
}

/// Writes what a listing begins with.
pub fn write_match_head(
    out: &mut Vec<u8>,
    number: usize,
    with_context: bool,
    module: &Module,
) -> Result<(), NoMemory>
    ensures { OnOk result (out.new.items ≡ out.old.items ++ match_head number with_context module.now) }
{
    write_head(out, number)?;
    write_text(out, match_name_of(with_context))?;
    write_text(out, " in ")?;
    write_text(out, module.name())?;
    write_text(out, "\n")
}

/// Writes what a listing begins with that goes on.
pub fn write_continue_head(
    out: &mut Vec<u8>,
    number: usize,
    module: &Module,
) -> Result<(), NoMemory>
    ensures { OnOk result (out.new.items ≡ out.old.items ++ continue_head number module.now) }
{
    write_head(out, number)?;
    write_text(out, "continue in ")?;
    write_text(out, module.name())?;
    write_text(out, "\n")
}
