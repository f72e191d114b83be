//! The answer of a section.
ghost use Rattle.std.specs.Prelude.{◌≡◌, ℕ, List, All, IfOk};
ghost use Rattle.mau_formula.specs.Operator.{Operator};
ghost use Rattle.mau_formula.specs.Operators.{operators};
ghost use Rattle.mau_program.specs.LawfulPrograms.{IsLawfulProgram};
ghost use Rattle.mau_built_ins.specs.NativeNumerals.{GivesNumerals};
ghost use Rattle.mau_check.specs.Judged.{IsJudgement};
ghost use Rattle.mau_module.specs.Lawful.{program_of};
ghost use Rattle.mau_docheck.specs.Kept.{AreModulesOf};
ghost use Rattle.mau_docheck.specs.Gains.{GainsJudged, GainsSection};

use crate::conclusion::write_conclusion;
use crate::known::Known;
use crate::lines::{write_accepted, write_rejected, write_unknown};
use mau_check::{Judgement, judge};
use mau_facts::Section;
use mau_formula::HookTable;
use mau_module::Module;
use mau_terms::NoMemory;
use std::alloc::Global;

/// Writes what was found of a section. Says whether it was rejected.
fn write_judgement(
    out: &mut Vec<u8>,
    alloc: Global,
    module: &Module,
    section: &Section,
    judgement: Judgement,
) -> Result<bool, NoMemory>
    requires { (hooks : List Operator) × IsJudgement (program_of «module».now) hooks section.now judgement }
    ensures { (hooks : List Operator) → IsJudgement (program_of «module».now) hooks section.now judgement
        → IfOk result (GainsJudged hooks «module».now section.now out.old.items out.new.items) }
{
    match judgement {
        Judgement::Accepted(count, conclusion) => {
            write_accepted(out, section.item, count)?;
            write_conclusion(out, alloc, module, conclusion)?;
            Ok(false)
        }
        Judgement::Rejected(fact) => {
            write_rejected(out, section.item, fact)?;
            Ok(true)
        }
    }
}

/// Judges a section in a module, and writes its answer. Says whether it was rejected.
fn judge_section(
    out: &mut Vec<u8>,
    alloc: Global,
    hooks: &HookTable,
    module: &Module,
    section: &Section,
) -> Result<bool, NoMemory>
    requires lawful { IsLawfulProgram (program_of «module».now) }
    requires numerals { All GivesNumerals (operators hooks.now) }
    ensures { IfOk result (GainsJudged (operators hooks.now) «module».now section.now out.old.items out.new.items) }
{
    match judge(alloc, module.program(), hooks, section) {
        Ok(judgement) => write_judgement(out, alloc, module, section, judgement),
        Err(fault) => Err(fault),
    }
}

/// Writes the answer of a section. Says whether it was refused or rejected.
pub fn answer_section(
    out: &mut Vec<u8>,
    alloc: Global,
    hooks: &HookTable,
    known: &Known,
    section: &Section,
) -> Result<bool, NoMemory>
    requires numerals { All GivesNumerals (operators hooks.now) }
    requires known { (text : List ℕ) × AreModulesOf text known.now.library known.now.counts.items }
    ensures { (text : List ℕ) → AreModulesOf text known.now.library known.now.counts.items
        → IfOk result (GainsSection (operators hooks.now) text section.now out.old.items out.new.items) }
{
    match known.module_before(section.item, section.module.as_str()) {
        Some(module) => judge_section(out, alloc, hooks, module, section),
        None => {
            write_unknown(out, section.item, section.module.as_str())?;
            Ok(true)
        }
    }
}
