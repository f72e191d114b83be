//! Reading the condition of a command, behind its pattern and its subject.
ghost use Rattle.std.specs.Prelude.{◌≡◌, ◌<◌, length, false, All, IfOk, IfErr};
ghost use Rattle.mau_terms.specs.Subst.{variables};
ghost use Rattle.mau_terms.specs.View.{tree_of};
ghost use Rattle.mau_program.specs.LawfulStatements.{IsLawfulFragment};
ghost use Rattle.mau_api.specs.Answers.{IsAskable};
ghost use Rattle.mau_statement.specs.Conditions.{ConditionReads, ConditionUnread};
ghost use Rattle.mau_statement.specs.Faults.{IfFault};
ghost use Rattle.mau_module.specs.Conditions.{context_of};
ghost use Rattle.mau_session.specs.Commands.{has_rewriting};
ghost use Rattle.mau_session.specs.Where.{IsConditionOf};
ghost use Rattle.mau_session.specs.KeptWhere.{IsConditionFault};

use mau_declare::Words;
use mau_modtext::RawFragment;
use mau_module::{Module, truth_of};
use mau_program::Fragment;
use mau_statement::{Context, StatementFault, first_unbound, read_condition};
use mau_terms::{Bare, Seq, VarId, Vars};
use std::alloc::Global;

/// Why a condition isn't asked.
#[derive(Debug, Drop)]
pub enum ConditionFault {
    /// It can't be read.
    Unread(StatementFault),
    /// It uses a variable that isn't bound by then.
    Unbound(VarId),
}

/// Behind so many variables, which no text has, nothing more is read, as where memory is wanting.
const MOST: usize = 4_000_000_000;

/// The fragments of a condition. Its variables are added to the others.
fn read_fragments(
    alloc: Global,
    words: &Words,
    module: &Module,
    vars: &mut Vars,
    raws: &[RawFragment],
) -> Result<Seq<Fragment>, StatementFault>
    ensures condition { IfOk result (ConditionReads words.now (context_of module.now) vars.old raws.now vars.new) }
    ensures lawful { IfOk result (All (IsLawfulFragment module.now.signature)) }
    ensures fault { IfErr result (IfFault (ConditionUnread words.now (context_of module.now) vars.old raws.now)) }
{
    let truth = match truth_of(alloc, module) {
        Ok(truth) => truth,
        Err(_) => return Err(StatementFault::NoMemory),
    };
    let context = Context::new(module.signature(), module.grammar(), module.sorts(), truth);
    read_condition(alloc, words, &context, vars, raws)
}

/// The condition of a command, of which each variable is bound, where those of the pattern are. Its variables are added to the others.
pub fn read_asked(
    alloc: Global,
    words: &Words,
    module: &Module,
    vars: &mut Vars,
    pattern: &Bare,
    raws: &[RawFragment],
) -> Result<Seq<Fragment>, ConditionFault>
    requires { has_rewriting raws.now ≡ false }
    ensures condition { IfOk result (IsConditionOf words.now module.now raws.now (tree_of pattern.now) vars.old vars.new) }
    ensures askable { IfOk result (IsAskable module.now.signature (variables (tree_of pattern.now))) }
    ensures few { IfOk result (λ _. length vars.new < 4294967296) }
    ensures fault { IfErr result (IsConditionFault words.now module.now raws.now (tree_of pattern.now) vars.old vars.new) }
{
    let cond = match read_fragments(alloc, words, module, vars, raws) {
        Ok(cond) => cond,
        Err(fault) => return Err(ConditionFault::Unread(fault)),
    };
    if vars.len() > MOST {
        return Err(ConditionFault::Unread(StatementFault::NoMemory));
    }
    match first_unbound(alloc, pattern, cond.items()) {
        Ok(None) => Ok(cond),
        Ok(Some(variable)) => Err(ConditionFault::Unbound(variable)),
        Err(_) => Err(ConditionFault::Unread(StatementFault::NoMemory)),
    }
}
