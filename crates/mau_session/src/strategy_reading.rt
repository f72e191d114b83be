//! Reading the strategy of a command.
ghost use Rattle.std.specs.Prelude.{◌≡◌, ◌++◌, false, Ok, Err, OnOk, IfOk, IfErr};
ghost use Rattle.mau_module.specs.Named;
ghost use Rattle.mau_module.specs.Named.{as_list};
ghost use Rattle.mau_statement.specs.Parts;
ghost use Rattle.mau_strattext.specs.Strategies.{IfTold, StrategyRead};
ghost use Rattle.mau_session.specs.StrategyRun.{strategy_setting};
ghost use Rattle.mau_session.specs.StrategyReading as Reading;

use mau_declare::Words;
use mau_module::{Module, truth_of};
use mau_poset::Poset;
use mau_program::{Rule, StratDecl, Strategy};
use mau_signature::Signature;
use mau_statement::Context;
use mau_strattext::{StratFault, read_strategy};
use mau_terms::{NoMemory, Text, Vars};
use mau_tokens::Token;
use std::alloc::Global;

/// Adds the label of a rule, if it has one.
fn add_label(alloc: Global, rule: &Rule, labels: &mut Vec<Text>) -> Result<(), NoMemory>
    ensures { OnOk result (labels.new.items ≡ labels.old.items ++ as_list rule.now.label) }
{
    match &rule.label {
        Some(label) => {
            labels.push(label.copy(alloc)?)?;
            Ok(())
        }
        None => Ok(()),
    }
}

/// The labels of rules.
fn labels_of(alloc: Global, rules: &[Rule]) -> Result<Vec<Text>, NoMemory>
    ensures { IfOk result (λ labels. labels.items ≡ Named.labels_of rules.now) }
{
    let mut labels = Vec::new(alloc);
    for rule in rules {
        add_label(alloc, rule, &mut labels)?;
    }
    Ok(labels)
}

/// Whether the arguments of a declared strategy are of sorts.
fn has_sorts(poset: &Poset, name: &StratDecl) -> bool
    ensures { result ≡ Reading.has_sorts poset.now name.now }
{
    let count = poset.sorts();
    name.args.items().iter().all(|sort| *sort < count)
}

/// Whether those of declared strategies are of sorts of a signature.
fn have_sorts(signature: &Signature, names: &[StratDecl]) -> bool
    ensures { result ≡ Reading.have_sorts signature.now.hierarchy names.now }
{
    let poset = signature.poset();
    names.iter().all(|name| has_sorts(poset, name))
}

/// The strategy that tokens of the text are, over a module. The variables of its terms are added to the others; after a fault these are as
/// before. In each accepted module the arguments of declared strategies are of its sorts; where they weren't, nothing would be read, as
/// where memory is wanting.
pub fn read_uses(
    alloc: Global,
    words: &Words,
    module: &Module,
    vars: &mut Vars,
    tokens: &[Token],
) -> Result<Strategy, StratFault>
    requires some { Parts.is_empty words.now tokens.now ≡ false }
    ensures read { IfOk result (λ x. StrategyRead (strategy_setting words.now module.now tokens.now) vars.old vars.new (Ok x)) }
    ensures fault { IfErr result (IfTold (λ f. StrategyRead (strategy_setting words.now module.now tokens.now) vars.old vars.old (Err f))) }
{
    let signature = module.signature();
    let names = module.strats();
    if !have_sorts(signature, names) {
        return Err(StratFault::NoMemory);
    }
    let labels = labels_of(alloc, module.rules())?;
    let truth = truth_of(alloc, module)?;
    let context = Context::new(signature, module.grammar(), module.sorts(), truth);
    read_strategy(alloc, words, &context, &labels, names, vars, tokens)
}
