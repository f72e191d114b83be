//! Strategies of texts.
ghost use Rattle.std.specs.Prelude.{◌≡◌, nat_lt, true, All};
ghost use Rattle.std.specs.List.{list_all};
ghost use Rattle.mau_strattext.specs.Setting.{HasSorts};

use mau_declare::Words;
use mau_module::{Module, truth_of};
use mau_poset::Poset;
use mau_program::{Rule, StratDecl, Strategy};
use mau_signature::Signature;
use mau_statement::{Context, is_empty};
use mau_strattext::read_strategy;
use mau_terms::{NoMemory, Text, Vars};
use mau_tokens::tokens;
use std::alloc::Global;
use std::process::Abort;
use std::test::Fail;

/// The labels of rules.
fn labels_of(alloc: Global, rules: &[Rule]) -> Result<Vec<Text>, NoMemory> {
    let mut labels = Vec::new(alloc);
    for rule in rules {
        if let Some(label) = &rule.label {
            labels.push(label.copy(alloc)?)?;
        }
    }
    Ok(labels)
}

/// Whether the arguments of a declared strategy are of sorts.
fn has_sorts(poset: &Poset, name: &StratDecl) -> bool
    ensures { result ≡ list_all (λ n. nat_lt n poset.now.sorts) name.now.args }
{
    let count = poset.sorts();
    name.args.items().iter().all(|sort| *sort < count)
}

/// Whether those of declared strategies are.
fn have_sorts(signature: &Signature, names: &[StratDecl]) -> bool
    ensures { result ≡ list_all (λ d. list_all (λ n. nat_lt n signature.now.hierarchy.sorts) d.args) names.now }
{
    let poset = signature.poset();
    names.iter().all(|name| has_sorts(poset, name))
}

/// The strategy of a text.
pub fn strategy_of(
    rt: &impl Abort,
    alloc: Global,
    of: &Module,
    vars: &mut Vars,
    text: &str,
) -> Result<Strategy, Fail> {
    assert!(rt; text.len() <= 16777216);
    let tokens = tokens(alloc, text.as_bytes())?;
    let words = Words::new(text, &tokens);
    assert!(rt; !is_empty(&words, &tokens));
    let names = of.strats();
    let signature = of.signature();
    if !have_sorts(signature, names) {
        return Err("a strategy is declared for what is no sort".into());
    }
    let labels = labels_of(alloc, of.rules())?;
    let truth = truth_of(alloc, of)?;
    let context = Context::new(signature, of.grammar(), of.sorts(), truth);
    match read_strategy(alloc, &words, &context, &labels, names, vars, &tokens) {
        Ok(strategy) => Ok(strategy),
        Err(_) => Err("it is no strategy".into()),
    }
}
