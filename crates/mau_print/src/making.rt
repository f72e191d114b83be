//! Printers of signatures.
ghost use Rattle.std.specs.Prelude.{◌≡◌, ◌==◌, ◌++◌, ◌+◌, ◌<◌, ◌≤◌, [], ℕ, List, true, map, length, unwrap_or, string_bytes, IfOk};
ghost use Rattle.std.specs.HashMap.{get_by_text};
ghost use Rattle.std.specs.Option.{option_map_or};
ghost use Rattle.mau_poset.specs.Order.{kinds};
ghost use Rattle.mau_signature.specs.Faults.{IsSort};
ghost use Rattle.mau_signature.specs.Form.{holes};
ghost use Rattle.mau_grammar.specs.Productions.{is_written};
ghost use Rattle.mau_print.specs.Printed;
ghost use Rattle.mau_print.specs.Printed.{unambiguous};
ghost use Rattle.mau_print.specs.Layouts;
ghost use Rattle.mau_print.specs.Layouts.{as_constant, first_sort_name, layout_by, layout_of, printer_of};
ghost use Rattle.mau_print.specs.FirstSorts.{IsGrammarFor};
ghost use Rattle.mau_print.specs.Beforehand.{AreKnown, IsProductionFor, production_layout};
ghost use Rattle.mau_grammar.specs.Grammar.{GrammarOf};

use crate::layout::Layout;
use crate::printer::Printer;
use crate::productions::{copy_parts, productions_count};
use crate::sorts::first_names;
use crate::texts::{Counts, clashes, count_texts, head_text, is_numeral_in, owned_texts};
use mau_grammar::{Grammar, Production, SortName};
use mau_poset::Poset;
use mau_signature::{Decl, Signature};
use mau_terms::{NoMemory, OpId, Seq, Text};
use std::alloc::Global;

/// What the layouts of constants need: how many things have each text, and the names of the first sorts of the kinds, which are
/// the numbers from `first_kind` on.
#[derive(Drop)]
struct Known {
    counts: Counts,
    first_kind: u32,
    firsts: Vec<Option<Text>>,
}

impl Known {
    /// How many things have a text.
    fn count(&self, text: &str) -> u64
        ensures { result ≡ unwrap_or (get_by_text self.now.counts text.now) 0 }
    {
        match self.counts.get(text) {
            Some(count) => *count,
            None => 0,
        }
    }

    /// Whether the text of a constant is also that of something else.
    fn is_shared(&self, grammar: &Grammar, text: &str) -> bool
        ensures { (owned : List (List ℕ)) → AreKnown grammar.now owned self.now → result ≡ Layouts.is_shared grammar.now owned text.now }
    {
        if self.count(text) > 1 {
            return true;
        }
        is_numeral_in(grammar, text)
    }

    /// The name of the first sort of a kind.
    fn first_name(&self, kind: u32) -> &str
        requires from { self.now.first_kind ≤ kind }
        requires to { kind < self.now.first_kind + length self.now.firsts.items }
        ensures { (g : GrammarOf) (owned : List (List ℕ)) → AreKnown g owned self.now → result.now ≡ first_sort_name g.sorts kind }
    {
        match &self.firsts[(kind - self.first_kind) as usize] {
            Some(name) => name.as_str(),
            None => "",
        }
    }
}

/// A text with the name of a sort: `(t).S`.
fn with_sort(alloc: Global, text: &str, sort: &str) -> Result<String, NoMemory>
    ensures { IfOk result (λ marked. string_bytes marked ≡ Printed.with_sort text.now sort.now) }
{
    let mut marked = String::from_str(alloc, "(")?;
    marked.push_str(text)?;
    marked.push_str(").")?;
    marked.push_str(sort)?;
    Ok(marked)
}

/// A constant with this text, in a kind.
fn constant_layout(
    alloc: Global,
    grammar: &Grammar,
    known: &Known,
    kind: u32,
    text: &str,
) -> Result<Layout, NoMemory>
    requires from { known.now.first_kind ≤ kind }
    requires to { kind < known.now.first_kind + length known.now.firsts.items }
    ensures { IfOk result (λ l. (owned : List (List ℕ)) → AreKnown grammar.now owned known.now → l ≡ as_constant (unambiguous (Layouts.is_shared grammar.now owned text.now) (first_sort_name grammar.now.sorts kind) text.now)) }
{
    if known.is_shared(grammar, text) {
        let marked = with_sort(alloc, text, known.first_name(kind))?;
        return Ok(Layout::Constant(0, Text::new(alloc, marked.as_str())?));
    }
    Ok(Layout::Constant(1, Text::new(alloc, text)?))
}

/// A form with holes, by its production.
fn form_layout(alloc: Global, is_list: bool, production: &Production) -> Result<Layout, NoMemory>
    ensures { IfOk result (λ l. l ≡ production_layout is_list production.now) }
{
    let parts = Seq::new(copy_parts(alloc, production.parts.items())?);
    if is_list {
        return Ok(Layout::Chain(production.level, parts));
    }
    Ok(Layout::Form(production.level, parts))
}

/// Whether the operator is a constant.
fn is_constant(decl: &Decl) -> bool
    ensures { result ≡ (length decl.now.args == 0) }
{
    decl.args.items().is_empty()
}

/// Whether the form has no holes.
fn has_no_holes(decl: &Decl) -> bool
    ensures { result ≡ (holes decl.now.form == 0) }
{
    decl.form.holes() == 0
}

/// The layout of an operator with this first declaration. Where it has holes, its production is the one at `at`.
fn layout_by(
    alloc: Global,
    poset: &Poset,
    grammar: &Grammar,
    known: &Known,
    decl: &Decl,
    at: usize,
) -> Result<Layout, NoMemory>
    requires sort { IsSort poset.now decl.now.result }
    requires first { known.now.first_kind ≡ poset.now.sorts }
    requires kinds { length known.now.firsts.items ≡ kinds poset.now }
    requires production { is_written decl.now ≡ true → IsProductionFor poset.now grammar.now decl.now at }
    ensures { IfOk result (λ l. (owned : List (List ℕ)) → AreKnown grammar.now owned known.now → l ≡ layout_by poset.now grammar.now owned decl.now) }
{
    if is_constant(decl) {
        let text = head_text(alloc, &decl.form)?;
        let kind = poset.kind_of(decl.result);
        return constant_layout(alloc, grammar, known, kind, text.as_str());
    }
    if has_no_holes(decl) {
        let text = head_text(alloc, &decl.form)?;
        return Ok(Layout::Prefix(Text::new(alloc, text.as_str())?));
    }
    match grammar.productions().get(at) {
        Some(production) => form_layout(alloc, decl.attrs.assoc, production),
        None => unreachable!(),
    }
}

/// The layouts of all operators.
fn layouts(
    alloc: Global,
    sig: &Signature,
    grammar: &Grammar,
    known: &Known,
) -> Result<Vec<Layout>, NoMemory>
    requires grammar { IsGrammarFor sig.now grammar.now }
    requires first { known.now.first_kind ≡ sig.now.hierarchy.sorts }
    requires kinds { length known.now.firsts.items ≡ kinds sig.now.hierarchy }
    ensures { IfOk result (λ ls. (owned : List (List ℕ)) → AreKnown grammar.now owned known.now → ls.items ≡ map (layout_of sig.now.hierarchy grammar.now owned) sig.now.declarations) }
{
    let mut layouts = Vec::with_capacity(alloc, sig.operators() as usize)?;
    let mut at: usize = 0;
    for i in 0..sig.operators() {
        let decls = sig.declarations(OpId(i + 1));
        let decl = &decls[0];
        layouts.push(layout_by(alloc, sig.poset(), grammar, known, decl, at)?)?;
        at += productions_count(decl);
    }
    Ok(layouts)
}

/// The names of sorts, and behind them those of kinds.
fn all_names(alloc: Global, sorts: &[SortName], kinds: &[Text]) -> Result<Vec<Text>, NoMemory>
    ensures { IfOk result (λ names. names.items ≡ map (λ n. n.name) sorts.now ++ kinds.now) }
{
    let mut names = Vec::new(alloc);
    for sort in sorts {
        names.push(sort.name.copy(alloc)?)?;
    }
    for kind in kinds {
        names.push(kind.copy(alloc)?)?;
    }
    Ok(names)
}

/// What the layouts of constants need.
fn find_known(
    alloc: Global,
    grammar: &Grammar,
    owned: &[String],
    poset: &Poset,
) -> Result<Known, NoMemory>
    ensures known { IfOk result (AreKnown grammar.now (map string_bytes owned.now)) }
    ensures first { IfOk result (λ k. k.first_kind ≡ poset.now.sorts) }
    ensures kinds { IfOk result (λ k. length k.firsts.items ≡ kinds poset.now) }
{
    let first_kind = poset.sorts();
    Ok(Known {
        counts: count_texts(alloc, owned)?,
        first_kind,
        firsts: first_names(alloc, grammar.sorts(), first_kind, poset.kinds())?,
    })
}

/// The name of the first sort of the numerals' kind, if there are numerals.
fn numeral_sort(alloc: Global, sig: &Signature, known: &Known) -> Result<Text, NoMemory>
    requires first { known.now.first_kind ≡ sig.now.hierarchy.sorts }
    requires kinds { length known.now.firsts.items ≡ kinds sig.now.hierarchy }
    ensures { IfOk result (λ name. (g : GrammarOf) (owned : List (List ℕ)) → IsGrammarFor sig.now g → AreKnown g owned known.now → name ≡ option_map_or (first_sort_name g.sorts) g.numerals []) }
{
    match sig.numerals() {
        Some((zero, _)) => Ok(Text::new(alloc, known.first_name(sig.poset().kind_of(zero)))?),
        None => Ok(Text::new(alloc, "")?),
    }
}

impl Printer {
    /// The printer of a signature with its grammar, where the kinds have these names in order.
    pub fn of(
        alloc: Global,
        sig: &Signature,
        grammar: &Grammar,
        kinds: &[Text],
    ) -> Result<Printer, NoMemory>
        requires { IsGrammarFor sig.now grammar.now }
        ensures ok { IfOk result (λ p. p ≡ printer_of sig.now grammar.now kinds.now) }
    {
        let owned = owned_texts(alloc, sig, grammar)?;
        let known = find_known(alloc, grammar, &owned, sig.poset())?;
        let layouts = layouts(alloc, sig, grammar, &known)?;
        let names = all_names(alloc, grammar.sorts(), kinds)?;
        let clashes = clashes(alloc, grammar, &owned)?;
        let numeral_sort = numeral_sort(alloc, sig, &known)?;
        Ok(Printer::from_parts(layouts, names, clashes, numeral_sort))
    }
}
