// The kinds: the sorts that pairs join, numbered by their first sorts.
//
// Each sort has a label, a sort of its kind that is not above it, at first itself. A run over the pairs lowers the
// labels at the two ends of each pair to the lesser. Where a run lowers none, the two ends of each pair have one label,
// so all sorts of a kind have, and as no label is above its sort it is the first of them. Each run but the last lowers a
// label, so they end, and as labels are shortened in between they are few (S. Liu and R. E. Tarjan, Simple concurrent
// connected components algorithms, 2022, on rounds of this sort).
ghost use Rattle.std.specs.Prelude.{◌≡◌, ℕ, ◌<◌, ◌≤◌, List, length, sum, slice_index, IfOk, vec_len};
ghost use Rattle.std.specs.Bool.{OnFalse};
ghost use Rattle.mau_poset.specs.Order.{Leads, IsWithin, AreJoined, first_sort, kinds_before};
ghost use Rattle.mau_poset.specs.Labels.{AreLow, AreLabels, HaveOneLabel, AreKindNumbers, Sank};

use crate::MAX_SORTS;
use std::alloc::{AllocError, Global};

// Gives `at` the lesser label `to`, and also the sort that was its label, unless that has a lesser one.
fn lower(labels: &mut [u32], at: usize, to: u32)
    requires at { at < length labels.old }
    requires to { to < slice_index labels.old at }
    requires low { AreLow labels.old }
    ensures low { AreLow labels.new }
    ensures joined { (pairs : List (ℕ × ℕ))
        → AreJoined pairs at to
        → AreLabels pairs labels.old
        → AreLabels pairs labels.new }
    ensures sank { sum labels.new < sum labels.old }
{
    let was = labels[at] as usize;
    labels[at] = to;
    if to < labels[was] {
        labels[was] = to;
    }
}

// Gives the two ends of a pair the lesser of their labels. Says whether the labels differed.
fn join(labels: &mut [u32], a: usize, b: usize) -> bool
    requires a { a < length labels.old }
    requires b { b < length labels.old }
    requires low { AreLow labels.old }
    ensures low { AreLow labels.new }
    ensures joined { (pairs : List (ℕ × ℕ))
        → Leads pairs a b
        → AreLabels pairs labels.old
        → AreLabels pairs labels.new }
    ensures sank { Sank result labels.old labels.new }
    ensures same { OnFalse result (slice_index labels.new a ≡ slice_index labels.new b) }
{
    let one = labels[a];
    let other = labels[b];
    if one < other {
        lower(labels, b, one);
    } else if other < one {
        lower(labels, a, other);
    }
    one != other
}

// One run over the pairs. Says whether it changed a label.
fn join_all(labels: &mut [u32], pairs: &[(u32, u32)]) -> bool
    requires within { IsWithin pairs.now (length labels.old) }
    requires low { AreLow labels.old }
    ensures low { AreLow labels.new }
    ensures joined { AreLabels pairs.now labels.old → AreLabels pairs.now labels.new }
    ensures sank { Sank result labels.old labels.new }
    ensures same { OnFalse result (HaveOneLabel pairs.now labels.new) }
{
    let mut changed = false;
    for (a, b) in pairs {
        if join(labels, *a as usize, *b as usize) {
            changed = true;
        }
    }
    changed
}

// Gives each sort the label of its label. From the first sort on, that is the end of its chain of labels.
fn shorten(labels: &mut [u32])
    requires low { AreLow labels.old }
    ensures low { AreLow labels.new }
    ensures joined { (pairs : List (ℕ × ℕ))
        → AreLabels pairs labels.old
        → AreLabels pairs labels.new }
    ensures sank { sum labels.new ≤ sum labels.old }
{
    for a in 0..labels.len() {
        labels[a] = labels[labels[a] as usize];
    }
}

// Lowers labels until the ends of each pair have one.
fn settle(labels: &mut [u32], pairs: &[(u32, u32)])
    requires within { IsWithin pairs.now (length labels.old) }
    requires low { AreLow labels.old }
    requires joined { AreLabels pairs.now labels.old }
    ensures { (a : ℕ) → a < length labels.new → slice_index labels.new a ≡ first_sort pairs.now a }
{
    while join_all(labels, pairs) {
        shorten(labels);
    }
}

// Replaces the labels by the numbers of the kinds, counted from 0 by first sort. Gives how many kinds there are.
fn number(labels: &mut [u32], pairs: &[(u32, u32)]) -> u32
    requires small { length labels.old ≤ MAX_SORTS }
    requires within { IsWithin pairs.now (length labels.old) }
    requires low { AreLow labels.old }
    requires joined { AreLabels pairs.now labels.old }
    ensures numbers { AreKindNumbers pairs.now labels.new }
    ensures count { result ≡ kinds_before pairs.now (length labels.old) }
{
    settle(labels, pairs);
    let mut count = 0;
    for a in 0..labels.len() {
        let first = labels[a] as usize;
        if first == a {
            labels[a] = count;
            count += 1;
        } else {
            labels[a] = labels[first];
        }
    }
    count
}

// Each sort is its own label.
fn own_labels(alloc: Global, n: u32) -> Result<Vec<u32>, AllocError>
    ensures len { IfOk result (λ labels. vec_len labels ≡ n) }
    ensures own { IfOk result (λ labels. (a : ℕ) → a < n → slice_index labels.items a ≡ a) }
{
    let mut labels = Vec::with_capacity(alloc, n as usize)?;
    for a in 0..n {
        labels.push(a)?;
    }
    Ok(labels)
}

// For each sort the number of its kind, counted from 0 by first sort, and how many kinds there are.
pub fn number_kinds(
    alloc: Global,
    n: u32,
    pairs: &[(u32, u32)],
) -> Result<(Vec<u32>, u32), AllocError>
    requires small { n ≤ MAX_SORTS }
    requires within { IsWithin pairs.now n }
    ensures len { IfOk result (λ kinds. vec_len kinds.0 ≡ n) }
    ensures numbers { IfOk result (λ kinds. AreKindNumbers pairs.now kinds.0.items) }
    ensures count { IfOk result (λ kinds. kinds.1 ≡ kinds_before pairs.now n) }
{
    let mut labels = own_labels(alloc, n)?;
    let count = number(&mut labels, pairs);
    Ok((labels, count))
}
