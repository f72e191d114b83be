//! Places in a row, by the items that stand there, and the ends where two facts of an item are known.
ghost use Rattle.mau_chart.specs.Places.{AreWithin, IsStretch};

use crate::grammar::Item;

/// A place in a row, and where what stands there ends.
#[derive(Clone, Copy)]
pub struct Place {
    pub at: usize,
    pub end: usize,
}

/// The places in a row where this item stands, and bounds of their ends.
#[derive(Drop)]
pub struct Group {
    pub item: Item,
    pub parts: Vec<Place>,
    pub low: usize,
    pub high: usize,
    ghost within: { AreWithin low high parts.items },
}

/// The ends at which a row is known to have two different facts of an item, and a stretch in which all ends are marked.
#[derive(Drop)]
pub struct Mark {
    pub row: usize,
    pub item: Item,
    pub full: Vec<bool>,
    pub low: usize,
    pub high: usize,
    ghost stretch: { IsStretch full.items low high },
}
