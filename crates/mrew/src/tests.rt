//! The items of a text, the modules of the prelude, and what a run does with its words, its source and its sink. Whole texts with their transcripts are
//! rows of the folder tests/ at the top, which the built program runs.

mod items;
mod prelude;
mod runs;

use mau_terms::Text;
use std::alloc::Global;
use std::test::Fail;

const F: &str = "fmod F is sorts S T . ops a b : -> S . op f : S S -> T . endfm\n";

/// The words of a command line.
fn texts(alloc: Global, words: &[&str]) -> Result<Vec<Text>, Fail> {
    let mut texts = Vec::new(alloc);
    for word in words {
        texts.push(Text::new(alloc, word)?)?;
    }
    Ok(texts)
}
