//! What the elements of a module's text declare, over the sorts that the module has: imported ones and its own. The layer above
//! reads whole modules.
#![tactic(auto)]

mod attributes;
mod counts;
mod element;
mod elements;
mod fault;
mod flatten;
mod forms;
mod imports;
mod lists;
mod names;
mod operators;
mod sort_names;
mod sorts;
mod statements;
mod text;
mod uses;
mod words;

pub use counts::{declaration_count, statement_count};
pub use element::{Declared, Elements, Operators, SortUse};
pub use elements::read_elements;
pub use fault::ElementFault;
pub use flatten::{add_declarations, declared_form, first_conflict, variables};
pub use forms::{read_form, write_form};
pub use imports::import_name;
pub use names::Names;
pub use sort_names::{kind_names, lower_sorts, write_name, write_sort};
pub use sorts::add_declared_sorts;
pub use text::{write_number, write_text};
pub use words::Words;

/// The greatest number of operator declarations of a module.
pub const MAX_DECLARATIONS: usize = 1_000_000;

/// The greatest number of statements of a module.
pub const MAX_STATEMENTS: usize = 1_000_000;
