//! Texts of strategies: shapes, which leave the words of terms as they stand, and the first word that no strategy has there.
#![tactic(auto)]

mod fault;
mod frames;
mod fronts;
pub mod laws;
mod pieces;
mod reader;
mod shape;
mod text;
mod words;

pub use fault::ShapeFault;
pub use fronts::pieces_before;
pub use pieces::{Part, Piece, Pieces};
pub use shape::read_shape;
pub use words::{Beginning, beginning_of};
