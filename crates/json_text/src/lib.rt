//! JSON texts (RFC 8259) as a tree over the source, which keeps the spelling of each value. Stands on
//! `lists` and `text_num`, and promises the value that the grammar gives, or the first place where no
//! text goes on so, and whether two values are the same.
#![tactic(auto)]

mod bracket;
mod builder;
mod canonical;
mod character;
mod comparison;
mod entry;
mod fault;
mod items;
mod kind;
mod laws;
mod members;
mod number;
mod plain;
mod reader;
mod start;
mod text;
mod tree;
mod turn;
mod word;

pub use comparison::Comparison;
pub use fault::JsonFault;
pub use items::ItemNodes;
pub use kind::Kind;
pub use laws::{equal_values_have_equal_texts, numbers_are_numbers, one_value};
pub use members::MemberNodes;
pub use text::put_text;
pub use tree::{Node, Tree};
