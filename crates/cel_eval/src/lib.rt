//! What an expression is worth over an event and a fresh one: a value, or the first fault. Stands on `expr`,
//! `json_text`, `text_num`, `lists` and the step counter of `kinds`, and promises each answer by the table of
//! values, one tick a call, and the key text of each answer.
#![tactic(auto)]

mod cell;
mod equality;
mod evaluate;
mod fault;
mod members;
mod operand;
mod operate;
mod pairs;
mod part;
mod scope;
mod single;
mod text;
mod units;
mod value;
mod worth;

pub use cell::cell_value;
pub use evaluate::{eval, eval_term, node_value};
pub use fault::EvalFault;
pub use value::Value;
