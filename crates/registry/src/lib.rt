//! Registrations: from the body of a request to an application with its functions, or to the first fault,
//! by function and member. Stands on `kinds`, `cel_parse`, `text_num`, and on `serde_json` and `url`, which
//! say what a body and a URL are, and promises what each body gives by one table of members.
#![tactic(auto)]

mod address;
mod app;
mod cancel;
mod expression;
mod fault;
mod flaw;
mod flow;
mod function;
mod laws;
mod limit;
mod member;
mod part;
mod steps;
mod throttle;
mod trigger;
mod window;

pub use app::read_app;
pub use fault::RegisterFault;
pub use laws::read_functions_are_in_range;
pub use member::Member;
