//! Messages as text and as JSON: the names of their parts, the values of their attributes, and
//! errors. `docs/INSPECT.md` says how values are written.
#![tactic(auto)]

pub mod attribute;
pub(crate) mod ice;
pub mod lines;
pub mod names;
pub mod object;
pub mod refusal;
pub(crate) mod turn;
pub mod value;
