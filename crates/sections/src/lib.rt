// 01 "Section": second-order sections and first-order parts, a sample at a time.
#![tactic(auto)]

mod first_order;
mod part;
mod parts;
mod section;

pub use first_order::FirstOrder;
pub use part::{Part, ProcessResult, process_if};
pub use parts::{pass_sections, reset_sections, sections_are_finite};
pub use section::{Section, process};
