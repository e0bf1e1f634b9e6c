// What programs read and print.
#![tactic(auto)]

pub mod answers;
mod bytes;
pub mod console;
mod lines;
pub mod reports;
pub mod spans;

pub use answers::{ListingRefusal, answer_listing, refusal_listing};
pub use console::standard_input;
pub use reports::book_report;
pub use spans::{refusal_line, span_listing};
