// A book: the finished list of facts, withdrawals and questions of one run, held as 32-bit words.
#![tactic(auto)]

pub mod crowding;
pub mod entries;
pub mod input;
pub mod iteration;
mod kinds;
pub mod loading;
pub mod matching;
pub mod reading;
pub mod records;
pub mod refusals;
mod scans;
pub mod state;
pub mod summaries;
pub mod words;

pub use iteration::Records;
pub use reading::Shown;
pub use records::Record;
pub use refusals::{EntryError, LoadError, ReadRefusal, Refusal, WordError, WordFault};
pub use state::Book;
pub use summaries::Summary;
pub use words::words_of_record;
