// Wiring files: their records, what a file leaves standing, and the lines that are printed of it.
#![tactic(auto)]

mod faults;
mod lines;
mod listing;
mod loading;
mod opening;
mod phases;
mod reader;
mod records;
mod reports;
mod surveys;

pub use faults::{Fault, Refusal};
pub use lines::Count;
pub use listing::wires;
pub use phases::Phase;
pub use reader::Reader;
pub use records::Record;
pub use reports::report_text;
pub use surveys::{Survey, survey_file};
