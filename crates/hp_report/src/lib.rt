//! The input and output of a run: devices, and the text of a report.
//!
//! `specs/Mapped.antt` says what each type stands for in `hp_model`, whose `Report` defines the text.
#![tactic(auto)]

mod device;
mod ending;
mod fault;
mod file;
mod input;
mod names;
mod output;
mod parts;
mod report;
mod status;
mod stored;
mod text;
mod watched;

pub use device::{Sink, Source};
pub use fault::Fault;
pub use file::bytes_of_file;
pub use input::{ReadFault, read_up_to};
pub use output::{WriteFault, write_text};
pub use parts::units_text;
pub use report::{Report, write_report};
pub use status::{Status, exit_code};
pub use stored::{class_text, object_text, state_text};
pub use watched::Watched;
