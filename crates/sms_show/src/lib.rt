//! Units that are shown, each as an answer of its own: the members of its fields, and the fault that
//! ends them where the octets are at fault.
#![tactic(auto)]

mod alone;
mod any;
mod asked;
mod digits;
mod entry;
mod fault;
mod headers;
mod kinds;
mod parties;
mod records;
mod relay;
mod reports;
mod showing;
mod status_reports;
mod status_words;
mod times;
mod units;

pub use asked::{Alone, Kind, Sender, Shown, UnitKind};
pub use digits::{Spot, read_octets};
pub use entry::put_answer;
pub use fault::ShowFault;
pub use parties::put_address;
pub use records::deliver_in;
pub use showing::{Showing, show_lines};
pub use units::centre_fault;
