//! A recorder that runs for months. Scans come as frames or as lines. When a record closes, its
//! pair of files goes into a store. An operator can give orders meanwhile. Each event is printed as
//! a line.
#![tactic(auto)]

mod acquisition;
mod contacts;
mod desk;
mod detection;
mod event;
mod filler;
mod finish;
mod first;
mod headers;
mod heading;
mod in_force;
mod intake;
mod kept;
mod limited;
mod losses;
mod meanwhile;
mod moment;
mod naming;
mod operator;
mod outlet;
mod pace;
mod parts;
mod printed;
mod reading;
mod recording;
mod run;
mod scans;
mod showing;
mod shown;
mod signals;
mod spelled;
mod station;
mod teller;
mod telling;
mod times;
mod trying;
mod watch;

pub use dfr_folder::Key;
pub use dfr_header::Dates;
pub use dfr_sequence::{Change, Flip, Place};
pub use event::{Asked, ClockState, Event, Followed, Replied, Skipped, Trouble};
pub use finish::finish_station;
pub use first::{First, read_first};
pub use headers::{Headers, Sources};
pub use intake::{
    Buffer, Counts, ROOM, Recorded, RunFault, Why, frame_len, is_damaged, is_scan_line,
    scan_of_frame,
};
pub use kept::NewRules;
pub use limited::{HourLimit, Limited, hours_have_most};
pub use naming::records_sort;
pub use printed::put_event;
pub use run::{Run, run_station};
pub use station::{Control, Input, Lowest, Printer, Station, Store, Stored};
pub use telling::now;
