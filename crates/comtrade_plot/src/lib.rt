//! Pictures of a pair of COMTRADE files of C37.111-1999: as SVG, and as a page for a browser.
#![tactic(auto)]

mod axis;
mod blocks;
mod compare;
mod compare_head;
mod compare_panels;
mod contacts;
mod differing;
mod edges;
mod gaps;
mod groups;
mod head;
mod instant;
mod joint;
mod layers;
mod layout;
mod legend;
mod levels;
mod names;
mod overview;
mod page;
mod panels;
mod phases;
mod plan;
mod plot;
mod quantity;
mod record;
mod rows;
mod script_text;
mod sheet;
mod style_text;
mod survey;
mod ticks;
mod trace;
mod units;

pub use compare::{By, CompareOptions, Refusal, compare_over};
pub use page::page_over;
pub use plot::{PlotOptions, plot_over};
pub use record::Timed;
pub use survey::Rms;
