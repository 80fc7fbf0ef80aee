//! Views of a pair of COMTRADE files (C37.111-1999) that was read, or of a part of it: what it
//! contains, its rows as CSV, and what is measured over its cycles.
#![tactic(auto)]

mod alike;
mod channel_json;
mod column_names;
mod comma_separated;
mod currents;
mod cycles;
mod event_csv;
mod event_file;
mod event_table;
mod events;
mod facts;
mod faults;
mod filter;
mod float;
mod head_json;
mod html;
mod instant;
mod json;
mod json_number;
mod matching;
mod measure;
mod measure_frequency;
mod measure_json;
mod measure_note;
mod measure_range;
mod measure_record;
mod measure_tables;
mod number;
mod part;
mod sequence_table;
mod show;
mod show_analog;
mod show_status;
mod shown;
mod spelling;
mod summary;
mod survey_json;
mod table;
mod times;
mod value_cells;

pub use comma_separated::{CsvRows, csv_over};
pub use cycles::{Around, MeasureFault, rms_around};
pub use event_csv::put_events_csv;
pub use event_file::{EVENT_HEAD, EventLine, event_in_line};
pub use event_table::{put_events, put_events_html};
pub use events::{Event, add_events, sort_events};
pub use faults::{
    Faults, RecordFaults, faults_of, first_fault_of, put_fault_blocks, put_fault_lines,
    put_faults_html, put_faults_json,
};
pub use filter::{Filter, FilterFault, chosen_events};
pub use head_json::show_json;
pub use html::put_html;
pub use json::{put_json, text_of};
pub use matching::match_channels;
pub use measure::{Choice, LineFrequency, Measuring, measure_text};
pub use measure_range::put_outside;
pub use part::{
    Cut, CutPlan, PartFault, is_whole, nanos_in, part_of, plan_of, spell_for_views, spell_in_utf8,
};
pub use show::show_over;
pub use shown::Shown;
pub use spelling::Spelling;
pub use summary::{
    Summary, fault_summary, put_summaries, put_summaries_html, sort_summaries, summary_of,
};
pub use survey_json::{put_events_json, put_summaries_json};
pub use times::{piece_times, times_since_trigger};
