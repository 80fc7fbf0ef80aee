//! A station over a feed in memory: every frame and line keeps its place, whatever the pieces in which it comes and whichever
//! allocation fails; names of pairs at the borders of the calendar.

mod memory;
mod names;
mod runs;
mod station;
