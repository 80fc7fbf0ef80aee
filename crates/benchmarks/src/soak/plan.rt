//! The program's words.

use std::env::Args;

#[derive(Clone, Copy)]
pub enum Way {
    /// All threads at once.
    Free,
    /// First the scans are offered, then the calls are made.
    Orderly,
    /// `run_live`.
    Station,
}

#[derive(Clone, Copy)]
pub struct Plan {
    pub way: Way,
    pub seed: u64,
    pub lane: usize,
    pub seats: u32,
    pub threads: u64,
    /// How many calls each thread makes.
    pub rounds: u64,
}

fn way_of(word: &str) -> Option<Way> {
    match word {
        "free" => Some(Way::Free),
        "orderly" => Some(Way::Orderly),
        "station" => Some(Way::Station),
        _ => None,
    }
}

fn number(words: &mut Args) -> Option<u64> {
    words.next()?.parse::<u64>().ok()
}

fn first_word(words: &mut Args) -> Option<Way> {
    way_of(words.next()?.as_str())
}

impl Plan {
    pub fn of(words: &mut Args) -> Option<Plan> {
        let way = first_word(words)?;
        let seed = number(words)?;
        let lane = number(words)?;
        let seats = number(words)?;
        let threads = number(words)?;
        let rounds = number(words)?;
        Some(Plan {
            way,
            seed,
            lane: lane as usize,
            seats: u32::try_from(seats).ok()?,
            threads,
            rounds,
        })
    }
}
