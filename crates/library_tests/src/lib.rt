//! All tests of the libraries, by their public calls: that each succeeds with enough memory, at its borders too, which no clause says,
//! what else no contract can say, and the examples of the crates' READMEs. `live` has those of recorders that threads share and of stations,
//! `refused` refuses each allocation of a call in turn. They stand apart from the crates, since a crate that holds tests is proved twice.
#![tactic(auto)]

/// `maybe.is_some_and(|it| { right })`, as a `match` that drops the value by name: the proof of a closure that lets a recorder or a file
/// go takes 8 s more.
#[cfg(test)]
macro_rules! is_some_and {
    ($maybe:expr, |mut $it:ident| { $right:expr }) => {
        is_some_and!($maybe, mut $it, $it, $right)
    };
    ($maybe:expr, |$it:ident| { $right:expr }) => {
        is_some_and!($maybe, $it, $it, $right)
    };
    ($maybe:expr, $some:pat, $it:ident, $right:expr) => {
        match $maybe {
            Some($some) => {
                let right = $right;
                drop($it);
                right
            }
            None => false,
        }
    };
}

#[cfg(test)]
mod allocator_counts;
#[cfg(test)]
mod analysis;
#[cfg(test)]
mod bay;
#[cfg(test)]
mod channels;
#[cfg(test)]
mod clock;
#[cfg(test)]
mod detectors;
#[cfg(test)]
mod live;
#[cfg(test)]
mod program;
#[cfg(test)]
mod reader;
#[cfg(test)]
mod recorder;
#[cfg(test)]
mod refused;
#[cfg(test)]
mod samples;
#[cfg(test)]
mod set_ups;
#[cfg(test)]
mod steps;
#[cfg(test)]
mod streams;
#[cfg(test)]
mod writer;
