//! What a script gives a run: the recorder, the scans, and the calls.

ghost use Rattle.std.specs.Prelude.{◌≡◌};

use crate::maker::{layout_of, opened_of, recorder_of, setup_of};
use dfr_channels::{Layout, Rule, Rules, Scan};
use dfr_live::{Opened, Session, Token};
use dfr_recorder::Recorder;
use dfr_script::{Command, LimitNumbers, Script};
use std::alloc::Allocator;
use std::collections::VecDeque;
use std::marker::Brand;

/// What the acquisition is given.
#[derive(Drop)]
pub enum Sample<A: Allocator> {
    Scan(Scan<A>),
    Lost,
}

/// What a token is to do.
#[derive(Drop)]
pub enum Work<A: Allocator> {
    Trigger,
    Take,
    /// Rules of this number among the script's commands.
    Rules(u64, Rules<A>),
}

/// The samples, and the calls with the number of samples before each.
#[derive(Drop)]
pub struct Lists<A: Allocator> {
    pub samples: VecDeque<Sample<A>, A>,
    pub works: VecDeque<(u64, Work<A>), A>,
}

#[derive(Drop)]
pub struct Given<A: Allocator> {
    pub recorder: Recorder<A>,
    pub lists: Lists<A>,
}

/// Eight channels of each kind: more than a script has, so that rules can name one that isn't there.
const WIDE: &[u8] =
    b"station W\ndevice W\nanalog a,,,V,1,0,0,-9,9,1,1,P\nanalog a,,,V,1,0,0,-9,9,1,1,P\nanalog a,,,V,1,0,0,-9,9,1,1,P\nanalog a,,,V,1,0,0,-9,9,1,1,P\nanalog a,,,V,1,0,0,-9,9,1,1,P\nanalog a,,,V,1,0,0,-9,9,1,1,P\nstatus s,,,0\nstatus s,,,0\nstatus s,,,0\nstatus s,,,0\nstatus s,,,0\nstatus s,,,0\nfreq 50\nrate 1\nstart 0\nlimits 0,1,2,1\ngo\n";

fn wide<A: Allocator + Copy>(alloc: A) -> Option<Layout<A>> {
    layout_of(setup_of(alloc, WIDE)?)
}

impl<A: Allocator> Lists<A> {
    fn sample(&mut self, sample: Sample<A>) -> bool {
        self.samples.push_back(sample).is_ok()
    }

    fn work(&mut self, work: Work<A>) -> bool {
        let place = self.samples.len() as u64;
        self.works.push_back((place, work)).is_ok()
    }

    fn rules(&mut self, wide: &Layout<A>, number: u64, list: Vec<Rule, A>) -> bool {
        match Rules::new(wide, list) {
            Ok(rules) => self.work(Work::Rules(number, rules)),
            Err(_) => false,
        }
    }

    fn put(&mut self, wide: &Layout<A>, command: Command<A>) -> bool {
        match command {
            Command::Scan(scan) => self.sample(Sample::Scan(scan)),
            Command::Lost => self.sample(Sample::Lost),
            Command::Trigger => self.work(Work::Trigger),
            Command::Take => self.work(Work::Take),
            Command::Rules { line, list } => self.rules(wide, line, list),
        }
    }
}

fn put_all<A: Allocator>(
    lists: &mut Lists<A>,
    wide: &Layout<A>,
    commands: Vec<Command<A>, A>,
) -> bool {
    let mut all = true;
    for command in commands {
        all = lists.put(wide, command) && all;
    }
    all
}

fn listed<A: Allocator + Copy>(
    alloc: A,
    wide: &Layout<A>,
    commands: Vec<Command<A>, A>,
) -> Option<Lists<A>> {
    let mut lists = Lists {
        samples: VecDeque::new(alloc),
        works: VecDeque::new(alloc),
    };
    let all = put_all(&mut lists, wide, commands);
    all.then_some(lists)
}

fn lists_of<A: Allocator + Copy>(alloc: A, commands: Vec<Command<A>, A>) -> Option<Lists<A>> {
    match wide(alloc) {
        Some(wide) => listed(alloc, &wide, commands),
        None => {
            drop(commands);
            None
        }
    }
}

fn with_lists<A: Allocator>(recorder: Recorder<A>, lists: Option<Lists<A>>) -> Option<Given<A>> {
    match lists {
        Some(lists) => Some(Given { recorder, lists }),
        None => {
            drop(recorder);
            None
        }
    }
}

pub fn given_of<A: Allocator + Copy>(alloc: A, script: Script<A>) -> Option<Given<A>> {
    let lists = lists_of(alloc, script.commands);
    match recorder_of(alloc, script.setup, script.limits, script.rules) {
        Some(recorder) => with_lists(recorder, lists),
        None => {
            drop(lists);
            None
        }
    }
}

fn token_named<N: Session<A>, A: Allocator + Copy>(opened: Opened<A>) -> Option<Token<A>>
    requires { (opened.opening ≡ N.opening) × (opened.lane ≡ N.lane)
        × (opened.seats ≡ N.seats) }
{
    let (shared, source, mut tokens) = opened.share::<N>();
    drop(shared);
    drop(source);
    tokens.pop()
}

const ONE_SCAN: LimitNumbers = LimitNumbers {
    pre: 0,
    post: 1,
    longest: 2,
    shelf: 1,
    unshared: false,
};

fn another<A: Allocator + Copy>(alloc: A) -> Option<Recorder<A>> {
    recorder_of(alloc, setup_of(alloc, WIDE)?, ONE_SCAN, Vec::new(alloc))
}

/// The token of another opening, of seat 0.
pub fn stranger<A: Allocator + Copy>(alloc: A) -> Option<Token<A>> {
    match opened_of(alloc, another(alloc)?, 1, 1) {
        Some(opened) => token_named::<Brand, A>(opened),
        None => None,
    }
}
