//! Several streams: their frames become scans.

ghost use Rattle.std.specs.Prelude.{◌≡◌, ◌<◌, ◌≤◌, ◌+◌, ◌*◌, ◌%◌, ◌^◌, [], true, length, replicate, vec_len, vec_capacity, Some, None, option_map, IfOk, IfSome};
ghost use Rattle.dfr_bay.specs.Arrivals.{is_astray, is_taken, lost_before};
ghost use Rattle.dfr_bay.specs.Settings.{Fits};
ghost use Rattle.dfr_bay.specs.Lines.{is_count, first_count};
ghost use Rattle.dfr_bay.specs.Waiting as spec;

use crate::arrival::{Arrival, by_missing, missing_from};
use crate::queues::{Queue, empty_queues, enter, is_ready, pop_scan};
use crate::settings::Settings;
use std::alloc::{AllocError, Allocator, Global};
use std::marker::Model;

/// Turns the frames of several streams into scans, in constant memory. Contracts see what it keeps
/// of the frames so far.
#[derive(Drop)]
pub struct Bay<T: Drop, A: Allocator = Global> {
    settings: Settings,
    due: Option<u32>,
    queues: Vec<Queue<T, A>, A>,
    newest: Vec<Option<u32>, A>,
    strays: u32,
}

impl<T: Drop, A: Allocator> Model for Bay<T, A> {
    ghost use Rattle.dfr_bay.specs.Waiting.{Kept, IsBay};

    ghost Value = { Kept T };

    ghost view = { λ a. record { settings = a.settings; due = a.due; queues = a.queues.items; newest = a.newest.items; strays = a.strays } };

    ghost invariant = { λ a. IsBay a.settings a.due a.queues.items a.newest.items };
}

/// No newest sample, for so many streams.
fn none_newest<A: Allocator + Copy>(
    alloc: A,
    streams: usize,
) -> Result<Vec<Option<u32>, A>, AllocError>
    ensures { IfOk result (λ v. v.items ≡ replicate streams None) }
{
    let mut newest = Vec::with_capacity(alloc, streams)?;
    for _i in 0..streams {
        newest.push(None)?;
    }
    Ok(newest)
}

/// Whether a frame has the count of the newest sample.
fn is_count(newest: Option<u32>, count: u32) -> bool
    ensures { result ≡ is_count newest count }
{
    match newest {
        None => false,
        Some(newest) => newest == count,
    }
}

/// What becomes of a frame whose stream has so many samples waiting, if this count is due, or none
/// because no frame came yet.
fn arrival_by(
    settings: &Settings,
    due: Option<u32>,
    waiting: usize,
    is_newest: bool,
    strays: u32,
    count: u32,
) -> Arrival
    requires fits { Fits settings.now }
    requires due { IfSome due (λ d. d < settings.now.rate) }
    requires waiting { waiting ≤ 65_536 }
    ensures value { result ≡ spec.arrival_by settings.now due waiting is_newest strays count }
    ensures few { is_astray result ≡ true → strays + 1 < 2 ^ 32 }
    ensures short { lost_before result < 65_536 }
    ensures valid { is_taken result ≡ true → count < settings.now.rate }
{
    if count >= settings.rate {
        return Arrival::Invalid;
    }
    match due {
        None => Arrival::Taken(0),
        Some(due) => {
            let due = (due + waiting as u32) % settings.rate;
            let missing = missing_from(settings.rate, due, count);
            by_missing(settings, is_newest, strays, missing)
        }
    }
}

/// The count that is due after the one that was.
fn next_count(due: Option<u32>, rate: u32) -> Option<u32>
    requires rate { (1 ≤ rate) × (rate ≤ 65_536) }
    requires due { IfSome due (λ d. d < rate) }
    ensures value { result ≡ option_map (λ d. (d + 1) % rate) due }
    ensures below { IfSome result (λ d. d < rate) }
{
    match due {
        None => None,
        Some(due) => Some((due + 1) % rate),
    }
}

impl<T: Drop, A: Allocator + Copy> Bay<T, A> {
    ghost use Rattle.std.specs.Prelude.{◌≡◌, ◌≤◌, None, IfOk};
    ghost use Rattle.dfr_bay.specs.Settings.{settings_fault};
    ghost use Rattle.dfr_bay.specs.Lines.{blank};
    ghost use Rattle.dfr_bay.specs.Waiting.{kept};

    /// So many streams, of which no frame came.
    pub fn new(alloc: A, settings: Settings, streams: usize) -> Result<Bay<T, A>, AllocError>
        requires settings { settings_fault settings ≡ None }
        requires streams { streams ≤ 256 }
        ensures { IfOk result (λ bay. bay ≡ kept settings (blank streams)) }
    {
        let queues = empty_queues(alloc, streams, settings.limit as usize)?;
        let newest = none_newest(alloc, streams)?;
        Ok(Bay {
            settings,
            due: None,
            queues,
            newest,
            strays: 0,
        })
    }
}

impl<T: Drop, A: Allocator> Bay<T, A> {
    ghost use Rattle.std.specs.Prelude.{◌≡◌, ◌<◌, ◌≤◌, ◌+◌, ◌*◌, ◌^◌, ◌++◌, true, length, slice_index_or, vec_len, vec_capacity, None, OnErr, IfOk};
    ghost use Rattle.dfr_bay.specs.Arrivals.{is_astray, is_taken, lost_before};
    ghost use Rattle.dfr_bay.specs.Waiting.{arrival_of, begun, kept_place, place_gives, kept_lost, lost_give, kept_frame, frame_gives, kept_after, gives, IsTaken};

    /// How many streams there are.
    pub fn streams(&self) -> usize
        ensures { result ≡ length self.now.queues }
    {
        self.queues.len()
    }

    /// What becomes of a frame.
    fn arrival(&self, stream: usize, count: u16) -> Arrival
        requires { stream < length self.now.queues }
        ensures value { result ≡ arrival_of self.now stream count }
        ensures few { is_astray result ≡ true → self.now.strays + 1 < 2 ^ 32 }
        ensures short { lost_before result < 65_536 }
        ensures valid { is_taken result ≡ true → count < self.now.settings.rate }
    {
        let waiting = self.queues[stream].len();
        let is_newest = is_count(self.newest[stream], u32::from(count));
        arrival_by(
            &self.settings,
            self.due,
            waiting,
            is_newest,
            self.strays,
            u32::from(count),
        )
    }

    /// A frame is taken, and nothing of it is entered yet.
    fn begin(&mut self, stream: usize, count: u16)
        requires within { stream < length self.old.queues }
        requires count { count < self.old.settings.rate }
        ensures { self.new ≡ begun stream count self.old }
    {
        if self.due.is_none() {
            self.due = Some(u32::from(count));
        }
        self.newest[stream] = Some(u32::from(count));
        self.strays = 0;
    }

    /// One place more on the line of a stream. A scan that it makes complete is appended.
    fn place(&mut self, stream: usize, sample: Option<T>, scans: &mut Vec<Option<T>, A>)
        requires within { stream < length self.old.queues }
        requires room { vec_len scans.old + length self.old.queues ≤ vec_capacity scans.old }
        ensures kept { self.new ≡ kept_place stream sample self.old }
        ensures scans { scans.new.items ≡ scans.old.items ++ place_gives stream sample self.old }
        ensures streams { length self.new.queues ≡ length self.old.queues }
        ensures len { vec_len scans.new ≤ vec_len scans.old + length self.old.queues }
        ensures room { vec_capacity scans.new ≡ vec_capacity scans.old }
    {
        let limit = self.settings.limit as usize;
        enter(&mut self.queues, limit, stream, sample);
        if is_ready(&self.queues, limit) {
            pop_scan(&mut self.queues, scans);
            self.due = next_count(self.due, self.settings.rate);
        }
    }

    /// So many lost samples on the line of a stream.
    fn lose(&mut self, stream: usize, lost: u32, scans: &mut Vec<Option<T>, A>)
        requires within { stream < length self.old.queues }
        requires room { vec_len scans.old + lost * length self.old.queues ≤ vec_capacity scans.old }
        ensures kept { self.new ≡ kept_lost stream lost self.old }
        ensures scans { scans.new.items ≡ scans.old.items ++ lost_give stream lost self.old }
        ensures streams { length self.new.queues ≡ length self.old.queues }
        ensures len { vec_len scans.new ≤ vec_len scans.old + lost * length self.old.queues }
        ensures room { vec_capacity scans.new ≡ vec_capacity scans.old }
    {
        for i in 0..lost {
            self.place(stream, None, scans);
        }
    }

    /// A frame that is taken, after so many lost samples.
    fn frame(
        &mut self,
        stream: usize,
        count: u16,
        lost: u32,
        content: T,
        scans: &mut Vec<Option<T>, A>,
    )
        requires within { stream < length self.old.queues }
        requires count { count < self.old.settings.rate }
        requires room { vec_len scans.old + (lost + 1) * length self.old.queues ≤ vec_capacity scans.old }
        ensures kept { self.new ≡ kept_frame (record { stream = stream; count = count; content = content }) lost self.old }
        ensures scans { scans.new.items ≡ scans.old.items ++ frame_gives (record { stream = stream; count = count; content = content }) lost self.old }
    {
        self.begin(stream, count);
        self.lose(stream, lost, scans);
        self.place(stream, Some(content), scans);
    }

    /// Does what becomes of a frame.
    fn follow(
        &mut self,
        stream: usize,
        count: u16,
        arrival: Arrival,
        content: T,
        scans: &mut Vec<Option<T>, A>,
    )
        requires within { stream < length self.old.queues }
        requires valid { is_taken arrival ≡ true → count < self.old.settings.rate }
        requires few { is_astray arrival ≡ true → self.old.strays + 1 < 2 ^ 32 }
        requires room { vec_len scans.old + (lost_before arrival + 1) * length self.old.queues ≤ vec_capacity scans.old }
        ensures kept { self.new ≡ kept_after arrival (record { stream = stream; count = count; content = content }) self.old }
        ensures scans { scans.new.items ≡ scans.old.items ++ gives arrival (record { stream = stream; count = count; content = content }) self.old }
    {
        match arrival {
            Arrival::Taken(lost) | Arrival::Restarted(lost) => {
                self.frame(stream, count, lost, content, scans)
            }
            Arrival::Astray => self.strays += 1,
            Arrival::Repeated | Arrival::Late | Arrival::Invalid => self.strays = 0,
        }
    }

    /// Takes in a frame of a stream: its sample count and what it has. Says what becomes of it, and
    /// appends the scans that it makes complete: of each the sample of each stream, or None where
    /// it is lost. They are those of the definition over all frames. After an error nothing has
    /// changed: memory ran out.
    pub fn take_in(
        &mut self,
        stream: usize,
        count: u16,
        content: T,
        scans: &mut Vec<Option<T>, A>,
    ) -> Result<Arrival, AllocError>
        requires { stream < length self.old.queues }
        ensures ok { IfOk result (λ a. IsTaken self.old (record { stream = stream; count = count; content = content }) scans.old.items a scans.new.items self.new) }
        ensures err { OnErr result (self.new ≡ self.old) }
        ensures err_scans { OnErr result (scans.new.items ≡ scans.old.items) }
    {
        let arrival = self.arrival(stream, count);
        scans.try_reserve((arrival.lost() as usize + 1) * self.queues.len())?;
        self.follow(stream, count, arrival, content, scans);
        Ok(arrival)
    }
}
