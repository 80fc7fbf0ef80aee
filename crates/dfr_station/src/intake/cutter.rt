//! Cuts the bytes that were read into frames or lines, and says what each is.

ghost use Rattle.std.specs.Prelude.{◌≡◌, ◌≤◌, ◌<◌, Bool, true, false, None, MatchOption, [], ◌++◌, length, drop};
ghost use Rattle.dfr_station.specs.Input as spec;
ghost use Rattle.dfr_station.specs.Lines.{given_by, HasNoFeed};
ghost use Rattle.dfr_station.specs.declared.station.Input.TheVariants as form;

use crate::event::Skipped;
use crate::first::scans_in;
use crate::intake::arrival::Arrival;
use crate::intake::buffer::Buffer;
use crate::intake::feed::Why;
use crate::intake::frame::{arrival_of_frame, frame_len};
use crate::intake::line::{Line, Meaning, first_line, meaning_of, refused, without_return};
use crate::station::{Input, Lowest};
use dfr_channels::{Layout, Scan};
use std::alloc::{Allocator, Global};

/// The bytes that were read and wait, and how far they were cut.
#[derive(Drop)]
pub(crate) struct Cutter<'x, A: Allocator = Global> {
    pub(crate) alloc: A,
    pub(crate) layout: &'x Layout<A>,
    pub(crate) form: Input,
    pub(crate) buffer: Buffer<A>,
    /// How many scans were handed out, with the lost ones.
    pub(crate) came: u64,
    /// How many lines were used up.
    pub(crate) lines: u64,
    /// The line that was handed out as skipped is a lost scan as well, which comes next.
    pub(crate) is_owed: bool,
    /// The bytes begin with the rest of a line that was too long and was refused.
    pub(crate) is_skipping: bool,
    /// The counter of the counted frame that is to come next. None before the first one.
    pub(crate) due: Option<u16>,
    /// The bytes before were no counted frame, which was handed out.
    pub(crate) is_noisy: bool,
}

impl<'x, A: Allocator + Copy> Cutter<'x, A> {
    /// Begins with the bytes that wait.
    pub(crate) fn new(
        alloc: A,
        layout: &'x Layout<A>,
        form: Input,
        buffer: Buffer<A>,
    ) -> Cutter<'x, A>
        ensures { (result.layout.now ≡ layout.entry.now) × (result.buffer ≡ buffer)
            × (spec.reading_of result ≡ record { form = form; came = 0; lines = 0; owed = false; skipping = false; due = None; noisy = false }) }
    {
        Cutter {
            alloc,
            layout,
            form,
            buffer,
            came: 0,
            lines: 0,
            is_owed: false,
            is_skipping: false,
            due: None,
            is_noisy: false,
        }
    }

    /// The scan of the next frame. None if no whole frame waits.
    fn next_frame(&mut self, lowest: Lowest, spare: &mut Option<Scan<A>>) -> Option<Arrival<A>>
        requires { self.old.form ≡ form.Frames lowest }
        ensures { (last : Bool) → spec.Hands last self.old result self.new }
    {
        // a lawful layout has at most 256 channels of each kind
        let _rate = self.layout.rate();
        let size = frame_len(self.layout.analog().len(), self.layout.status().len());
        let bytes = self.buffer.waiting();
        if bytes.len() < size {
            return None;
        }
        let frame = &bytes[..size];
        let arrival = arrival_of_frame(self.alloc, spare.take(), self.layout, lowest, frame);
        self.buffer.use_up(size);
        self.came = self.came.saturating_add(1);
        Some(arrival)
    }

    /// How many scans have come whole and wait, as far as that can be said before they are read.
    pub(crate) fn waiting(&self) -> u64 {
        let _rate = self.layout.rate();
        let size = frame_len(self.layout.analog().len(), self.layout.status().len());
        scans_in(self.form, size, self.due, self.buffer.waiting())
    }

    /// Drops the rest of a line that was refused, as far as it has come.
    fn skip_on(&mut self)
        requires lines { self.old.form ≡ form.Lines }
        requires skipping { self.old.is_skipping ≡ true }
        ensures cut { spec.Cuts false self.old [] self.new }
        ensures rest { self.new.is_skipping ≡ true → self.new.buffer ≡ [] }
        ensures shorter { length self.new.buffer ≤ length self.old.buffer }
        ensures same { (self.new.form ≡ self.old.form) × (self.new.is_owed ≡ self.old.is_owed) }
    {
        match first_line(self.buffer.waiting()) {
            Some((_, count)) => {
                self.buffer.use_up(count);
                self.is_skipping = false;
            }
            None => {
                let count = self.buffer.waiting().len();
                self.buffer.use_up(count);
            }
        }
    }

    /// The next line, with this text.
    fn line<'b>(&self, text: &'b [u8]) -> Line<'b>
        ensures { result ≡ record { number = spec.one_more self.now.lines; came = self.now.came; text = text.entry } }
    {
        Line {
            number: self.lines.saturating_add(1),
            came: self.came,
            text,
        }
    }

    /// Uses up a line of so many bytes, and hands out what it means.
    fn hand_out(&mut self, count: usize, meaning: Meaning<A>) -> Option<Arrival<A>>
        requires owed { self.old.is_owed ≡ false }
        requires there { count ≤ length self.old.buffer }
        ensures given { given_by (spec.one_more self.old.lines) meaning
            ≡ spec.handed result ++ spec.owed_list self.new.is_owed }
        ensures came { spec.with_owed self.new.came self.new.is_owed
            ≡ spec.scans_after self.old.came (given_by (spec.one_more self.old.lines) meaning) }
        ensures paid { result ≡ None → self.new.is_owed ≡ false }
        ensures state { self.new ≡ record self.old {
          buffer = drop count self.old.buffer;
          lines = spec.one_more self.old.lines;
          came = self.new.came;
          is_owed = self.new.is_owed;
        } }
    {
        self.buffer.use_up(count);
        self.lines = self.lines.saturating_add(1);
        match meaning {
            Meaning::Nothing => None,
            Meaning::One(arrival) => {
                if matches!(arrival, Arrival::Scan(_) | Arrival::Lost(_)) {
                    self.came = self.came.saturating_add(1);
                }
                Some(arrival)
            }
            Meaning::Damaged(why) => {
                self.is_owed = true;
                Some(Arrival::Skipped {
                    line: self.lines,
                    why,
                })
            }
        }
    }

    /// Takes the next line that has come whole. None if none waits.
    fn next_line(&mut self) -> Option<Option<Arrival<A>>>
        requires ready { spec.IsReady self.old }
        ensures { MatchOption result
            ((self.new ≡ self.old) × HasNoFeed self.old.buffer)
            (λ handed. spec.TakesLine false self.old handed self.new) }
    {
        let (alloc, layout) = (self.alloc, self.layout);
        let (text, count) = first_line(self.buffer.waiting())?;
        let meaning = meaning_of(alloc, layout, self.line(text));
        Some(self.hand_out(count, meaning))
    }

    /// Refuses a line that fills the buffer; its rest is dropped as it comes.
    fn long_line(&mut self) -> Option<Arrival<A>>
        requires ready { spec.IsReady self.old }
        requires long { HasNoFeed self.old.buffer × (length self.old.buffer ≡ 65_536) }
        ensures { spec.TakesLine false self.old result self.new }
    {
        let bytes = self.buffer.waiting();
        let count = bytes.len();
        let meaning = refused(self.line(bytes), Skipped::Long, Why::Unread);
        self.is_skipping = true;
        self.hand_out(count, meaning)
    }

    /// Takes the last line, which has no line feed. None if no bytes wait.
    fn last_line(&mut self) -> Option<Option<Arrival<A>>>
        requires ready { spec.IsReady self.old }
        requires short { HasNoFeed self.old.buffer × (length self.old.buffer < 65_536) }
        ensures { MatchOption result
            ((self.new ≡ self.old) × (self.old.buffer ≡ []))
            (λ handed. spec.TakesLine true self.old handed self.new) }
    {
        let (alloc, layout) = (self.alloc, self.layout);
        let bytes = self.buffer.waiting();
        let count = bytes.len();
        if count == 0 {
            return None;
        }
        let meaning = meaning_of(alloc, layout, self.line(without_return(bytes)));
        Some(self.hand_out(count, meaning))
    }

    /// Takes the line at the front; if the bytes are the last, also one without a line feed. None if
    /// none waits.
    fn front_line(&mut self, is_last: bool) -> Option<Option<Arrival<A>>>
        requires ready { spec.IsReady self.old }
        ensures { MatchOption result (spec.Wants is_last self.old self.new)
            (λ handed. spec.TakesLine is_last self.old handed self.new) }
    {
        if let Some(handed) = self.next_line() {
            return Some(handed);
        }
        if self.buffer.is_full() {
            return Some(self.long_line());
        }
        if is_last { self.last_line() } else { None }
    }

    /// Takes the next line, as `front_line`. A silent line hands out nothing.
    fn take_line(&mut self, is_last: bool) -> Option<Option<Arrival<A>>>
        requires lines { self.old.form ≡ form.Lines }
        requires paid { self.old.is_owed ≡ false }
        ensures { MatchOption result (spec.Wants is_last self.old self.new)
            (λ handed. spec.TakesLine is_last self.old handed self.new) }
    {
        if self.is_skipping {
            self.skip_on();
        }
        if self.is_skipping {
            return None;
        }
        self.front_line(is_last)
    }

    /// What the next line is that isn't silent.
    fn next_of_lines(&mut self, is_last: bool) -> Option<Arrival<A>>
        requires lines { self.old.form ≡ form.Lines }
        requires paid { self.old.is_owed ≡ false }
        ensures { spec.Hands is_last self.old result self.new }
    {
        while let Some(handed) = self.take_line(is_last) {
            if let Some(arrival) = handed {
                return Some(arrival);
            }
        }
        None
    }

    /// What comes next of the bytes that wait; `is_last`: no more bytes come after them. None if
    /// nothing whole waits. Allocates only what a scan or an order needs; a frame's scan has the
    /// memory of the spare one, if there is one.
    pub(crate) fn next(&mut self, is_last: bool, spare: &mut Option<Scan<A>>) -> Option<Arrival<A>>
        ensures { spec.Hands is_last self.old result self.new }
    {
        match self.form {
            Input::Frames(lowest) => self.next_frame(lowest, spare),
            Input::Counted(lowest) => self.next_counted(lowest, spare),
            Input::Lines => {
                if self.is_owed {
                    self.is_owed = false;
                    self.came = self.came.saturating_add(1);
                    return Some(Arrival::Lost(Why::Unread));
                }
                self.next_of_lines(is_last)
            }
        }
    }
}
