//! Cuts the bytes that were read into counted frames, and looks for the next one where none stands.

ghost use Rattle.std.specs.Prelude.{◌≡◌, ◌≤◌, ◌+◌, Bool, true, [], ◌∷◌, length};
ghost use Rattle.dfr_station.specs.Input as spec;
ghost use Rattle.dfr_station.specs.Counted.{is_counted, counter_in};
ghost use Rattle.dfr_station.specs.Lines.{parts_of};
ghost use Rattle.dfr_station.specs.declared.station.Input.TheVariants as form;

use crate::intake::arrival::Arrival;
use crate::intake::counted::{HEAD, counter_of, first_missing, next_counter};
use crate::intake::cutter::Cutter;
use crate::intake::feed::Why;
use crate::intake::frame::{arrival_of_frame, frame_len};
use crate::station::Lowest;
use dfr_channels::Scan;
use std::alloc::Allocator;

impl<'x, A: Allocator + Copy> Cutter<'x, A> {
    /// Takes the counted frame at the front, which has this counter; or hands out the loss of one that
    /// is missing before it.
    fn take_counted(
        &mut self,
        lowest: Lowest,
        size: usize,
        counter: u16,
        spare: &mut Option<Scan<A>>,
    ) -> Arrival<A>
        requires form { self.old.form ≡ form.Counted lowest }
        requires size { size ≡ spec.frame_size self.old.layout.now }
        requires whole { 5 + size ≤ length self.old.buffer }
        requires counted { (is_counted size self.old.buffer ≡ true) × (counter ≡ counter_in self.old.buffer) }
        ensures { (last : Bool) → spec.Cuts last self.old (parts_of result ∷ []) self.new }
    {
        self.came = self.came.saturating_add(1);
        if let Some(due) = first_missing(self.due, counter) {
            self.due = Some(next_counter(due));
            return Arrival::Lost(Why::Counted);
        }
        let frame = &self.buffer.waiting()[HEAD..HEAD + size];
        let arrival = arrival_of_frame(self.alloc, spare.take(), self.layout, lowest, frame);
        self.buffer.use_up(HEAD + size);
        self.due = Some(next_counter(counter));
        self.is_noisy = false;
        arrival
    }

    /// What comes next of counted frames. None if no whole one waits.
    pub(crate) fn next_counted(
        &mut self,
        lowest: Lowest,
        spare: &mut Option<Scan<A>>,
    ) -> Option<Arrival<A>>
        requires { self.old.form ≡ form.Counted lowest }
        ensures { (last : Bool) → spec.Hands last self.old result self.new }
    {
        // a lawful layout has at most 256 channels of each kind
        let _rate = self.layout.rate();
        let size = frame_len(self.layout.analog().len(), self.layout.status().len());
        while self.buffer.waiting().len() >= HEAD + size {
            if let Some(counter) = counter_of(size, self.buffer.waiting()) {
                return Some(self.take_counted(lowest, size, counter, spare));
            }
            self.buffer.use_up(1);
            if !self.is_noisy {
                self.is_noisy = true;
                return Some(Arrival::Noise);
            }
        }
        None
    }
}
