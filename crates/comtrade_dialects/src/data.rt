//! Decides on the form of the data: the one in the configuration file, unless the data
//! prove another.

use crate::cursor::{TextCursor, around};
use crate::draft::ConfigDraft;
use crate::fault::{ImportFault, Why};
use crate::key::Key;
use crate::kinds::Form;
use crate::look::{FormEvidence, follow, look_at};
use crate::note::{Notes, Place};
use crate::row::{Cells, RowCounts, RowsPlan};
use crate::text::{has_only, without_empty_end};
use crate::text_row::read_line;
use comtrade_values::trim;
use memchr::memchr;
use std::alloc::{AllocError, Allocator};

/// The bytes before and after the first byte 1A.
fn around_mark(dat: &[u8]) -> (&[u8], &[u8]) {
    match around(dat, 0x1a) {
        Some(parts) => parts,
        None => (dat, &dat[dat.len()..]),
    }
}

/// The separator between the fields of ASCII rows.
fn mark_of(text: &[u8]) -> u8 {
    let mut cursor = TextCursor::new(text);
    match cursor.next_line() {
        Some(line) if memchr(b';', line.text).is_some() => b';',
        _ => b',',
    }
}

/// A data file, how many channels its rows have, how many rows are declared, and the notes so far.
#[derive(Drop)]
struct Data<'a, 'n, A: Allocator> {
    bytes: &'a [u8],
    counts: RowCounts,
    last: Option<u64>,
    notes: &'n mut Notes<A>,
}

impl<'a, A: Allocator + Copy> Data<'a, '_, A> {
    /// Whether the first row can be read as ASCII.
    fn is_text(&self) -> bool {
        let (text, _) = around_mark(self.bytes);
        let mut cursor = TextCursor::new(text);
        let mut cells = Cells::new(self.notes.allocator());
        match cursor.next_line() {
            Some(line) => read_line(&mut cells, line.text, mark_of(text), self.counts).is_ok(),
            None => false,
        }
    }

    /// The bytes of a row in this form.
    fn size_in(&self, form: Form) -> Result<usize, ImportFault> {
        let size = form.row_size(self.counts.k, self.counts.m);
        size.ok_or(ImportFault::Whole(Why::Length))
    }

    /// What the data prove about a form whose rows have the usual size and order of bytes.
    fn look_as(&self, form: Form) -> Result<FormEvidence<'a>, ImportFault> {
        Ok(look_at(self.bytes, form, self.size_in(form)?, false))
    }

    fn tell(&mut self, key: Key, piece: &str) -> Result<(), AllocError> {
        let place = Place::Whole("data file");
        self.notes.tell(key, place, piece.as_bytes())
    }

    /// A plan for binary rows; notes a byte 1A after them.
    fn packed(&mut self, look: FormEvidence<'a>) -> Result<RowsPlan<'a>, ImportFault> {
        if look.has_mark {
            self.tell(Key::Dat1a, "")?;
        }
        Ok(RowsPlan::Packed(look.packed))
    }

    fn text_plan(&mut self) -> Result<RowsPlan<'a>, ImportFault> {
        let (text, rest) = around_mark(self.bytes);
        if !has_only(rest, b"\x1a\r\n \0") {
            self.tell(Key::DatAfterEnd, "")?;
        }
        let mark = mark_of(text);
        if mark == b';' {
            self.tell(Key::SeparatorSemicolon, "")?;
        }
        if TextCursor::new(text).ends_in_returns() {
            self.tell(Key::LineEndsCr, "")?;
        }
        let (meant, left_out) = without_empty_end(text, mark);
        if left_out.contains(&mark) {
            self.tell(Key::TrailingCommas, "")?;
        }
        Ok(RowsPlan::Text(meant, mark))
    }

    /// The plan of data that prove to be BINARY, with a note on the declared type; None for
    /// other data.
    fn as_binary(&mut self, said: Option<&str>) -> Result<Option<RowsPlan<'a>>, ImportFault> {
        let short = self.look_as(Form::Binary)?;
        if !short.is_proved() {
            return Ok(None);
        }
        if let Some(said) = said {
            self.tell(Key::KindOther, said)?;
        }
        Ok(Some(self.packed(short)?))
    }

    /// The plan of data that are text or prove to be BINARY; None for other data.
    fn text_or_binary(&mut self, is_said: bool) -> Result<Option<RowsPlan<'a>>, ImportFault> {
        if self.is_text() {
            return Ok(Some(self.text_plan()?));
        }
        self.as_binary(is_said.then_some("cfg has ASCII, found BINARY"))
    }

    /// The plan of data that the configuration file declares as text.
    fn said_text(&mut self) -> Result<RowsPlan<'a>, ImportFault> {
        if let Some(plan) = self.text_or_binary(true)? {
            return Ok(plan);
        }
        if self.look_as(Form::Binary32)?.is_proved() {
            return Err(ImportFault::Whole(Why::NoKind));
        }
        self.text_plan()
    }

    /// Refuses data declared as BINARY whose rows prove to have samples of 32 bits. With one
    /// analogue channel they may also be 16 bits and two spare bytes.
    fn refuse_wide(&self) -> Result<(), ImportFault> {
        let size = self.size_in(Form::Binary32)?;
        for is_big in [false, true] {
            if look_at(self.bytes, Form::Binary32, size, is_big).is_proved() {
                let why = if self.counts.k == 1 {
                    Why::WideOrSpare
                } else {
                    Why::Wide
                };
                return Err(ImportFault::Whole(why));
            }
        }
        Ok(())
    }

    /// The plan of whole rows whose numbers do not increase by one. Refused if the numbers follow
    /// no other pattern and there are more or fewer rows than declared.
    fn unproved(&mut self, own: FormEvidence<'a>) -> Result<RowsPlan<'a>, ImportFault> {
        let rows = own.packed.count() as u64;
        if self.last == Some(rows) || follow(own.packed, self.last) {
            self.packed(own)
        } else {
            Err(ImportFault::Whole(Why::NoPattern))
        }
    }

    /// The plan of data that prove to have another form than declared.
    fn proved(&mut self, form: Form) -> Result<Option<RowsPlan<'a>>, ImportFault> {
        let size = self.size_in(form)?;
        let big = look_at(self.bytes, form, size, true);
        if big.is_proved() {
            self.tell(Key::BigEndian, "")?;
            return Ok(Some(self.packed(big)?));
        }
        if form == Form::Binary && self.counts.k != 0 {
            self.refuse_wide()?;
        }
        let Some(longer) = size.checked_add(2) else {
            return Err(ImportFault::Whole(Why::Length));
        };
        let spare = look_at(self.bytes, form, longer, false);
        if spare.is_proved() {
            self.tell(Key::RowSize, "")?;
            return Ok(Some(self.packed(spare)?));
        }
        if self.is_text() {
            self.tell(Key::KindOther, "cfg has a binary type, found ASCII")?;
            return Ok(Some(self.text_plan()?));
        }
        if form == Form::Binary {
            return Ok(None);
        }
        self.as_binary(Some("cfg has a 32-bit type, found BINARY"))
    }

    /// The plan of data that the configuration file declares as binary.
    fn said_packed(&mut self, form: Form) -> Result<RowsPlan<'a>, ImportFault> {
        let own = self.look_as(form)?;
        if own.is_proved() {
            return self.packed(own);
        }
        if let Some(plan) = self.proved(form)? {
            return Ok(plan);
        }
        if own.is_whole {
            return self.unproved(own);
        }
        if !own.runs {
            return Err(ImportFault::Whole(Why::Length));
        }
        let Some(row) = (own.packed.count() as u64).checked_add(1) else {
            return Err(ImportFault::Whole(Why::Length));
        };
        self.notes.tell(Key::RowCut, Place::Row(row), &[])?;
        Ok(RowsPlan::Packed(own.packed))
    }

    /// Notes forms that 1999 does not have.
    fn tell_form(&mut self, form: Form) -> Result<(), AllocError> {
        match form {
            Form::Binary32 => self.tell(Key::KindBinary32, ""),
            Form::Float32 => self.tell(Key::KindFloat32, ""),
            _ => Ok(()),
        }
    }
}

/// Where the rows are, and in which form.
pub(crate) fn plan_of<'a, A: Allocator + Copy>(
    notes: &mut Notes<A>,
    draft: &ConfigDraft<A>,
    bytes: &'a [u8],
) -> Result<RowsPlan<'a>, ImportFault> {
    if trim(bytes).is_empty() {
        return Err(ImportFault::Whole(Why::NoRow));
    }
    let mut dat = Data {
        bytes,
        counts: draft.channels.counts(),
        last: draft.rates.last,
        notes,
    };
    match draft.form {
        Some(Form::Ascii) => dat.said_text(),
        Some(form) => {
            let plan = dat.said_packed(form)?;
            dat.tell_form(plan.form())?;
            Ok(plan)
        }
        None => {
            let found = dat.text_or_binary(false)?;
            found.ok_or(ImportFault::Whole(Why::NoKind))
        }
    }
}
