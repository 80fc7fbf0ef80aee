//! The forms of data files.

ghost use Rattle.std.specs.Prelude.{◌≡◌, ◌^◌, ◌≤◌, IfSome, IfNone};
ghost use Rattle.comtrade_dialects.specs.Forms as spec;

/// The form of a data file in 1999 or 2013.
#[derive(Clone, Copy, PartialEq, Eq)]
pub(crate) enum Form {
    Ascii,
    Binary,
    Binary32,
    Float32,
}

/// Their names, in upper or lower case.
const NAMES: [(&[u8], Form); 4] = [
    (b"ascii", Form::Ascii),
    (b"binary", Form::Binary),
    (b"binary32", Form::Binary32),
    (b"float32", Form::Float32),
];

/// The form with this name.
pub(crate) fn form_of(text: &[u8]) -> Option<Form> {
    for (name, form) in NAMES {
        if text.eq_ignore_ascii_case(name) {
            return Some(form);
        }
    }
    None
}

/// The bytes before the values of a row: its number and its stamp.
const FRONT: usize = 8;

impl Form {
    /// The bytes of a value.
    fn width(self) -> usize
        ensures { result ≡ spec.width self }
    {
        match self {
            Form::Ascii => 1,
            Form::Binary => 2,
            Form::Binary32 | Form::Float32 => 4,
        }
    }

    /// The bytes of a row of k values and m bits; None if memory cannot hold one.
    pub(crate) fn row_size(self, k: usize, m: usize) -> Option<usize>
        ensures size { IfSome result (λ size. size ≡ spec.row_size self k m) }
        ensures beyond { IfNone result (2 ^ 64 ≤ spec.row_size self k m) }
    {
        let values = self.width().checked_mul(k)?;
        let words = m.div_ceil(16).checked_mul(2)?;
        values.checked_add(words)?.checked_add(FRONT)
    }

    /// Whether the data are text.
    pub(crate) fn is_text(self) -> bool {
        self == Form::Ascii
    }
}
