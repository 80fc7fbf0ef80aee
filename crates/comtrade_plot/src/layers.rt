//! Which record of a picture a trace belongs to, and how that is shown.

use crate::phases::Hue;

/// The only record of a picture, or one of two.
#[derive(Clone, Copy, PartialEq, Eq)]
pub(crate) enum Layer {
    Alone,
    One,
    Other,
}

impl Layer {
    /// The prefix of the names of its channels.
    pub(crate) fn tag(self) -> &'static str {
        match self {
            Layer::Alone => "",
            Layer::One => "A: ",
            Layer::Other => "B: ",
        }
    }

    /// The hue of its trace, for a channel with this hue. Of two records, each has one hue.
    pub(crate) fn hue(self, own: Hue) -> Hue {
        match self {
            Layer::Alone => own,
            Layer::One => Hue::First,
            Layer::Other => Hue::Second,
        }
    }

    /// The style of its traces, as an attribute.
    pub(crate) fn dashes(self) -> &'static str {
        match self {
            Layer::Other => " stroke-dasharray=\"6 5\"",
            _ => "",
        }
    }

    /// The name of its trigger.
    pub(crate) fn trigger_name(self) -> &'static str {
        match self {
            Layer::Alone => "the trigger",
            Layer::One => "the trigger of A",
            Layer::Other => "the trigger of B",
        }
    }

    /// The style of its trigger's line.
    pub(crate) fn trigger_dashes(self) -> &'static str {
        match self {
            Layer::Other => "1 3",
            _ => "4 3",
        }
    }
}
