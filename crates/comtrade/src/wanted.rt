//! What is asked of a record.

use comtrade_io::{Batched, Cursor, Form, Part, Picture, Viewed};

/// What is printed of a record.
#[derive(Clone, Copy, PartialEq, Eq)]
pub(crate) enum Product {
    Show,
    Csv,
    Plot,
    Page,
    Measure,
}

/// What is printed of a record, of which part, and how.
#[derive(Clone, Copy)]
pub(crate) struct Wanted<'a> {
    pub(crate) product: Product,
    pub(crate) part: Part<'a>,
    pub(crate) form: Form<'a>,
    pub(crate) picture: Picture<'a>,
    pub(crate) cursor: Cursor<'a>,
    pub(crate) json: bool,
}

impl<'a> Wanted<'a> {
    /// What is asked of a pair; no picture is, and no measurement.
    pub(crate) fn of_pair(product: Product, viewed: Viewed<'a>) -> Wanted<'a> {
        Wanted {
            product,
            part: viewed.part,
            form: viewed.form,
            picture: Picture {
                whole: false,
                all: false,
                width: None,
                height: None,
                print: false,
            },
            cursor: Cursor {
                at: None,
                reference: None,
                frequency: None,
                phases: None,
            },
            json: viewed.json,
        }
    }

    /// What is asked of each of many records; no table of values is.
    pub(crate) fn of_each(product: Product, asked: &Batched<'a>) -> Wanted<'a> {
        Wanted {
            product,
            part: asked.part,
            form: Form {
                separator: None,
                decimal: None,
            },
            picture: asked.picture,
            cursor: asked.cursor,
            json: asked.json,
        }
    }
}
