//! Collects the texts of a configuration file.

ghost use Rattle.std.specs.Prelude.{◌≡◌, ◌++◌, ◌∷◌, [], length, OnOk, IfOk};
ghost use Rattle.comtrade_c.specs.Channels as spec;

use comtrade_format::Head;
use comtrade_values::Items;
use std::alloc::{AllocError, Global};

/// The texts one after the other, and the length of each in bytes.
#[derive(Drop)]
pub(crate) struct Texts {
    pub bytes: Vec<u8>,
    pub lengths: Vec<usize>,
}

impl Texts {
    fn put(&mut self, text: &Items<u8>) -> Result<(), AllocError>
        ensures bytes { OnOk result (self.new.bytes.items ≡ self.old.bytes.items ++ text.now) }
        ensures lengths { OnOk result
            (self.new.lengths.items ≡ self.old.lengths.items ++ length text.now ∷ []) }
    {
        self.bytes.extend_from_slice(text.items())?;
        self.lengths.push(text.items().len())?;
        Ok(())
    }

    /// Appends the texts that both kinds of channel have.
    fn put_names(
        &mut self,
        id: &Items<u8>,
        phase: &Items<u8>,
        component: &Items<u8>,
    ) -> Result<(), AllocError>
        ensures bytes { OnOk result (self.new.bytes.items
            ≡ self.old.bytes.items ++ id.now ++ phase.now ++ component.now) }
        ensures lengths { OnOk result (self.new.lengths.items ≡ self.old.lengths.items
            ++ length id.now ∷ length phase.now ∷ length component.now ∷ []) }
    {
        self.put(id)?;
        self.put(phase)?;
        self.put(component)
    }
}

pub(crate) fn texts_of(alloc: Global, head: &Head) -> Result<Texts, AllocError>
    ensures bytes { IfOk result (λ t. t.bytes.items ≡ spec.text_in head.now) }
    ensures lengths { IfOk result (λ t. t.lengths.items ≡ spec.lengths_in head.now) }
{
    let mut texts = Texts {
        bytes: Vec::new(alloc),
        lengths: Vec::new(alloc),
    };
    texts.put(&head.station)?;
    texts.put(&head.device)?;
    for analog in head.analog.items() {
        texts.put_names(&analog.id, &analog.phase, &analog.component)?;
        texts.put(&analog.unit)?;
    }
    for status in head.status.items() {
        texts.put_names(&status.id, &status.phase, &status.component)?;
    }
    Ok(texts)
}
