//! Laws of the definitions. These functions do nothing: their contracts state the laws.

ghost use Rattle.dfr_bay.specs.Laws.{CompleteLaw, CountLaw};

/// A sample that is taken lies where its count says, at the next such place.
pub fn sample_has_its_count()
    ensures { CountLaw }
{}

/// The scans that are given are just those that are complete, whatever is sampled.
pub fn complete_scans_are_given<T>()
    ensures { CompleteLaw T }
{}
