//! Laws of what is told of a contact. These functions do nothing: their contracts state the laws.

ghost use Rattle.dfr_sequence.specs.Laws.{FewLaw, OnceLaw};

/// Each change of a contact was told or waits to be told, exactly once, in order.
pub fn each_change_once()
    ensures { OnceLaw }
{}

/// At most so much is told of a contact in any second.
pub fn few_in_a_second()
    ensures { FewLaw }
{}
