//! What follows from the definitions alone.
ghost use Rattle.room_json.specs.Laws.{TextsSpell};

/// The text of a value that is at most 60 deep is read again as that value.
#[tactic(auto, using(crate::proofs::TextsAreUtf8::text_spells))]
pub fn texts_spell()
    ensures { TextsSpell }
{}
