//! The law of the definitions.

ghost use Rattle.authenc.specs.Laws.{OpensWhatItSealed};

/// What authenc sealed opens to the text again, under each front of the whole tag, where unsealing undoes the cipher's
/// sealing.
pub fn authenc_opens_what_it_sealed()
    ensures { OpensWhatItSealed }
{}
