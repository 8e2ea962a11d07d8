//! The law of sealing and opening.

ghost use Rattle.opening_laws.specs.Opening.{OpensWhatItSealed};

/// What a driver made of a text, the same driver opens to that text: under the same key, IV, associated bytes and tag
/// size, for each driver of each plan, under `pcrypt` and `cryptd` too.
pub fn drivers_open_what_they_sealed()
    ensures { OpensWhatItSealed }
{}
