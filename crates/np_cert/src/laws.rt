//! Laws of the definitions.
ghost use Rattle.np_cert.specs.ReadingOnce.{OneValue};

/// A text spells one certificate at most.
pub fn one_value()
    ensures { OneValue }
{}
