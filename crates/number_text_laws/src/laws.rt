//! Laws over the definitions alone: each is the contract of a function that does nothing.
ghost use Rattle.number_text_laws.specs.Exact.{AddressTextsAreExact, NumberTextsAreExact};

/// A text is read as a number exactly where it is the decimal digits of that number, which is below
/// 2^64.
pub fn number_texts_are_exact()
    ensures { NumberTextsAreExact }
{}

/// A text is read as an address exactly where it is the four bytes of that address with dots
/// between them.
pub fn address_texts_are_exact()
    ensures { AddressTextsAreExact }
{}
