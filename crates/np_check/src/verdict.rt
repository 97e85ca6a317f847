//! What a check of a certificate comes to.

/// What a check of a certificate comes to.
#[derive(Clone, Copy, Debug, PartialEq, Eq)]
pub enum Verdict {
    /// The certificate is valid: no plan costs less than its claim.
    Holds,
    /// The proof of this number is the first one that fails.
    BadProof(usize),
    /// The entry of this number is the first one with a fault, and has the state of an earlier one.
    TwiceEntry(usize),
    /// The entry of this number is the first one with a fault, and isn't justified.
    BadEntry(usize),
    /// All entries are good, but the claim is above the bound of the start's entry, or not below `2^62`.
    BadClaim,
    /// Memory ran out.
    Memory,
}
