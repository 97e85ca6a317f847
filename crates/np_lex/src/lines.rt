//! Counts of lines.

/// The lines of a text, counted up to some offset.
#[derive(Clone, Copy, Debug)]
pub struct Lines {
    /// How many line feeds are before the offset.
    pub feeds: usize,
    /// How many bytes are between the last of them and the offset.
    pub columns: usize,
}
