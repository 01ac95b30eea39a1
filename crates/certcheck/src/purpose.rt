//! What a text is read for.

/// What a text is read for, by which its leaves are judged.
#[derive(Clone, Copy, Debug)]
pub(crate) enum Purpose {
    /// As a proof: no leaf may be open.
    Verify,
    /// As a restart body: leaves may be open, and equal cuts of a leaf are one.
    Resume,
}
