//! The four ways in which a value is spelled.

#[derive(Clone, Copy)]
pub(crate) enum Wire {
    Varint,
    Eight,
    Bytes,
    Four,
}
