//! What may go from one thread to another, and be read by several.

/// Takes what is both, and nothing else.
pub(crate) fn may_cross<T: Send + Sync + Drop>(_value: T) {}
