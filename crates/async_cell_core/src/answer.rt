use crate::{Reply, Wakers};

/// The reply to a call, and the wakers that the call returns. The caller must wake them.
#[derive(Drop)]
pub struct Answer<T, W> {
    /// The reply, or the refusal.
    pub reply: Reply<T>,
    /// The wakers to be woken, in order of registration.
    pub woken: Wakers<W>,
}
