//! A server's end from outside.
use std::sync::atomic::{AtomicBool, Ordering};

/// Asks a server to end in order: it takes no more connections, shuts the sessions of those that it
/// serves, settles what is left and compares its history.
#[derive(Drop)]
pub struct Stop {
    is_asked: AtomicBool,
}

impl Stop {
    pub fn new() -> Stop {
        Stop {
            is_asked: AtomicBool::new(false),
        }
    }

    /// Asks for the end. The server sees it when its next connection comes, which may be one that
    /// is made for that, or by itself where it takes no more.
    pub fn ask(&self) {
        self.is_asked.store(true, Ordering::SeqCst);
    }

    pub(crate) fn is_asked(&self) -> bool {
        self.is_asked.load(Ordering::SeqCst)
    }
}
