//! What is counted of a connection.
use jsp_status::ConnectionStatus;
use std::alloc::{AllocError, Global};
use std::net::SocketAddr;
use std::sync::atomic::{AtomicU64, Ordering};
use std::time::{Clock, Instant};

/// What is counted of a connection, for those who look at it from outside.
#[derive(Drop)]
pub struct Activity {
    pub address: SocketAddr,
    start: Instant,
    /// The number of its session, 0 before it has one.
    session: AtomicU64,
    /// How many whole requests it made.
    pub requests: AtomicU64,
    /// How many answers were written to it.
    answers: AtomicU64,
}

impl Activity {
    /// Those of a connection that begins.
    pub fn new(address: SocketAddr, start: Instant) -> Activity {
        Activity {
            address,
            start,
            session: AtomicU64::new(0),
            requests: AtomicU64::new(0),
            answers: AtomicU64::new(0),
        }
    }

    pub fn session(&self) -> u64 {
        self.session.load(Ordering::SeqCst)
    }

    pub fn set_session(&self, session: u64) {
        self.session.store(session, Ordering::SeqCst);
    }

    pub fn requests(&self) -> u64 {
        self.requests.load(Ordering::SeqCst)
    }

    /// So many answers more were written.
    pub fn add_answers(&self, count: u64) {
        self.answers.fetch_add(count, Ordering::SeqCst);
    }

    /// What a status says of it. A request that is answered just now may still seem to wait.
    pub(crate) fn to_status<T: Clock>(
        &self,
        rt: &T,
        alloc: Global,
    ) -> Result<ConnectionStatus, AllocError> {
        let answers = self.answers.load(Ordering::SeqCst);
        let requests = self.requests();
        let open_ms = match self.start.elapsed(rt) {
            Ok(time) => u64::try_from(time.as_millis()).unwrap_or(u64::MAX),
            Err(_) => 0,
        };
        Ok(ConnectionStatus {
            number: self.session(),
            address: format!(in alloc; "{}", self.address)?,
            open_ms,
            requests,
            waiting: requests.saturating_sub(answers),
        })
    }
}
