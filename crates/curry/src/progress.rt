//! What a terminal shows of a search while it runs.
ghost use Rattle.std.specs.Prelude.{◌≡◌, ◌<◌, ◌≤◌};

use cu_io::{Put, Sink};
use cu_pile::Gate;
use std::rt::Clock;
use std::sync::atomic::{AtomicBool, AtomicU64, Ordering};
use std::time::Instant;

/// How many seconds a search takes before anything is shown of it.
const PATIENCE: u64 = 2;

/// What is counted of a search, and a line on standard error that tells it, at
/// most once a second. Failures of the clock and of standard error are passed
/// over, since the report doesn't depend on them.
#[derive(Drop)]
pub(crate) struct Progress<'r, R> {
    rt: &'r R,
    /// When the search began, where its progress is shown.
    begun: Option<Instant>,
    /// How many rounds of two branches or more began.
    rounds: AtomicU64,
    /// How many branches were taken on in them.
    branches: AtomicU64,
    /// How many seconds the last line told.
    told: AtomicU64,
    /// Whether a line stands on the terminal.
    stands: AtomicBool,
}

impl<'r, R: Clock + Eprint> Progress<'r, R> {
    /// The progress of a search that begins now. It is shown where standard
    /// error is a terminal.
    pub(crate) fn new(rt: &'r R, is_terminal: bool) -> Progress<'r, R> {
        Progress {
            rt,
            begun: if is_terminal {
                Instant::now(rt).ok()
            } else {
                None
            },
            rounds: AtomicU64::new(0),
            branches: AtomicU64::new(0),
            told: AtomicU64::new(0),
            stands: AtomicBool::new(false),
        }
    }

    /// Takes the line away, where one stands.
    pub(crate) fn wipe(&self) {
        if self.stands.swap(false, Ordering::Relaxed) {
            let _ = eprint!(self.rt; "\r\u{1b}[K");
        }
    }

    /// Counts a branch that is taken on.
    fn count(&self, number: u32) {
        if number == 0 {
            self.rounds.fetch_add(1, Ordering::Relaxed);
        }
        self.branches.fetch_add(1, Ordering::Relaxed);
    }

    /// Tells how far the search is, unless another worker does or did so in
    /// this second.
    fn tell(&self, seconds: u64) {
        let told = self.told.load(Ordering::Relaxed);
        if !is_due(seconds, told) || !self.takes_turn(told, seconds) {
            return;
        }
        let rounds = self.rounds.load(Ordering::Relaxed);
        let branches = self.branches.load(Ordering::Relaxed);
        self.stands.store(true, Ordering::Relaxed);
        let _ = eprint!(self.rt; "\r{seconds} s, {rounds} rounds, {branches} branches\u{1b}[K");
    }

    /// Whether it is this worker that tells of this second.
    fn takes_turn(&self, told: u64, seconds: u64) -> bool {
        self.told
            .compare_exchange(told, seconds, Ordering::Relaxed, Ordering::Relaxed)
            .is_ok()
    }
}

/// Whether a line is due after so many seconds, where the last one told so
/// many.
fn is_due(seconds: u64, told: u64) -> bool {
    seconds >= PATIENCE && seconds > told
}

impl<'r, R: Clock + Eprint> Gate for Progress<'r, R> {
    ghost told = { λ _ _. Unit {0} };

    fn enter(&self, number: u32) {
        let Some(begun) = self.begun else {
            return;
        };
        self.count(number);
        if let Ok(gone) = begun.elapsed(self.rt) {
            self.tell(gone.as_secs());
        }
    }
}

/// An output before whose pieces the line of progress is taken away.
#[derive(Drop)]
pub(crate) struct ClearedSink<'p, 'r, R, K> {
    progress: &'p Progress<'r, R>,
    sink: K,
}

impl<'p, 'r, R: Clock + Eprint, K: Sink> ClearedSink<'p, 'r, R, K> {
    pub(crate) fn new(progress: &'p Progress<'r, R>, sink: K) -> ClearedSink<'p, 'r, R, K> {
        ClearedSink { progress, sink }
    }
}

impl<'p, 'r, R: Clock + Eprint, K: Sink> Sink for ClearedSink<'p, 'r, R, K> {
    ghost fault_count = { λ s. K.fault_count s.sink };

    ghost written = { λ s. K.written s.sink };

    fn faults(&self) -> u64 {
        self.sink.faults()
    }

    fn put(&mut self, piece: &[u8]) -> Put {
        self.progress.wipe();
        self.sink.put(piece)
    }
}
