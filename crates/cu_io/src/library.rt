//! The library that holds the texts of modules.
ghost use Rattle.std.specs.Prelude.{◌≡◌, ℕ, Option, IfSome, IfOk, MatchResult};
ghost use Rattle.cu_io.specs.Holdings.{Holdings};
ghost use Rattle.cu_io.specs.Fetches.{Fetches, FetchCount};

use std::alloc::{AllocError, Global};

/// The most bytes of one text that a library gives.
pub(crate) const MAX_FETCHED_BYTES: usize = 16_777_217;

/// What a library answers when it is asked for a text.
#[derive(Debug, Drop)]
pub enum Fetched {
    /// The text, at most its first 16,777,217 bytes.
    Text(Vec<u8>),
    /// Nothing is held in the place that was asked for.
    Absent,
    /// The outside failed; the library's count of faults rose.
    Failed,
}

/// A place that holds module texts under a directory and a module name, and
/// other texts under a path. No call changes what is held.
pub trait Library {
    /// How many faults have been counted.
    ghost fault_count: { Self → ℕ };

    /// What is held, where the library tells it.
    ghost holdings: { Self → Option Holdings };

    /// The number of faults so far. It stands still at the last `u64`.
    fn faults(&self) -> u64
        ensures { result ≡ fault_count self.now };

    /// The text of the module's file under a directory.
    fn fetch(&mut self, alloc: Global, dir: &str, module: &str) -> Result<Fetched, AllocError>
        ensures same { holdings self.new ≡ holdings self.old }
        ensures told { IfOk result (λ fetched. IfSome (holdings self.old) (λ held.
            Fetches (held.module_at dir.now «module».now) fetched)) }
        ensures count { MatchResult result
            (λ fetched. FetchCount fetched (fault_count self.old) (fault_count self.new))
            (λ _. fault_count self.new ≡ fault_count self.old) };

    /// The text of the file at a path.
    fn file(&mut self, alloc: Global, path: &str) -> Result<Fetched, AllocError>
        ensures same { holdings self.new ≡ holdings self.old }
        ensures told { IfOk result (λ fetched. IfSome (holdings self.old) (λ held.
            Fetches (held.file_at path.now) fetched)) }
        ensures count { MatchResult result
            (λ fetched. FetchCount fetched (fault_count self.old) (fault_count self.new))
            (λ _. fault_count self.new ≡ fault_count self.old) };
}
