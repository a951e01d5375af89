//! The settings of a session.
ghost use Rattle.std.specs.Prelude.{◌≡◌};
ghost use Rattle.cu_words.specs.Requests.{IsSettingInRange, default_limits, limits_with};
ghost use Rattle.cu_words.specs.Words.{AreInRange};

use cu_machine::{Limits, SearchLimits};

/// A limit on the search, or how many workers there are.
#[derive(Clone, Copy, Debug, PartialEq, Eq)]
pub enum Setting {
    /// The last round, 1 to 1,000,000,000.
    Rounds(u64),
    /// The last answer that is listed, 1 to 1,000,000,000, where there is one.
    Answers(Option<u64>),
    /// The most nodes of one branch, 1 to 16,777,216.
    Nodes(u32),
    /// The most open branches of one level, 1 to 1,048,576.
    Width(u32),
    /// The most steps by which a round takes a branch on, 1 to 1,000,000.
    Stride(u64),
    /// How many workers take part, 1 to 64.
    Workers(u32),
}

impl Setting {
    /// The limits after this setting. A number of workers leaves them.
    pub fn apply(self, limits: SearchLimits) -> SearchLimits
        ensures value { result ≡ limits_with self limits }
        ensures ranges { IsSettingInRange self → AreInRange limits → AreInRange result }
    {
        let mut limits = limits;
        match self {
            Setting::Rounds(rounds) => limits.rounds = rounds,
            Setting::Answers(answers) => limits.answers = answers,
            Setting::Nodes(nodes) => limits.step.nodes = nodes,
            Setting::Width(width) => limits.step.width = width,
            Setting::Stride(stride) => limits.stride = stride,
            Setting::Workers(_) => {}
        }
        limits
    }
}

/// The limits of a session before any setting, and of a `solve` whose words
/// have no option for them.
pub fn default_limits() -> SearchLimits
    ensures value { result ≡ default_limits }
    ensures ranges { AreInRange result }
{
    SearchLimits {
        rounds: 100_000,
        answers: None,
        stride: 1,
        step: Limits {
            nodes: 1_000_000,
            width: 65_536,
        },
    }
}
