//! Marks: which indices aren't in a set, told without looking.
ghost use Rattle.std.specs.Prelude.{◌≡◌, ℕ, ◌<◌, ◌==◌, true};
ghost use Rattle.std.specs.Int.{bit_at};
ghost use Rattle.cu_frozen.specs.Inside.Marked.{may_have};

/// Two words of bits. Each index that is added sets a bit of the first by its
/// lowest six bits, and one of the second by the next six. So an index whose
/// bits aren't both set was never added.
#[derive(Clone, Copy)]
pub(crate) struct Marks {
    first: u64,
    second: u64,
}

/// Whether a bit is set.
#[inline(always)]
fn is_set(word: u64, bit: u32) -> bool
    requires { bit < 64 }
    ensures { result ≡ (bit_at word bit == 1) }
{
    (word >> bit) % 2 == 1
}

/// A word with one bit more set.
fn with_set(word: u64, bit: u32) -> u64
    requires { bit < 64 }
    ensures set { bit_at result bit ≡ 1 }
    ensures kept { (other : ℕ) → bit_at word other ≡ 1 → bit_at result other ≡ 1 }
{
    word | 1 << bit
}

impl Marks {
    /// The marks of no index.
    pub(crate) fn none() -> Marks {
        Marks {
            first: 0,
            second: 0,
        }
    }

    /// The marks with those of one index more.
    pub(crate) fn with(self, id: u32) -> Marks
        ensures added { may_have result id ≡ true }
        ensures kept { (other : ℕ) → may_have self other ≡ true
            → may_have result other ≡ true }
    {
        let first = with_set(self.first, id % 64);
        let second = with_set(self.second, id / 64 % 64);
        Marks { first, second }
    }

    /// Whether an index may have been added.
    #[inline(always)]
    pub(crate) fn may_have(self, id: u32) -> bool
        ensures { result ≡ may_have self id }
    {
        is_set(self.first, id % 64) && is_set(self.second, id / 64 % 64)
    }
}
