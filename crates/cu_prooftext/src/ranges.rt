//! The ranges of numbers in a text.
ghost use Rattle.std.specs.Prelude.{◌≡◌, ◌<◌, suc};
ghost use Rattle.cu_prooftext.specs.Inside.Ranges.{leads_up};
ghost use Rattle.cu_prooftext.specs.Inside.RangeOf.{fits_in, leads_in};

/// The numbers that may stand in a place.
#[derive(Clone, Copy, Debug)]
pub(crate) enum Range {
    /// Those up to this one.
    UpTo(u128),
    /// Those from 1 on, up to this one.
    FromOne(u128),
    /// Unicode scalars.
    Scalars,
    /// Those above this one that have 32 bits.
    Above(u32),
}

/// Any number of 64 bits.
pub(crate) const INDICES: Range = Range::UpTo(18_446_744_073_709_551_615);

/// Any number of 32 bits.
pub(crate) const SMALL: Range = Range::UpTo(4_294_967_295);

impl Range {
    /// Whether a number is in the range.
    pub(crate) fn fits(self, number: u128) -> bool
        ensures { result ≡ fits_in self number }
    {
        match self {
            Range::UpTo(most) => number <= most,
            Range::FromOne(most) => 1 <= number && number <= most,
            Range::Scalars => number < 0xD800 || (0xE000 <= number && number < 0x11_0000),
            Range::Above(last) => (last as u128) < number && number <= 4_294_967_295,
        }
    }

    /// Whether a number is in the range, or digits after its own make one that
    /// is.
    pub(crate) fn leads(self, number: u128) -> bool
        ensures { result ≡ leads_in self number }
    {
        match self {
            Range::UpTo(most) => number <= most,
            Range::FromOne(most) => 1 <= number && number <= most,
            Range::Scalars => number <= 0x10_FFFF,
            Range::Above(last) => 0 < number && leads_above(last, number),
        }
    }
}

/// Whether digits from those of a positive number on make one of 32 bits above
/// the last.
fn leads_above(last: u32, number: u128) -> bool
    requires { 0 < number }
    ensures { result ≡ leads_up (suc (suc last)) last number number }
{
    let mut low = number;
    let mut high = number;
    while high <= last as u128 {
        low *= 10;
        high = high * 10 + 9;
    }
    low <= 4_294_967_295
}
