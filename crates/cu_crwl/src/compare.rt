//! Values compared by `==`.
ghost use Rattle.std.specs.Prelude.{◌≡◌};
ghost use Rattle.cu_calculus.specs.Compared.{compared};
ghost use Rattle.cu_crwl.specs.Inside.Comparing.{heads_meet};

use cu_values::{Cell, Value};

/// What the heads of two values say about `==`.
#[derive(Clone, Copy)]
pub(crate) enum Met {
    /// `==` has no answer on the two values.
    Unanswered,
    /// The two values differ.
    Different,
    /// The two values are the same exactly if their arguments are.
    Alike,
}

/// What two heads say about `==` on the values.
fn heads_meet(left: Cell, right: Cell) -> Met
    ensures { result ≡ heads_meet left right }
{
    match (left, right) {
        (Cell::Lit(literal), Cell::Lit(other)) => {
            if literal == other {
                Met::Alike
            } else {
                Met::Different
            }
        }
        (Cell::Lit(_), Cell::Con(_, _)) => Met::Different,
        (Cell::Con(_, _), Cell::Lit(_)) => Met::Different,
        (Cell::Con(constructor, _), Cell::Con(other, _)) => {
            if constructor == other {
                Met::Alike
            } else {
                Met::Different
            }
        }
        _ => Met::Unanswered,
    }
}

/// The pairs of values, from the left, that `==` has still to compare.
#[derive(Clone, Copy)]
struct Pairs {
    /// How many pairs there are.
    left: usize,
    /// Whether these pairs are all. If not, there is no answer where each of
    /// them is the same.
    whole: bool,
}

impl Pairs {
    ghost use Rattle.std.specs.Prelude.{◌≡◌, ◌≢◌, ◌+◌, ◌<◌, ◌^◌, false, min};

    /// The pairs that are left after two heads that are alike, with these
    /// numbers of arguments. Where the numbers differ, neither the arguments
    /// that have no partner nor the pairs after them count.
    fn after(self, mine: u32, others: u32) -> Pairs
        requires some { 0 < self.left }
        requires fits { self.left + mine < 2 ^ 64 }
        ensures same { mine ≡ others →
            (result.left + 1 ≡ self.left + mine) × (result.whole ≡ self.whole) }
        ensures differ { mine ≢ others → (result.left ≡ min mine others) × (result.whole ≡ false) }
    {
        if mine == others {
            Pairs {
                left: self.left - 1 + mine as usize,
                whole: self.whole,
            }
        } else {
            Pairs {
                left: mine.min(others) as usize,
                whole: false,
            }
        }
    }
}

/// What `==` answers of two values, where it answers. Takes time in proportion
/// to the cells of the smaller one, and no memory.
pub(crate) fn compare(left: &Value, right: &Value) -> Option<bool>
    ensures { result ≡ compared left.now right.now }
{
    let cells = left.cells();
    let others = right.cells();
    let mut pairs = Pairs {
        left: 1,
        whole: true,
    };
    let mut i = 0;
    while pairs.left > 0 {
        match heads_meet(cells[i], others[i]) {
            Met::Unanswered => return None,
            Met::Different => return Some(false),
            Met::Alike => {
                pairs = pairs.after(cells[i].arity(), others[i].arity());
                i += 1;
            }
        }
    }
    if pairs.whole { Some(true) } else { None }
}
