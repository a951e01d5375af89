//! What is built in.
ghost use Rattle.std.specs.Prelude.{◌≡◌, ◌++◌, List, OnOk, Some, map, slice_get};
ghost use Rattle.std.specs.List.{All, Contains};
ghost use Rattle.cu_names.specs.Texts.{AllDiffer, IsKnown, text_of};
ghost use Rattle.cu_toplevel.specs.Inside.Given.{given_meaning, given_text};
ghost use Rattle.cu_toplevel.specs.Listings.{IsListing};
ghost use Rattle.cu_translation.specs.Numbered as numbers;

use crate::listing::{Declared, Listing};
use cu_names::{NameId, Names};
use std::alloc::AllocError;

/// The types that the Prelude has without a declaration, with the numbers of
/// their parameters: lists, unit, the tuples, and the types of literals.
pub(crate) const FIRST_TYPES: [(&str, usize); 18] = [
    ("[]", 1),
    ("()", 0),
    ("(,)", 2),
    ("(,,)", 3),
    ("(,,,)", 4),
    ("(,,,,)", 5),
    ("(,,,,,)", 6),
    ("(,,,,,,)", 7),
    ("(,,,,,,,)", 8),
    ("(,,,,,,,,)", 9),
    ("(,,,,,,,,,)", 10),
    ("(,,,,,,,,,,)", 11),
    ("(,,,,,,,,,,,)", 12),
    ("(,,,,,,,,,,,,)", 13),
    ("(,,,,,,,,,,,,,)", 14),
    ("(,,,,,,,,,,,,,,)", 15),
    ("Int", 0),
    ("Char", 0),
];

/// The constructors of the types that the Prelude has without a declaration,
/// with the numbers of their fields.
pub(crate) const FIRST_CONSTRUCTORS: [(&str, usize); 17] = [
    ("[]", 0),
    (":", 2),
    ("()", 0),
    ("(,)", 2),
    ("(,,)", 3),
    ("(,,,)", 4),
    ("(,,,,)", 5),
    ("(,,,,,)", 6),
    ("(,,,,,,)", 7),
    ("(,,,,,,,)", 8),
    ("(,,,,,,,,)", 9),
    ("(,,,,,,,,,)", 10),
    ("(,,,,,,,,,,)", 11),
    ("(,,,,,,,,,,,)", 12),
    ("(,,,,,,,,,,,,)", 13),
    ("(,,,,,,,,,,,,,)", 14),
    ("(,,,,,,,,,,,,,,)", 15),
];

/// The functions that give all values of calls, with the numbers of parameters
/// of the functions that are called.
pub(crate) const SET_FUNCTIONS: [(&str, usize); 8] = [
    ("set0", 0),
    ("set1", 1),
    ("set2", 2),
    ("set3", 3),
    ("set4", 4),
    ("set5", 5),
    ("set6", 6),
    ("set7", 7),
];

/// The number of a text that the table has.
pub(crate) fn found(names: &Names, text: &str) -> NameId
    requires { Contains names.now text.now }
    ensures { slice_get names.now result.0 ≡ Some text.now }
{
    let Some(id) = names.find(text) else {
        unreachable!()
    };
    id
}

/// Adds what is built in to a module.
///
/// # Errors
///
/// An allocation failure. The listing is of no use then.
pub(crate) fn add_given(
    names: &Names,
    owner: NameId,
    given: &[(&str, usize)],
    listing: &mut Listing,
) -> Result<(), AllocError>
    requires there { All (Contains names.now) (map given_text given.now) }
    requires known { IsKnown names.now owner }
    ensures { (before : List numbers.Declared)
        → AllDiffer names.now → IsListing names.now before listing.old
        → OnOk result (IsListing names.now
        (before ++ map (given_meaning (text_of names.now owner)) given.now) listing.new) }
{
    'given: for (text, arity) in given {
        let name = found(names, text);
        listing.add(Declared {
            owner,
            name,
            arity: *arity,
        })?;
    }
    Ok(())
}
