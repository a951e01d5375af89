//! The names of tuples in a table of names.
ghost use Rattle.std.specs.Prelude.{◌≡◌, List, ℕ, IfOk, OnOk, length};
ghost use Rattle.std.specs.HashMap.{get};
ghost use Rattle.std.specs.Prelude.{nat_eq};
ghost use Rattle.cu_toplevel.specs.Inside.Commas.{and_tuple, closed, commas_in, commas_of};
ghost use Rattle.cu_toplevel.specs.TupleTables.{AreTuples, IsFound};
ghost use Rattle.cu_translation.specs.Around.{tuple_name};

use cu_names::{NameId, Names};
use indexmap::IndexMap;
use std::alloc::{AllocError, Global};

/// The names of tuples in a table of names, by the numbers of commas in them.
/// The name without a comma is that of unit.
#[derive(Drop)]
pub(crate) struct TupleNames {
    pub(crate) by_commas: IndexMap<usize, NameId>,
}

/// The number of commas that were read, where a closing parenthesis follows
/// them, and nothing else.
fn closed(byte: u8, commas: usize, others: usize) -> Option<usize>
    ensures { (rest : List ℕ) → others ≡ length rest → result ≡ closed commas byte rest }
{
    if byte == b')' && others == 0 {
        Some(commas)
    } else {
        None
    }
}

/// How many commas there are, where nothing but a closing parenthesis follows.
fn commas_in(bytes: &[u8]) -> Option<usize>
    ensures { result ≡ commas_in 0 bytes.now }
{
    'bytes: for (count, byte) in bytes.iter().enumerate() {
        if *byte == b',' {
            continue;
        }
        return closed(*byte, count, bytes.len() - count - 1);
    }
    None
}

/// How many commas the name of a tuple has, if a text is one.
fn commas_of(text: &str) -> Option<usize>
    ensures { result ≡ commas_of text.now }
{
    match text.as_bytes() {
        [b'(', inside @ ..] => commas_in(inside),
        _ => None,
    }
}

impl TupleNames {
    /// The names of tuples in a table.
    ///
    /// # Errors
    ///
    /// An allocation failure.
    pub(crate) fn of(alloc: Global, names: &Names) -> Result<TupleNames, AllocError>
        ensures { IfOk result (AreTuples names.now) }
    {
        let mut tuples = TupleNames {
            by_commas: IndexMap::new(alloc),
        };
        'names: for id in 0..names.count() {
            tuples.add(names.text(NameId(id)), NameId(id))?;
        }
        Ok(tuples)
    }

    /// Adds a name of the table, if it is that of a tuple.
    fn add(&mut self, text: &str, id: NameId) -> Result<(), AllocError>
        ensures { OnOk result ((k : ℕ) → get nat_eq self.new.by_commas k
            ≡ and_tuple (commas_of text.now) id k (get nat_eq self.old.by_commas k)) }
    {
        let Some(count) = commas_of(text) else {
            return Ok(());
        };
        self.by_commas.insert(count, id)?;
        Ok(())
    }

    /// The name of tuples of so many components, if the table has it.
    pub(crate) fn find(&self, components: usize) -> Option<NameId>
        ensures { (names : List (List ℕ)) → AreTuples names self.now
            → IsFound names (tuple_name components) result }
    {
        self.by_commas.get(&components.saturating_sub(1)).copied()
    }
}
