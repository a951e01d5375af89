//! Rules of functions: numbers of patterns, and how many there are.
ghost use Rattle.std.specs.Prelude.{List, ℕ};
ghost use Rattle.cu_names.specs.declared.names.NameId.{NameId};
ghost use Rattle.cu_translation.specs.Faults.{length_faults, rule_faults};
ghost use Rattle.cu_sites.specs.Meaning.{GroupIsOf, group_meaning};
ghost use Rattle.cu_faults.specs.Telling.{Told};

use crate::first::First;
use cu_sites::{Group, Rule};
use cu_translation::{Fault, Wrong};

/// The most rules of a function.
const MAX_RULES: usize = 4096;

/// Tells the first rule of a function with another number of patterns than the
/// function's first one.
pub(crate) fn tell_rules(group: &Group<'_>, first: &mut First)
    ensures { (owner : NameId) (names : List (List ℕ)) → GroupIsOf owner names group.now
        → Told owner first.old (rule_faults (group_meaning names group.now)) first.new }
{
    let count = group.first.parameters.len();
    for rule in &group.others {
        if rule.parameters.len() != count {
            first.tell(Fault {
                wrong: Wrong::Arity,
                place: rule.place,
            });
            return;
        }
    }
}

/// Tells the first rule of a function after the most rules that a function may
/// have.
pub(crate) fn tell_length(group: &Group<'_>, first: &mut First)
    ensures { (owner : NameId) (names : List (List ℕ)) → GroupIsOf owner names group.now
        → Told owner first.old (length_faults (group_meaning names group.now)) first.new }
{
    if let Some(rule) = group.others.get(MAX_RULES - 1) {
        first.tell(Fault {
            wrong: Wrong::TooLong,
            place: rule.place,
        });
    }
}
