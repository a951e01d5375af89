//! Rules of one name that follow one another at once.
ghost use Rattle.std.specs.Prelude.{◌≡◌, IfOk, List, None, OnOk, Option, Some, map, ℕ};
ghost use Rattle.std.specs.List.{All};
ghost use Rattle.cu_names.specs.Texts.{AllDiffer};
ghost use Rattle.cu_names.specs.declared.names.NameId.{NameId};
ghost use Rattle.cu_syntax.specs.Answer.{items_meaning};
ghost use Rattle.cu_syntax.specs.Declarations.{declaration_meaning};
ghost use Rattle.cu_syntax.specs.Names.{name_meaning};
ghost use Rattle.cu_syntax.specs.Owners.{DeclarationIsOf, ItemIsOf, NameIsOf};
ghost use Rattle.cu_translation.specs.Rules as meant;
ghost use Rattle.cu_translation.specs.Rules.{groups, leading, rule_in, rule_in_item};
ghost use Rattle.cu_sites.specs.Meaning.{AreGroups, RuleIsOf, rule_meaning};
ghost use Rattle.cu_locals.specs.Text.{Text};
ghost use Rattle.cu_sites.specs.Inside.RulesFound.{AreRules, Begins, GroupingIsOf, IsRuleIn, Reads};

use crate::rules::{Group, Rule, rule_in, rule_in_item};
use cu_syntax::{Declaration, Item, Name};
use std::alloc::{AllocError, Global};

/// Rules of functions, as they are read.
#[derive(Drop)]
struct Grouping<'t> {
    /// The functions whose rules are all read.
    done: Vec<Group<'t>>,
    /// The function whose rules may go on.
    last: Option<Group<'t>>,
}

impl<'t> Grouping<'t> {
    /// Ends the function whose rules may go on.
    fn end(&mut self) -> Result<(), AllocError>
        ensures reads { (t : Text) → OnOk result (Reads t self.old None self.new) }
        ensures ends { OnOk result (self.new.last ≡ None) }
    {
        let Some(group) = self.last.take() else {
            return Ok(());
        };
        self.done.push(group)?;
        Ok(())
    }

    /// Begins a function with its first rule.
    fn begin(&mut self, alloc: Global, rule: Rule<'t>)
        ensures done { self.new.done ≡ self.old.done }
        ensures last { Begins rule.entry self.new.last }
    {
        self.last = Some(Group {
            first: rule,
            others: Vec::new(alloc),
        });
    }

    /// Reads one more rule.
    fn rule(&mut self, alloc: Global, rule: Rule<'t>) -> Result<(), AllocError>
        ensures { (t : Text) → GroupingIsOf t self.old → RuleIsOf t.owner t.names rule.entry
            → OnOk result (Reads t self.old (Some (rule_meaning t.names rule.entry)) self.new) }
    {
        let Some(mut group) = self.last.take() else {
            self.begin(alloc, rule);
            return Ok(());
        };
        if group.first.name.text == rule.name.text {
            group.others.push(rule)?;
            self.last = Some(group);
            return Ok(());
        }
        self.done.push(group)?;
        self.begin(alloc, rule);
        Ok(())
    }

    /// Reads one more declaration or item, which is a rule or not.
    fn read(&mut self, alloc: Global, found: Option<Rule<'t>>) -> Result<(), AllocError>
        ensures { (t : Text) (rule : Option meant.Rule) → GroupingIsOf t self.old
            → IsRuleIn t rule found.entry → OnOk result (Reads t self.old rule self.new) }
    {
        match found {
            Some(rule) => self.rule(alloc, rule),
            None => self.end(),
        }
    }
}

/// The functions of the rules among the items of a module, in the order of the
/// text.
///
/// # Errors
///
/// An allocation failure.
pub fn groups(alloc: Global, items: &[Item]) -> Result<Vec<Group<'_>>, AllocError>
    ensures { (owner : NameId) (names : List (List ℕ)) → AllDiffer names
        → All (ItemIsOf owner names) items.now
        → IfOk result (λ found. AreGroups owner names
        (groups (map rule_in_item (items_meaning names items.now))) found.items) }
{
    let mut grouping = Grouping {
        done: Vec::new(alloc),
        last: None,
    };
    for item in items {
        let found = rule_in_item(alloc, item)?;
        grouping.read(alloc, found)?;
    }
    grouping.end()?;
    let Grouping { done, last: _ } = grouping;
    Ok(done)
}

/// The rules of a name with which declarations begin.
pub(crate) fn leading<'t>(
    alloc: Global,
    name: Name,
    ds: &[Declaration<'t>],
) -> Result<Vec<Rule<'t>>, AllocError>
    ensures { (t : Text) → NameIsOf t.owner t.names name
        → All (DeclarationIsOf t.owner t.names) ds.now
        → IfOk result (λ found. AreRules t (leading (name_meaning t.names name).text
        (map (λ d. rule_in (declaration_meaning t.names d)) ds.now)) found.items) }
{
    let mut found = Vec::new(alloc);
    for d in ds {
        let Some(rule) = rule_in(alloc, *d)? else {
            return Ok(found);
        };
        if rule.name.text != name.text {
            return Ok(found);
        }
        found.push(rule)?;
    }
    Ok(found)
}
