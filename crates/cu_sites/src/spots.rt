//! How spots are entered.
ghost use Rattle.std.specs.Prelude.{◌<◌, ◌∷◌, ◌++◌, IfOk, OnOk};
ghost use Rattle.std.specs.List.{All};
ghost use Rattle.cu_lex.specs.Reading.{position_of};
ghost use Rattle.cu_syntax.specs.Owners.{DeclarationIsOf, NameIsOf, PatternIsOf, QualifierIsOf};
ghost use Rattle.cu_translation.specs.LocalNames.{Scope};
ghost use Rattle.cu_translation.specs.Sites as sites;
ghost use Rattle.cu_translation.specs.Sites.{in_block, in_function, past, past_all, with};
ghost use Rattle.cu_uses.specs.Gathered.{names_meaning, patterns_bind};
ghost use Rattle.cu_sites.specs.Meaning.{IsScope};
ghost use Rattle.cu_locals.specs.Text.{Text};
ghost use Rattle.cu_translation.specs.Meaning.{entry_meaning};
ghost use Rattle.cu_locals.specs.Entries.{AreEntries, EntryIsKnown};
ghost use Rattle.cu_sites.specs.Inside.Entering.{Closes, Enters, IsAt, Notes, Opens, Pushes};
ghost use Rattle.cu_sites.specs.Inside.Walked.{block_of, qualifier_of, qualifiers_of};

use crate::sites::{Node, ScopeEntry, Site, Sites, Spot};
use cu_locals::{block_entries, pattern_variables, variable_entries, variables};
use cu_names::Place;
use cu_syntax::{Declaration, Name, Pattern, Qualifier};
use cu_translation::{Entry, Position};
use std::alloc::{AllocError, Global};

impl<'t> Sites<'t> {
    /// Enters a scope with one more name. Gives its number.
    fn add(&mut self, entry: Entry, around: usize) -> Result<usize, AllocError>
        ensures { (t : Text) (scope : Scope) → EntryIsKnown t entry
            → IsScope t self.old.entries.items around scope
            → IfOk result (λ number.
            Opens t self.old (entry_meaning t.names entry ∷ scope) number self.new) }
    {
        self.entries.push(ScopeEntry { entry, around })?;
        Ok(self.entries.len())
    }

    /// Enters a scope with these names, the first of them innermost.
    fn open(&mut self, mut names: Vec<Entry>, around: usize) -> Result<usize, AllocError>
        ensures { (t : Text) (brought scope : Scope) → AreEntries t brought names.items
            → IsScope t self.old.entries.items around scope
            → IfOk result (λ number. Opens t self.old (brought ++ scope) number self.new) }
    {
        let mut scope = around;
        while let Some(entry) = names.pop() {
            scope = self.add(entry, scope)?;
        }
        Ok(scope)
    }

    /// The spot after names that are declared, which are in scope there.
    pub(crate) fn with(
        &mut self,
        alloc: Global,
        at: Spot,
        names: &[Name],
    ) -> Result<Spot, AllocError>
        ensures { (t : Text) (spot : sites.Spot) → IsAt t self.old at spot
            → All (NameIsOf t.owner t.names) names.now
            → IfOk result (λ inner.
            Enters t self.old (with (names_meaning t.names names.now) spot) inner self.new) }
    {
        let entries = variable_entries(alloc, names)?;
        let scope = self.open(entries, at.scope)?;
        Ok(Spot { scope, ..at })
    }

    /// The spot in a rule of a local function, where its variables are in
    /// scope.
    pub(crate) fn in_function(
        &mut self,
        alloc: Global,
        at: Spot,
        place: Place,
        names: &[Name],
    ) -> Result<Spot, AllocError>
        ensures { (t : Text) (spot : sites.Spot) → IsAt t self.old at spot
            → All (NameIsOf t.owner t.names) names.now
            → IfOk result (λ inner. Enters t self.old
            (in_function (position_of place) (names_meaning t.names names.now) spot)
            inner self.new) }
    {
        let entries = variable_entries(alloc, names)?;
        let scope = self.open(entries, at.scope)?;
        let depth = at.depth.checked_add(1).ok_or(AllocError)?;
        Ok(Spot {
            function: Some(Position::of(place)),
            depth,
            scope,
        })
    }

    /// The spot in a rule of a local function with these parameters, where their
    /// variables are in scope.
    pub(crate) fn in_rule(
        &mut self,
        alloc: Global,
        at: Spot,
        place: Place,
        parameters: &[Pattern<'t>],
    ) -> Result<Spot, AllocError>
        ensures { (t : Text) (spot : sites.Spot) → IsAt t self.old at spot
            → All (PatternIsOf t.owner t.names) parameters.now
            → IfOk result (λ inner. Enters t self.old
            (in_function (position_of place) (patterns_bind t.names parameters.now) spot)
            inner self.new) }
    {
        let names = variables(alloc, parameters)?;
        self.in_function(alloc, at, place, names.as_slice())
    }

    /// The spot in a block, where its names are in scope.
    pub(crate) fn in_block(
        &mut self,
        alloc: Global,
        at: Spot,
        ds: &[Declaration<'t>],
    ) -> Result<Spot, AllocError>
        ensures { (t : Text) (spot : sites.Spot) → IsAt t self.old at spot
            → All (DeclarationIsOf t.owner t.names) ds.now
            → IfOk result (λ inner.
            Enters t self.old (in_block (block_of t.names ds.now) spot) inner self.new) }
    {
        let entries = block_entries(alloc, ds)?;
        let scope = self.open(entries, at.scope)?;
        Ok(Spot { scope, ..at })
    }

    /// Notes a block. Gives its number.
    pub(crate) fn note_block(
        &mut self,
        alloc: Global,
        ds: &[Declaration<'t>],
    ) -> Result<usize, AllocError>
        ensures { (t : Text) → All (DeclarationIsOf t.owner t.names) ds.now
            → IfOk result (λ number. Notes t self.old (block_of t.names ds.now) number self.new) }
    {
        let number = self.blocks.len();
        self.blocks.push(Vec::from_slice(alloc, ds)?)?;
        Ok(number)
    }

    /// The spot after a qualifier, where its variables are in scope.
    pub(crate) fn past(
        &mut self,
        alloc: Global,
        at: Spot,
        q: &Qualifier<'t>,
    ) -> Result<Spot, AllocError>
        ensures { (t : Text) (spot : sites.Spot) → IsAt t self.old at spot
            → QualifierIsOf t.owner t.names q.now
            → IfOk result (λ inner.
            Enters t self.old (past (qualifier_of t.names q.now) spot) inner self.new) }
    {
        match q {
            Qualifier::Generator(place, p, _) => {
                let names = pattern_variables(alloc, *p)?;
                self.in_function(alloc, at, *place, names.as_slice())
            }
            Qualifier::Declarations(_, ds) => self.in_block(alloc, at, ds.as_slice()),
            Qualifier::Condition(_, _) => Ok(at),
        }
    }

    /// The spot after all qualifiers, where their variables are in scope.
    pub(crate) fn past_all(
        &mut self,
        alloc: Global,
        at: Spot,
        qualifiers: &[Qualifier<'t>],
    ) -> Result<Spot, AllocError>
        ensures { (t : Text) (spot : sites.Spot) → IsAt t self.old at spot
            → All (QualifierIsOf t.owner t.names) qualifiers.now
            → IfOk result (λ inner. Enters t self.old
            (past_all (qualifiers_of t.names qualifiers.now) spot) inner self.new) }
    {
        let mut inner = at;
        for q in qualifiers {
            inner = self.past(alloc, inner, q)?;
        }
        Ok(inner)
    }

    /// Notes what stands at a spot.
    pub(crate) fn push(&mut self, spot: Spot, site: Site<'t>) -> Result<(), AllocError>
        ensures { OnOk result (Pushes spot site.entry self.old self.new) }
    {
        self.nodes.push(Node {
            spot,
            site,
            extent: 0,
        })?;
        Ok(())
    }

    /// Notes that all nodes after a definition are those of its right side.
    pub(crate) fn close(&mut self, definition: usize)
        ensures { Closes definition self.old self.new }
    {
        let count = self.nodes.len();
        if definition < count {
            self.nodes[definition].extent = count - definition - 1;
        }
    }
}
