//! The writing of types.
ghost use Rattle.std.specs.Prelude.{◌≡◌, ◌++◌, [], IfOk, List, OnOk, Some, length, map, option_map, slice_get, slice_index_or, ℕ};
ghost use Rattle.cu_kernel.specs.KernelOf.{synonym_meaning};
ghost use Rattle.cu_kernel.specs.TypesOf.{type_of};
ghost use Rattle.cu_flattext.specs.Inside.Stands.{lowered_of};
ghost use Rattle.cu_flattext.specs.Inside.TypeTasks.{expanded_body, expansion_text};
ghost use Rattle.cu_flattext.specs.TypeTexts.{expanded_within, is_expanded, type_variables};

use crate::circles::leads_to_itself;
use crate::page::Page;
use crate::type_task::{Scope, TypeTask, Variables};
use crate::wording::Wording;
use cu_kernel::{Program, Synonym, SynonymId, TypeName, TypeTerm};
use std::alloc::{AllocError, Global};

/// The type that a synonym stands for, and how many synonyms may be expanded
/// inside one another there.
#[derive(Clone, Copy)]
pub(crate) struct Expansion<'p> {
    pub(crate) body: &'p TypeTerm,
    pub(crate) depth: usize,
}

/// The tasks that are left while types are written, as a stack.
#[derive(Drop)]
pub(crate) struct Types<'p> {
    pub(crate) alloc: Global,
    pub(crate) wording: Wording<'p>,
    pub(crate) tasks: Vec<TypeTask<'p>>,
    pub(crate) scopes: Vec<Scope<'p>>,
}

impl<'p> Types<'p> {
    ghost use Rattle.std.specs.Prelude.{◌≡◌, ◌++◌, ◌<◌, [], IfOk, IfSome, List, OnOk, length, slice_get, slice_index_or, ℕ};
    ghost use Rattle.cu_kernel.specs.TypeExpr as type;
    ghost use Rattle.cu_kernel.specs.TypesOf.{type_of};
    ghost use Rattle.cu_flattext.specs.Inside.Stands.{lowered_of};
    ghost use Rattle.cu_flattext.specs.Inside.Tasks.{Writes};
    ghost use Rattle.cu_flattext.specs.Inside.TypeTasks.{Enters, argument_text, body_at, expansion_text, named_at, setting_of, synonym_at, text_at, text_in, texts_at, texts_in, types_left, types_left_with, types_left_with_text, variable_text};
    ghost use Rattle.cu_flattext.specs.Naming.{separated, type_entity};
    ghost use Rattle.cu_flattext.specs.TypeTexts.{constructed_text};
    ghost use Rattle.cu_flattext.specs.declared.type_task.TypeTask.TheVariants as task;

    /// The state in which no task is left.
    pub(crate) fn none(alloc: Global, wording: Wording<'p>) -> Types<'p>
        ensures tasks { result.tasks.items ≡ [] }
        ensures scopes { result.scopes.items ≡ [] }
        ensures wording { result.wording ≡ wording.entry }
    {
        Types {
            alloc,
            wording,
            tasks: Vec::new(alloc),
            scopes: Vec::new(alloc),
        }
    }

    /// Enters a scope, which is left before the tasks that there are. Answers
    /// the scope's index.
    fn enter(&mut self, scope: Scope<'p>) -> Result<usize, AllocError>
        ensures enters { IfOk result (λ place. Enters (lowered_of self.old.wording)
            scope.entry self.old self.new place) }
        ensures wording { OnOk result (self.new.wording ≡ self.old.wording) }
    {
        let place = self.scopes.len();
        self.scopes.push(scope)?;
        self.tasks.push(TypeTask::Leave)?;
        Ok(place)
    }

    /// The state in which a type of a declaration with so many parameters is to
    /// be written, in which so many synonyms may be expanded inside one
    /// another.
    pub(crate) fn declared(
        alloc: Global,
        wording: Wording<'p>,
        scope: Scope<'p>,
        t: &'p TypeTerm,
    ) -> Result<Types<'p>, AllocError>
        ensures { IfOk result (λ made. types_left made
            ≡ text_in (lowered_of wording.entry)
            (setting_of (lowered_of wording.entry) [] scope.entry) (type_of t.now)) }
    {
        let mut types = Types::none(alloc, wording);
        let place = types.enter(scope)?;
        types.tasks.push(TypeTask::Type(t, place))?;
        Ok(types)
    }

    /// The state in which types of a declaration are to be written, with commas
    /// between them.
    pub(crate) fn all_declared(
        alloc: Global,
        wording: Wording<'p>,
        scope: Scope<'p>,
        ts: &'p [TypeTerm],
    ) -> Result<Types<'p>, AllocError>
        ensures { IfOk result (λ made. types_left made
            ≡ separated (texts_in (lowered_of wording.entry)
            (setting_of (lowered_of wording.entry) [] scope.entry) ts.now)) }
    {
        let mut types = Types::none(alloc, wording);
        let place = types.enter(scope)?;
        types.tasks.push(TypeTask::Types(ts, place))?;
        Ok(types)
    }

    /// Writes what a task begins with, and pushes the tasks that it leaves.
    pub(crate) fn step(&mut self, task: TypeTask<'p>, page: &mut Page) -> Result<(), AllocError>
        ensures { OnOk result (Writes page.old.text.items (types_left_with task.entry self.old)
            page.new.text.items (types_left self.new)) }
    {
        match task {
            TypeTask::Type(t, scope) => self.form(t, scope, page),
            TypeTask::Types(ts, scope) => self.types(ts, scope),
            TypeTask::Further(ts, scope) => self.further(ts, scope, page),
            TypeTask::Text(text) => page.push_str(text),
            TypeTask::Leave => {
                self.leave();
                Ok(())
            }
        }
    }

    /// Leaves the last scope.
    fn leave(&mut self)
        ensures { types_left self.new ≡ types_left_with task.Leave self.old }
    {
        let _ = self.scopes.pop();
    }

    /// Writes a type, by its form.
    #[tactic(auto, using(cu_kernel::specs::TypesOf::types_of_variants))]
    fn form(&mut self, t: &'p TypeTerm, scope: usize, page: &mut Page) -> Result<(), AllocError>
        ensures { OnOk result (Writes page.old.text.items
            (types_left_with_text (text_at self.old scope (type_of t.now)) self.old)
            page.new.text.items (types_left self.new)) }
    {
        match t {
            TypeTerm::Var(x) => self.variable(*x, scope, page),
            TypeTerm::Arrow(argument, value) => self.arrow(argument, value, scope, page),
            TypeTerm::Named(name, ts) => self.named(*name, ts.as_slice(), scope, page),
        }
    }

    /// The scope with an index.
    fn scope(&self, place: usize) -> Option<Scope<'p>>
        ensures { result ≡ slice_get self.now.scopes.items place }
    {
        match self.scopes.get(place) {
            Some(scope) => Some(*scope),
            None => None,
        }
    }

    /// Writes what a variable stands for; nothing where there is no such
    /// variable.
    fn variable(&mut self, x: u32, place: usize, page: &mut Page) -> Result<(), AllocError>
        ensures { OnOk result (Writes page.old.text.items
            (types_left_with_text (text_at self.old place (type.Variable x)) self.old)
            page.new.text.items (types_left self.new)) }
    {
        match self.scope(place) {
            Some(scope) => self.variable_of(scope, place, x, page),
            None => Ok(()),
        }
    }

    /// Writes what a variable of a scope stands for.
    fn variable_of(
        &mut self,
        scope: Scope<'p>,
        place: usize,
        x: u32,
        page: &mut Page,
    ) -> Result<(), AllocError>
        requires { place < length self.old.scopes.items }
        ensures { OnOk result (Writes page.old.text.items
            (types_left_with_text (variable_text self.old scope.entry place x) self.old)
            page.new.text.items (types_left self.new)) }
    {
        match scope.variables {
            Variables::Parameters(count) => push_parameter(page, x, count as usize),
            Variables::Arguments(ts, outer) => self.argument(ts, outer, place, x),
        }
    }

    /// Pushes the task for an argument, which stands in a scope before the one
    /// that has it.
    fn argument(
        &mut self,
        ts: &'p [TypeTerm],
        outer: usize,
        place: usize,
        x: u32,
    ) -> Result<(), AllocError>
        requires { place < length self.old.scopes.items }
        ensures { OnOk result (types_left self.new ≡ types_left_with_text
            (argument_text self.old ts.now outer place x) self.old) }
    {
        if outer >= place {
            return Ok(());
        }
        match type_at(ts, x as usize) {
            Some(t) => {
                self.tasks.push(TypeTask::Type(t, outer))?;
                Ok(())
            }
            None => Ok(()),
        }
    }

    /// Writes a type of functions.
    fn arrow(
        &mut self,
        argument: &'p TypeTerm,
        value: &'p TypeTerm,
        place: usize,
        page: &mut Page,
    ) -> Result<(), AllocError>
        ensures { OnOk result (Writes page.old.text.items
            (types_left_with_text
            (text_at self.old place (type.Arrow (type_of argument.now) (type_of value.now)))
            self.old)
            page.new.text.items (types_left self.new)) }
    {
        page.push_str("FuncType (")?;
        self.tasks.push(TypeTask::Text(")"))?;
        self.tasks.push(TypeTask::Type(value, place))?;
        self.tasks.push(TypeTask::Text(") ("))?;
        self.tasks.push(TypeTask::Type(argument, place))?;
        Ok(())
    }

    /// Writes a named type with its arguments.
    fn named(
        &mut self,
        name: TypeName,
        ts: &'p [TypeTerm],
        place: usize,
        page: &mut Page,
    ) -> Result<(), AllocError>
        ensures { OnOk result (Writes page.old.text.items
            (types_left_with_text (named_at self.old place name (texts_at self.old place ts.now))
            self.old)
            page.new.text.items (types_left self.new)) }
    {
        match name {
            TypeName::Data(_) => self.constructed(name, ts, place, page),
            TypeName::Synonym(s) => self.synonym(s, ts, place, page),
        }
    }

    /// Writes a data type with its arguments, or a synonym as it is written.
    fn constructed(
        &mut self,
        name: TypeName,
        ts: &'p [TypeTerm],
        place: usize,
        page: &mut Page,
    ) -> Result<(), AllocError>
        ensures { OnOk result (Writes page.old.text.items
            (types_left_with_text (constructed_text (type_entity (lowered_of self.old.wording) name)
            (texts_at self.old place ts.now)) self.old)
            page.new.text.items (types_left self.new)) }
    {
        page.push_str("TCons ")?;
        page.push_entity(self.wording.named_type(name))?;
        page.push_str(" [")?;
        self.tasks.push(TypeTask::Text("]"))?;
        self.tasks.push(TypeTask::Types(ts, place))?;
        Ok(())
    }

    /// Writes a synonym with its arguments: its expansion, where it can be
    /// expanded.
    fn synonym(
        &mut self,
        s: SynonymId,
        ts: &'p [TypeTerm],
        place: usize,
        page: &mut Page,
    ) -> Result<(), AllocError>
        ensures { OnOk result (Writes page.old.text.items
            (types_left_with_text (synonym_at self.old place s (texts_at self.old place ts.now))
            self.old)
            page.new.text.items (types_left self.new)) }
    {
        match self.expansion(s, ts.len(), place)? {
            Some(expansion) => self.expand(expansion, ts, place),
            None => self.constructed(TypeName::Synonym(s), ts, place, page),
        }
    }

    /// The expansion of a synonym on so many arguments, where it can be
    /// expanded.
    fn expansion(
        &self,
        s: SynonymId,
        count: usize,
        place: usize,
    ) -> Result<Option<Expansion<'p>>, AllocError>
        ensures there { IfOk result
            (λ found. IfSome found (λ e. place < length self.now.scopes.items)) }
        ensures text { IfOk result (λ found. (arguments : List (List ℕ)) → length arguments ≡ count
            → synonym_at self.now place s arguments
            ≡ expansion_text (lowered_of self.now.wording) s arguments found) }
    {
        match self.scope(place) {
            Some(scope) => expansion_within(self.alloc, &self.wording, scope.depth, s, count),
            None => Ok(None),
        }
    }

    /// Pushes the task for the expansion of a synonym, on arguments that stand
    /// in the scope with an index.
    fn expand(
        &mut self,
        expansion: Expansion<'p>,
        ts: &'p [TypeTerm],
        place: usize,
    ) -> Result<(), AllocError>
        requires { place < length self.old.scopes.items }
        ensures { OnOk result (types_left self.new ≡ types_left_with_text
            (body_at self.old expansion.entry (texts_at self.old place ts.now)) self.old) }
    {
        let scope = Scope {
            variables: Variables::Arguments(ts, place),
            depth: expansion.depth,
        };
        let inner = self.enter(scope)?;
        self.tasks.push(TypeTask::Type(expansion.body, inner))?;
        Ok(())
    }

    /// Writes types, with commas between them.
    fn types(&mut self, ts: &'p [TypeTerm], place: usize) -> Result<(), AllocError>
        ensures { OnOk result (types_left self.new
            ≡ types_left_with (task.Types ts.entry place) self.old) }
    {
        match ts {
            [] => Ok(()),
            [first, others @ ..] => {
                self.tasks.push(TypeTask::Further(others, place))?;
                self.tasks.push(TypeTask::Type(first, place))?;
                Ok(())
            }
        }
    }

    /// Writes types, each after a comma.
    fn further(
        &mut self,
        ts: &'p [TypeTerm],
        place: usize,
        page: &mut Page,
    ) -> Result<(), AllocError>
        ensures { OnOk result (Writes page.old.text.items
            (types_left_with (task.Further ts.entry place) self.old)
            page.new.text.items (types_left self.new)) }
    {
        match ts {
            [] => Ok(()),
            [first, others @ ..] => {
                page.push_str(",")?;
                self.tasks.push(TypeTask::Further(others, place))?;
                self.tasks.push(TypeTask::Type(first, place))?;
                Ok(())
            }
        }
    }
}

/// Writes one of so many type variables; nothing where there are fewer.
pub(crate) fn push_parameter(page: &mut Page, x: u32, count: usize) -> Result<(), AllocError>
    ensures { OnOk result (page.new.text.items
        ≡ page.old.text.items ++ slice_index_or (type_variables count) x []) }
{
    if x as usize >= count {
        return Ok(());
    }
    page.push_str("TVar ")?;
    page.push_number(x as u64)
}

/// The expansion of a synonym on so many arguments, where it can be expanded
/// and so many may be inside one another.
fn expansion_within<'p>(
    alloc: Global,
    wording: &Wording<'p>,
    depth: usize,
    s: SynonymId,
    count: usize,
) -> Result<Option<Expansion<'p>>, AllocError>
    ensures { IfOk result (λ found. (arguments : List (List ℕ)) → length arguments ≡ count
        → expanded_within depth (lowered_of wording.now) s arguments
        ≡ expansion_text (lowered_of wording.now) s arguments found) }
{
    if depth == 0 {
        return Ok(None);
    }
    match expandable(alloc, wording.kernel, s, count)? {
        Some(body) => Ok(Some(Expansion {
            body,
            depth: depth - 1,
        })),
        None => Ok(None),
    }
}

/// The type that a synonym on so many arguments stands for, where it can be
/// expanded.
fn expandable(
    alloc: Global,
    kernel: &Program,
    s: SynonymId,
    count: usize,
) -> Result<Option<&TypeTerm>, AllocError>
    ensures { IfOk result (λ found. option_map (λ t. type_of t.now) found
        ≡ expanded_body kernel.now.synonyms s count) }
{
    match synonym_at(kernel, s) {
        Some(synonym) => {
            if is_expanded(alloc, kernel.synonyms(), s, count, synonym)? {
                Ok(Some(&synonym.body))
            } else {
                Ok(None)
            }
        }
        None => Ok(None),
    }
}

/// The synonym of a number.
fn synonym_at(kernel: &Program, s: SynonymId) -> Option<&Synonym>
    ensures { option_map (λ found. synonym_meaning found.now) result
        ≡ slice_get kernel.now.synonyms s.0 }
{
    kernel.synonyms().get(s.0)
}

/// Whether a synonym is expanded on so many arguments.
fn is_expanded(
    alloc: Global,
    synonyms: &[Synonym],
    s: SynonymId,
    count: usize,
    found: &Synonym,
) -> Result<bool, AllocError>
    ensures { IfOk result (λ expanded. expanded
        ≡ is_expanded (map synonym_meaning synonyms.now) s count
        (Some (synonym_meaning found.now))) }
{
    if count != found.arity as usize {
        return Ok(false);
    }
    let leads = leads_to_itself(alloc, synonyms, s)?;
    Ok(!leads)
}

/// The type with an index among these.
fn type_at(ts: &[TypeTerm], place: usize) -> Option<&TypeTerm>
    ensures { option_map (λ t. t.now) result ≡ slice_get ts.now place }
{
    ts.get(place)
}
