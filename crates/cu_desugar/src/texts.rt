//! Functions with what is known of their texts.
ghost use Rattle.std.specs.Prelude.{◌≡◌, IfOk};
ghost use Rattle.cu_desugar.specs.Inside.Surrounding.{Surrounds};
ghost use Rattle.cu_desugar.specs.Inside.Texts.{AreTexts, IsText, function_in};
ghost use Rattle.cu_faults.specs.Telling.{setting};
ghost use Rattle.cu_locals.specs.Text.{Text};
ghost use Rattle.cu_modules.specs.Ordering.{module_of};
ghost use Rattle.cu_sites.specs.Meaning.{GroupIsOf};
ghost use Rattle.cu_syntax.specs.Owners.{ModuleIsOf};
ghost use Rattle.cu_toplevel.specs.Surrounding.{TellsNames};
ghost use Rattle.cu_translation.specs.Around as meant;
ghost use Rattle.cu_translation.specs.Functions.{around_group};
ghost use Rattle.cu_translation.specs.Numbered.{groups_in};

use crate::around::Around;
use cu_modules::Module;
use cu_sites::{Dependencies, Group, Numbers, Sites, groups};
use cu_toplevel::TopNames;
use std::alloc::{AllocError, Global};

/// The rules of a function, and what is known of their text.
#[derive(Drop)]
pub(crate) struct FunctionText<'t> {
    pub(crate) group: Group<'t>,
    pub(crate) sites: Sites<'t>,
    numbers: Numbers,
    pub(crate) dependencies: Dependencies,
}

impl<'t> FunctionText<'t> {
    fn of(alloc: Global, group: Group<'t>) -> Result<FunctionText<'t>, AllocError>
        ensures same { IfOk result (λ found. found.group ≡ group.entry) }
        ensures is { (t : Text) → GroupIsOf t.owner t.names group.entry → IfOk result (IsText t) }
    {
        let sites = Sites::of_group(alloc, &group)?;
        let numbers = Numbers::of(alloc, &sites, &[])?;
        let dependencies = Dependencies::of(alloc, &sites)?;
        Ok(FunctionText {
            group,
            sites,
            numbers,
            dependencies,
        })
    }

    /// What surrounds the text of the function.
    pub(crate) fn around<'a>(&'a self, top: TopNames<'a>) -> Around<'a>
        ensures { (t : Text) (names : meant.Names) → TellsNames t.names names top.entry
            → IsText t self.now
            → Surrounds (setting t (around_group names (function_in t self.now))) result }
    {
        Around {
            top,
            numbers: &self.numbers,
            dependencies: &self.dependencies,
        }
    }
}

/// The functions of a module that have rules, in the order of the text.
pub(crate) fn function_texts(
    alloc: Global,
    module: &Module,
) -> Result<Vec<FunctionText<'_>>, AllocError>
    ensures { (t : Text) → ModuleIsOf t.owner t.names «module».now.syntax
        → IfOk result (λ found.
        AreTexts t (groups_in (module_of t.names «module».now)) found.items) }
{
    let groups = groups(alloc, module.syntax().items())?;
    let mut texts = Vec::new(alloc);
    for group in groups {
        let text = FunctionText::of(alloc, group)?;
        texts.push(text)?;
    }
    Ok(texts)
}
