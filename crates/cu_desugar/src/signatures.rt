//! Signatures of blocks.
ghost use Rattle.std.specs.Prelude.{◌≡◌, IfOk, nat_eq};
ghost use Rattle.std.specs.List.{All, list_any};
ghost use Rattle.cu_desugar.specs.Inside.Signatures.{IsSignature};
ghost use Rattle.cu_locals.specs.Text.{Text};
ghost use Rattle.cu_names.specs.Texts.{IsKnown, text_of};
ghost use Rattle.cu_syntax.specs.declared.name.Name.{Name};
ghost use Rattle.cu_syntax.specs.Declarations.{declaration_meaning, declarations_meaning};
ghost use Rattle.cu_syntax.specs.Owners.{DeclarationIsOf};
ghost use Rattle.cu_translation.specs.LocalFunctions.{signature_in, signature_of};

use cu_names::NameId;
use cu_syntax::{Declaration, DeclarationNode, Name, TypeTerm};
use std::alloc::{AllocError, Global};

/// Whether one of these names has a text.
fn has_text(names: &[Name], text: NameId) -> bool
    ensures { result ≡ list_any (λ (name : Name). nat_eq name.text.0 text.0) names.now }
{
    names.iter().any(|name| name.text == text)
}

/// The type that a declaration declares for a name, if it is a signature of it.
fn signature_in(
    alloc: Global,
    name: NameId,
    d: Declaration<'_>,
) -> Result<Option<TypeTerm<'_>>, AllocError>
    ensures { (t : Text) → IsKnown t.names name → DeclarationIsOf t.owner t.names d.entry
        → IfOk result (IsSignature t
        (signature_in (text_of t.names name) (declaration_meaning t.names d.entry))) }
{
    match d.node(alloc)? {
        DeclarationNode::Signature(_, names, declared) => {
            if has_text(names.as_slice(), name) {
                return Ok(Some(declared));
            }
            Ok(None)
        }
        DeclarationNode::FreeVariables(_, _names) => Ok(None),
        DeclarationNode::FunctionRule(_, _, _parameters, _) => Ok(None),
        DeclarationNode::PatternBinding(_, _, _) => Ok(None),
    }
}

/// The type that a block's signature declares for a name, if it has one.
pub(crate) fn signature<'t>(
    alloc: Global,
    name: NameId,
    block: &[Declaration<'t>],
) -> Result<Option<TypeTerm<'t>>, AllocError>
    ensures { (t : Text) → IsKnown t.names name
        → All (DeclarationIsOf t.owner t.names) block.now
        → IfOk result (IsSignature t
        (signature_of (text_of t.names name) (declarations_meaning t.names block.now))) }
{
    for d in block {
        let found = signature_in(alloc, name, *d)?;
        if found.is_some() {
            return Ok(found);
        }
    }
    Ok(None)
}
