//! Types and expressions, as lists of cells.
ghost use Rattle.std.specs.Prelude.{◌≡◌};
ghost use Rattle.cu_flatread.specs.Cells.{IsOneExpression, IsOneType, IsTypeList, read_expression, read_type, read_types, spell_expression, spell_type, spell_types};

use crate::cells::{ExpressionCell, TypeCell};
use std::marker::Model;

/// A type. Contracts see the type itself.
#[derive(Drop)]
pub struct FlatType {
    cells: Vec<TypeCell>,
}

impl Model for FlatType {
    ghost use Rattle.cu_flatread.specs.Modules.{TypeExpression};
    ghost use Rattle.cu_flatread.specs.declared.cells.FlatEntity.{FlatEntity};

    ghost Value = { TypeExpression FlatEntity };

    ghost use Rattle.cu_flatread.specs.Spelling.{type_code};

    ghost coded = { type_code };

    ghost use Rattle.cu_flatread.specs.Cells.{IsOneType, read_type};

    ghost view = { λ t. read_type t.cells.items };

    ghost invariant = { λ t. IsOneType t.cells.items };
}

impl FlatType {
    /// The type that cells spell.
    pub(crate) fn spelled(cells: Vec<TypeCell>) -> FlatType
        requires { IsOneType cells.items }
        ensures { result ≡ read_type cells.items }
    {
        FlatType { cells }
    }

    /// The cells, from left to right.
    pub fn cells(&self) -> &[TypeCell]
        ensures { result.now ≡ spell_type self.now }
    {
        self.cells.as_slice()
    }
}

/// Several types. Contracts see them themselves.
#[derive(Drop)]
pub struct FlatTypes {
    cells: Vec<TypeCell>,
}

impl Model for FlatTypes {
    ghost use Rattle.cu_flatread.specs.Modules.{TypeExpressions};
    ghost use Rattle.cu_flatread.specs.declared.cells.FlatEntity.{FlatEntity};

    ghost Value = { TypeExpressions FlatEntity };

    ghost use Rattle.cu_flatread.specs.Spelling.{types_code};

    ghost coded = { types_code };

    ghost use Rattle.cu_flatread.specs.Cells.{IsTypeList, read_types};

    ghost view = { λ ts. read_types ts.cells.items };

    ghost invariant = { λ ts. IsTypeList ts.cells.items };
}

impl FlatTypes {
    /// The types that cells spell.
    pub(crate) fn spelled(cells: Vec<TypeCell>) -> FlatTypes
        requires { IsTypeList cells.items }
        ensures { result ≡ read_types cells.items }
    {
        FlatTypes { cells }
    }

    /// The cells, from left to right.
    pub fn cells(&self) -> &[TypeCell]
        ensures { result.now ≡ spell_types self.now }
    {
        self.cells.as_slice()
    }
}

/// An expression. Contracts see the expression itself.
#[derive(Drop)]
pub struct FlatExpression {
    cells: Vec<ExpressionCell>,
}

impl Model for FlatExpression {
    ghost use Rattle.cu_flatread.specs.Modules.{Expression};
    ghost use Rattle.cu_flatread.specs.declared.cells.FlatEntity.{FlatEntity};

    ghost Value = { Expression FlatEntity };

    ghost use Rattle.cu_flatread.specs.Spelling.{expression_code};

    ghost coded = { expression_code };

    ghost use Rattle.cu_flatread.specs.Cells.{IsOneExpression, read_expression};

    ghost view = { λ t. read_expression t.cells.items };

    ghost invariant = { λ t. IsOneExpression t.cells.items };
}

impl FlatExpression {
    /// The expression that cells spell.
    pub(crate) fn spelled(cells: Vec<ExpressionCell>) -> FlatExpression
        requires { IsOneExpression cells.items }
        ensures { result ≡ read_expression cells.items }
    {
        FlatExpression { cells }
    }

    /// The cells, from left to right.
    pub fn cells(&self) -> &[ExpressionCell]
        ensures { result.now ≡ spell_expression self.now }
    {
        self.cells.as_slice()
    }
}
