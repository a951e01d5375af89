//! What a text stands for.
use cu_calculus::Lit;
use cu_flatread::{
    CombKind, ExpressionCell, FlatEntity, FlatFunction, FlatModule, FlatRule, TypeCell, read,
};
use cu_names::Names;
use std::alloc::Global;
use std::process::Abort;

const COIN: &[u8] = b"Prog \"M\" [\"Prelude\"] [] [\n\
    Func (\"M\",\"coin\") 0 Public (TCons (\"Prelude\",\"Int\") []) \
    (Rule [] (Or (Lit (Intc 0)) (Comb FuncCall (\"M\",\"\\\\\\\\\") [Var 7])))] [\n\
    Op (\"M\",\"coin\") InfixrOp 4]\n";

/// Whether an entity has these names.
fn is_named(names: &Names, entity: FlatEntity, owner: &str, name: &str) -> bool {
    names.find(owner) == Some(entity.owner) && names.find(name) == Some(entity.name)
}

/// Whether the function is the one of the text.
fn is_coin(names: &Names, function: &FlatFunction) -> bool {
    let FlatRule::Rule(parameters, body) = &function.rule else {
        return false;
    };
    let (
        [TypeCell::Named(of_type), TypeCell::End],
        [
            ExpressionCell::Or,
            ExpressionCell::Literal(Lit::Int(0)),
            ExpressionCell::Comb(CombKind::FuncCall, called),
            ExpressionCell::More,
            ExpressionCell::Var(7),
            ExpressionCell::End,
        ],
    ) = (function.of_type.cells(), body.cells())
    else {
        return false;
    };
    function.arity == 0
        && function.public
        && parameters.len() == 0
        && is_named(names, function.entity, "M", "coin")
        && is_named(names, *of_type, "Prelude", "Int")
        && is_named(names, *called, "M", "\\\\")
}

/// The module of the text.
fn coin(alloc: Global, names: &mut Names) -> Option<FlatModule> {
    read(alloc, names, COIN).ok()
}

#[test]
fn a_module_is_what_its_text_says(rt: HostRuntime) {
    let alloc = rt.alloc();
    let mut names = Names::new(alloc);
    let Some(module) = coin(alloc, &mut names) else {
        return;
    };
    assert!(rt; names.find("M") == Some(module.name));
    assert!(rt; module.imports.len() == 1 && module.types.len() == 0);
    assert!(rt; module.operators.len() == 1);
    for function in &module.functions {
        assert!(rt; is_coin(&names, function));
    }
    assert!(rt; module.functions.len() == 1);
}
