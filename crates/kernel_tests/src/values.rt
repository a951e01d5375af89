//! Values, their parts and their orders.
ghost use Rattle.cu_values.specs.Cells.{IsOneSpelled};

use cu_calculus::{ConId, FunId, Head, Int, Lit};
use cu_values::{Cell, Value};
use std::alloc::{AllocError, Global};
use std::cmp::Ordering;
use std::process::Abort;
use std::test::Fail;

const ONE: Cell = Cell::Lit(Lit::Int(1));

const TWO: Cell = Cell::Lit(Lit::Int(2));

fn value(alloc: Global, cells: &[Cell]) -> Result<Value, AllocError>
    requires { IsOneSpelled cells.now }
{
    Ok(Value::spelled(Vec::from_slice(alloc, cells)?))
}

/// Values in rising order.
fn rising(alloc: Global, place: u32) -> Result<Value, AllocError> {
    match place {
        0 => Value::bottom(alloc),
        1 => Value::variable(alloc, 1),
        2 => Value::variable(alloc, 2),
        3 => value(alloc, &[Cell::Part(Head::Fun(FunId(3)), 0)]),
        4 => value(alloc, &[Cell::Part(Head::Fun(FunId(3)), 1), ONE]),
        5 => value(alloc, &[Cell::Part(Head::Fun(FunId(4)), 0)]),
        6 => value(alloc, &[Cell::Part(Head::Con(ConId(0)), 0)]),
        7 => value(alloc, &[Cell::Part(Head::Set(FunId(0)), 0)]),
        8 => Value::literal(alloc, Lit::Int(Int::MIN)),
        9 => Value::literal(alloc, Lit::Int(-1)),
        10 => Value::literal(alloc, Lit::Int(1)),
        11 => Value::literal(alloc, Lit::Int(1_000_000)),
        12 => Value::literal(alloc, Lit::Char('\0')),
        13 => Value::literal(alloc, Lit::Char('b')),
        14 => value(alloc, &[Cell::Con(ConId(0), 0)]),
        15 => value(alloc, &[Cell::Con(ConId(0), 1), ONE]),
        16 => value(alloc, &[Cell::Con(ConId(0), 2), ONE, ONE]),
        17 => value(alloc, &[Cell::Con(ConId(0), 1), TWO]),
        18 => value(
            alloc,
            &[Cell::Con(ConId(1), 2), Cell::Con(ConId(1), 1), ONE, TWO],
        ),
        19 => value(
            alloc,
            &[
                Cell::Con(ConId(1), 2),
                Cell::Con(ConId(1), 2),
                ONE,
                ONE,
                ONE,
            ],
        ),
        20 => value(
            alloc,
            &[Cell::Con(ConId(1), 2), Cell::Con(ConId(1), 1), TWO, ONE],
        ),
        _ => value(alloc, &[Cell::Con(ConId(2), 0)]),
    }
}

#[test]
fn values_are_ordered(rt: HostRuntime) -> Result<(), Fail> {
    for i in 0..22 {
        let left = rising(rt.alloc(), i)?;
        for j in 0..22 {
            let right = rising(rt.alloc(), j)?;
            assert!(rt; left.cmp(&right) == i.cmp(&j), "{i} {j}");
            assert_eq!(rt; left.leq(&right), i == 0 || i == j, "{i} {j}");
        }
    }
    Ok(())
}

/// Values of growing knowledge.
fn growing(alloc: Global, place: u32) -> Result<Value, AllocError> {
    match place {
        0 => value(alloc, &[Cell::Bottom]),
        1 => value(alloc, &[Cell::Con(ConId(0), 2), Cell::Bottom, Cell::Bottom]),
        2 => value(alloc, &[Cell::Con(ConId(0), 2), Cell::Bottom, TWO]),
        3 => value(
            alloc,
            &[
                Cell::Con(ConId(0), 2),
                Cell::Con(ConId(1), 2),
                Cell::Bottom,
                ONE,
                TWO,
            ],
        ),
        _ => value(
            alloc,
            &[
                Cell::Con(ConId(0), 2),
                Cell::Con(ConId(1), 2),
                ONE,
                ONE,
                TWO,
            ],
        ),
    }
}

#[test]
fn approximation(rt: HostRuntime) -> Result<(), Fail> {
    for i in 0..5 {
        let left = growing(rt.alloc(), i)?;
        for j in 0..5 {
            let right = growing(rt.alloc(), j)?;
            assert_eq!(rt; left.leq(&right), i <= j, "{i} {j}");
        }
    }
    Ok(())
}

#[test]
fn kinds(rt: HostRuntime) -> Result<(), Fail> {
    for (place, total, data, ground) in [
        (0, false, true, false),
        (1, true, true, false),
        (3, true, false, false),
        (4, true, false, false),
        (6, true, false, false),
        (8, true, true, true),
        (13, true, true, true),
        (20, true, true, true),
    ] {
        let value = rising(rt.alloc(), place)?;
        assert_eq!(rt; value.is_total(), total, "{place}");
        assert_eq!(rt; value.is_data(), data, "{place}");
        assert_eq!(rt; value.is_ground_data(), ground, "{place}");
    }
    let unknown = growing(rt.alloc(), 3)?;
    assert!(rt; !unknown.is_total() && !unknown.is_ground_data() && unknown.is_data());
    Ok(())
}

/// The parts of a pair, where they stand.
fn expect_views<R: Abort>(rt: &R, pair: &Value) {
    let arguments = pair.view().arguments();
    assert_eq!(rt; arguments.len(), 2);
    let Some((first, others)) = arguments.split_first() else {
        panic!(rt; "no argument");
    };
    assert_eq!(rt; first.head(), Cell::Con(ConId(1), 2));
    assert_eq!(rt; first.cells().len(), 3);
    let Some((second, none)) = others.split_first() else {
        panic!(rt; "one argument");
    };
    assert_eq!(rt; second.cells(), [TWO].as_slice());
    assert!(rt; none.split_first().is_none());
}

#[test]
fn parts(rt: HostRuntime) -> Result<(), Fail> {
    let value = growing(rt.alloc(), 3)?.clone()?;
    assert_eq!(rt; value.head(), Cell::Con(ConId(0), 2));
    expect_views(&rt, &value);
    let arguments = value.arguments()?;
    assert_eq!(rt; arguments.len(), 2);
    assert_eq!(rt;
        arguments[0].cells(),
        [Cell::Con(ConId(1), 2), Cell::Bottom, ONE].as_slice()
    );
    assert_eq!(rt; arguments[1].cells(), [TWO].as_slice());
    let pair = Value::constructed(rt.alloc(), ConId(0), arguments.as_slice())?;
    assert!(rt; pair.cmp(&value) == Ordering::Equal);
    let function = Value::partial(rt.alloc(), Head::Set(FunId(7)), arguments.as_slice())?;
    assert_eq!(rt; function.head(), Cell::Part(Head::Set(FunId(7)), 2));
    Ok(())
}
