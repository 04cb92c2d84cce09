//! The order of tests.

ghost use Rattle.std.specs.Prelude.{◌≡◌, true, false, [], ◌∷◌, IfOk};
ghost use Rattle.hum_core.specs.Formed.{is_formed_expr, is_formed_pat};

use hum_core::{Const, CoreExpr, CorePat, CoreStmt, CoreUnit, Resolved, Slot, Test, TestUnit};
use hum_match::{NoMemory, lower};
use sqlite_items::Items;
use std::alloc::Global;
use std::test::Fail;

fn pair(alloc: Global, first: CorePat, second: CorePat) -> Result<CorePat, NoMemory>
    requires { (is_formed_pat (false ∷ true ∷ []) first ≡ true) × (is_formed_pat (false ∷ true ∷ []) second ≡ true) }
    ensures { IfOk result (λ p. is_formed_pat (false ∷ true ∷ []) p ≡ true) }
{
    let mut items = Items::new(alloc);
    items.push(first)?;
    items.push(second)?;
    Ok(CorePat::Tuple(items))
}

// A file that executes one abstraction.
fn abstraction(alloc: Global, pattern: CorePat, value: CoreExpr) -> Result<Resolved, NoMemory>
    requires { (is_formed_pat (false ∷ true ∷ []) pattern ≡ true) × (is_formed_expr (false ∷ true ∷ []) value ≡ true) }
{
    let mut statements = Items::new(alloc);
    statements.push(CoreStmt::Do(CoreExpr::Abs(1)))?;
    let mut units = Items::new(alloc);
    units.push(CoreUnit::Block(statements))?;
    units.push(CoreUnit::Abs(pattern, value))?;
    Ok(Resolved { units })
}

// The tests of an abstraction; a block has none.
fn tests_of(unit: Option<&TestUnit>) -> &[Test] {
    match unit {
        Some(TestUnit::Abs(tests, _)) => tests.as_slice(),
        _ => &[],
    }
}

// A letter for each test.
fn letters(alloc: Global, tests: &[Test]) -> Result<Vec<u8>, NoMemory> {
    let mut letters = Vec::new(alloc);
    for test in tests {
        letters.push(match test {
            Test::Pair => b'P',
            Test::Is(Const::Num(1)) => b'1',
            Test::Is(_) => b'I',
            Test::Same(_) => b'S',
            Test::Bind => b'B',
            Test::Skip => b'_',
        })?;
    }
    Ok(letters)
}

#[test]
fn tests_of_a_tuple_are_in_order(rt: HostRuntime) -> Result<(), Fail> {
    let alloc = rt.alloc();
    let inner = pair(alloc, CorePat::Is(Const::Num(1)), CorePat::Bind)?;
    let pattern = pair(alloc, CorePat::Bind, inner)?;
    let first = Slot {
        back: 1,
        member: None,
    };
    let program = lower(alloc, &abstraction(alloc, pattern, CoreExpr::Var(first))?)?;
    assert_eq!(rt; program.units.len(), 2);
    assert_eq!(rt;
        letters(alloc, tests_of(program.units.get(1)))?.as_slice(),
        b"PBP1B".as_slice()
    );
    Ok(())
}
