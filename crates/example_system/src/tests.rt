// Small systems and their least solutions.
use crate::parts::{ExampleSystem, Instance, Value, one_number};
use equations::System;
use equations::work::work;
use lattices::Lattice;
use references::Dangling;
use std::alloc::{AllocError, Global};
use std::test::Fail;

// What the equations of all instances give over the values.
fn next(heap: Global, system: &ExampleSystem, values: &[Value]) -> Result<Vec<Value>, AllocError> {
    (0..system.size())
        .filter_map(|instance| work(system, values, instance))
        .collect(heap)
}

// The value of one instance after so many rounds over all instances from the bottom.
fn after_rounds(
    heap: Global,
    system: &ExampleSystem,
    rounds: u8,
    instance: usize,
) -> Result<Option<Value>, AllocError> {
    let mut values = vec![in heap; Value::bottom(); system.size()]?;
    for _ in 0..rounds {
        values = next(heap, system, &values)?;
    }
    Ok(work(system, &values, instance))
}

// 0 and 1 read each other, 2 reads itself, 3 reads 0 twice over by 1 and 2.
fn cycles(heap: Global) -> Result<ExampleSystem, AllocError> {
    let instances = vec![in heap;
        Instance::joining(heap, one_number(false, 1), &[Ok(1)])?,
        Instance::joining(heap, one_number(true, 2), &[Ok(0)])?,
        Instance::joining(heap, one_number(false, 3), &[Ok(2), Ok(0)])?,
        Instance::joining(heap, one_number(false, 64), &[Ok(1), Ok(2)])?,
    ]?;
    Ok(ExampleSystem { instances })
}

#[test]
fn two_cycle_self_loop_and_diamond(rt: HostRuntime) -> Result<(), Fail> {
    let heap = rt.alloc();
    let system = cycles(heap)?;
    let both = one_number(true, 1).join(one_number(true, 2));
    let all = both.join(one_number(false, 3));
    for (instance, expected) in [both, both, all, all].iter().enumerate() {
        assert_eq!(rt; after_rounds(heap, &system, 4, instance)?, Some(*expected));
    }
    Ok(())
}

#[test]
fn dangling_and_missing_operands(rt: HostRuntime) -> Result<(), Fail> {
    let heap = rt.alloc();
    let targets = [Err(Dangling { reference: 7 }), Ok(1)];
    let instances = vec![in heap; Instance::joining(heap, one_number(true, 5), &targets)?]?;
    let system = ExampleSystem { instances };
    assert_eq!(rt; system.operand_count(0), 2);
    assert_eq!(rt; system.operand(0, 0), Err(Dangling { reference: 7 }));
    assert_eq!(rt; system.operand(0, 1), Err(Dangling { reference: 65535 }));
    assert_eq!(rt; system.operand(0, 2), Err(Dangling { reference: 65535 }));
    assert_eq!(rt;
        after_rounds(heap, &system, 1, 0)?,
        Some(one_number(true, 5))
    );
    assert_eq!(rt; work(&system, &[], 0), None);
    Ok(())
}
