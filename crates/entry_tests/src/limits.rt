// Each limit, and one past it.
use crate::files::*;
use entry_format::fault::Layer;
use std::alloc::{AllocError, Global};
use std::test::*;

// A file with so many terminals, nonterminals and productions, where the first production has so many right-side names.
fn sized(
    heap: Global,
    terminals: u16,
    nonterminals: u16,
    productions: u16,
    right: u16,
) -> Result<Vec<u8>, AllocError> {
    let mut file = vec![in heap; 1]?;
    push_names(&mut file, 0, terminals)?;
    push_names(&mut file, 1000, nonterminals)?;
    push_count(&mut file, productions)?;
    // By number, since only the first production has names; a chain of one and then none would say it longer.
    for i in 0..productions {
        file.extend_from_slice(&numbered_name(1000))?;
        push_names(&mut file, 0, if i == 0 { right } else { 0 })?;
    }
    Ok(file)
}

#[test]
fn at_each_limit(rt: HostRuntime) -> Result<(), Fail> {
    let heap = rt.alloc();
    for (terminals, nonterminals, productions, right) in [
        (63, 1, 0, 0),
        (0, 64, 0, 0),
        (0, 1, 256, 0),
        (0, 1, 2, 1024),
        (63, 64, 256, 1024),
    ] {
        let file = sized(heap, terminals, nonterminals, productions, right)?;
        assert_eq!(rt; refusal(heap, &file)?, None);
    }
    Ok(())
}

#[test]
fn past_each_limit(rt: HostRuntime) -> Result<(), Fail> {
    let heap = rt.alloc();
    let cases = [
        (64, 1, 0, 0, 1),
        (0, 0, 0, 0, 3),
        (0, 65, 0, 0, 3),
        (0, 1, 257, 0, 8),
        (0, 1, 1, 1025, 13),
    ];
    for (terminals, nonterminals, productions, right, place) in cases {
        let file = sized(heap, terminals, nonterminals, productions, right)?;
        assert_eq!(rt; refusal(heap, &file)?, Some((3, Layer::Section, place)));
    }
    Ok(())
}

// Right-side names count together: 1,000 and 25 pass the limit at the second count.
#[test]
fn sum_of_right_sides(rt: HostRuntime) -> Result<(), Fail> {
    let heap = rt.alloc();
    for (second, expected) in [(24, None), (25, Some((3, Layer::Section, 3018)))] {
        let mut file = sized(heap, 0, 1, 0, 0)?;
        file.truncate(8);
        push_count(&mut file, 2)?;
        for right in [1000, second] {
            file.extend_from_slice(&numbered_name(1000))?;
            push_names(&mut file, 0, right)?;
        }
        assert_eq!(rt; refusal(heap, &file)?, expected);
    }
    Ok(())
}
