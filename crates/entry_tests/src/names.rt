// Names of 15, 16, 17, 32 and 33 bytes.
use crate::files::*;
use entry_format::fault::Layer;
use std::test::*;

// Two nonterminals that differ in their last byte, or in length.
#[test]
fn lengths(rt: HostRuntime) -> Result<(), Fail> {
    let heap = rt.alloc();
    let cases = [
        (15, 15, None),
        (15, 16, None),
        (16, 16, None),
        (16, 17, None),
        (17, 17, Some((5, Layer::Names, 23))),
        (17, 32, Some((5, Layer::Names, 23))),
        (32, 32, Some((5, Layer::Names, 38))),
        (32, 33, Some((4, Layer::Reader, 38))),
    ];
    for (first, second, expected) in cases {
        let mut file = vec![in heap; 1, 0, 0]?;
        push_count(&mut file, 2)?;
        push_long_name(&mut file, first, b'a')?;
        push_long_name(&mut file, second, b'b')?;
        push_count(&mut file, 0)?;
        assert_eq!(rt; refusal(heap, &file)?, expected);
    }
    Ok(())
}

// A left name of 17 bytes names the nonterminal that agrees with it in 16.
#[test]
fn left_name_of_another_ending(rt: HostRuntime) -> Result<(), Fail> {
    let heap = rt.alloc();
    for (len, expected) in [(16, Some((6, Layer::Names, 24))), (17, None)] {
        let mut file = vec![in heap; 1, 0, 0]?;
        push_count(&mut file, 1)?;
        push_long_name(&mut file, len, b'a')?;
        push_count(&mut file, 1)?;
        push_long_name(&mut file, len, b'b')?;
        push_count(&mut file, 0)?;
        assert_eq!(rt; refusal(heap, &file)?, expected);
    }
    Ok(())
}
