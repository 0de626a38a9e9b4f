// Each refusal, with its layer and place.
use crate::files::*;
use entries::sample::sample_grammar;
use entry_format::fault::Layer;
use std::test::*;

const REFUSED: [(&[u8], Refusal); 21] = [
    (&[], (1, Layer::Reader, 0)),
    (&[0], (2, Layer::Section, 0)),
    (&[2, 0, 0, 0, 0], (2, Layer::Section, 0)),
    (&[1, 0], (1, Layer::Reader, 2)),
    (&[1, 0, 64], (3, Layer::Section, 1)),
    (&[1, 1, 0], (3, Layer::Section, 1)),
    (&[1, 0, 0, 0, 0], (3, Layer::Section, 3)),
    (&[1, 0, 0, 0, 65], (3, Layer::Section, 3)),
    (&[1, 0, 1, 0], (4, Layer::Reader, 3)),
    (&[1, 0, 1, 33], (4, Layer::Reader, 3)),
    (&[1, 0, 1, 1, 127], (4, Layer::Reader, 4)),
    (&[1, 0, 1, 2, 97, 32], (4, Layer::Reader, 5)),
    (&[1, 0, 1, 3, 32], (4, Layer::Reader, 4)),
    (&[1, 0, 1, 3, 97], (1, Layer::Reader, 5)),
    (&[1, 0, 2, 1, 97, 1, 97], (5, Layer::Names, 5)),
    (&[1, 0, 1, 1, 97, 0, 1, 1, 97], (5, Layer::Names, 7)),
    (
        &[1, 0, 1, 1, 97, 0, 1, 1, 83, 0, 1, 1, 97],
        (6, Layer::Names, 11),
    ),
    (&[1, 0, 0, 0, 1, 1, 83, 1, 1], (3, Layer::Section, 7)),
    (
        &[1, 0, 0, 0, 1, 1, 83, 0, 1, 1, 83, 4, 1],
        (3, Layer::Section, 11),
    ),
    (
        &[1, 0, 0, 0, 1, 1, 83, 0, 1, 1, 83, 0, 1, 0],
        (4, Layer::Reader, 13),
    ),
    (&[1, 0, 0, 0, 1, 1, 83, 0, 0, 7], (9, Layer::Section, 9)),
];

#[test]
fn each_refusal(rt: HostRuntime) -> Result<(), Fail> {
    for (file, expected) in REFUSED {
        assert_eq!(rt; refusal(rt.alloc(), file)?, Some(expected));
    }
    Ok(())
}

#[test]
fn sample_and_one_byte_more(rt: HostRuntime) -> Result<(), Fail> {
    let heap = rt.alloc();
    assert_eq!(rt; refusal(heap, sample_grammar())?, None);
    let mut longer = Vec::from_slice(heap, sample_grammar())?;
    longer.push(0)?;
    assert_eq!(rt; refusal(heap, &longer)?, Some((9, Layer::Section, 35)));
    Ok(())
}

#[test]
fn sample_cut_at_every_length(rt: HostRuntime) -> Result<(), Fail> {
    let sample = sample_grammar();
    for len in 0..sample.len() {
        assert_eq!(rt;
            refusal(rt.alloc(), &sample[..len])?,
            Some((1, Layer::Reader, len))
        );
    }
    assert_eq!(rt; refusal(rt.alloc(), sample)?, None);
    Ok(())
}
