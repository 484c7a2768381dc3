//! A copy of an array.
use bpf_model::{MapKind, MapShape};
use maps::{ArrayMap, MapTable};
use std::test::Fail;

/// Three values of eight bytes.
const THREE: MapShape = MapShape {
    kind: MapKind::Array,
    key_len: 4,
    value_len: 8,
    entries: 3,
    spare: 0,
    reuse_limit: 1,
};

const LAST: [u8; 4] = [2, 0, 0, 0];

const VALUE: [u8; 8] = [1, 2, 3, 4, 5, 6, 7, 8];

#[test]
fn copy_of_an_array(rt: HostRuntime) -> Result<(), Fail> {
    let mut array = ArrayMap::new(rt.alloc(), THREE)?;
    assert_eq!(rt; array.lookup(&LAST), Some(2));
    assert_eq!(rt; array.update(&LAST, &VALUE, 0), Ok(()));
    let copy = array.copy()?;
    assert_eq!(rt; array.update(&LAST, &[0; 8], 0), Ok(()));
    drop(array);
    match copy.next_above(Some([1, 0, 0, 0].as_slice())) {
        Some((key, value)) => {
            assert_eq!(rt; key.as_slice(), LAST.as_slice());
            assert_eq!(rt; value.as_slice(), VALUE.as_slice());
        }
        None => assert!(rt; false, "no element above"),
    }
    assert!(rt; copy.next_above(Some(LAST.as_slice())).is_none());
    Ok(())
}
