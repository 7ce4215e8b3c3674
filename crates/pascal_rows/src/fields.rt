//! Integers, and how they are written, worked out by hand.
use pas_meaning::write_int;
use std::test::Fail;

// An integer, the width of its field, and how many spaces and which digits are written.
#[derive(Clone, Copy)]
struct Row {
    value: i64,
    width: i64,
    spaces: i64,
    digits: &'static [u8],
}

#[test]
fn writes_integers(rt: HostRuntime) -> Result<(), Fail> {
    #[rattlefmt::skip]
    let rows = [
        Row { value: -7, width: 4, spaces: 2, digits: b"-7" },
        Row { value: 0, width: 1, spaces: 0, digits: b"0" },
        Row { value: 12, width: 2, spaces: 0, digits: b"12" },
        Row { value: 12, width: 1, spaces: 0, digits: b"12" },
        Row { value: 12, width: 3, spaces: 1, digits: b"12" },
        Row { value: -2147483648, width: 1, spaces: 0, digits: b"-2147483648" },
        Row { value: 2147483647, width: 2147483647, spaces: 2147483637, digits: b"2147483647" },
    ];
    for (index, row) in rows.iter().enumerate() {
        let text = write_int(row.value, row.width);
        assert_eq!(rt; (index, text.spaces), (index, row.spaces));
        assert_eq!(rt; (index, text.digits.as_slice()), (index, row.digits));
    }
    Ok(())
}
