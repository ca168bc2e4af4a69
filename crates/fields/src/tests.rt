//! Fields on examples.
use crate::field::number_in;
use crate::reading::take_number;
use crate::writing::put_number;

#[test]
fn numbers_are_taken(rt: HostRuntime) {
    assert_eq!(rt; take_number(b"   12R\n", 5), Some((12, b"R\n".as_slice())));
    assert_eq!(rt; take_number(b"    0", 5), Some((0, b"".as_slice())));
    assert_eq!(rt;
        take_number(b"9999999999", 10),
        Some((9_999_999_999, b"".as_slice()))
    );
    assert_eq!(rt; take_number(b"   1", 5), None, "too short");
    assert_eq!(rt; take_number(b"00012", 5), None, "zeros before");
    assert_eq!(rt; take_number(b"12   ", 5), None, "at the left end");
    assert_eq!(rt; take_number(b"12", 0), None, "no column");
    assert_eq!(rt; take_number(b"          1", 11), None, "too wide");
    assert_eq!(rt; number_in(b"   "), None);
}

#[test]
fn numbers_are_put(rt: HostRuntime) {
    let mut columns = *b"xxxxx";
    assert!(rt; put_number(&mut columns, 407));
    assert_eq!(rt; columns, *b"  407");
    assert!(rt; put_number(&mut columns, 0));
    assert_eq!(rt; columns, *b"    0");
    assert!(rt; put_number(&mut columns, 99_999));
    assert!(rt; !put_number(&mut columns, 100_000), "too wide");
    assert_eq!(rt; columns, *b"99999");
    let mut wide = [b'x'; 21];
    assert!(rt; put_number(&mut wide, u64::MAX));
    assert_eq!(rt; wide, *b" 18446744073709551615");
    assert!(rt; !put_number(&mut [], 0), "no column");
}
