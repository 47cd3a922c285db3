use super::*;

#[test]
fn greatest_number_and_zeros(rt: HostRuntime) {
    assert_eq!(rt; number(b"4294967295 ", 0), Some((4294967295, 10)));
    assert_eq!(rt; number(b"4294967296 ", 0), None);
    assert_eq!(rt; number(b"a 0", 2), Some((0, 1)));
    assert_eq!(rt; number(b"012", 0), None);
    assert_eq!(rt; number(b"12", 2), None);
}
