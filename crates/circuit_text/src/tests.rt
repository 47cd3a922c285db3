use super::*;

// The numbers of the header, or the number and the offset of the refusal.
fn told(answer: Result<Header, TextRefusal>) -> Result<[u32; 5], (u32, usize)> {
    answer
        .map(|h| [h.maximum, h.inputs, h.latches, h.outputs, h.gates])
        .map_err(|refusal| (refusal.fault.number(), refusal.offset))
}

#[test]
fn a_circuit_fills_the_area(rt: HostRuntime) {
    let text = b"aag 6 1 2 2 3\n2\n4 9\n6 10\n12\n6\n8 5 3\n10 4 2\n12 6 5\n";
    let mut area = [7u32; 11];
    assert_eq!(rt; told(read(text, &mut area)), Ok([6, 1, 2, 2, 3]));
    assert_eq!(rt; area, [9, 10, 12, 6, 5, 3, 4, 2, 6, 5, 0]);
    let mut short = [7u32; 9];
    assert_eq!(rt; told(read(text, &mut short)), Err((14, 0)));
    assert_eq!(rt; short, [0; 9]);
}

#[test]
fn a_refusal_names_its_line(rt: HostRuntime) {
    let mut area = [7u32; 10];
    let swapped = b"aag 6 1 2 2 3\n2\n4 9\n6 10\n12\n6\n8 3 5\n10 4 2\n12 6 5\n";
    assert_eq!(rt; told(read(swapped, &mut area)), Err((17, 30)));
    assert_eq!(rt; area, [0; 10]);
    let cut = b"aag 6 1 2 2 3\n2\n4 9\n6 10\n";
    assert_eq!(rt; told(read(cut, &mut area)), Err((15, 25)));
}
