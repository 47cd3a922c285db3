use super::*;
use std::test::Fail;

// A table of one input, one state bit and one rule, and a byte after its end.
static TABLE: [u8; 34] = [
    1, 1, 1, 1, 2, 0, 0, 0, 0, 0, 0, 2, 1, 0, 1, 0, 0, 0, 2, 1, 0, 0, 0, 0, 0, 2, 0, 0, 1, 0, 0, 0,
    3, 3,
];

// The table up to a length with one byte changed, and what is refused of it: a number and an offset.
#[derive(Clone, Copy)]
struct Case {
    place: usize,
    byte: u8,
    length: usize,
    told: Result<(), (u32, usize)>,
}

static CASES: [Case; 14] = [
    Case {
        place: 0,
        byte: 1,
        length: 33,
        told: Ok(()),
    },
    Case {
        place: 0,
        byte: 2,
        length: 33,
        told: Err((41, 0)),
    },
    Case {
        place: 0,
        byte: 1,
        length: 3,
        told: Err((41, 0)),
    },
    Case {
        place: 1,
        byte: 10,
        length: 33,
        told: Err((42, 0)),
    },
    Case {
        place: 3,
        byte: 0,
        length: 33,
        told: Err((42, 0)),
    },
    Case {
        place: 3,
        byte: 33,
        length: 33,
        told: Err((42, 0)),
    },
    Case {
        place: 4,
        byte: 3,
        length: 33,
        told: Err((43, 4)),
    },
    Case {
        place: 0,
        byte: 1,
        length: 31,
        told: Err((43, 25)),
    },
    Case {
        place: 12,
        byte: 2,
        length: 33,
        told: Err((44, 11)),
    },
    Case {
        place: 13,
        byte: 1,
        length: 33,
        told: Err((44, 11)),
    },
    Case {
        place: 24,
        byte: 1,
        length: 33,
        told: Err((44, 18)),
    },
    Case {
        place: 32,
        byte: 4,
        length: 33,
        told: Err((45, 32)),
    },
    Case {
        place: 0,
        byte: 1,
        length: 32,
        told: Err((45, 32)),
    },
    Case {
        place: 0,
        byte: 1,
        length: 34,
        told: Err((45, 33)),
    },
];

#[test]
fn each_refusal_at_its_offset(rt: HostRuntime) -> Result<(), Fail> {
    for case in &CASES {
        let mut bytes = TABLE;
        if let Some(byte) = bytes.get_mut(case.place) {
            *byte = case.byte;
        }
        let bytes = bytes
            .get(0..case.length)
            .ok_or_else(|| Fail::new("too long a case"))?;
        let told = examine(bytes).map_err(|refusal| (refusal.fault.number(), refusal.offset));
        assert_eq!(rt; told, case.told);
    }
    Ok(())
}
