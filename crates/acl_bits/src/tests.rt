ghost use Rattle.std.specs.Prelude.{◌≡◌, ◌+◌, ◌^◌, ◌≤◌, length};

use crate::{BitIn, BitOut, Short};
use std::process::Abort;

// Each value is written out by hand in binary, and the bytes are those digits in eights.
#[test]
fn values_cross_the_edges_of_bytes(rt: HostRuntime) {
    let mut out = BitOut::new();
    assert_eq!(rt; out.bytes().len(), 0);
    out.put(0, 0);
    assert_eq!(rt; out.bytes().len(), 0);
    out.put(1, 1);
    assert_eq!(rt; out.bytes(), [0b1000_0000].as_slice());
    out.put(0b000_1101, 7);
    assert_eq!(rt; out.bytes(), [0b1000_1101].as_slice());
    out.put(0b101, 3);
    assert_eq!(rt; out.bytes(), [0b1000_1101, 0b1010_0000].as_slice());
    out.put(0b1_0000_0001, 9);
    out.put(0xDEAD_BEEF, 32);
    assert_eq!(rt;
        out.bytes(),
        [
            0b1000_1101,
            0b1011_0000,
            0b0001_1101,
            0xEA,
            0xDB,
            0xEE,
            0b1111_0000
        ]
        .as_slice()
    );
}

// The beginning of a small Skip index, written out by hand. Its fields are a first bit, the root's number among four
// names, whether the root has children, the names inside it, and a length in five bits.
#[test]
fn a_head_of_an_index_is_read_bit_by_bit(rt: HostRuntime) {
    let mut bits = BitIn::new(&[0b1001_0111, 0b1011_0000]);
    for (width, value) in [
        (1, 1),
        (2, 0),
        (1, 1),
        (3, 0b011),
        (5, 0b1_1011),
        (4, 0),
        (0, 0),
    ] {
        assert!(&rt; width <= 32);
        assert_eq!(rt; bits.take(width), Ok(value), "{width} bits");
    }
    assert_eq!(rt; bits.take(1), Err(Short));
    assert_eq!(rt; bits.take(0), Ok(0));
}

/// Puts a value if it and its width fit, and aborts the test if not.
fn put_within(rt: &impl Abort, out: &mut BitOut, room: &mut u32, width: u32, value: u32)
    requires { length out.old + room.old ≤ 320 }
    ensures { length out.new + room.new ≤ 320 }
{
    assert!(rt; width <= 32 && width <= *room);
    assert!(rt; value <= low_mask(width));
    out.put(value, width);
    *room -= width;
}

/// The greatest value of `width` bits.
fn low_mask(width: u32) -> u32
    requires { width ≤ 32 }
    ensures { result + 1 ≡ 2 ^ width }
{
    if width < 32 {
        (1 << width) - 1
    } else {
        u32::MAX
    }
}

#[test]
fn what_is_put_is_taken_up_to_forty_bytes(rt: HostRuntime) {
    let values = [
        (0, 0x0000_0000),
        (1, 0x0000_0001),
        (7, 0x0000_0055),
        (8, 0x0000_00A7),
        (9, 0x0000_0123),
        (31, 0x7ABC_DEF1),
        (32, 0xF00D_CAFE),
        (32, 0x0000_0000),
        (32, 0xFFFF_FFFF),
        (8, 0x0000_0080),
        (32, 0x1234_5678),
        (32, 0x8765_4321),
        (32, 0x0F0F_0F0F),
        (32, 0x8000_0001),
        (31, 0x4000_0000),
        (1, 0x0000_0001),
    ];
    let mut out = BitOut::new();
    let mut room = 320;
    for (width, value) in values {
        put_within(&rt, &mut out, &mut room, width, value);
    }
    assert_eq!(rt; room, 0);
    assert_eq!(rt; out.bytes().len(), 40);
    let mut bits = BitIn::new(out.bytes());
    for (width, value) in values {
        assert!(&rt; width <= 32);
        assert_eq!(rt; bits.take(width), Ok(value), "{width} bits");
    }
    assert_eq!(rt; bits.take(1), Err(Short));
}

// A failed call for ten bits leaves the nine bits that there are.
#[test]
fn a_take_past_the_end_takes_nothing(rt: HostRuntime) {
    let mut bits = BitIn::new(&[0xFF, 0x2D]);
    assert_eq!(rt; bits.take(7), Ok(0x7F));
    assert_eq!(rt; bits.take(10), Err(Short));
    assert_eq!(rt; bits.take(32), Err(Short));
    assert_eq!(rt; bits.take(9), Ok(0b1_0010_1101));
    assert_eq!(rt; bits.take(1), Err(Short));
}
