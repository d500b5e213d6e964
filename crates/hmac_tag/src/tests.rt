use super::hmac;
use std::process::Abort;

/// Fills a key or a message: byte `i` is `(i * step + first) % 256`.
fn pattern(bytes: &mut [u8], first: u8, step: u8) {
    let mut byte = first;
    for place in bytes.iter_mut() {
        *place = byte;
        byte = byte.wrapping_add(step);
    }
}

/// Checks that the tag, in hexadecimal, is `want`.
fn expect_tag(rt: &impl Abort, key: &[u8], message: &[u8], want: &str) {
    let tag = hmac(key, message);
    let mut digits = [0u8; 64];
    let fits = hex::encode_to_slice(&tag, &mut digits);
    assert!(rt; fits.is_ok());
    assert_eq!(rt;
        digits.as_slice(),
        want.as_bytes(),
        "a key of {} bytes, a message of {}",
        key.len(),
        message.len()
    );
}

// RFC 4231, test case 2.
#[test]
fn the_standard_text_has_its_tag(rt: HostRuntime) {
    expect_tag(
        &rt,
        b"Jefe",
        b"what do ya want for nothing?",
        "5bdcc146bf60754e6a042426089575c75a003f089d2739839dec58b964ec3843",
    );
}

// The tags were computed by the module `hmac` of Python 3.11, for the keys and messages of `pattern`.
#[test]
fn keys_and_messages_around_a_block_have_the_tags_of_python(rt: HostRuntime) {
    let mut key = [0u8; 131];
    pattern(&mut key, 3, 7);
    let mut message = [0u8; 1000];
    pattern(&mut message, 1, 5);
    for (key_length, message_length, want) in [
        (
            0,
            0,
            "b613679a0814d9ec772f95d778c35fc5ff1697c493715653c6c712144292c5ad",
        ),
        (
            0,
            64,
            "be6286444441476de37795601d366368613befb07e85ba8aa2f6749623b2b7a0",
        ),
        (
            63,
            55,
            "40e122dc0f785943a283179c70e9fdea87f357cb80cc7a62ffde993180d18e49",
        ),
        (
            64,
            56,
            "c64319aab3e4ceef68fa0ed3c4ff55b73c5826fa2c95a628b1a0c94d954f634e",
        ),
        (
            65,
            64,
            "cf524f6838f91bab31a3450b67fe9c15b69105c323554cb8a4c57abdef98097f",
        ),
        (
            131,
            1000,
            "8ecfdd2ab2f748c12c3e360086761fcf01dca573097af23c7ef4c6b5b492186a",
        ),
    ] {
        assert!(&rt; key_length <= key.len() && message_length <= message.len());
        expect_tag(&rt, &key[..key_length], &message[..message_length], want);
    }
}
