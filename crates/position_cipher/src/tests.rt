use crate::{lock_fragment, mask, unlock_fragment};
use aes_block::Key128;

#[test]
fn a_mask_is_the_number_with_its_low_byte_last(rt: HostRuntime) {
    assert_eq!(rt; mask(258), [0, 0, 0, 0, 0, 0, 0, 0, 0, 0, 0, 0, 0, 0, 1, 2]);
}

// FIPS 197 of 2001, appendix C.1. Block 16 of a stream is the first block of fragment 1. The mask 16 changes its last
// byte from ef to ff, which is the last byte of the standard's block.
#[test]
fn the_first_block_of_fragment_1_has_the_number_16(rt: HostRuntime) {
    let key = Key128::new(0x000102030405060708090a0b0c0d0e0f_u128.to_be_bytes());
    let plain = 0x00112233445566778899aabbccddeeef_u128.to_be_bytes();
    let cipher = 0x69c4e0d86a7b0430d8cdb78070b4c55a_u128.to_be_bytes();
    let mut bytes = [0; 256];
    bytes[..16].copy_from_slice(&plain);
    lock_fragment(&key, 1, &mut bytes);
    assert_eq!(rt; &bytes[..16], &cipher[..]);
    unlock_fragment(&key, 1, &mut bytes);
    assert_eq!(rt; &bytes[..16], &plain[..]);
}
