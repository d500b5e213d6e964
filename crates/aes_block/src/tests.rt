use crate::Key128;

// FIPS 197 of 2001, appendix C.1.
#[test]
fn the_standards_block_is_enciphered_and_deciphered(rt: HostRuntime) {
    let key = Key128::new(0x000102030405060708090a0b0c0d0e0f_u128.to_be_bytes());
    let plain = 0x00112233445566778899aabbccddeeff_u128.to_be_bytes();
    let cipher = 0x69c4e0d86a7b0430d8cdb78070b4c55a_u128.to_be_bytes();
    assert_eq!(rt; key.encrypt(plain), cipher);
    assert_eq!(rt; key.decrypt(cipher), plain);
}

// Each row is a key, a block and its cipher, computed by `openssl enc -aes-128-ecb -nopad` (OpenSSL 3.0.19).
#[test]
fn blocks_are_those_of_openssl(rt: HostRuntime) {
    let rows: [(u128, u128, u128); 5] = [
        (
            0x00000000000000000000000000000000,
            0x00000000000000000000000000000000,
            0x66e94bd4ef8a2c3b884cfa59ca342b2e,
        ),
        (
            0xffffffffffffffffffffffffffffffff,
            0xffffffffffffffffffffffffffffffff,
            0xbcbf217cb280cf30b2517052193ab979,
        ),
        (
            0x2b7e151628aed2a6abf7158809cf4f3c,
            0x6bc1bee22e409f96e93d7e117393172a,
            0x3ad77bb40d7a3660a89ecaf32466ef97,
        ),
        (
            0x8000000000000000000000000000000f,
            0x00000000000000000000000000000001,
            0x6533dbdda02e9d3ff097d3ce96daf704,
        ),
        (
            0x2c70e12b7a0646f92279f427c7b38e73,
            0x496aca80e4d8f29fb8e8cd816c3afb48,
            0x64c4dd364d1d3a6acf46bbf366b58cf1,
        ),
    ];
    for (key, plain, cipher) in rows {
        let schedules = Key128::new(key.to_be_bytes());
        assert_eq!(rt;
            schedules.encrypt(plain.to_be_bytes()),
            cipher.to_be_bytes(),
            "{key:x}"
        );
        assert_eq!(rt;
            schedules.decrypt(cipher.to_be_bytes()),
            plain.to_be_bytes(),
            "{key:x}"
        );
    }
}
