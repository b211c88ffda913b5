//! The vectors of FIPS 197 and SP 800-38A.

// Blocks, chains of blocks, and wrapped keys.

use aes_block::{Aes256, xor};
use cbc_mode::CbcFault;
use std::test::Fail;

struct Vector {
    key: [u8; 32],
    block: [u8; 16],
    ciphertext: [u8; 16],
}

// FIPS 197, appendix C.3, and SP 800-38A, section F.1.5.
const VECTORS: [Vector; 2] = [
    Vector {
        key: [
            0x00, 0x01, 0x02, 0x03, 0x04, 0x05, 0x06, 0x07, 0x08, 0x09, 0x0a, 0x0b, 0x0c, 0x0d,
            0x0e, 0x0f, 0x10, 0x11, 0x12, 0x13, 0x14, 0x15, 0x16, 0x17, 0x18, 0x19, 0x1a, 0x1b,
            0x1c, 0x1d, 0x1e, 0x1f,
        ],
        block: [
            0x00, 0x11, 0x22, 0x33, 0x44, 0x55, 0x66, 0x77, 0x88, 0x99, 0xaa, 0xbb, 0xcc, 0xdd,
            0xee, 0xff,
        ],
        ciphertext: [
            0x8e, 0xa2, 0xb7, 0xca, 0x51, 0x67, 0x45, 0xbf, 0xea, 0xfc, 0x49, 0x90, 0x4b, 0x49,
            0x60, 0x89,
        ],
    },
    Vector {
        key: [
            0x60, 0x3d, 0xeb, 0x10, 0x15, 0xca, 0x71, 0xbe, 0x2b, 0x73, 0xae, 0xf0, 0x85, 0x7d,
            0x77, 0x81, 0x1f, 0x35, 0x2c, 0x07, 0x3b, 0x61, 0x08, 0xd7, 0x2d, 0x98, 0x10, 0xa3,
            0x09, 0x14, 0xdf, 0xf4,
        ],
        block: [
            0x6b, 0xc1, 0xbe, 0xe2, 0x2e, 0x40, 0x9f, 0x96, 0xe9, 0x3d, 0x7e, 0x11, 0x73, 0x93,
            0x17, 0x2a,
        ],
        ciphertext: [
            0xf3, 0xee, 0xd1, 0xbd, 0xb5, 0xd2, 0xa0, 0x3c, 0x06, 0x4b, 0x5a, 0x7e, 0x3d, 0xb1,
            0x81, 0xf8,
        ],
    },
];

#[test]
fn blocks(rt: HostRuntime) {
    for vector in &VECTORS {
        let cipher = Aes256::new(&vector.key);
        assert_eq!(rt; cipher.encrypt(&vector.block), vector.ciphertext);
        assert_eq!(rt; cipher.decrypt(&vector.ciphertext), vector.block);
    }
    assert_eq!(rt; xor(&[0x0f, 0xf0], &[0xff, 0xff]), [0xf0, 0x0f]);
}

// SP 800-38A, section F.2.5 (CBC-AES256.Encrypt).
const CHAIN_KEY: [u8; 32] = *b"\x60\x3d\xeb\x10\x15\xca\x71\xbe\x2b\x73\xae\xf0\x85\x7d\x77\x81\
    \x1f\x35\x2c\x07\x3b\x61\x08\xd7\x2d\x98\x10\xa3\x09\x14\xdf\xf4";

const IV: [u8; 16] = *b"\x00\x01\x02\x03\x04\x05\x06\x07\x08\x09\x0a\x0b\x0c\x0d\x0e\x0f";

const PLAINTEXT: [u8; 64] = *b"\x6b\xc1\xbe\xe2\x2e\x40\x9f\x96\xe9\x3d\x7e\x11\x73\x93\x17\x2a\
    \xae\x2d\x8a\x57\x1e\x03\xac\x9c\x9e\xb7\x6f\xac\x45\xaf\x8e\x51\
    \x30\xc8\x1c\x46\xa3\x5c\xe4\x11\xe5\xfb\xc1\x19\x1a\x0a\x52\xef\
    \xf6\x9f\x24\x45\xdf\x4f\x9b\x17\xad\x2b\x41\x7b\xe6\x6c\x37\x10";

const CIPHERTEXT: [u8; 64] = *b"\xf5\x8c\x4c\x04\xd6\xe5\xf1\xba\x77\x9e\xab\xfb\x5f\x7b\xfb\xd6\
    \x9c\xfc\x4e\x96\x7e\xdb\x80\x8d\x67\x9f\x77\x7b\xc6\x70\x2c\x7d\
    \x39\xf2\x33\x69\xa9\xd9\xba\xcf\xa5\x30\xe2\x63\x04\x23\x14\x61\
    \xb2\xeb\x05\xe2\xc3\x9b\xe9\xfc\xda\x6c\x19\x07\x8c\x6a\x9d\x1b";

// SP 800-38A, section F.1.5 (ECB-AES256.Encrypt): its four blocks, and what they are encrypted to.
const BLOCKS: [[u8; 16]; 4] = [
    *b"\x6b\xc1\xbe\xe2\x2e\x40\x9f\x96\xe9\x3d\x7e\x11\x73\x93\x17\x2a",
    *b"\xae\x2d\x8a\x57\x1e\x03\xac\x9c\x9e\xb7\x6f\xac\x45\xaf\x8e\x51",
    *b"\x30\xc8\x1c\x46\xa3\x5c\xe4\x11\xe5\xfb\xc1\x19\x1a\x0a\x52\xef",
    *b"\xf6\x9f\x24\x45\xdf\x4f\x9b\x17\xad\x2b\x41\x7b\xe6\x6c\x37\x10",
];

const ENCRYPTED: [[u8; 16]; 4] = [
    *b"\xf3\xee\xd1\xbd\xb5\xd2\xa0\x3c\x06\x4b\x5a\x7e\x3d\xb1\x81\xf8",
    *b"\x59\x1c\xcb\x10\xd4\x10\xed\x26\xdc\x5b\xa7\x4a\x31\x36\x28\x70",
    *b"\xb6\xed\x21\xb9\x9c\xa6\xf4\xf9\xf1\x53\xe7\xb1\xbe\xaf\xed\x1d",
    *b"\x23\x30\x4b\x7a\x39\xf9\xf3\xff\x06\x7d\x8d\x8f\x9e\x24\xec\xc7",
];

#[test]
fn eight_blocks(rt: HostRuntime) {
    let cipher = Aes256::new(&CHAIN_KEY);
    let [a, b, c, d] = ENCRYPTED;
    let [p, q, r, s] = BLOCKS;
    let decrypted = cipher.decrypt8(&[a, b, c, d, d, a, c, b]);
    assert_eq!(rt; decrypted, [p, q, r, s, s, p, r, q]);
}

// The standard's vector has no padding, so a block of padding follows.
#[test]
fn chains(rt: HostRuntime) -> Result<(), Fail> {
    let key = Aes256::new(&CHAIN_KEY);
    let ciphertext = cbc_mode::encrypt(rt.alloc(), &key, &IV, &PLAINTEXT)?;
    assert_eq!(rt; ciphertext.len(), 80);
    assert!(rt; ciphertext.starts_with(&CIPHERTEXT));
    let plaintext = cbc_mode::decrypt(rt.alloc(), &key, &IV, &ciphertext)?;
    assert_eq!(rt; plaintext.as_slice(), PLAINTEXT.as_slice());
    Ok(())
}

#[test]
fn refuses_what_is_no_ciphertext(rt: HostRuntime) {
    let key = Aes256::new(&CHAIN_KEY);
    for (len, fault) in [
        (0, CbcFault::BadLength),
        (15, CbcFault::BadLength),
        (16, CbcFault::NotPadded),
    ] {
        let refused = cbc_mode::decrypt(rt.alloc(), &key, &IV, &CIPHERTEXT[..len]);
        assert_eq!(rt; refused, Err(fault), "at {len}");
    }
}

// RFC 3394, section 4.6.
const KEK: [u8; 32] = *b"\x00\x01\x02\x03\x04\x05\x06\x07\x08\x09\x0a\x0b\x0c\x0d\x0e\x0f\
    \x10\x11\x12\x13\x14\x15\x16\x17\x18\x19\x1a\x1b\x1c\x1d\x1e\x1f";

const KEY: [u8; 32] = *b"\x00\x11\x22\x33\x44\x55\x66\x77\x88\x99\xaa\xbb\xcc\xdd\xee\xff\
    \x00\x01\x02\x03\x04\x05\x06\x07\x08\x09\x0a\x0b\x0c\x0d\x0e\x0f";

const WRAPPED: [u8; 40] = *b"\x28\xc9\xf4\x04\xc4\xb8\x10\xf4\xcb\xcc\xb3\x5c\xfb\x87\xf8\x26\
    \x3f\x57\x86\xe2\xd8\x0e\xd3\x26\xcb\xc7\xf0\xe7\x1a\x99\xf4\x3b\
    \xfb\x98\x8b\x9b\x7a\x02\xdd\x21";

#[test]
fn wraps(rt: HostRuntime) {
    let kek = Aes256::new(&KEK);
    assert_eq!(rt; key_wrap::wrap(&kek, &KEY), WRAPPED);
    assert_eq!(rt; key_wrap::unwrap(&kek, &WRAPPED), Some(KEY));
    let mut changed = WRAPPED;
    changed[39] = 0x20;
    assert_eq!(rt; key_wrap::unwrap(&kek, &changed), None);
}
