//! Vectors from outside, a table a keyer, under the keyer and under its name.

use exh_keyer::{AnyKeyer, Keyer, PlainKeyer, ShaKeyer, pseudo_of_both};
use sha2::{Digest, Sha256};

type Vector = (&'static [u8], u64);

const PLAIN: [Vector; 5] = [
    (b"\x80", 0x8000_0000_0000_0000),
    (b"abc", 0x6162_6300_0000_0000),
    (b"\0\0", 0),
    (b"\0\0\0\0", 0),
    (b"abcdefghi", 0x6162_6364_6566_6768),
];

// The first sixteen digits of the digests below.
const SHA: [Vector; 4] = [
    (b"abc", 0xba78_16bf_8f01_cfea),
    (b"a", 0xca97_8112_ca1b_bdca),
    (b"b", 0x3e23_e816_0039_594a),
    (b"c", 0x2e7d_2c03_a950_7ae2),
];

// The digests that FIPS 180-4 gives, in halves.
const DIGESTS: [[u128; 2]; 4] = [
    [
        0xba78_16bf_8f01_cfea_4141_40de_5dae_2223,
        0xb003_61a3_9617_7a9c_b410_ff61_f200_15ad,
    ],
    [
        0xca97_8112_ca1b_bdca_fac2_31b3_9a23_dc4d,
        0xa786_eff8_147c_4e72_b980_7785_afee_48bb,
    ],
    [
        0x3e23_e816_0039_594a_3389_4f65_64e1_b134,
        0x8bbd_7a00_88d4_2c4a_cb73_eeae_d59c_009d,
    ],
    [
        0x2e7d_2c03_a950_7ae2_65ec_f5b5_3568_85a5,
        0x3393_a202_9d24_1394_9972_65a1_a25a_efc6,
    ],
];

// Whether a key has this digest, of which its pseudokey is the beginning.
fn has_digest(key: &[u8], pseudokey: u64, digest: &[u128; 2]) -> bool {
    let bytes = Sha256::digest(key);
    bytes.starts_with(&digest[0].to_be_bytes())
        && bytes.ends_with(&digest[1].to_be_bytes())
        && bytes.starts_with(&pseudokey.to_be_bytes())
}

#[test]
fn digests(rt: HostRuntime) {
    for ((key, pseudokey), digest) in SHA.iter().zip(&DIGESTS) {
        assert!(rt; has_digest(key, *pseudokey, digest));
    }
}

// Whether the keyer makes these pseudokeys.
fn makes<K: Keyer>(keyer: &K, vectors: &[Vector]) -> bool {
    for (key, want) in vectors {
        if keyer.pseudo(key) != *want {
            return false;
        }
    }
    true
}

#[test]
fn pseudokeys(rt: HostRuntime) {
    assert!(rt; makes(&PlainKeyer, &PLAIN) && makes(&AnyKeyer::Plain, &PLAIN));
    assert!(rt; makes(&ShaKeyer, &SHA) && makes(&AnyKeyer::Sha, &SHA));
}

#[test]
fn pseudokeys_of_two_keys(rt: HostRuntime) {
    let (front, back) = pseudo_of_both(&ShaKeyer, b"abc", b"a");
    assert!(rt; front == 0xba78_16bf_8f01_cfea && back == 0xca97_8112_ca1b_bdca);
}
