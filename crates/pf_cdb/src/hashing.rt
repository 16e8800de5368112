//! The hash of a key.
ghost use Rattle.std.specs.Prelude.{◌≡◌};
ghost use Rattle.pf_cdb.specs.Hash.{hash_of};

// The hash of no byte.
const FIRST_HASH: u32 = 5381;

/// The hash of a key (cdb(5)).
pub fn hash(key: &[u8]) -> u32
    ensures { result ≡ hash_of key.now }
{
    let mut hash: u32 = FIRST_HASH;
    for byte in key {
        hash = hash.wrapping_mul(33) ^ *byte as u32;
    }
    hash
}
