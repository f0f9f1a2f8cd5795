//! The number by which a key is found.

ghost use Rattle.std.specs.Prelude.{◌≡◌};
ghost use Rattle.rawk_keys.specs.Hash.{hash_of, mixed};

/// One more byte (or the array), by the function of Fowler, Noll and Vo (FNV-1): keys that differ in their last byte alone
/// have chains whose heads lie near each other, so that counting loops touch few lines of memory.
fn mix(hash: usize, byte: usize) -> usize
    ensures { result ≡ mixed hash byte }
{
    hash.wrapping_mul(1099511628211) ^ byte
}

/// Where hashes with this seed begin.
pub(crate) fn seeded_basis(seed: u64) -> usize
    ensures { result ≡ mixed 14695981039346656037 seed }
{
    mix(14695981039346656037, seed as usize)
}

/// The hash of an array's key, in 32 bits.
pub(crate) fn hash(basis: usize, array: usize, key: &[u8]) -> usize
    ensures { result ≡ hash_of basis array key.now }
{
    let mut hash = mix(basis, array);
    for byte in key {
        hash = mix(hash, *byte as usize);
    }
    hash % 4294967296
}
