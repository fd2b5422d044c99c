ghost use Rattle.std.specs.Prelude.{◌≡◌, ◌<◌};
ghost use Rattle.typedef_names.specs.Buckets.{bucket, turned};

/// How many buckets there are: a prime, so that names which differ in one letter spread over them.
pub(crate) const BUCKETS: usize = 65_521;

/// The bucket with one byte more.
fn turn(bucket: usize, byte: u8) -> usize
    requires { bucket < 65521 }
    ensures value { result ≡ turned bucket byte }
    ensures below { result < 65521 }
{
    (bucket * 257 + byte as usize) % BUCKETS
}

/// The bucket of a name with these bytes.
pub(crate) fn bucket_of(bytes: &[u8]) -> usize
    ensures value { result ≡ bucket bytes.now }
    ensures below { result < 65521 }
{
    let mut at = 0;
    let mut rest = bytes;
    'bytes: while let Some((byte, behind)) = rest.split_first() {
        at = turn(at, *byte);
        rest = behind;
    }
    at
}
