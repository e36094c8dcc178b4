ghost use Rattle.std.specs.Prelude.{◌≡◌, ◌+◌, ◌≤◌, take, drop};
ghost use Rattle.records.specs.Little.{blank};

// So many bytes of a record, from a place on.
pub(crate) fn bytes_at<const N: usize>(bytes: &[u8; 32], at: usize) -> [u8; N]
    requires { at + N ≤ 32 }
    ensures { result ≡ take N (drop at bytes.now) }
{
    let mut part = [0; N];
    part.copy_from_slice(&bytes[at..at + N]);
    part
}

// Whether the bytes are all zero.
pub(crate) fn all_zero(bytes: &[u8]) -> bool
    ensures { result ≡ blank bytes.now }
{
    bytes.iter().all(|byte| *byte == 0)
}
