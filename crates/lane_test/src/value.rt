// Values of sixteen bytes: the scalar in one, and one of a scalar.
use lane::V128;

pub(crate) fn long(v: V128) -> u64 {
    let [a, b, c, d, e, f, g, h, ..] = v.bytes;
    u64::from_le_bytes([a, b, c, d, e, f, g, h])
}

pub(crate) fn word(v: V128) -> u32 {
    let [a, b, c, d, ..] = v.bytes;
    u32::from_le_bytes([a, b, c, d])
}

pub(crate) fn slot(x: u64) -> V128 {
    let mut bytes = [0; 16];
    bytes[..8].copy_from_slice(&x.to_le_bytes());
    V128 { bytes }
}
