// The lanes of a shape in sixteen bytes: read, and written in place.
ghost use Rattle.std.specs.Prelude.{◌≡◌, ◌<◌};
ghost use Rattle.operation.specs.Vector.{lane, Sixteen};
ghost use Rattle.lane.specs.Inner.Put.{Wrote};

use scalar::{I8x16, I16x8, I32x4, I64x2, Shape};

pub trait Laid: Shape {
    fn get(v: &[u8; 16], i: usize) -> Self::Lane
        requires { (i < Self.LANES) × Sixteen v.now }
        ensures { Self.Lane.bits result ≡ lane Self.Lane.width v.now i };

    fn put(v: &mut [u8; 16], i: usize, x: Self::Lane)
        requires { (i < Self.LANES) × Sixteen v.old }
        ensures { Wrote Self.Lane.width v.old i (Self.Lane.bits x) v.new };
}

impl Laid for I8x16 {
    fn get(v: &[u8; 16], i: usize) -> u8 {
        v[i]
    }

    fn put(v: &mut [u8; 16], i: usize, x: u8) {
        v[i] = x;
    }
}

impl Laid for I16x8 {
    fn get(v: &[u8; 16], i: usize) -> u16 {
        let low = I8x16::get(v, 2 * i) as u16;
        let high = I8x16::get(v, 2 * i + 1) as u16;
        low + 256 * high
    }

    fn put(v: &mut [u8; 16], i: usize, x: u16) {
        I8x16::put(v, 2 * i, (x % 256) as u8);
        I8x16::put(v, 2 * i + 1, (x / 256) as u8);
    }
}

impl Laid for I32x4 {
    fn get(v: &[u8; 16], i: usize) -> u32 {
        let low = I16x8::get(v, 2 * i) as u32;
        let high = I16x8::get(v, 2 * i + 1) as u32;
        low + 65536 * high
    }

    fn put(v: &mut [u8; 16], i: usize, x: u32) {
        v[4 * i..4 * i + 4].copy_from_slice(&x.to_le_bytes());
    }
}

impl Laid for I64x2 {
    fn get(v: &[u8; 16], i: usize) -> u64 {
        let low = I32x4::get(v, 2 * i) as u64;
        let high = I32x4::get(v, 2 * i + 1) as u64;
        low + 4294967296 * high
    }

    fn put(v: &mut [u8; 16], i: usize, x: u64) {
        I32x4::put(v, 2 * i, (x % 4294967296) as u32);
        I32x4::put(v, 2 * i + 1, (x / 4294967296) as u32);
    }
}
