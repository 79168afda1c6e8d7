// A job, as it is handed to the kernel: the points' coordinates, and the boundary triangles, kept edges and inner triangles by the points' numbers, one behind the other;
// an entry for each four. The lists may be of any length.
ghost use Rattle.std.specs.Simd.{first_chunks};
ghost use Rattle.std.specs.Prelude.{◌/◌, ◌≡◌, length, min};

use crate::faces::Triangle;
use std::ops::Range;

// The numbers of two points.
pub type Edge = [u8; 2];

#[derive(Clone, Copy)]
pub struct Job<'a> {
    pub points: &'a [i32],
    pub triangles: &'a [u8],
    pub kept: &'a [u8],
    pub inner: &'a [u8],
    pub table: &'a [i32],
}

impl<'a> Job<'a> {
    // How many points there are.
    pub fn size(&self) -> usize
        ensures { result ≡ length self.now.points.now / 3 }
    {
        self.points.len() / 3
    }

    // The points' numbers; one above 254 is no byte of a list.
    pub fn numbers(&self) -> Range<u8>
        ensures first { result.start ≡ 0 }
        ensures end { result.end ≡ min (length self.now.points.now / 3) 255 }
    {
        0..u8::try_from(self.size()).unwrap_or(u8::MAX)
    }

    pub fn boundary(&self) -> &'a [Triangle]
        ensures { result.now ≡ first_chunks 3 (length self.now.triangles.now / 3) self.now.triangles.now }
    {
        self.triangles.as_chunks().0
    }

    pub(crate) fn kept_edges(&self) -> &'a [Edge] {
        self.kept.as_chunks().0
    }

    pub(crate) fn inner_triangles(&self) -> &'a [Triangle] {
        self.inner.as_chunks().0
    }
}
