// A job that stands in a line: POINTS;TRIANGLES;KEPT;INNER;TABLE, lists of numbers parted by commas, where v*n in POINTS and TABLE is n times v.
use crate::list::{bytes, integers};
use crate::text::Parts;

// Room for the lists of a job. One with a longer list is not read.
#[derive(Drop)]
pub struct Room {
    points: [i32; 2048],
    triangles: [u8; 4096],
    kept: [u8; 1024],
    inner: [u8; 4096],
    table: [i32; 2048],
}

#[derive(Clone, Copy)]
pub struct Job<'a> {
    pub points: &'a [i32],
    pub triangles: &'a [u8],
    pub kept: &'a [u8],
    pub inner: &'a [u8],
    pub table: &'a [i32],
}

impl Room {
    pub fn new() -> Self {
        Room {
            points: [0; 2048],
            triangles: [0; 4096],
            kept: [0; 1024],
            inner: [0; 4096],
            table: [0; 2048],
        }
    }

    // The job of the next five fields; none where one of them is no list, or does not fit.
    pub fn job<'a>(&'a mut self, fields: &mut Parts<'_>) -> Option<Job<'a>> {
        let Room {
            points,
            triangles,
            kept,
            inner,
            table,
        } = self;
        Some(Job {
            points: integers(fields.part(), points)?,
            triangles: bytes(fields.part(), triangles)?,
            kept: bytes(fields.part(), kept)?,
            inner: bytes(fields.part(), inner)?,
            table: integers(fields.part(), table)?,
        })
    }

    // The job that a whole text is; none where a sixth field stands behind it too.
    pub fn whole_job<'a>(&'a mut self, text: &[u8]) -> Option<Job<'a>> {
        if text.iter().filter(|b| **b == b';').count() > 4 {
            return None;
        }
        self.job(&mut Parts::new(text, b';'))
    }
}
