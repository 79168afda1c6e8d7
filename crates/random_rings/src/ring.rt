// A random ring, with its rows.
use crate::numbering::{Numbers, ends, numbers_of};
use crate::points::{Points, points_of};
use crate::sizes::size;
use crate::table::{Table, table_of};
use random_jobs::random::Seed;
use ring_rule::ring::Ring;
use ring_rule::sublists::{Rows, rows_of};

#[derive(Drop)]
pub struct RandomRing {
    points: Points,
    ends: [u32; 2],
    numbers: Numbers,
    table: Table,
    pub rows: Rows,
}

impl RandomRing {
    pub fn of(seed: Seed) -> Self {
        let k = size(seed);
        let n = k.wrapping_add(2);
        let [a, b] = ends(seed, n);
        let numbers = numbers_of(seed, k);
        let points = points_of(seed, k);
        let rows = rows_of(numbers.len());
        let ring = Ring {
            points: &points,
            a,
            b,
            ring: &numbers,
            table: &[],
        };
        let table = table_of(seed, n, ring, &rows);
        RandomRing {
            points,
            ends: [a, b],
            numbers,
            table,
            rows,
        }
    }

    pub fn ring(&self) -> Ring<'_> {
        let [a, b] = self.ends;
        Ring {
            points: &self.points,
            a,
            b,
            ring: &self.numbers,
            table: &self.table,
        }
    }
}
