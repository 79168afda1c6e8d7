// A random job, with the fours whose boundary it has.
use crate::boundary::Boundary;
use crate::inner::{Inner, Sources};
use crate::kept::Kept;
use crate::points::Points;
use crate::random::Seed;
use crate::table::Table;
use enumerator::enumerate::List;
use enumerator::job::Job;

#[derive(Drop)]
pub struct RandomJob {
    points: Points,
    boundary: Boundary,
    kept: Kept,
    inner: Inner,
    table: Table,
    // In no order.
    pub chosen: List,
}

impl RandomJob {
    pub fn of(seed: Seed) -> Self {
        let damage = seed.damage();
        let points = seed.points(damage);
        let size = points.len() / 3;
        let chosen = seed.chosen(&points);
        let boundary = seed.boundary(damage, &points, &chosen);
        let table = seed.table(damage, &points, &chosen);
        let kept = seed.kept(damage, size, &chosen);
        let from = Sources {
            size,
            chosen: &chosen,
            boundary: boundary.as_slice().as_chunks().0,
        };
        let inner = seed.inner(seed.inner_damage(damage), from);
        RandomJob {
            points,
            boundary,
            kept,
            inner,
            table,
            chosen,
        }
    }

    pub fn job(&self) -> Job<'_> {
        Job {
            points: &self.points,
            triangles: &self.boundary,
            kept: &self.kept,
            inner: &self.inner,
            table: &self.table,
        }
    }
}
