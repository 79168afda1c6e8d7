// A good ring whose job is not refused, as the functions that look for its best row are lent it.
ghost use Rattle.std.specs.Prelude.{◌≡◌, true, [], ◌+◌, length};
ghost use Rattle.geometry.specs.Space.{points_in};
ghost use Rattle.laws.specs.Lists.{job_lists};
ghost use Rattle.laws.specs.Check.{job_refusal};
ghost use Rattle.triangulations.specs.Rings.{rows, numbers};
ghost use Rattle.triangulations.specs.EdgeRing.{ring_good};

// The job's points, boundary and qualities, the ends of the edge, the ring's points, and the table of its size.
#[derive(Drop)]
pub(crate) struct Ring<'a> {
    pub(crate) points: &'a [i32],
    pub(crate) triangles: &'a [u8],
    pub(crate) table: &'a [i32],
    pub(crate) a: usize,
    pub(crate) b: usize,
    pub(crate) ring: &'a [u8],
    pub(crate) laid: &'a [u8],
    ghost accepted: { job_refusal (job_lists points.now triangles.now [] [] table.now) ≡ 0 },
    ghost many: { length (points_in points.now) ≡ length ring.now + 2 },
    ghost good: { ring_good (length ring.now + 2) a b ring.now ≡ true },
    ghost rows: { laid.now ≡ numbers (rows (length ring.now)) },
}
