// A job's lists in arrays of their own, for every answer that is given by them. Assumes nothing.
ghost use Rattle.std.specs.Prelude.{◌≡◌};
ghost use Rattle.reading.specs.Reading.{TextRead, lists_of};

use crate::counts::Counts;
use crate::read::read_job;

// The lists stand first in the arrays, as many numbers of each as are counted.
#[derive(Clone, Copy)]
pub struct JobArrays {
    counts: Counts,
    points: [i32; 51],
    triangles: [u8; 1683],
    kept: [u8; 242],
    inner: [u8; 1683],
    table: [i32; 1820],
}

impl JobArrays {
    pub fn points(&self) -> &[i32]
        ensures { result.now ≡ (lists_of self.now).points }
    {
        &self.points[..self.counts.points]
    }

    pub fn triangles(&self) -> &[u8]
        ensures { result.now ≡ (lists_of self.now).triangles }
    {
        &self.triangles[..self.counts.triangles]
    }

    pub fn kept(&self) -> &[u8]
        ensures { result.now ≡ (lists_of self.now).kept }
    {
        &self.kept[..self.counts.kept]
    }

    pub fn inner(&self) -> &[u8]
        ensures { result.now ≡ (lists_of self.now).inner }
    {
        &self.inner[..self.counts.inner]
    }

    pub fn table(&self) -> &[i32]
        ensures { result.now ≡ (lists_of self.now).table }
    {
        &self.table[..self.counts.table]
    }
}

// The lists of a text; none where it is not of the form.
pub fn read_arrays(text: &[u8]) -> Option<JobArrays>
    ensures { TextRead text.now result }
{
    let mut points: [i32; 51] = [0; 51];
    let mut triangles: [u8; 1683] = [0; 1683];
    let mut kept: [u8; 242] = [0; 242];
    let mut inner: [u8; 1683] = [0; 1683];
    let mut table: [i32; 1820] = [0; 1820];
    let counts = read_job(
        text,
        &mut points,
        &mut triangles,
        &mut kept,
        &mut inner,
        &mut table,
    )?;
    Some(JobArrays {
        counts,
        points,
        triangles,
        kept,
        inner,
        table,
    })
}
