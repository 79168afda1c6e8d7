// How many numbers of each list a text has. Assumes nothing.
ghost use Rattle.reading.specs.Fitting.{CountsFit};

// How many numbers of each list stand in the arrays, which hold so many.
#[derive(Clone, Copy)]
pub struct Counts {
    pub points: usize,
    pub triangles: usize,
    pub kept: usize,
    pub inner: usize,
    pub table: usize,
    ghost fits: { CountsFit points triangles kept inner table },
}
