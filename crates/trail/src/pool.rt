// What a search reads and never writes, each by its name.

// A job's lists, as they are lent.
#[derive(Clone, Copy)]
pub struct Lists<'a> {
    pub points: &'a [i32],
    pub triangles: &'a [u8],
    pub kept: &'a [u8],
    pub inner: &'a [u8],
    pub table: &'a [i32],
}

// Some of a job's candidates, by number from 0 up to m, with what is numbered by them or by face code.
#[derive(Clone, Copy)]
pub struct Pool<'a> {
    pub m: usize,
    // By candidate: its four points, the codes of its four faces, its quality.
    pub fours: &'a [u8],
    pub codes: &'a [u16],
    pub qualities: &'a [u32],
    // The boundary triangles' codes in their order, and the boundary as flags by face code.
    pub boundary: &'a [u16],
    pub bound: &'a [u16; 4096],
    // The chains of owners: the first by face code, the next by place among the codes. No answer rests on them.
    pub links: &'a [[u16; 7280]; 2],
}

// A job, a pool of its candidates, and what a search asks of both.
#[derive(Clone, Copy)]
pub struct Problem<'a> {
    pub lists: Lists<'a>,
    pub pool: Pool<'a>,
    // By face code, the points on its two sides.
    pub rows: &'a [u16; 4096],
    // By candidate: its corners as a set, and what runs through its faces.
    pub corners: &'a [u16],
    pub piercing: &'a [u16],
    // Whether some point, kept edge or inner triangle may lie off the boundary. No answer rests on it.
    pub loose: bool,
}
