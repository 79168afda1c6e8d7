// A table of candidates, by number: the four points of each, the codes of its four faces and its quality.
ghost use Rattle.std.specs.Prelude.{◌≡◌, ◌∷◌, [], ◌+◌, ◌*◌, ◌/◌, ◌<◌, ◌≤◌, length, get_or, set, replicate};
ghost use Rattle.laws.specs.Laws.{fours_in};
ghost use Rattle.laws.specs.Lists.{Lists as JobLists};
ghost use Rattle.fillings.specs.Filing.{put_four};
ghost use Rattle.fillings.specs.Marks.{marked};
ghost use Rattle.trail.specs.Pool.{fours_of};
ghost use Rattle.candidates.specs.Table.{FiledIn, FiledPool, PoolOf, candidates_of};

use crate::boundary::Faces;
use trail::pool::{Lists, Pool};

#[derive(Clone, Copy)]
pub struct Candidates {
    // How many there are.
    pub m: usize,
    pub fours: [u8; 7280],
    pub codes: [u16; 7280],
    pub qualities: [u32; 1820],
}

impl Candidates {
    // None.
    #[inline(always)]
    pub fn new() -> Candidates
        ensures { result ≡ record { m = 0; fours = replicate 7280 0; codes = replicate 7280 0; qualities = replicate 1820 0 } }
    {
        Candidates {
            m: 0,
            fours: [0; 7280],
            codes: [0; 7280],
            qualities: [0; 1820],
        }
    }

    // One more.
    pub(crate) fn push(&mut self, four: [u8; 4], faces: [u16; 4], quality: u32)
        requires { self.old.m < 1820 }
        ensures count { self.new.m ≡ self.old.m + 1 }
        ensures fours { self.new.fours ≡ put_four self.old.m (get_or four 0 0) (get_or four 1 0) (get_or four 2 0) (get_or four 3 0) self.old.fours }
        ensures codes { self.new.codes ≡ put_four self.old.m (get_or faces 0 0) (get_or faces 1 0) (get_or faces 2 0) (get_or faces 3 0) self.old.codes }
        ensures qualities { self.new.qualities ≡ set self.old.qualities self.old.m quality }
    {
        put_four(&mut self.fours, self.m, four);
        put_codes(&mut self.codes, self.m, faces);
        self.qualities[self.m] = quality;
        self.m += 1;
    }

    // What a search reads of them, with what stands by face code.
    pub fn pool<'a>(
        &'a self,
        lists: &Lists,
        faces: &'a Faces,
        links: &'a [[u16; 7280]; 2],
    ) -> Pool<'a>
        requires { length lists.now.triangles.now / 3 ≤ 4096 }
        ensures { PoolOf lists.now faces.now self.now result }
    {
        Pool {
            m: self.m,
            fours: &self.fours,
            codes: &self.codes,
            qualities: &self.qualities,
            boundary: &faces.boundary[..lists.triangles.len() / 3],
            bound: &faces.bound,
            links,
        }
    }
}

// The points of the candidate k.
pub(crate) fn points_of(fours: &[u8], k: usize) -> [u8; 4]
    requires { (k < 1820) × (k * 4 + 4 ≤ length fours.now) }
    ensures { result ≡ get_or fours.now (k * 4) 0 ∷ get_or fours.now (k * 4 + 1) 0 ∷ get_or fours.now (k * 4 + 2) 0 ∷ get_or fours.now (k * 4 + 3) 0 ∷ [] }
{
    let at = k * 4;
    [fours[at], fours[at + 1], fours[at + 2], fours[at + 3]]
}

// The codes of its faces.
fn faces_of(codes: &[u16], k: usize) -> [u16; 4]
    requires { (k < 1820) × (k * 4 + 4 ≤ length codes.now) }
    ensures { result ≡ get_or codes.now (k * 4) 0 ∷ get_or codes.now (k * 4 + 1) 0 ∷ get_or codes.now (k * 4 + 2) 0 ∷ get_or codes.now (k * 4 + 3) 0 ∷ [] }
{
    let at = k * 4;
    [codes[at], codes[at + 1], codes[at + 2], codes[at + 3]]
}

// Writes the points of a four at the place k.
pub fn put_four(fours: &mut [u8], k: usize, four: [u8; 4])
    requires { k * 4 + 4 ≤ length fours.old }
    ensures { fours.new ≡ put_four k (get_or four 0 0) (get_or four 1 0) (get_or four 2 0) (get_or four 3 0) fours.old }
{
    let [a, b, c, d] = four;
    fours[k * 4] = a;
    fours[k * 4 + 1] = b;
    fours[k * 4 + 2] = c;
    fours[k * 4 + 3] = d;
}

// Writes the codes of its faces.
// Beside `put_four`: `put_four` of the specs is on lists of numbers, and a generic T would not be one.
fn put_codes(codes: &mut [u16], k: usize, faces: [u16; 4])
    requires { k * 4 + 4 ≤ length codes.old }
    ensures { codes.new ≡ put_four k (get_or faces 0 0) (get_or faces 1 0) (get_or faces 2 0) (get_or faces 3 0) codes.old }
{
    let [a, b, c, d] = faces;
    codes[k * 4] = a;
    codes[k * 4 + 1] = b;
    codes[k * 4 + 2] = c;
    codes[k * 4 + 3] = d;
}

// The alive ones of a pool, as candidates of their own.
pub fn compact(pool: &Pool, marks: &[u16], alive: &mut Candidates)
    requires { (pool.now.m ≤ 1820) × (pool.now.m * 4 ≤ length pool.now.fours.now) × (pool.now.m * 4 ≤ length pool.now.codes.now) × (pool.now.m ≤ length pool.now.qualities.now) × (pool.now.m ≤ length marks.now) }
    ensures filed { (L : JobLists) → FiledPool L pool.now → FiledIn L alive.new }
    ensures alive { candidates_of alive.new ≡ marked 1 (fours_of pool.now) marks.now }
{
    alive.m = 0;
    // By number: k is a candidate's place in three tables and in the marks.
    for k in 0..pool.m {
        if marks[k] == 1 {
            alive.push(
                points_of(pool.fours, k),
                faces_of(pool.codes, k),
                pool.qualities[k],
            );
        }
    }
}
