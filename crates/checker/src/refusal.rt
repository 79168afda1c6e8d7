// Why a job is refused. The numbers are those of the printout and of the C interface.
ghost use Rattle.std.specs.Prelude.{◌≡◌};
ghost use Rattle.checker.specs.Numbers.{number_of, number_in};

#[derive(Clone, Copy, Debug, PartialEq, Eq)]
pub enum Refusal {
    // 2: the points are not whole, or not 4 to 16
    Points,
    // 3: a coordinate out of range
    Far,
    // 4: two points in one place
    PointsAlike,
    // 5: the triangles are not whole, or not 4 to 560
    Triangles,
    // 6: a triangle that names an absent point, or one point twice
    BadTriangle,
    // 7: two triangles with the same three points
    TrianglesAlike,
    // 8: a directed edge that occurs more or less often than its reverse
    Unmatched,
    // 9: the kept edges are not whole, or more than 120
    Kept,
    // 10: a kept edge that names an absent point, or one point twice
    BadEdge,
    // 11: the table has not an entry for each four
    Table,
    // 12: an entry that is neither a quality nor -1
    BadEntry,
    // 13: a solid four unmeasured
    Unmeasured,
    // 22: the inner triangles are not whole, or more than 560
    Inner,
    // 23: an inner triangle that names an absent point, or one point twice
    BadInner,
}

impl Refusal {
    pub fn number(self) -> u32
        ensures { result ≡ number_of self }
    {
        match self {
            Refusal::Points => 2,
            Refusal::Far => 3,
            Refusal::PointsAlike => 4,
            Refusal::Triangles => 5,
            Refusal::BadTriangle => 6,
            Refusal::TrianglesAlike => 7,
            Refusal::Unmatched => 8,
            Refusal::Kept => 9,
            Refusal::BadEdge => 10,
            Refusal::Table => 11,
            Refusal::BadEntry => 12,
            Refusal::Unmeasured => 13,
            Refusal::Inner => 22,
            Refusal::BadInner => 23,
        }
    }
}

// The number of an answer that may be a refusal, 0 for none.
pub fn number_in(answer: Result<(), Refusal>) -> u32
    ensures { result ≡ number_in answer }
{
    match answer {
        Ok(()) => 0,
        Err(refusal) => refusal.number(),
    }
}
