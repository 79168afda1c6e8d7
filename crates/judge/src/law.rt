// The laws of a filling by name, in the order in which a list is tried.
ghost use Rattle.std.specs.Prelude.{◌≡◌};
ghost use Rattle.judge.specs.Judge.{law_number};

#[derive(Clone, Copy, Debug, PartialEq, Eq)]
pub enum Law {
    // 1: fours of present points, each in rising order, one after the other
    Order,
    // 2: no four that is flat or barred
    Quality,
    // 3: no point strictly inside a four
    PointsOut,
    // 4: faces matched, or on the boundary
    Faces,
    // 5: fours apart
    Apart,
    // 6: every point a corner
    Corners,
    // 7: every kept edge an edge
    Edges,
    // 8: every inner triangle a face
    Inner,
}

impl Law {
    pub fn number(self) -> u32
        ensures { result ≡ law_number self }
    {
        match self {
            Law::Order => 1,
            Law::Quality => 2,
            Law::PointsOut => 3,
            Law::Faces => 4,
            Law::Apart => 5,
            Law::Corners => 6,
            Law::Edges => 7,
            Law::Inner => 8,
        }
    }
}
