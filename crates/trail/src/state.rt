// The state of a search. What holds of it is said where it changes: counts are those of the marks, the trail has room for all that is alive (specs/State).
ghost use Rattle.std.specs.Prelude.{◌≡◌, replicate};

#[derive(Clone, Copy)]
pub struct State {
    // By candidate: 0 dropped, 1 alive, 2 set.
    pub marks: [u16; 4096],
    // By face code, how many alive and how many set candidates own the face.
    pub owners: [u16; 4096],
    pub held: [u16; 4096],
    // The candidates dropped, in order; `top` of them.
    pub trail: [u16; 4096],
    pub top: usize,
}

impl State {
    // No candidate alive or set, nothing on the trail.
    #[inline(always)]
    pub fn new() -> State
        ensures { result ≡ record { marks = replicate 4096 0; owners = replicate 4096 0; held = replicate 4096 0; trail = replicate 4096 0; top = 0 } }
    {
        State {
            marks: [0; 4096],
            owners: [0; 4096],
            held: [0; 4096],
            trail: [0; 4096],
            top: 0,
        }
    }
}
