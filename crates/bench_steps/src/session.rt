// What a session has between two lines, and what a line that is no operation leaves.
use bench::bench::{Bench, new};
use bench_tally::tally::Outcome;
use bench_values::compare::{same_mesh, same_value};
use bench_values::value::{mesh_of, value_of, with_cavity, with_count};

#[derive(Clone, Copy)]
pub struct Session {
    pub bench: Bench,
    // The bench before the last operation.
    pub earlier: Bench,
}

impl Session {
    // Both fresh.
    pub fn new() -> Self {
        Session {
            bench: new(),
            earlier: new(),
        }
    }

    // The value that a line speaks of.
    fn value(&self, letter: u8, fields: &[u8]) -> Option<Bench> {
        match letter {
            b'F' => Some(new()),
            b'U' => Some(self.earlier),
            b'N' => with_count(self.bench, fields),
            b'V' => with_cavity(self.earlier, fields),
            b'M' => mesh_of(fields),
            b'S' | b'B' => value_of(fields),
            _ => None,
        }
    }

    fn hand_over(&mut self, value: Bench) -> Outcome {
        self.bench = value;
        self.earlier = value;
        Outcome::Handed
    }

    // A line by its letter and its fields: F, S and N hand over a value, B, U, V and M say what the bench is, M of the mesh alone.
    pub fn speak(&mut self, letter: u8, fields: &[u8]) -> Outcome {
        let Some(value) = self.value(letter, fields) else {
            return Outcome::Unread;
        };
        match letter {
            b'F' | b'S' | b'N' => self.hand_over(value),
            b'M' => Outcome::Compared {
                is_same: same_mesh(&self.bench, &value),
            },
            _ => Outcome::Compared {
                is_same: same_value(&self.bench, &value),
            },
        }
    }
}
