// What is known of a table's references while its records are read. Each has its own field, not a place in an array, so that what is
// known stays in the machine's registers.

// Of each reference, where it found its last record, and by a bit whether it is guessed; and where in the section the guesses end.
#[derive(Clone, Copy)]
pub struct Known {
    pub first: usize,
    pub second: usize,
    pub third: usize,
    pub guessed: usize,
    pub until: usize,
}

impl Known {
    // Nothing is guessed, so nowhere do guesses end.
    pub const NOTHING: Known = Known {
        first: 0,
        second: 0,
        third: 0,
        guessed: 0,
        until: usize::MAX,
    };

    pub fn last_place(self, r: usize) -> usize {
        match r {
            0 => self.first,
            1 => self.second,
            _ => self.third,
        }
    }

    pub fn with_place(self, r: usize, at: usize) -> Known {
        match r {
            0 => Known { first: at, ..self },
            1 => Known { second: at, ..self },
            2 => Known { third: at, ..self },
            _ => self,
        }
    }

    pub fn is_guessed(self, r: usize) -> bool {
        self.guessed & 1 << r % 64 != 0
    }

    // From now on with guesses for a reference.
    pub fn with_guess(self, r: usize) -> Known {
        Known {
            guessed: self.guessed | 1 << r % 64,
            ..self
        }
    }

    pub fn with_end(self, until: usize) -> Known {
        Known { until, ..self }
    }
}
