// Four numbers that may name a danger (document 01, "The walk and the chain shown"): from 1, as the walk gives and takes them, and from 0, as
// jobs and operations are looked up.
ghost use Rattle.std.specs.Prelude.{◌≡◌, [], ◌∷◌, ◌<◌};
ghost use Rattle.theory.specs.Walk.{from_one_lem};
ghost use Rattle.walk.specs.Answers.{named};

// The split job T1, its operation b1, the first job T2 and the last job Tm, each counted from 1.
#[derive(Clone, Copy)]
pub struct Four {
    pub t1: u8,
    pub b1: u8,
    pub t2: u8,
    pub tm: u8,
}

// The same four, each counted from 0: indices of jobs and operations, and jobs of sets.
#[derive(Clone, Copy)]
pub struct Indices {
    pub t1: usize,
    pub b1: usize,
    pub t2: u32,
    pub tm: u32,
}

// Before every danger.
pub(crate) const ZEROS: Indices = Indices {
    t1: 0,
    b1: 0,
    t2: 0,
    tm: 0,
};

impl Four {
    // The same four counted from 0. None may be 0; a danger's are at least 1.
    pub fn indices(self) -> Indices
        requires { (0 < self.t1) × (0 < self.b1) × (0 < self.t2) × (0 < self.tm) }
        ensures { named self ≡ from_one_lem result.t1 result.b1 result.t2 result.tm }
    {
        Indices {
            t1: usize::from(self.t1 - 1),
            b1: usize::from(self.b1 - 1),
            t2: u32::from(self.t2 - 1),
            tm: u32::from(self.tm - 1),
        }
    }
}

impl Indices {
    // A method, since a `From` can't ask that the numbers be below 255; `as u8`, since no `From` narrows.
    pub(crate) fn four(self) -> Four
        requires { (self.t1 < 255) × (self.b1 < 255) × (self.t2 < 255) × (self.tm < 255) }
        ensures { named result ≡ from_one_lem self.t1 self.b1 self.t2 self.tm }
    {
        Four {
            t1: (self.t1 + 1) as u8,
            b1: (self.b1 + 1) as u8,
            t2: (self.t2 + 1) as u8,
            tm: (self.tm + 1) as u8,
        }
    }
}

impl From<[u8; 4]> for Four {
    ghost from_gives = { λ numbers four. numbers ≡ four.t1 ∷ four.b1 ∷ four.t2 ∷ four.tm ∷ [] };

    fn from([t1, b1, t2, tm]: [u8; 4]) -> Four {
        Four { t1, b1, t2, tm }
    }
}

impl From<Four> for [u8; 4] {
    ghost from_gives = { λ four numbers. numbers ≡ four.t1 ∷ four.b1 ∷ four.t2 ∷ four.tm ∷ [] };

    fn from(four: Four) -> [u8; 4] {
        [four.t1, four.b1, four.t2, four.tm]
    }
}
