// A vertex that a query stands on, and the state of a climb.
ghost use Rattle.std.specs.Prelude.{◌≡◌, ◌+◌, ◌<◌, ◌^◌};
ghost use Rattle.climb.specs.Climbing.{ancestor_of};
ghost use Rattle.climb.specs.Inner.{climb_start, u_moved, v_moved};

// A vertex with what was read of it and of the head of its chain. `up` is the head's parent, NO_PARENT where it has none.
#[derive(Clone, Copy)]
pub struct Place {
    pub vertex: usize,
    pub depth: usize,
    pub id: usize,
    pub head: usize,
    pub top: usize,
    pub first: usize,
    pub up: usize,
}

// A climb from two ends, with the number of chains that each side has left.
#[derive(Clone, Copy)]
pub struct Climb {
    pub u: Place,
    pub v: Place,
    pub u_count: usize,
    pub v_count: usize,
}

impl Climb {
    // A climb that has left no chain.
    pub fn new(u: Place, v: Place) -> Climb
        ensures { result ≡ climb_start u v }
    {
        Climb {
            u,
            v,
            u_count: 0,
            v_count: 0,
        }
    }

    // The u side has left its chain for the place p.
    pub fn u_moved(mut self, p: Place) -> Climb
        requires { self.u_count + 1 < 2 ^ 64 }
        ensures { result ≡ u_moved self p }
    {
        self.u = p;
        self.u_count += 1;
        self
    }

    // The v side has left its chain for the place p.
    pub fn v_moved(mut self, p: Place) -> Climb
        requires { self.v_count + 1 < 2 ^ 64 }
        ensures { result ≡ v_moved self p }
    {
        self.v = p;
        self.v_count += 1;
        self
    }

    // Of two ends with one head the shallower is the ancestor, u at equal depth.
    pub fn ancestor(self) -> Place
        ensures { result ≡ ancestor_of self }
    {
        let u = self.u;
        let v = self.v;
        if u.depth <= v.depth { u } else { v }
    }
}
