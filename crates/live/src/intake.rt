// What every live set counts: how many keys it has learned since it was started, of how many, and whether it is sealed.
ghost use Rattle.std.specs.Prelude.{◌≡◌, ◌+◌, ◌≤◌, true, false, not, ◌||◌, if◌then◌else◌, ◌==◌};
ghost use Rattle.live.specs.Intakes.{none_within};

#[derive(Clone, Copy)]
pub struct Intake {
    // A key learned twice counts twice.
    count: usize,
    capacity: usize,
    sealed: bool,
    ghost space: { count ≤ capacity },
}

impl Intake {
    // Nothing learned yet, of so many.
    pub fn of(capacity: usize) -> Self
        ensures { result ≡ record { count = 0; capacity = capacity; sealed = false; space = none_within capacity } }
    {
        Intake {
            count: 0,
            capacity,
            sealed: false,
        }
    }

    // How many keys it can learn.
    pub fn capacity(&self) -> usize
        ensures { result ≡ self.now.capacity }
    {
        self.capacity
    }

    // Whether it is sealed.
    pub fn is_sealed(&self) -> bool
        ensures { result ≡ self.now.sealed }
    {
        self.sealed
    }

    // Begins anew.
    pub fn start(&mut self)
        ensures { self.new ≡ record self.old { count = 0; sealed = false; space = none_within self.old.capacity } }
    {
        *self = Intake::of(self.capacity);
    }

    // Counts one key more, unless it is sealed or has learned as many as it can.
    pub fn learn(&mut self) -> bool
        ensures answer { result ≡ not (self.old.sealed || self.old.count == self.old.capacity) }
        ensures count { self.new.count ≡ (if result then self.old.count + 1 else self.old.count) }
        ensures capacity { self.new.capacity ≡ self.old.capacity }
        ensures sealed { self.new.sealed ≡ self.old.sealed }
    {
        if self.sealed || self.count == self.capacity {
            return false;
        }
        self.count += 1;
        true
    }

    // Ends learning.
    pub fn seal(&mut self)
        ensures { self.new ≡ record self.old { sealed = true } }
    {
        self.sealed = true;
    }
}
