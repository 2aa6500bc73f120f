// A clock.
ghost use Rattle.std.specs.Prelude.{◌≡◌, ℕ, List};
ghost use Rattle.host.specs.Reading.{first_of, onward};

// Answers the readings that it has to come, one by one.
pub trait Clock {
    // The last of them comes for ever.
    ghost to_come: { Self → List ℕ };

    // The next reading.
    fn read(&mut self) -> u64
        ensures value { result ≡ first_of (to_come self.old) }
        ensures next { to_come self.new ≡ onward (to_come self.old) };
}
