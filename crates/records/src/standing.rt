ghost use Rattle.std.specs.Prelude.{◌≡◌, ℕ};
ghost use Rattle.records.specs.Heads.{new_head, live_head, detached_head};
ghost use Rattle.records.specs.Rows.{same_standing};
ghost use Rattle.records.specs.declared.standing.Head.{Head};
ghost use Rattle.records.specs.declared.standing.Standing.{Standing as Stands};
ghost use Rattle.records.specs.declared.standing.Standing.TheVariants as standings;

// How far a record has come: being set up, in use, or gone from the server and kept for its readers.
#[derive(Clone, Copy, PartialEq, Eq)]
pub enum Standing {
    Pending,
    Live,
    Detached,
}

// What a row is found by: the number of its object, and how it stands.
#[derive(Clone, Copy, PartialEq, Eq)]
pub struct Key {
    pub number: u64,
    pub standing: Standing,
}

impl Key {
    fn new(number: u64, standing: Standing) -> Key
        ensures { result ≡ record { number = number; standing = standing } }
    {
        Key { number, standing }
    }

    // Of the record that is being set up.
    pub fn pending(number: u64) -> Key
        ensures { result ≡ record { number = number; standing = standings.Pending } }
    {
        Key::new(number, Standing::Pending)
    }

    // Of the record in use.
    pub fn live(number: u64) -> Key
        ensures { result ≡ record { number = number; standing = standings.Live } }
    {
        Key::new(number, Standing::Live)
    }
}

// What every record has: the number of its object, how it stands, and its handle, which is 0 until it is live. A standing that held the
// handle would be no plainer: rows are sought by their standing alone, those of callbacks too, which have none.
#[derive(Clone, Copy)]
pub struct Head {
    pub number: u64,
    pub standing: Standing,
    pub handle: u32,
}

impl Head {
    // A record that is to be set up.
    pub fn new(number: u64) -> Head
        ensures { result ≡ new_head number }
    {
        Head {
            number,
            standing: Standing::Pending,
            handle: 0,
        }
    }

    pub fn is_pending(&self) -> bool
        ensures { result ≡ same_standing self.now.standing standings.Pending }
    {
        self.standing == Standing::Pending
    }

    pub fn go_live(&mut self, handle: u32)
        ensures { self.new ≡ live_head handle self.old }
    {
        self.standing = Standing::Live;
        self.handle = handle;
    }

    // The record keeps its handle.
    pub fn detach(&mut self)
        ensures { self.new ≡ detached_head self.old }
    {
        self.standing = Standing::Detached;
    }
}

// A row that tells the number of its object and how it stands.
pub trait Row {
    ghost numbered: { Self → ℕ };

    ghost stands: { Self → Stands };

    fn number(&self) -> u64
        ensures { result ≡ numbered self.now };

    fn standing(&self) -> Standing
        ensures { result ≡ stands self.now };
}

// A row that can take a step: what becomes of it depends on how it stands and on the step together.
// Kept as a value, and no closure: by the project's rule one match takes standing and step together, and the definitions of specs/ speak of steps.
pub trait Record: Row {
    type Step: Copy;

    ghost stepped: { Self → Self.Step → Self };

    fn step(&mut self, step: Self::Step)
        ensures { self.new ≡ stepped self.old step };
}

// A record that is known by its handle once it has one.
pub trait Handled: Row {
    ghost handled: { Self → ℕ };

    fn handle(&self) -> u32
        ensures { result ≡ handled self.now };
}

// A record with a head, which tells all that a row tells.
pub trait Headed {
    ghost head_of: { Self → Head };

    fn head(&self) -> &Head
        ensures { result.now ≡ head_of self.now };
}

impl<R: Headed> Row for R {
    ghost numbered = { λ row. (R.head_of row).number };

    ghost stands = { λ row. (R.head_of row).standing };

    fn number(&self) -> u64 {
        self.head().number
    }

    fn standing(&self) -> Standing {
        self.head().standing
    }
}

impl<R: Headed> Handled for R {
    ghost handled = { λ row. (R.head_of row).handle };

    fn handle(&self) -> u32 {
        self.head().handle
    }
}
