// Where the rows of a table begin: behind four header words the type rows, of seven words each, then the attribute rows, of three,
// then the particle rows, of four. Of the row past the last it is the first word past them.
ghost use Rattle.std.specs.Prelude.{◌≡◌, ◌<◌};
ghost use Rattle.table.specs.Words.{type_at, attribute_at, particle_at, size_of, derived_at, substitute_at, type_pair_at, row_pair_at};

// The type row t.
pub fn type_at(t: u32) -> usize
    ensures { result ≡ type_at t }
{
    4 + 7 * (t as usize)
}

// The attribute row a behind so many type rows.
pub fn attribute_at(types: u32, a: u32) -> usize
    ensures { result ≡ attribute_at types a }
{
    type_at(types) + 3 * (a as usize)
}

// The particle row p behind so many type and attribute rows.
pub fn particle_at(types: u32, attributes: u32, p: u32) -> usize
    ensures { result ≡ particle_at types attributes p }
{
    attribute_at(types, attributes) + 4 * (p as usize)
}

// How many rows of each kind there are, as the header has them.
#[derive(Clone, Copy)]
pub struct Counts {
    pub types: u32,
    pub attributes: u32,
    pub particles: u32,
}

impl Counts {
    // The particle row p.
    pub fn particle_at(self, p: u32) -> usize
        ensures { result ≡ particle_at self.types self.attributes p }
    {
        particle_at(self.types, self.attributes, p)
    }

    // Where the rows end.
    pub fn end(self) -> usize
        ensures { result ≡ size_of self.types self.attributes self.particles }
    {
        self.particle_at(self.particles)
    }
}

// The words behind the rows: where they begin, and how many derived entries and substitutes there are.
#[derive(Clone, Copy)]
pub struct Casts {
    pub end: usize,
    pub entries: u32,
    pub swaps: u32,
    ghost small: { end < 1099511627776 },
}

impl Casts {
    // The derived entry i.
    pub fn entry_at(self, i: u32) -> usize
        ensures { result ≡ derived_at self.end i }
    {
        self.end + 2 + (i as usize)
    }

    // The substitute i.
    pub fn swap_at(self, i: u32) -> usize
        ensures { result ≡ substitute_at self.end self.entries i }
    {
        self.entry_at(self.entries) + 2 * (i as usize)
    }

    // The pair of type t.
    pub fn pair_at(self, t: u32) -> usize
        ensures { result ≡ type_pair_at self.end self.entries self.swaps t }
    {
        self.swap_at(self.swaps) + 2 * (t as usize)
    }

    // The pair of particle row p behind so many types' pairs.
    pub fn row_pair_at(self, types: u32, p: u32) -> usize
        ensures { result ≡ row_pair_at self.end self.entries self.swaps types p }
    {
        self.pair_at(types) + 2 * (p as usize)
    }
}
