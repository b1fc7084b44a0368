// What the functions on a table answer.
ghost use Rattle.std.specs.Prelude.{◌≡◌, ◌<◌, IfErr};
ghost use Rattle.table.specs.First.{moved};
ghost use Rattle.table.specs.Views.{verdict_is};

// The place of the first word at fault.
#[derive(Clone, Copy)]
pub struct Flaw(pub usize);

// What is said of a row's words, which count from 0, said of the table's: the row begins at `base`.
pub fn in_row(base: usize, words: Result<(), Flaw>) -> Result<(), Flaw>
    requires { (base < 4611686018427387904) × IfErr words (λ e. e.0 < 8) }
    ensures { verdict_is result ≡ moved base (verdict_is words) }
{
    match words {
        Ok(()) => Ok(()),
        Err(Flaw(k)) => Err(Flaw(base + k)),
    }
}

// What a type's elements hold: nothing, one simple value of a kind with its parameters b and c, or a particle row.
#[derive(Clone, Copy)]
pub enum Content {
    Empty,
    Simple(u32, u32, u32),
    Particles(u32),
}

// The attribute rows of a type: the first, and how many.
#[derive(Clone, Copy)]
pub struct Span {
    pub first: u32,
    pub count: u32,
}

// An attribute, with the simple kind and the parameters of its type.
#[derive(Clone, Copy)]
pub struct Attribute {
    pub name: u32,
    pub must: bool,
    pub simple: u32,
    pub b: u32,
    pub c: u32,
}

// Types that stand in a table's words: the place of the first, whether each is the second word of a pair, and how many there are.
#[derive(Clone, Copy)]
pub struct TypeList {
    pub first: usize,
    pub paired: bool,
    pub count: u32,
}

// A particle row: name, type and the row's own number; first child and number of children; child, least and most.
#[derive(Clone, Copy)]
pub enum Particle {
    Element(u32, u32, u32),
    Sequence(u32, u32),
    Choice(u32, u32),
    Occurs(u32, u32, u32),
}
