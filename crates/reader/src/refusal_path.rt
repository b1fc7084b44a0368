// What a walk through elements answers. The path of a refusal is told once, by the innermost open element: a success copies no path.
ghost use Rattle.std.specs.Prelude.{◌≡◌, ◌+◌, ◌≤◌, ◌<◌, Err};
ghost use Rattle.numbers.specs.Limit.{most_name, most_names};
ghost use Rattle.reader_parts.specs.Paths.{names_of};
ghost use Rattle.reader.specs.RefusalPath.{Named};
ghost use Rattle.reader.specs.declared.refusal_path.Halt.TheVariants.{Untold, Told};

use numbers::limit;
use numbers::refusal::Fault;
use reader_parts::Path;
use wire::Bits;

// Refused in the innermost open element; or inside one that has told its path, and how many names.
#[derive(Clone, Copy)]
pub enum Halt {
    Untold(Fault<Bits>),
    Told(Fault<Bits>, usize),
}

// A refusal inside the element of a name is told, with the path and the name.
pub fn tell(told: &mut [u16; limit::MOST_NAMES], path: Path, name: u32, fault: Fault<Bits>) -> Halt
    requires { (path.count < most_names) × (name ≤ most_name) }
    ensures { (Named name (names_of path) (Err (Untold fault)) told.old (Err result) told.new)
        × (result ≡ Told fault (path.count + 1)) }
{
    let names = path.names;
    *told = names;
    let count = path.count;
    told[count] = name as u16;
    Halt::Told(fault, count + 1)
}
