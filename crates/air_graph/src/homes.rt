//! The homes that are coloured, by numbers.

ghost use Rattle.std.specs.Prelude.{◌≡◌, ◌+◌, ◌^◌, ◌<◌, ◌≤◌};
ghost use Rattle.air_graph.specs.Homes.{home_at, number_of, place_of};
ghost use Rattle.air_graph.specs.Walk.{number_named};

use air_ir::Home;
use b3_ir::Reg;

/// The place of a register among the 25 that values may stand in, none for another one.
fn place_of(reg: u8) -> Option<usize>
    ensures { result ≡ place_of reg }
{
    if reg < 15 {
        Some(reg as usize)
    } else if reg < 19 {
        None
    } else if reg < 29 {
        Some(reg as usize - 4)
    } else {
        None
    }
}

/// The number of a home, where there are so many temporaries: temporaries have theirs, and after them come x0 to x14
/// and x19 to x28. Other homes have none. It takes no memory.
pub fn number_of(tmps: u32, home: Home) -> Option<usize>
    ensures { result ≡ number_of tmps home }
{
    match home {
        Home::Tmp(number) => {
            if number < tmps {
                Some(number as usize)
            } else {
                None
            }
        }
        Home::Reg(reg) => match place_of(reg.0) {
            Some(k) => Some(tmps as usize + k),
            None => None,
        },
        Home::Spill(_) => None,
    }
}

/// The home of a number. It takes no memory.
pub fn home_at(tmps: u32, n: usize) -> Home
    requires { n < tmps + 25 }
    ensures { result ≡ home_at tmps n }
{
    let first = tmps as usize;
    if n < first {
        Home::Tmp(n as u32)
    } else if n - first < 15 {
        Home::Reg(Reg((n - first) as u8))
    } else {
        Home::Reg(Reg((n - first + 4) as u8))
    }
}

/// The number of the home that has a name in the flow of the procedure.
pub(crate) fn number_named(tmps: u32, name: usize) -> Option<usize>
    ensures { result ≡ number_named tmps name }
{
    let first = tmps as usize;
    if name < first + 15 {
        Some(name)
    } else if name < first + 19 {
        None
    } else if name < first + 29 {
        Some(name - 4)
    } else {
        None
    }
}
