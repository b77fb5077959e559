//! Names of procedures.

ghost use Rattle.std.specs.Prelude.{◌≡◌, ◌↔◌, IsTrue};
ghost use Rattle.std.specs.List.{list_all};
ghost use Rattle.b3_ir.specs.Names.{IsName, begins_name, may_begin_name, may_stand_in_name};

fn may_begin_name(byte: u8) -> bool
    ensures { result ≡ may_begin_name byte }
{
    matches!(byte, b'A'..=b'Z' | b'a'..=b'z' | b'_')
}

fn may_stand_in_name(byte: u8) -> bool
    ensures { result ≡ may_stand_in_name byte }
{
    may_begin_name(byte) || matches!(byte, b'0'..=b'9' | b'.' | b'$')
}

fn begins_name(name: &[u8]) -> bool
    ensures { result ≡ begins_name name.now }
{
    match name {
        [] => false,
        [first, ..] => may_begin_name(*first),
    }
}

fn all_may_stand_in_name(name: &[u8]) -> bool
    ensures { result ≡ list_all may_stand_in_name name.now }
{
    name.iter().all(|b| may_stand_in_name(*b))
}

/// Whether bytes are a procedure's name: 1 to 255 of them, letters, digits and `_`, `.`, `$`, of which the
/// first is a letter or `_`. It takes no memory.
pub fn is_name(name: &[u8]) -> bool
    ensures { IsTrue result ↔ IsName name.now }
{
    name.len() <= 255 && begins_name(name) && all_may_stand_in_name(name)
}
