// File names: `-`, names that are the same, and the name under which a result is written before it is whole.
#![tactic(auto)]

ghost use Rattle.std.specs.Prelude.{◌≡◌, true, ◌↔◌, ◌+◌, ◌≤◌, length, IfSome, SomeIff};
ghost use Rattle.io.specs.Counts.{IsPrefixLen};
ghost use Rattle.names.specs.Names.{is_dash, part_added};

// `-`
pub fn is_dash(path: &[u8]) -> bool
    ensures { result ≡ is_dash path.now }
{
    path == b"-".as_slice()
}

// Whether two names have the same bytes.
pub fn same_name(a: &[u8], b: &[u8]) -> bool
    ensures { (result ≡ true) ↔ (a.now ≡ b.now) }
{
    a == b
}

// `.part` behind the first n bytes of name; how many there are then.
pub fn add_part(name: &mut [u8], n: usize) -> Option<usize>
    ensures prefix_len { IfSome result (λ size. IsPrefixLen size name.new) }
    ensures name_after { name.new ≡ part_added name.old n }
    ensures size { SomeIff result (n + 5 ≤ length name.old) (n + 5) }
{
    let size = n.checked_add(5)?;
    if name.len() < size {
        return None;
    }
    name[n..size].copy_from_slice(b".part");
    Some(size)
}
