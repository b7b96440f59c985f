// Records by their numbers; 0xffff_ffff for none. (01: N2, N3. 02: (c).)
ghost use Rattle.std.specs.Prelude.{◌≡◌};
ghost use Rattle.node.specs.Child.{record_before, last_child, child_before, array_item, parent_at};
ghost use Rattle.node.specs.Search.{hash_value};
ghost use Rattle.quarto_yaml.specs.Fit.{AtMost};
ghost use Rattle.quarto_yaml.specs.None.{or_none, largest};

use records::record::ABSENT;

// The number, or none. No `From`: that a number fits 32 bits is known of these places, and `From` cannot ask for it.
fn or_none(place: Option<usize>) -> u32
    requires { AtMost largest place }
    ensures { result ≡ or_none place }
{
    match place {
        Some(n) => n as u32,
        None => ABSENT,
    }
}

#[unsafe(no_mangle)]
pub extern "C" fn quarto_yaml_root(records: &[u32], nodes: u32) -> u32
    ensures { result ≡ or_none (record_before records.now nodes) }
{
    or_none(node::child::record_before(records, nodes as usize))
}

#[unsafe(no_mangle)]
pub extern "C" fn quarto_yaml_last_child(records: &[u32], n: u32) -> u32
    ensures { result ≡ or_none (last_child records.now n) }
{
    or_none(node::child::last_child(records, n as usize))
}

#[unsafe(no_mangle)]
pub extern "C" fn quarto_yaml_child_before(records: &[u32], c: u32) -> u32
    ensures { result ≡ or_none (child_before records.now c) }
{
    or_none(node::child::child_before(records, c as usize))
}

#[unsafe(no_mangle)]
pub extern "C" fn quarto_yaml_get_array_item(records: &[u32], n: u32, i: u32) -> u32
    ensures { result ≡ or_none (array_item records.now n i) }
{
    or_none(node::child::get_array_item(records, n as usize, i as usize))
}

#[unsafe(no_mangle)]
pub extern "C" fn quarto_yaml_get_hash_value(
    records: &[u32],
    events: &[u8],
    n: u32,
    key: &[u8],
) -> u32
    ensures { result ≡ or_none (hash_value records.now events.now n key.now) }
{
    or_none(node::search::get_hash_value(records, events, n as usize, key))
}

// As the record says, which is none at the root. A record that was not built here may say any number.
#[unsafe(no_mangle)]
pub extern "C" fn quarto_yaml_parent(records: &[u32], n: u32) -> u32
    ensures { result ≡ or_none (parent_at records.now n) }
{
    node::child::parent(records, n as usize).unwrap_or(ABSENT)
}
